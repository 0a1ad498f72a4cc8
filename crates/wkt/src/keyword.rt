//! The words of the language, in any ASCII letter case.

ghost use Rattle.std.specs.Prelude.{◌≡◌};
ghost use Rattle.wkt.specs.Reading.{is_word as word_test, is_left_out_kind as left_out_kind_test, is_left_out_form as left_out_form_test, kind_of as kind_at};

use crate::fault::WktFault;

/// The kind of shape that a keyword announces.
#[derive(Clone, Copy)]
pub(crate) enum Kind {
    Point,
    LineString,
    Polygon,
}

/// Whether `bytes` are this word, in any letter case.
fn is_word(word: &[u8], bytes: &[u8]) -> bool
    ensures { result ≡ word_test word.now bytes.now }
{
    bytes.eq_ignore_ascii_case(word)
}

/// Whether this word announces a kind of geometry that is not supported.
fn is_left_out_kind(word: &[u8]) -> bool
    ensures { result ≡ left_out_kind_test word.now }
{
    is_word(b"MULTIPOINT", word)
        || is_word(b"MULTILINESTRING", word)
        || is_word(b"MULTIPOLYGON", word)
        || is_word(b"GEOMETRYCOLLECTION", word)
}

/// The kind that the first word, at `at`, announces.
#[tactic(auto, unfolding(crate::specs::Reading::kind_of))]
pub(crate) fn kind_of(at: usize, word: &[u8]) -> Result<Kind, WktFault>
    ensures { result ≡ kind_at (at, word.now) }
{
    if is_word(b"POINT", word) {
        return Ok(Kind::Point);
    }
    if is_word(b"LINESTRING", word) {
        return Ok(Kind::LineString);
    }
    if is_word(b"POLYGON", word) {
        return Ok(Kind::Polygon);
    }
    Err(if is_left_out_kind(word) {
        WktFault::LeftOut(at)
    } else {
        WktFault::UnknownWord(at)
    })
}

/// Whether the standard allows this word after a keyword, where it is not supported.
pub(crate) fn is_left_out_form(word: &[u8]) -> bool
    ensures { result ≡ left_out_form_test word.now }
{
    is_word(b"EMPTY", word) || is_word(b"Z", word) || is_word(b"M", word) || is_word(b"ZM", word)
}
