//! The version that a request means to change (RFC 9110, 13.1.1).

ghost use Rattle.std.specs.Prelude.{◌≡◌, option_map};
ghost use Rattle.map_changes.specs.Tags.{plain_number, tagged, unquoted, version_in};

use crate::faults::ChangeFault;
use line_words::read_number;

/// The text between the quotation marks of a strong entity tag.
fn unquoted(tag: &[u8]) -> Option<&[u8]>
    ensures { option_map (λ text. text.now) result ≡ unquoted tag.now }
{
    if tag.len() >= 2 && tag.starts_with(b"\"") && tag.ends_with(b"\"") {
        Some(&tag[1..tag.len() - 1])
    } else {
        None
    }
}

/// The number that a text is, without a zero in front.
fn plain_number(text: &[u8]) -> Option<u64>
    ensures { result ≡ plain_number text.now }
{
    if text.starts_with(b"0") {
        None
    } else {
        read_number(text)
    }
}

/// The version whose entity tag this is.
fn tagged(tag: &[u8]) -> Option<u64>
    ensures { result ≡ tagged tag.now }
{
    plain_number(unquoted(tag)?)
}

/// The version that a field `if-match` names.
#[tactic(auto, unfolding(crate::specs::Tags::version_in))]
pub(crate) fn version_in(field: &[u8]) -> Result<u64, ChangeFault>
    ensures { result ≡ version_in field.now }
{
    if field.is_empty() || field == b"*".as_slice() {
        return Err(ChangeFault::NoVersion);
    }
    match tagged(field) {
        Some(version) => Ok(version),
        None => Err(ChangeFault::WrongTag),
    }
}
