//! Readers of a text's parts: each takes its part from the front of the text and returns the rest.

ghost use Rattle.std.specs.Prelude.{◌≡◌, ◌+◌, ◌<◌, ◌^◌, Ok, IfOk, length};
ghost use Rattle.wkt.specs.Tokens.{tokens};
ghost use Rattle.wkt.specs.Reading.{Gives, begins_with_mark as mark_first, is_the_mark as mark_test, number_of_token as token_number, keyword_at, opening_at, mark_at, closing_at, end_at, number_at, pair_at, more_at};

use crate::fault::WktFault;
use crate::keyword::{Kind, is_left_out_form, kind_of};
use crate::number::coordinate;
use crate::tokens::{Rest, first_token, is_mark};
use plane::Point;

/// Whether a token is this mark: a bracket or a comma.
fn is_the_mark(mark: u8, bytes: &[u8]) -> bool
    ensures { result ≡ mark_test mark bytes.now }
{
    match bytes {
        [byte] => *byte == mark,
        _ => false,
    }
}

/// Whether a token is a bracket or a comma, not a word.
fn begins_with_mark(bytes: &[u8]) -> bool
    ensures { result ≡ mark_first bytes.now }
{
    match bytes {
        [] => false,
        [first, ..] => is_mark(*first),
    }
}

/// Reads the keyword.
#[tactic(auto, unfolding(crate::specs::Reading::keyword_at))]
pub(crate) fn keyword(text: Rest<'_>) -> Result<(Kind, Rest<'_>), WktFault>
    ensures gives { Gives (λ r. (r.0, tokens r.1.at r.1.bytes.now)) result
        (keyword_at (text.entry.at + length text.entry.bytes.now)
        (tokens text.entry.at text.entry.bytes.now)) }
    ensures rest { IfOk result
        (λ r. r.1.at + length r.1.bytes.now ≡ text.entry.at + length text.entry.bytes.now) }
{
    let Some(token) = first_token(text) else {
        return Err(WktFault::Syntax(text.at + text.bytes.len()));
    };
    if begins_with_mark(token.bytes) {
        return Err(WktFault::Syntax(token.at));
    }
    let kind = kind_of(token.at, token.bytes)?;
    Ok((kind, token.rest))
}

/// Reads the opening bracket after a keyword. `LeftOut` for `EMPTY`, `Z`, `M` and `ZM`.
#[tactic(auto, unfolding(crate::specs::Reading::opening_at))]
pub(crate) fn opening(text: Rest<'_>) -> Result<Rest<'_>, WktFault>
    ensures gives { Gives (λ r. tokens r.at r.bytes.now) result
        (opening_at (text.entry.at + length text.entry.bytes.now)
        (tokens text.entry.at text.entry.bytes.now)) }
    ensures rest { IfOk result
        (λ r. r.at + length r.bytes.now ≡ text.entry.at + length text.entry.bytes.now) }
{
    let Some(token) = first_token(text) else {
        return Err(WktFault::Syntax(text.at + text.bytes.len()));
    };
    if is_the_mark(b'(', token.bytes) {
        return Ok(token.rest);
    }
    Err(if is_left_out_form(token.bytes) {
        WktFault::LeftOut(token.at)
    } else {
        WktFault::Syntax(token.at)
    })
}

/// Reads this bracket or comma.
#[tactic(auto, unfolding(crate::specs::Reading::mark_at))]
pub(crate) fn mark(mark: u8, text: Rest<'_>) -> Result<Rest<'_>, WktFault>
    ensures gives { Gives (λ r. tokens r.at r.bytes.now) result
        (mark_at mark (text.entry.at + length text.entry.bytes.now)
        (tokens text.entry.at text.entry.bytes.now)) }
    ensures rest { IfOk result
        (λ r. r.at + length r.bytes.now ≡ text.entry.at + length text.entry.bytes.now) }
{
    let Some(token) = first_token(text) else {
        return Err(WktFault::Syntax(text.at + text.bytes.len()));
    };
    if !is_the_mark(mark, token.bytes) {
        return Err(WktFault::Syntax(token.at));
    }
    Ok(token.rest)
}

/// Reads the closing bracket of a list of fixed length. `LeftOut` for a comma.
#[tactic(auto, unfolding(crate::specs::Reading::closing_at))]
pub(crate) fn closing(text: Rest<'_>) -> Result<Rest<'_>, WktFault>
    ensures gives { Gives (λ r. tokens r.at r.bytes.now) result
        (closing_at (text.entry.at + length text.entry.bytes.now)
        (tokens text.entry.at text.entry.bytes.now)) }
    ensures rest { IfOk result
        (λ r. r.at + length r.bytes.now ≡ text.entry.at + length text.entry.bytes.now) }
{
    let Some(token) = first_token(text) else {
        return Err(WktFault::Syntax(text.at + text.bytes.len()));
    };
    if is_the_mark(b')', token.bytes) {
        return Ok(token.rest);
    }
    Err(if is_the_mark(b',', token.bytes) {
        WktFault::LeftOut(token.at)
    } else {
        WktFault::Syntax(token.at)
    })
}

/// Checks that the text ends here.
pub(crate) fn end(text: Rest<'_>) -> Result<(), WktFault>
    ensures { Gives (λ u. u) result (end_at (tokens text.entry.at text.entry.bytes.now)) }
{
    match first_token(text) {
        None => Ok(()),
        Some(token) => Err(WktFault::Syntax(token.at)),
    }
}

/// The coordinate in a token.
#[tactic(auto, unfolding(crate::specs::Reading::number_of_token))]
fn number_of_token(at: usize, bytes: &[u8]) -> Result<i32, WktFault>
    ensures { result ≡ token_number (at, bytes.now) }
{
    if begins_with_mark(bytes) {
        return Err(WktFault::Syntax(at));
    }
    coordinate(at, bytes)
}

/// Reads a coordinate.
#[tactic(auto, unfolding(crate::specs::Reading::number_at))]
fn number(text: Rest<'_>) -> Result<(i32, Rest<'_>), WktFault>
    ensures gives { Gives (λ r. (r.0, tokens r.1.at r.1.bytes.now)) result
        (number_at (text.entry.at + length text.entry.bytes.now)
        (tokens text.entry.at text.entry.bytes.now)) }
    ensures rest { IfOk result
        (λ r. r.1.at + length r.1.bytes.now ≡ text.entry.at + length text.entry.bytes.now) }
    ensures shorter { IfOk result (λ r. length r.1.bytes.now < length text.entry.bytes.now) }
{
    let Some(token) = first_token(text) else {
        return Err(WktFault::Syntax(text.at + text.bytes.len()));
    };
    let n = number_of_token(token.at, token.bytes)?;
    Ok((n, token.rest))
}

/// Reads the two coordinates of a point.
#[tactic(auto, unfolding(crate::specs::Reading::pair_at))]
pub(crate) fn pair(text: Rest<'_>) -> Result<(Point, Rest<'_>), WktFault>
    ensures gives { Gives (λ r. (r.0, tokens r.1.at r.1.bytes.now)) result
        (pair_at (text.entry.at + length text.entry.bytes.now)
        (tokens text.entry.at text.entry.bytes.now)) }
    ensures rest { IfOk result
        (λ r. r.1.at + length r.1.bytes.now ≡ text.entry.at + length text.entry.bytes.now) }
    ensures shorter { IfOk result (λ r. length r.1.bytes.now < length text.entry.bytes.now) }
{
    let (x, text) = number(text)?;
    let (y, rest) = number(text)?;
    Ok((Point { x, y }, rest))
}

/// Reads what follows a pair of a ring: true for a comma, false for the closing bracket.
#[tactic(auto, unfolding(crate::specs::Reading::more_at, crate::specs::Reading::is_more))]
pub(crate) fn more(text: Rest<'_>) -> Result<(bool, Rest<'_>), WktFault>
    ensures gives { Gives (λ r. (r.0, tokens r.1.at r.1.bytes.now)) result
        (more_at (text.entry.at + length text.entry.bytes.now)
        (tokens text.entry.at text.entry.bytes.now)) }
    ensures rest { IfOk result
        (λ r. r.1.at + length r.1.bytes.now ≡ text.entry.at + length text.entry.bytes.now) }
    ensures shorter { IfOk result (λ r. length r.1.bytes.now < length text.entry.bytes.now) }
{
    let Some(token) = first_token(text) else {
        return Err(WktFault::Syntax(text.at + text.bytes.len()));
    };
    if is_the_mark(b',', token.bytes) {
        return Ok((true, token.rest));
    }
    if is_the_mark(b')', token.bytes) {
        return Ok((false, token.rest));
    }
    Err(WktFault::Syntax(token.at))
}
