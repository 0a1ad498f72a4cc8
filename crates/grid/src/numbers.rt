//! Takes a number's text apart.

ghost use Rattle.std.specs.Prelude.{◌≡◌, ◌+◌, ◌≤◌, ◌<◌, true, IfSome, length, option_map};
ghost use Rattle.std.specs.Char.{is_ascii_digit as digit_test};
ghost use Rattle.std.specs.List.{list_all, prefix_len};
ghost use Rattle.std.specs.Str.{all_ascii_digits};
ghost use Rattle.grid.specs.Numbers.{sign_of, digits_of, fraction_of, exponent_value, exponent_of, number_behind, unsigned_number, number_of};
ghost use Rattle.grid.specs.Parts.{number_in};

use crate::parts::{EXPONENT_LIMIT, Exponent, NUMBER_LIMIT, Parts};
use crate::values::capped_value;

/// Whether there is a minus sign, and what follows the sign.
fn sign_of(text: &[u8]) -> (bool, &[u8])
    ensures { (result.0, result.1.now) ≡ sign_of text.now }
{
    match text {
        [b'-', rest @ ..] => (true, rest),
        [b'+', rest @ ..] => (false, rest),
        _ => (false, text),
    }
}

/// How many digits a text begins with.
#[tactic(auto, using(crate::proofs::DigitsLemmas::prefix_fits))]
fn digits_len(text: &[u8]) -> usize
    ensures value { result ≡ prefix_len digit_test text.now }
    ensures fits { result ≤ length text.now }
{
    text.iter().take_while(|b| b.is_ascii_digit()).count()
}

/// The digits at the front of a text, and what follows them.
#[tactic(auto, using(crate::proofs::DigitsLemmas::front_digits))]
fn digits_of(text: &[u8]) -> (&[u8], &[u8])
    ensures value { (result.0.now, result.1.now) ≡ digits_of text.now }
    ensures digits { all_ascii_digits result.0.now ≡ true }
    ensures fits { length result.0.now + length result.1.now ≡ length text.now }
{
    text.split_at(digits_len(text))
}

/// The digits behind a point, and what follows them.
fn fraction_of(text: &[u8]) -> (&[u8], &[u8])
    ensures value { (result.0.now, result.1.now) ≡ fraction_of text.now }
    ensures digits { all_ascii_digits result.0.now ≡ true }
    ensures fits { length result.0.now + length result.1.now ≤ length text.now }
{
    match text {
        [b'.', behind @ ..] => digits_of(behind),
        _ => text.split_at(0),
    }
}

/// Whether all bytes are digits.
fn are_digits(text: &[u8]) -> bool
    ensures { result ≡ list_all digit_test text.now }
{
    text.iter().all(|b| b.is_ascii_digit())
}

/// The value of an exponent's digits, if it is below the limit.
#[tactic(auto, using(crate::proofs::DigitsLemmas::all_digits))]
fn exponent_value(digits: &[u8]) -> Option<u32>
    ensures value { result ≡ exponent_value digits.now }
    ensures below { IfSome result (λ n. n < EXPONENT_LIMIT) }
{
    if digits.is_empty() {
        return None;
    }
    if !are_digits(digits) {
        return None;
    }
    let value = capped_value(EXPONENT_LIMIT as u64, digits);
    if value < EXPONENT_LIMIT as u64 {
        Some(value as u32)
    } else {
        None
    }
}

/// The exponent that a text is, after the digits of a number; no text is the exponent 0.
fn exponent_of(text: &[u8]) -> Option<Exponent>
    ensures { option_map (λ e. (e.negative, e.value)) result ≡ exponent_of text.now }
{
    match text {
        [] => Some(Exponent {
            negative: false,
            value: 0,
        }),
        [b'e' | b'E', rest @ ..] => {
            let (negative, digits) = sign_of(rest);
            let value = exponent_value(digits)?;
            Some(Exponent { negative, value })
        }
        _ => None,
    }
}

/// The parts of a number, from its sign and what follows the sign.
fn unsigned_number(negative: bool, text: &[u8]) -> Option<Parts<'_>>
    requires { length text.now ≤ NUMBER_LIMIT }
    ensures { option_map number_in result ≡ unsigned_number negative (digits_of text.now) }
{
    let (whole, behind) = digits_of(text);
    let (fraction, rest) = fraction_of(behind);
    if whole.len() + fraction.len() == 0 {
        return None;
    }
    let exponent = exponent_of(rest)?;
    let value = exponent.value as usize;
    let (up, down) = if exponent.negative {
        (0, value)
    } else {
        (value, 0)
    };
    Some(Parts {
        negative,
        whole,
        fraction,
        up,
        down: fraction.len() + down,
    })
}

/// The parts of the number that a text spells, if it spells one.
#[tactic(auto, unfolding(crate::specs::Numbers::number_of))]
pub(crate) fn parts_of(text: &[u8]) -> Option<Parts<'_>>
    ensures { option_map number_in result ≡ number_of text.now }
{
    if text.len() > NUMBER_LIMIT {
        return None;
    }
    let (negative, rest) = sign_of(text);
    unsigned_number(negative, rest)
}
