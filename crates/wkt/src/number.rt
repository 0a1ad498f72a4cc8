//! Numbers: an optional sign, digits, and an optional fraction of zeros.

ghost use Rattle.std.specs.Prelude.{◌≡◌, ◌≤◌, ◌==◌, true, min, length, option_map};
ghost use Rattle.std.specs.Char.{is_ascii_digit as digit_test};
ghost use Rattle.std.specs.List.{list_all, prefix_len};
ghost use Rattle.std.specs.Str.{all_ascii_digits};
ghost use Rattle.wkt.specs.Numbers.{sign_of, is_zero_fraction as zero_fraction_test, capped_value as capped_digits, magnitude_of, coordinate_of};

use crate::fault::WktFault;
use plane::LIMIT;

/// Larger than every coordinate. Larger numbers are capped at it.
const TOO_LARGE: u32 = LIMIT as u32 + 1;

/// Whether the number has a minus sign, and what follows its sign.
fn unsigned_part(word: &[u8]) -> (bool, &[u8])
    ensures { (result.0, result.1.now) ≡ sign_of word.now }
{
    match word {
        [b'-', rest @ ..] => (true, rest),
        [b'+', rest @ ..] => (false, rest),
        _ => (false, word),
    }
}

/// Whether all bytes are the digit zero.
fn are_zeros(bytes: &[u8]) -> bool
    ensures { result ≡ list_all (λ z. z == 48) bytes.now }
{
    bytes.iter().all(|b| *b == b'0')
}

/// Whether the bytes are empty, or a period and zeros.
fn is_zero_fraction(bytes: &[u8]) -> bool
    ensures { result ≡ zero_fraction_test bytes.now }
{
    match bytes {
        [] => true,
        [b'.', zeros @ ..] => are_zeros(zeros),
        _ => false,
    }
}

/// The value of the digits, capped at `TOO_LARGE`.
fn capped_value(digits: &[u8]) -> u32
    requires { all_ascii_digits digits.now ≡ true }
    ensures { result ≡ capped_digits TOO_LARGE digits.now }
{
    let mut value = 0u32;
    for digit in digits {
        value = (value * 10 + (*digit - b'0') as u32).min(TOO_LARGE);
    }
    value
}

/// How many digits the word begins with.
#[tactic(auto, using(crate::proofs::DigitsLemmas::prefix_fits))]
fn digits_len(word: &[u8]) -> usize
    ensures value { result ≡ prefix_len digit_test word.now }
    ensures fits { result ≤ length word.now }
{
    word.iter().take_while(|b| b.is_ascii_digit()).count()
}

/// The number without its sign, capped at `TOO_LARGE`; `None` if the word is not a number.
#[tactic(auto, using(crate::proofs::NumbersLemmas::digits_of_word))]
fn magnitude(word: &[u8]) -> Option<u32>
    ensures { result ≡ option_map (λ n. min n TOO_LARGE) (magnitude_of word.now) }
{
    let len = digits_len(word);
    let (digits, fraction) = word.split_at(len);
    if len == 0 {
        return None;
    }
    if is_zero_fraction(fraction) {
        Some(capped_value(digits))
    } else {
        None
    }
}

/// The coordinate that the word spells; `at` is the place for its fault.
#[tactic(auto, unfolding(crate::specs::Numbers::coordinate_of))]
pub(crate) fn coordinate(at: usize, word: &[u8]) -> Result<i32, WktFault>
    ensures { result ≡ coordinate_of at word.now }
{
    let (negative, rest) = unsigned_part(word);
    let Some(n) = magnitude(rest) else {
        return Err(WktFault::Number(at));
    };
    if n == TOO_LARGE {
        return Err(WktFault::OutOfRange(at));
    }
    Ok(if negative { -(n as i32) } else { n as i32 })
}
