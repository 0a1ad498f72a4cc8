//! How many steps of a grid a number is from 0.

ghost use Rattle.std.specs.Prelude.{◌≡◌, ◌+◌, ◌-◌, ◌*◌, ◌^◌, ◌==◌, ◌≤◌, true, min, length, take, drop, option_map};
ghost use Rattle.std.specs.List.{list_all};
ghost use Rattle.std.specs.Str.{all_ascii_digits};
ghost use Rattle.std.specs.Str.Parse.{digits_value};
ghost use Rattle.grid.specs.Digits.{Divides, begins_with_five, quotient_steps, shown};
ghost use Rattle.grid.specs.Parts.{number_in};
ghost use Rattle.grid.specs.Steps.{steps_of};

use crate::grids::{Between, MOST_DECIMALS};
use crate::parts::{Digits, Parts};
use crate::values::{CAP, capped_value, value_after};

/// What is left of a number of digits when it is divided by a power of ten.
#[derive(Clone, Copy)]
pub(crate) struct Quotient {
    /// The quotient, capped.
    pub value: u64,
    /// Whether nothing remains.
    pub is_whole: bool,
    /// Whether at least half of the divisor remains.
    pub is_half: bool,
}

/// The value of digits, capped.
#[tactic(auto, using(crate::proofs::DigitsLemmas::capped_append))]
pub(crate) fn value_of(digits: &Digits<'_>) -> u64
    ensures value { result ≡ min (digits_value 10 (shown digits.now)) CAP }
    ensures capped { result ≤ CAP }
{
    let front = capped_value(CAP, digits.first);
    value_after(CAP, front, digits.second)
}

/// Whether all bytes are the digit zero.
fn are_zeros(bytes: &[u8]) -> bool
    ensures { result ≡ list_all (λ z. z == 48) bytes.now }
{
    bytes.iter().all(|b| *b == b'0')
}

/// Whether the value of digits is 0.
fn is_zero(digits: &Digits<'_>) -> bool
    ensures { result ≡ (digits_value 10 (shown digits.now) == 0) }
{
    are_zeros(digits.first) && are_zeros(digits.second)
}

/// Whether the first digit is 5 or more.
fn begins_with_five(digits: &Digits<'_>) -> bool
    ensures { result ≡ begins_with_five (shown digits.now) }
{
    match digits.first {
        [first, ..] => *first >= b'5',
        [] => match digits.second {
            [first, ..] => *first >= b'5',
            [] => false,
        },
    }
}

/// The first `count` digits, and the others.
#[tactic(auto, using(crate::proofs::StepsLemmas::digits_take, crate::proofs::StepsLemmas::digits_drop))]
fn split_digits(digits: &[u8], count: usize) -> (&[u8], &[u8])
    requires count { count ≤ length digits.now }
    requires digits { all_ascii_digits digits.now ≡ true }
    ensures front { result.0.now ≡ take count digits.now }
    ensures back { result.1.now ≡ drop count digits.now }
    ensures front_digits { all_ascii_digits result.0.now ≡ true }
    ensures back_digits { all_ascii_digits result.1.now ≡ true }
{
    digits.split_at(count)
}

/// The first `count` digits, and the others.
#[tactic(auto, using(crate::proofs::StepsLemmas::take_past, crate::proofs::StepsLemmas::drop_past))]
fn split<'a>(digits: &Digits<'a>, count: usize) -> (Digits<'a>, Digits<'a>)
    requires { count ≤ length digits.now.first.now + length digits.now.second.now }
    ensures front { shown result.0 ≡ take count (shown digits.now) }
    ensures back { shown result.1 ≡ drop count (shown digits.now) }
{
    let before = digits.first.len();
    if count <= before {
        let (front, back) = split_digits(digits.first, count);
        let (none, second) = split_digits(digits.second, 0);
        (
            Digits {
                first: front,
                second: none,
            },
            Digits {
                first: back,
                second,
            },
        )
    } else {
        let (front, back) = split_digits(digits.second, count - before);
        let (first, none) = split_digits(digits.first, before);
        (
            Digits {
                first,
                second: front,
            },
            Digits {
                first: none,
                second: back,
            },
        )
    }
}

/// The value of digits divided by 10^count.
pub(crate) fn divided(digits: &Digits<'_>, count: usize) -> Quotient
    requires { length digits.now.first.now + length digits.now.second.now ≤ 1024 }
    ensures { Divides CAP (digits_value 10 (shown digits.now)) count result }
{
    let len = digits.first.len() + digits.second.len();
    if count > len {
        return Quotient {
            value: 0,
            is_whole: is_zero(digits),
            is_half: false,
        };
    }
    let (front, back) = split(digits, len - count);
    Quotient {
        value: value_of(&front),
        is_whole: is_zero(&back),
        is_half: begins_with_five(&back),
    }
}

/// A capped value times 10^count, capped.
pub(crate) fn multiplied(value: u64, count: usize) -> u64
    requires { value ≤ CAP }
    ensures { result ≡ min (value * 10 ^ count) CAP }
{
    let mut product = value;
    for _ in 0..count {
        product = (product * 10).min(CAP);
    }
    product
}

/// The number of steps that a quotient is, capped.
fn quotient_steps(between: Between, quotient: Quotient) -> Option<u64>
    requires { quotient.value ≤ CAP }
    ensures { result ≡ quotient_steps CAP between quotient }
{
    if quotient.is_whole {
        return Some(quotient.value);
    }
    match between {
        Between::Refuse => None,
        Between::Nearest => {
            if quotient.is_half {
                Some((quotient.value + 1).min(CAP))
            } else {
                Some(quotient.value)
            }
        }
    }
}

/// How many steps a number is from 0, whatever its sign; capped.
#[tactic(auto, unfolding(crate::specs::Steps::steps_of))]
pub(crate) fn steps_of(between: Between, decimals: u8, parts: &Parts<'_>) -> Option<u64>
    requires { decimals ≤ MOST_DECIMALS }
    ensures { result
        ≡ option_map (λ n. min n CAP) (steps_of between decimals (number_in parts.now)) }
{
    let digits = Digits {
        first: parts.whole,
        second: parts.fraction,
    };
    let up = parts.up + decimals as usize;
    if up >= parts.down {
        return Some(multiplied(value_of(&digits), up - parts.down));
    }
    quotient_steps(between, divided(&digits, parts.down - up))
}
