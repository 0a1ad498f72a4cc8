//! The texts of coordinates.

ghost use Rattle.std.specs.Prelude.{◌≡◌, ◌+◌, ◌^◌, ◌≤◌, ◌<◌, ◌++◌, pos, ◌+ℤ◌, ◌-ℤ◌, decimal, length};
ghost use Rattle.arrayvec.specs.ArrayString.{array_string_len};
ghost use Rattle.plane.specs.Coordinates.{IsCoordinate};
ghost use Rattle.grid.specs.Capped.{IsCapped};
ghost use Rattle.grid.specs.Printing.{coordinate_text, fraction_text, last_digits, signed_text, steps_text};

use crate::grids::{Axis, Grid, MOST_DECIMALS};
use crate::values::CAP;
use arrayvec::ArrayString;
use itoa::Buffer;
use plane::LIMIT;

/// The text of a number. The longest has 31 bytes.
pub type NumberText = ArrayString<32>;

/// 10^places.
#[tactic(auto, using(crate::proofs::StepsLemmas::tens_some))]
fn power(places: u8) -> u64
    requires { places ≤ MOST_DECIMALS }
    ensures value { result ≡ 10 ^ places }
    ensures some { 1 ≤ result }
{
    10u64.pow(places as u32)
}

/// Appends a number, which has at most 20 digits.
fn push_number(text: &mut NumberText, n: u64)
    requires room { array_string_len text.old + 20 ≤ 32 }
    ensures bytes { text.new.bytes ≡ text.old.bytes ++ decimal n }
    ensures room { array_string_len text.new ≤ array_string_len text.old + 20 }
{
    let mut buffer = Buffer::new();
    text.push_str(buffer.format(n));
}

/// Appends one digit.
#[tactic(auto, using(crate::proofs::PrintingLemmas::length_digit))]
fn push_digit(text: &mut NumberText, digit: u64)
    requires room { array_string_len text.old < 32 }
    requires digit { digit < 10 }
    ensures bytes { text.new.bytes ≡ text.old.bytes ++ decimal digit }
    ensures room { array_string_len text.new ≡ array_string_len text.old + 1 }
{
    let mut buffer = Buffer::new();
    text.push_str(buffer.format(digit));
}

/// Appends the last so many digits of a number, with zeros in front.
#[tactic(auto, using(crate::proofs::PrintingLemmas::digit_fits), unfolding(crate::specs::Printing::last_digits))]
fn push_last_digits(text: &mut NumberText, places: u8, n: u64)
    requires places { places ≤ MOST_DECIMALS }
    requires room { array_string_len text.old + places ≤ 32 }
    requires fits { n < 10 ^ places }
    ensures bytes { text.new.bytes ≡ text.old.bytes ++ last_digits places n }
    ensures room { array_string_len text.new ≡ array_string_len text.old + places }
{
    if places == 0 {
        return;
    }
    let unit = power(places - 1);
    push_digit(text, n / unit);
    push_last_digits(text, places - 1, n % unit);
}

/// Appends the digits behind the point, and the point.
fn push_fraction(text: &mut NumberText, decimals: u8, n: u64)
    requires decimals { decimals ≤ MOST_DECIMALS }
    requires room { array_string_len text.old + 10 ≤ 32 }
    requires fits { n < 10 ^ decimals }
    ensures { text.new.bytes ≡ text.old.bytes ++ fraction_text decimals n }
{
    if decimals > 0 {
        text.push_str(".");
        push_last_digits(text, decimals, n);
    }
}

/// Appends this many steps as a number.
fn push_steps(text: &mut NumberText, decimals: u8, n: u64)
    requires decimals { decimals ≤ MOST_DECIMALS }
    requires room { array_string_len text.old ≤ 1 }
    ensures { text.new.bytes ≡ text.old.bytes ++ steps_text decimals n }
{
    let unit = power(decimals);
    push_number(text, n / unit);
    push_fraction(text, decimals, n % unit);
}

/// The text of this many steps from 0.
fn signed_text(decimals: u8, steps: i64) -> NumberText
    requires { decimals ≤ MOST_DECIMALS }
    ensures { result.bytes ≡ signed_text decimals steps }
{
    let mut text = ArrayString::new();
    if steps < 0 {
        text.push_str("-");
    }
    push_steps(&mut text, decimals, steps.unsigned_abs());
    text
}

/// The text of a coordinate on an axis of a grid: a sign if it is below 0, and as many digits behind
/// the point as the grid has decimals; without decimals, no point. It is read as that coordinate.
pub fn coordinate_text(grid: &Grid, axis: Axis, n: i32) -> NumberText
    requires { IsCoordinate n }
    ensures { result.bytes ≡ coordinate_text grid.now axis n }
{
    signed_text(grid.decimals, grid.origin(axis) + n as i64)
}

/// The text of a step of a grid: `0.0000001` at 7 decimals, `1` at none.
pub fn step_text(grid: &Grid) -> NumberText
    ensures { result.bytes ≡ steps_text grid.now.decimals 1 }
{
    signed_text(grid.decimals, 1)
}

/// The texts of the least and the greatest coordinate on an axis of a grid.
pub fn reach(grid: &Grid, axis: Axis) -> (NumberText, NumberText)
    ensures least { result.0.bytes ≡ coordinate_text grid.now axis (pos 0 -ℤ LIMIT) }
    ensures greatest { result.1.bytes ≡ coordinate_text grid.now axis LIMIT }
{
    (
        coordinate_text(grid, axis, -LIMIT),
        coordinate_text(grid, axis, LIMIT),
    )
}
