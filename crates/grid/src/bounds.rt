//! The bounds of a box on a grid: a number is widened outwards to whole steps.

ghost use Rattle.std.specs.Prelude.{◌≡◌, ◌≤◌, min};
ghost use Rattle.grid.specs.Bounds.{bound_at, bound_of, is_farther, kept_near, quotient_beside, steps_beside};
ghost use Rattle.grid.specs.Origins.{IsOrigin};
ghost use Rattle.grid.specs.Parts.{number_in};

use crate::coordinates::signed;
use crate::faults::NumberFault;
use crate::grids::{Axis, Grid, MOST_DECIMALS};
use crate::numbers::parts_of;
use crate::parts::{Digits, Parts};
use crate::steps::{Quotient, divided, multiplied, value_of};
use crate::values::CAP;
use plane::LIMIT;

/// Which bound of a box a number is.
#[derive(Clone, Copy, Debug, PartialEq, Eq)]
pub enum Side {
    /// The lower one: it is widened to the last step at or below it.
    Low,
    /// The upper one: it is widened to the first step at or above it.
    High,
}

/// The number of steps that a quotient is, capped; if one between two is, the farther from 0 or the
/// nearer.
fn quotient_beside(farther: bool, quotient: Quotient) -> u64
    requires { quotient.value ≤ CAP }
    ensures { result ≡ quotient_beside CAP farther quotient }
{
    if quotient.is_whole {
        return quotient.value;
    }
    if farther {
        (quotient.value + 1).min(CAP)
    } else {
        quotient.value
    }
}

/// How many steps a number is from 0, whatever its sign; capped.
#[tactic(auto, unfolding(crate::specs::Bounds::steps_beside))]
fn steps_beside(farther: bool, decimals: u8, parts: &Parts<'_>) -> u64
    requires { decimals ≤ MOST_DECIMALS }
    ensures value { result ≡ min (steps_beside farther decimals (number_in parts.now)) CAP }
    ensures capped { result ≤ CAP }
{
    let digits = Digits {
        first: parts.whole,
        second: parts.fraction,
    };
    let up = parts.up + decimals as usize;
    if up >= parts.down {
        return multiplied(value_of(&digits), up - parts.down);
    }
    quotient_beside(farther, divided(&digits, parts.down - up))
}

/// Whether a bound is farther from 0 than its number.
fn is_farther(side: Side, negative: bool) -> bool
    ensures { result ≡ is_farther side negative }
{
    match side {
        Side::Low => negative,
        Side::High => !negative,
    }
}

/// Steps from the origin as a bound: what is beyond the grid is the step behind its end.
fn kept_near(n: i64) -> i32
    ensures { result ≡ kept_near n }
{
    let end = LIMIT + 1;
    if n <= -(end as i64) {
        return -end;
    }
    if n >= end as i64 {
        return end;
    }
    n as i32
}

/// Capped steps from 0 as a bound.
fn bound_at(origin: i64, negative: bool, steps: u64) -> i32
    requires origin { IsOrigin origin }
    requires steps { steps ≤ CAP }
    ensures { result ≡ bound_at origin negative steps }
{
    kept_near(signed(negative, steps) - origin)
}

/// The bound of a box that a number's text means on an axis of a grid, widened outwards to a whole
/// coordinate: of the lower bound the last one at or below the number, of the upper one the first
/// at or above it. A number beyond the grid is the coordinate behind the grid's end, which is
/// `LIMIT + 1` or `-LIMIT - 1`. `NotANumber` if the text spells no number.
#[tactic(auto, using(crate::proofs::BoundLemmas::capped_bound))]
pub fn bound_of(grid: &Grid, axis: Axis, side: Side, text: &[u8]) -> Result<i32, NumberFault>
    ensures { result ≡ bound_of grid.now axis side text.now }
{
    let Some(parts) = parts_of(text) else {
        return Err(NumberFault::NotANumber);
    };
    let farther = is_farther(side, parts.negative);
    let steps = steps_beside(farther, grid.decimals, &parts);
    Ok(bound_at(grid.origin(axis), parts.negative, steps))
}
