//! The coordinate that a text means on a grid, and the grid of an origin.

ghost use Rattle.std.specs.Prelude.{◌≡◌, ◌≤◌, Ok, Some, IfErr, IfOk, option_map, min};
ghost use Rattle.grid.specs.Grids.{AreWholeNumbers, IsGridOf, as_origin, coordinate_of, grid_fault, on_grid, origin_of, origin_on, signed, text_steps};
ghost use Rattle.grid.specs.Capped.{IsCapped, capped_text_steps};
ghost use Rattle.grid.specs.Origins.{IsOrigin};

use crate::faults::{GridFault, NumberFault};
use crate::grids::{Axis, Between, Grid, MOST_DECIMALS, ORIGIN_LIMIT};
use crate::numbers::parts_of;
use crate::steps::steps_of;
use crate::values::CAP;
use plane::LIMIT;

/// A capped number with its sign.
pub(crate) fn signed(negative: bool, n: u64) -> i64
    requires { n ≤ CAP }
    ensures value { result ≡ signed negative n }
    ensures capped { IsCapped CAP result }
{
    if negative { -(n as i64) } else { n as i64 }
}

/// How many steps from 0 a text spells, capped.
#[tactic(auto, unfolding(crate::specs::Capped::capped_text_steps))]
fn text_steps(between: Between, decimals: u8, text: &[u8]) -> Result<i64, NumberFault>
    requires { decimals ≤ MOST_DECIMALS }
    ensures value { result ≡ capped_text_steps CAP between decimals text.now }
    ensures capped { IfOk result (IsCapped CAP) }
{
    let Some(parts) = parts_of(text) else {
        return Err(NumberFault::NotANumber);
    };
    match steps_of(between, decimals, &parts) {
        Some(n) => Ok(signed(parts.negative, n)),
        None => Err(NumberFault::Between),
    }
}

/// Steps from 0 as a coordinate.
fn on_grid(origin: i64, steps: i64) -> Result<i32, NumberFault>
    requires origin { IsOrigin origin }
    requires steps { IsCapped CAP steps }
    ensures { result ≡ on_grid origin (Ok steps) }
{
    let n = steps - origin;
    if -(LIMIT as i64) <= n && n <= LIMIT as i64 {
        Ok(n as i32)
    } else {
        Err(NumberFault::Beyond)
    }
}

/// The whole coordinate that a number's text means on an axis of a grid.
///
/// A number is an optional sign, digits with an optional point before, among or behind them, and an
/// optional exponent below 10,000, in at most 1,024 bytes; its exact value counts. `NotANumber` if
/// the text spells none; `Between` if the number is between two steps, unless the grid takes the
/// nearest; `Beyond` if it is farther from the origin than 10,000,000 steps.
#[tactic(auto, using(crate::proofs::CappedLemmas::text_on_grid))]
pub fn coordinate_of(grid: &Grid, axis: Axis, text: &[u8]) -> Result<i32, NumberFault>
    ensures { result ≡ coordinate_of grid.now axis text.now }
{
    match text_steps(grid.between, grid.decimals, text) {
        Ok(steps) => on_grid(grid.origin(axis), steps),
        Err(fault) => Err(fault),
    }
}

/// Steps from 0 as an origin.
fn as_origin(steps: i64) -> Result<i64, NumberFault>
    ensures value { result ≡ as_origin (Ok steps) }
    ensures origin { IfOk result IsOrigin }
{
    if -ORIGIN_LIMIT <= steps && steps <= ORIGIN_LIMIT {
        Ok(steps)
    } else {
        Err(NumberFault::Beyond)
    }
}

/// An origin, in steps.
#[tactic(auto, using(crate::proofs::CappedLemmas::text_as_origin))]
fn origin_of(decimals: u8, text: &[u8]) -> Result<i64, NumberFault>
    requires { decimals ≤ MOST_DECIMALS }
    ensures value { result ≡ as_origin (text_steps Between.Refuse decimals text.now) }
    ensures origin { IfOk result IsOrigin }
{
    match text_steps(Between::Refuse, decimals, text) {
        Ok(steps) => as_origin(steps),
        Err(fault) => Err(fault),
    }
}

/// An axis' origin, in steps; a fault of it is one of the grid.
fn origin_on(axis: Axis, decimals: u8, text: &[u8]) -> Result<i64, GridFault>
    requires { decimals ≤ MOST_DECIMALS }
    ensures value { result ≡ origin_of axis decimals text.now }
    ensures origin { IfOk result IsOrigin }
{
    match origin_of(decimals, text) {
        Ok(steps) => Ok(steps),
        Err(fault) => Err(GridFault::Origin(axis, fault)),
    }
}

impl Grid {
    /// The grid without decimals whose origin is 0: each whole coordinate means itself, and a number
    /// between two of them is refused.
    pub fn whole_numbers() -> Grid
        ensures { AreWholeNumbers result }
    {
        Grid {
            x: 0,
            y: 0,
            decimals: 0,
            between: Between::Refuse,
        }
    }

    /// The grid of an origin, given as two decimal texts, with this many decimals.
    ///
    /// The first fault in this order: more than 9 decimals; an origin, x before y, whose text spells
    /// no number, that is between two steps, or that is more than 10^18 steps from 0.
    pub fn new(x: &[u8], y: &[u8], decimals: u8, between: Between) -> Result<Grid, GridFault>
        ensures ok { IfOk result (λ grid. IsGridOf x.now y.now decimals between grid) }
        ensures err { IfErr result (λ fault. grid_fault x.now y.now decimals ≡ Some fault) }
    {
        if decimals > MOST_DECIMALS {
            return Err(GridFault::TooManyDecimals);
        }
        let x = origin_on(Axis::X, decimals, x)?;
        let y = origin_on(Axis::Y, decimals, y)?;
        Ok(Grid {
            x,
            y,
            decimals,
            between,
        })
    }

    /// The origin on an axis, in steps.
    pub(crate) fn origin(&self, axis: Axis) -> i64
        ensures value { result ≡ origin_on axis self.now }
        ensures origin { IsOrigin result }
    {
        match axis {
            Axis::X => self.x,
            Axis::Y => self.y,
        }
    }
}
