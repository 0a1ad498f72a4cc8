//! The box that a `bbox` spells.

ghost use Rattle.std.specs.Prelude.{◌≡◌, count_by, ◌==◌};
ghost use Rattle.map_asks.specs.Boxes.{bound, bounds_of, bounds_of_six, box_of_four, box_of_six, is_number, window_spelled};

use crate::cuts::cut_out;
use crate::windows::{Bounds, Window, window_of};
use grid::{Axis, Grid, Side, bound_of};

/// A bound, if the text spells a number.
fn bound(grid: &Grid, axis: Axis, side: Side, text: &[u8]) -> Option<i32>
    ensures { result ≡ bound grid.now axis side text.now }
{
    bound_of(grid, axis, side, text).ok()
}

/// The bounds that four numbers are.
fn bounds_of(grid: &Grid, west: &[u8], south: &[u8], east: &[u8], north: &[u8]) -> Option<Bounds>
    ensures { result ≡ bounds_of grid.now west.now south.now east.now north.now }
{
    let west = bound(grid, Axis::X, Side::Low, west)?;
    let south = bound(grid, Axis::Y, Side::Low, south)?;
    let east = bound(grid, Axis::X, Side::High, east)?;
    let north = bound(grid, Axis::Y, Side::High, north)?;
    Some(Bounds {
        west,
        south,
        east,
        north,
    })
}

/// The bounds of four numbers with commas between them.
fn box_of_four(grid: &Grid, text: &[u8]) -> Option<Bounds>
    ensures { result ≡ box_of_four grid.now text.now }
{
    let (west, text) = cut_out(b',', text);
    let (south, text) = cut_out(b',', text);
    let (east, north) = cut_out(b',', text);
    bounds_of(grid, west, south, east, north)
}

/// Whether a text spells a number.
fn is_number(grid: &Grid, text: &[u8]) -> bool
    ensures { result ≡ is_number grid.now text.now }
{
    bound(grid, Axis::X, Side::Low, text).is_some()
}

/// The bounds that six numbers are, of which two are heights.
#[tactic(auto, unfolding(crate::specs::Boxes::bounds_of_six))]
fn bounds_of_six(
    grid: &Grid,
    least: (&[u8], &[u8]),
    greatest: (&[u8], &[u8]),
    lowest: &[u8],
    highest: &[u8],
) -> Option<Bounds>
    ensures { result ≡ bounds_of_six grid.now least.entry.0.now least.entry.1.now greatest.entry.0.now
        greatest.entry.1.now lowest.now highest.now }
{
    if !is_number(grid, lowest) {
        return None;
    }
    if !is_number(grid, highest) {
        return None;
    }
    bounds_of(grid, least.0, least.1, greatest.0, greatest.1)
}

/// The bounds of six numbers, of which the third and the sixth are heights.
fn box_of_six(grid: &Grid, text: &[u8]) -> Option<Bounds>
    ensures { result ≡ box_of_six grid.now text.now }
{
    let (west, text) = cut_out(b',', text);
    let (south, text) = cut_out(b',', text);
    let (lowest, text) = cut_out(b',', text);
    let (east, text) = cut_out(b',', text);
    let (north, highest) = cut_out(b',', text);
    bounds_of_six(grid, (west, south), (east, north), lowest, highest)
}

/// How many commas there are.
fn commas(text: &[u8]) -> usize
    ensures { result ≡ count_by (λ b. b == 44) text.now }
{
    text.iter().filter(|byte| **byte == b',').count()
}

/// The window of the box that a text spells: four numbers with commas between them, west, south,
/// east and north; or six, with a height behind each corner, which counts for nothing.
#[tactic(auto, unfolding(crate::specs::Boxes::window_spelled))]
pub(crate) fn window_spelled(grid: &Grid, text: &[u8]) -> Option<Window>
    ensures { result ≡ window_spelled grid.now text.now }
{
    let bounds = match commas(text) {
        3 => box_of_four(grid, text)?,
        5 => box_of_six(grid, text)?,
        _ => return None,
    };
    window_of(bounds)
}
