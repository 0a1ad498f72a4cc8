//! The extent of a grid.

ghost use Rattle.std.specs.Prelude.{◌≡◌, ◌++◌, OnOk, codes};
ghost use Rattle.map_pages.specs.Extents.{extent_head, extent_text};

use grid::{Axis, Grid, NumberText, reach};
use map_answers::put;
use memory::NoMemory;
use std::alloc::Allocator;

#[tactic(auto, unfolding(crate::specs::Extents::extent_head))]
fn put_extent_head<A: Allocator>(text: &mut Vec<u8, A>) -> Result<(), NoMemory>
    ensures { OnOk result (text.new.items ≡ text.old.items ++ extent_head) }
{
    put(text, b"{\"spatial\":{\"bbox\":[[")
}

/// Appends a corner of a grid, of these coordinates.
fn put_corner<A: Allocator>(
    text: &mut Vec<u8, A>,
    x: &NumberText,
    y: &NumberText,
) -> Result<(), NoMemory>
    ensures { OnOk result
        (text.new.items ≡ text.old.items ++ (x.now.bytes ++ codes "," ++ y.now.bytes)) }
{
    put(text, x.as_str().as_bytes())?;
    put(text, b",")?;
    put(text, y.as_str().as_bytes())
}

/// Appends the extent of a grid: west, south, east and north of all that it has.
pub(crate) fn put_extent<A: Allocator>(text: &mut Vec<u8, A>, grid: &Grid) -> Result<(), NoMemory>
    ensures { OnOk result (text.new.items ≡ text.old.items ++ extent_text grid.now) }
{
    let (west, east) = reach(grid, Axis::X);
    let (south, north) = reach(grid, Axis::Y);
    put_extent_head(text)?;
    put_corner(text, &west, &south)?;
    put(text, b",")?;
    put_corner(text, &east, &north)?;
    put(text, b"]]}}")
}
