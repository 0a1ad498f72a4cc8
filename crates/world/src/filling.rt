//! Features of a base, placed in an index in which no search runs.

ghost use Rattle.std.specs.Prelude.{◌≡◌, ℕ, ◌≤◌, OnOk, length};
ghost use Rattle.plain_world.specs.States.{WorldData};
ghost use Rattle.world.specs.Filling.{GetsPair, GetsRows};

use crate::faults::fault_of;
use features::Feature;
use frame_keys::Frames;
use plain_world::{Fault, STEP_LIMIT};
use search_tree::{Tree, TreeFault};
use std::alloc::Allocator;

/// Places a feature. S4 to S6 where the index has no room for it, X12 where an allocation is
/// refused.
fn place_row<A: Allocator + Copy>(index: &mut Tree<Frames, A>, row: &Feature) -> Result<(), Fault>
    ensures { OnOk result (GetsPair index.old index.new (row.now.id, row.now.shape)) }
{
    let mut walk = index.start_walk(row.id, row.shape);
    'steps: for _ in 0..STEP_LIMIT {
        match index.advance(&mut walk) {
            Ok(_) => {
                if walk.placed() {
                    return Ok(());
                }
            }
            Err(fault) => return Err(fault_of(fault)),
        }
    }
    Err(Fault::Tree(TreeFault::Overrun))
}

/// Places each of these features.
pub(crate) fn fill<A: Allocator + Copy>(
    index: &mut Tree<Frames, A>,
    rows: &[Feature],
) -> Result<(), Fault>
    ensures { OnOk result (GetsRows index.old index.new rows.now) }
{
    for row in rows {
        place_row(index, row)?;
    }
    Ok(())
}
