//! Whole searches and commits over a world, and the calls of POLICY and ROLL. A search or a commit
//! that fails is dropped or aborted, so nothing of it stays open.

ghost use Rattle.std.specs.Prelude.{◌≡◌, ◌≤◌, [], Ok, IfErr, length};
ghost use Rattle.std.specs.Arc.{arc_value};
ghost use Rattle.judging.specs.Judging.{AreDistinct};
ghost use Rattle.plain_world.specs.Events.{Ended, Govern, Happens, Number, Roll, Rows, TakenOut, reply_of};
ghost use Rattle.plain_world.specs.declared.settings.TheConstants.{CHANGE_LIMIT};
ghost use Rattle.features.specs.declared.actors.Subject.{Subject};
ghost use Rattle.plain_world.specs.Admitting.{may_go_on, subject_at};
ghost use Rattle.plain_world.specs.States.{WorldData};
ghost use Rattle.scripts.specs.Causes.{CommitsIn, ConcludesIn, IsOwn, PlacesIn, SearchesIn, SeeksIn, StayBeside};
ghost use Rattle.scripts.specs.Services.{SearchesCall, CommitsCall};
ghost use Rattle.scripts.specs.States.{IsAtRest, WhereAtRest};
ghost use Rattle.scripts.specs.Stepping.{Seeks};
ghost use Rattle.scripts.specs.UnderWay.{Concludes, Places, Stages, under};

use feature_store::Meter;
use features::Change;
use plane::Shape;
use policy_documents::Document;
use std::alloc::{Allocator, Global};
use std::sync::Arc;
use world::{
    Advance, Answer, CHANGE_LIMIT, Fault, Outcome, Rolled, STEP_LIMIT, TreeFault, Visit, World,
};

/// Upper bound on visits, one above the limit of a search, so that S7 comes from the index first.
const SEARCH_STEPS: u32 = STEP_LIMIT + 1;

/// Upper bound on the steps of a list's walks: for each change one above the limit of a walk, so
/// that S7 comes from the index first, and the step that finds all placed.
const WALK_STEPS: u32 = CHANGE_LIMIT as u32 * (STEP_LIMIT + 1) + 1;

/// Runs a whole search, and drops it after a fault. X1 where the seat was not given; S2 where 16
/// searches are open; S6 where the numbers of searches are at their end; S7 where the search takes
/// too many steps; X10 where the trail is full; X12 where an allocation is refused.
pub(crate) fn search<A: Allocator + Copy>(
    world: &mut World<A>,
    seat: u32,
    window: Shape,
) -> Result<Answer<A>, Fault>
    ensures searches { WhereAtRest world.old.plain world.new.plain
        (SearchesCall seat window world.old.plain world.new.plain (reply_of Rows result)) }
    ensures index { SearchesIn seat window world.old world.new result }
{
    let number = world.open_search(seat, window)?;
    match seek(world, seat, number) {
        Ok(answer) => Ok(answer),
        Err(fault) => {
            let _ = world.drop_search(seat, number);
            Err(fault)
        }
    }
}

/// Visits a search until it is ready, and finishes it.
pub(crate) fn seek<A: Allocator + Copy>(
    world: &mut World<A>,
    seat: u32,
    number: u64,
) -> Result<Answer<A>, Fault>
    ensures seeks { Seeks seat number world.old.plain world.new.plain (reply_of Rows result) }
    ensures index { SeeksIn (may_go_on seat number world.old.plain) number world.old.index
        world.new.index result }
    ensures walks { world.new.walks ≡ world.old.walks }
{
    for _ in 0..SEARCH_STEPS {
        match world.visit(seat, number)? {
            Visit::More => {}
            Visit::Ready => {
                let mut meter = Meter::new();
                return world.finish(seat, number, &mut meter);
            }
        }
    }
    Err(Fault::Tree(TreeFault::Overrun))
}

/// Commits a list of changes, all or none, and aborts after a fault. X1 where the seat was not
/// given; X15 where 64 transactions are open; X8 where the numbers of transactions are at their
/// end; S3 to S7 where the index does not place a shape; X10 where the trail is full; X12 where an
/// allocation is refused. For an accepted list also X8 where the version is at its end, and X11
/// where there would be more features than the limit.
pub(crate) fn commit<A: Allocator + Copy>(
    world: &mut World<A>,
    seat: u32,
    changes: &[Change],
) -> Result<Outcome, Fault>
    requires distinct { AreDistinct changes.now }
    requires few { length changes.now ≤ CHANGE_LIMIT }
    ensures commits { WhereAtRest world.old.plain world.new.plain
        (CommitsCall seat changes.now world.old.plain world.new.plain (reply_of Ended result)) }
    ensures index { IsAtRest world.old.plain
        → CommitsIn seat changes.now world.old world.new result }
{
    let number = world.begin(seat)?;
    match conclude(world, seat, number, changes) {
        Ok(outcome) => Ok(outcome),
        Err(fault) => {
            let _ = world.abort(seat, number);
            Err(fault)
        }
    }
}

/// Stages the changes in a transaction, places the shapes that they bring, and commits.
fn conclude<A: Allocator + Copy>(
    world: &mut World<A>,
    seat: u32,
    number: u64,
    changes: &[Change],
) -> Result<Outcome, Fault>
    requires distinct { AreDistinct changes.now }
    requires few { length changes.now ≤ CHANGE_LIMIT }
    ensures concludes { Concludes seat number changes.now world.old.plain world.new.plain
        (reply_of Ended result) }
    ensures index { (w : WorldData) (subject : Subject) → subject_at seat w ≡ Ok subject
        → world.old.plain ≡ under number seat [] 0 w
        → ConcludesIn seat number changes.now w world.old.index world.old.walks world.new result }
{
    stage_all(world, seat, number, changes)?;
    place_all(world, seat, number)?;
    world.commit(seat, number)
}

/// Stages each of the changes in a transaction.
fn stage_all<A: Allocator>(
    world: &mut World<A>,
    seat: u32,
    number: u64,
    changes: &[Change],
) -> Result<(), Fault>
    requires distinct { AreDistinct changes.now }
    requires few { length changes.now ≤ CHANGE_LIMIT }
    ensures stages { Stages seat number changes.now world.old.plain world.new.plain result }
    ensures own { IfErr result IsOwn }
    ensures beside { StayBeside world.old world.new }
{
    for change in changes {
        world.stage(seat, number, *change)?;
    }
    Ok(())
}

/// Places in the index the shapes that the transaction's changes bring.
fn place_all<A: Allocator + Copy>(world: &mut World<A>, seat: u32, number: u64) -> Result<(), Fault>
    ensures places { Places seat number world.old.plain world.new.plain result }
    ensures index { PlacesIn seat number world.old world.new result }
{
    for _ in 0..WALK_STEPS {
        match world.advance(seat, number)? {
            Advance::AllPlaced => return Ok(()),
            Advance::Walked(_) => {}
        }
    }
    Err(Fault::Tree(TreeFault::Overrun))
}

/// Puts a document in force as the next edition. X1 where the seat was not given, X7 where its
/// subject is no steward, X8 where the edition is at its end, X10 where the trail is full, X12
/// where an allocation is refused.
pub(crate) fn govern<A: Allocator + Copy>(
    world: &mut World<A>,
    heap: Global,
    seat: u32,
    document: Document<Global>,
) -> Result<u64, Fault>
    ensures happens { Happens (Govern seat document) world.old.plain world.new.plain
        (reply_of Number result) }
    ensures beside { StayBeside world.old world.new }
{
    world.govern_or_drop(heap, seat, document)
}

/// Takes the trail out. X1 where the seat was not given, X7 where its subject is no steward, X8
/// where the numbers of records are at their end, X12 where an allocation is refused.
pub(crate) fn roll<A: Allocator + Copy>(
    world: &mut World<A>,
    heap: Global,
    seat: u32,
) -> Result<Arc<Rolled<A>, A>, Fault>
    ensures happens { Happens (Roll seat) world.old.plain world.new.plain
        (reply_of (λ piece. TakenOut (arc_value piece)) result) }
    ensures beside { StayBeside world.old world.new }
{
    world.roll(heap, seat)
}
