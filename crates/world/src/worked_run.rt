//! The laws, applied to calls of a real world: any calls, in any order.

ghost use Rattle.std.specs.Prelude.{IfOk, OnOk};
ghost use Rattle.plain_world.specs.Events.{Happens, Reply};
ghost use Rattle.world.specs.WorkedRun.{AreMade, IsAnswerBehind, event_of, just_opened};

use crate::worlds::World;
use feature_store::Meter;
use features::{Change, Name, Subjects};
use memory::NoMemory;
use plain_world::{
    Answer, Fault, every_answer_is_exact, every_run_is_ordered, policy_in_force_is_the_last,
};
use plane::Shape;
use policy_documents::Document;
use std::alloc::{Allocator, Global};

/// A call of a world, by the name of its method, with its arguments.
#[derive(Debug, Drop)]
pub enum Call {
    Seat {
        name: Name,
    },
    OpenSearch {
        seat: u32,
        window: Shape,
    },
    Visit {
        seat: u32,
        search: u64,
    },
    Finish {
        seat: u32,
        search: u64,
    },
    DropSearch {
        seat: u32,
        search: u64,
    },
    Begin {
        seat: u32,
    },
    Stage {
        seat: u32,
        transaction: u64,
        change: Change,
    },
    Advance {
        seat: u32,
        transaction: u64,
    },
    Commit {
        seat: u32,
        transaction: u64,
    },
    Abort {
        seat: u32,
        transaction: u64,
    },
    Govern {
        seat: u32,
        document: Document<Global>,
    },
    Tend {
        slot: u32,
    },
    Roll {
        seat: u32,
    },
}

/// Opens a world with a document, makes these calls one after another, whatever each of them
/// returns, and finishes a seat's search after them. X12 where there is no memory for the world or
/// for a copy of a document; then the faults of `finish`. The answer is exact, whatever the calls
/// are.
pub fn answer_after<A: Allocator + Copy>(
    alloc: A,
    heap: Global,
    subjects: Subjects,
    document: Document<Global>,
    calls: &[Call],
    seat: u32,
    search: u64,
) -> Result<Answer<A>, Fault>
    ensures { IfOk result (IsAnswerBehind (just_opened subjects document) calls.now seat search) }
{
    let mut world = match World::open(alloc, heap, subjects, document) {
        Ok(world) => world,
        Err((_, fault)) => return Err(fault),
    };
    make_all(&mut world, heap, calls)?;
    let mut meter = Meter::new();
    let answer = world.finish(seat, search, &mut meter)?;
    every_run_is_ordered();
    every_answer_is_exact();
    policy_in_force_is_the_last();
    Ok(answer)
}

/// Makes calls of a world, one after another. It ends early only where there is no memory for a
/// copy of a document.
fn make_all<A: Allocator + Copy>(
    world: &mut World<A>,
    heap: Global,
    calls: &[Call],
) -> Result<(), NoMemory>
    ensures { OnOk result (AreMade calls.now world.old.plain world.new.plain) }
{
    let Some((first, rest)) = calls.split_first() else {
        return Ok(());
    };
    make(world, heap, first)?;
    make_all(world, heap, rest)
}

/// Makes a call of a world, and drops what it returns. The call is left out only where there is no
/// memory for a copy of its document.
fn make<A: Allocator + Copy>(
    world: &mut World<A>,
    heap: Global,
    call: &Call,
) -> Result<(), NoMemory>
    ensures { OnOk result
        ((reply : Reply) × Happens (event_of call.now) world.old.plain world.new.plain reply) }
{
    match call {
        Call::Seat { name } => drop(world.seat(*name)),
        Call::OpenSearch { seat, window } => drop(world.open_search(*seat, *window)),
        Call::Visit { seat, search } => drop(world.visit(*seat, *search)),
        Call::Finish { seat, search } => drop(world.finish(*seat, *search, &mut Meter::new())),
        Call::DropSearch { seat, search } => drop(world.drop_search(*seat, *search)),
        Call::Begin { seat } => drop(world.begin(*seat)),
        Call::Stage {
            seat,
            transaction,
            change,
        } => drop(world.stage(*seat, *transaction, *change)),
        Call::Advance { seat, transaction } => drop(world.advance(*seat, *transaction)),
        Call::Commit { seat, transaction } => drop(world.commit(*seat, *transaction)),
        Call::Abort { seat, transaction } => drop(world.abort(*seat, *transaction)),
        Call::Govern { seat, document } => {
            let copy = document.copy(heap)?;
            drop(world.govern(heap, *seat, copy));
        }
        Call::Tend { slot } => drop(world.tend(*slot)),
        Call::Roll { seat } => drop(world.roll(heap, *seat)),
    }
    Ok(())
}
