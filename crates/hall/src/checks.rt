//! What a call checks and makes beside its events.

ghost use Rattle.std.specs.Prelude.{◌≡◌, Ok, IfOk, OnOk};
ghost use Rattle.std.specs.Arc.{arc_value};
ghost use Rattle.chronicle.specs.Chronicles.{subject_given};
ghost use Rattle.hall.specs.Calls.{IsNext};

use crate::faults::HallFault;
use audit_trail::Record;
use chronicle::Chronicle;
use decision::Decider;
use features::Subject;
use memory::{NoMemory, another, shared};
use policy_documents::Document;
use std::alloc::{Allocator, Global};
use std::sync::{Arc, Wait};
use world::Fault;

/// Another owner of a record. Only the number of its owners can refuse one more, and then it is
/// tried again.
pub(crate) fn another_owner<W: Wait, A: Allocator>(
    rt: &W,
    entry: &Arc<Record<A>, A>,
) -> Arc<Record<A>, A>
    ensures { arc_value result ≡ arc_value entry.now }
{
    for _ in rt.forever() {
        match another(entry) {
            Ok(receipt) => return receipt,
            Err(_) => {}
        }
    }
    unreachable!()
}

/// X1 unless the seat is this subject's.
pub(crate) fn is_seat_of<A: Allocator>(
    chronicle: &Chronicle<A>,
    seat: u32,
    subject: &Subject,
) -> Result<(), Fault>
    ensures { OnOk result (subject_given seat chronicle.now.seats ≡ Ok subject.now) }
{
    let seated = chronicle.subject_at(seat)?;
    if seated == *subject {
        Ok(())
    } else {
        Err(Fault::NoSuch)
    }
}

/// The decider of a document, for the next edition, if the seat may put it in force. X1, X7, X8 or
/// X10 as the world refuses that; H6 where an allocation is refused.
pub(crate) fn next_decider<A: Allocator>(
    chronicle: &Chronicle<A>,
    heap: Global,
    seat: u32,
    document: Document<Global>,
) -> Result<Arc<Decider>, HallFault>
    ensures { IfOk result (λ decider. IsNext document chronicle.now (arc_value decider)) }
{
    let edition = chronicle.next_edition(seat)?;
    let decider = match Decider::new(document, edition) {
        Ok(decider) => decider,
        Err(failed) => return Err(HallFault::Memory(NoMemory::from(failed))),
    };
    match shared(heap, decider) {
        Ok(decider) => Ok(decider),
        Err(failed) => Err(HallFault::Memory(NoMemory::from(failed))),
    }
}
