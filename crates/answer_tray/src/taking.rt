//! How a chronicle takes answers in.

ghost use Rattle.std.specs.Prelude.{◌≡◌, ◌≤◌, All, drop, length, map, take, OnOk};
ghost use Rattle.std.specs.Arc.{arc_value};
ghost use Rattle.plain_world.specs.Answering.{IsLegalAnswer};
ghost use Rattle.answer_tray.specs.Trays.{with_records};

use audit_trail::Record;
use chronicle::Chronicle;
use memory::another;
use std::alloc::Allocator;
use std::sync::Arc;
use world::Fault;

/// Takes these answers into a chronicle, in order, and returns how many it took. All, unless the
/// trail is full (X10) or an allocation is refused (X12).
pub(crate) fn taken_by<A: Allocator + Copy>(
    chronicle: &mut Chronicle<A>,
    answers: &[Arc<Record<A>, A>],
) -> (usize, Result<(), Fault>)
    requires { All (IsLegalAnswer chronicle.old.seats chronicle.old.state)
        (map arc_value answers.now) }
    ensures within { result.0 ≤ length answers.now }
    ensures all { OnOk result.1 (result.0 ≡ length answers.now) }
    ensures taken { chronicle.new
        ≡ with_records chronicle.old (take result.0 (map arc_value answers.now)) }
{
    for place in 0..answers.len() {
        let entry = match another(&answers[place]) {
            Ok(entry) => entry,
            Err(no_memory) => return (place, Err(Fault::Memory(no_memory))),
        };
        if let Err((_, fault)) = chronicle.take_in(entry) {
            return (place, Err(fault));
        }
    }
    (answers.len(), Ok(()))
}

/// Takes the first so many away.
pub(crate) fn drop_front<A: Allocator>(answers: &mut Vec<Arc<Record<A>, A>, A>, count: usize)
    requires { count ≤ length answers.old.items }
    ensures { answers.new.items ≡ drop count answers.old.items }
{
    let left = answers.len() - count;
    answers.rotate_left(count);
    answers.truncate(left);
}
