//! The index's refusals as faults of a world.

ghost use Rattle.std.specs.Prelude.{◌≡◌};
ghost use Rattle.world.specs.Refusing.{is_overrun_fault, refusal_of, world_fault};

use memory::NoMemory;
use plain_world::Fault;
use search_tree::TreeFault;

/// The world's fault for a refusal of the index: X12 for out of memory, X9 for all others.
pub(crate) fn fault_of(fault: TreeFault) -> Fault
    ensures { result ≡ world_fault fault }
{
    match fault {
        TreeFault::Memory(refusal) => Fault::Memory(refusal),
        fault => Fault::Tree(fault),
    }
}

/// The refused allocation, if the fault is S8.
pub(crate) fn refusal_of(fault: TreeFault) -> Option<NoMemory>
    ensures { result ≡ refusal_of fault }
{
    match fault {
        TreeFault::Memory(refusal) => Some(refusal),
        _ => None,
    }
}

/// Whether the fault is S7: all steps were made.
pub(crate) fn is_overrun(fault: &TreeFault) -> bool
    ensures { result ≡ is_overrun_fault fault.now }
{
    matches!(fault, TreeFault::Overrun)
}
