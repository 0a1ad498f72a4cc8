//! Faults of `predicate_locks` that are refused allocations.

ghost use Rattle.std.specs.Prelude.{◌≡◌};
ghost use Rattle.memory.specs.NoMemory.{out_of_memory};

use memory::NoMemory;
use predicate_locks::LockFault;

/// The refused allocation in a fault of `predicate_locks`. No other of its faults comes here.
pub fn refusal_in(fault: LockFault) -> NoMemory
    requires { fault ≡ LockFault.Memory out_of_memory }
{
    let LockFault::Memory(refusal) = fault else {
        unreachable!();
    };
    refusal
}
