//! What proofs know a hall by.

ghost use Rattle.std.specs.Prelude.{◌≡◌};

use crate::guarded::LEDGER_PARTS;
use chronicle::Chronicle;
use published_policies::{EmptyList, ListName};
use state_lists::{NewList, StatesName};
use std::alloc::Allocator;
use std::marker::Brand;
use std::sync::ledger::{Blank, Ledger};

/// The name of a hall: proofs know by it the hall's ledger, its list of policies, the list of its
/// chronicles, and what it was opened with. A hall, its seats, its views and its editions have it as
/// a type parameter, so that contracts of calls which take the hall's locks can speak of the opening.
/// It is a name for proofs, without code: a program makes an `Unnamed`, and passes it to a function
/// that is generic in the name, which it calls at `Brand`.
pub trait HallName: Ledger + ListName + StatesName {
    ghost use Rattle.chronicle.specs.Chronicles.{Opening};

    ghost opening: { Opening };
}

impl HallName for Brand {
    ghost use Rattle.hall.specs.Names.{no_opening};

    ghost opening = { no_opening };
}

/// What proofs name a hall by: a new ledger, a list of policies that has no policy yet, and a list
/// of chronicles that has none. It is made before the function that opens, uses and closes the hall
/// is called, so that this function's type parameter `L` can stand for it.
#[derive(Drop)]
pub struct Unnamed<A: Allocator> {
    pub ledger: Blank,
    pub list: EmptyList,
    pub states: NewList<Chronicle<A>>,
}

impl<A: Allocator> Unnamed<A> {
    /// A new ledger, with the parts that a hall needs, and new lists.
    pub fn new() -> Self
        ensures { result.ledger.parts ≡ LEDGER_PARTS }
    {
        Unnamed {
            ledger: Blank::new(LEDGER_PARTS),
            list: EmptyList::new(),
            states: NewList::new(),
        }
    }
}
