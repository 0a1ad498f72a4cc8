//! Why a world refuses a call.

ghost use Rattle.std.specs.Prelude.{◌≡◌};

use feature_store::StoreFault;
use memory::NoMemory;
use std::fmt;
use tree_answers::TreeFault;

/// Why a world refuses a call. A refused call leaves the world's plain data unchanged, except that
/// an overrun (S7) ends its search or transaction.
#[derive(Debug, Drop, PartialEq, Eq)]
pub enum Fault {
    /// X1: the seat was not given, or no such search or transaction is open.
    NoSuch,
    /// X2: the search or the transaction is another seat's.
    NotYours,
    /// X3: the search has not answered Ready.
    NotReady,
    /// X4: an added or reshaped feature of the list is not placed in the index.
    NotPlaced,
    /// X5: the list names the feature already.
    NamedTwice,
    /// X6: the list has `CHANGE_LIMIT` changes already.
    TooManyChanges,
    /// X7: the seat's subject is no steward.
    NotSteward,
    /// X8: the next transaction's number, the version, the edition or the records' numbers are at
    /// their limit.
    Spent,
    /// X9: the index refuses the step; for a search that opens, S2 or S6.
    Tree(TreeFault),
    /// X10: the trail has `Limits::records` records.
    TrailFull,
    /// X11: the list would leave more than `Limits::features` features.
    StoreFull,
    /// X12: an allocation was refused.
    Memory(NoMemory),
    /// X13: no subject has this name.
    NoSubject,
    /// X14: `Limits::seats` seats were given.
    NoPlace,
    /// X15: `TRANSACTION_LIMIT` transactions are open.
    TooMany,
}

impl Fault {
    ghost use Rattle.plain_world.specs.FaultCodes.{fault_code};

    /// The code that users see. A fault of the index has the index's own code, `S1` to `S8`.
    pub fn code(&self) -> &'static str
        ensures { result.now ≡ fault_code self.now }
    {
        match self {
            Fault::NoSuch => "X1",
            Fault::NotYours => "X2",
            Fault::NotReady => "X3",
            Fault::NotPlaced => "X4",
            Fault::NamedTwice => "X5",
            Fault::TooManyChanges => "X6",
            Fault::NotSteward => "X7",
            Fault::Spent => "X8",
            Fault::Tree(fault) => fault.code(),
            Fault::TrailFull => "X10",
            Fault::StoreFull => "X11",
            Fault::Memory(_) => "X12",
            Fault::NoSubject => "X13",
            Fault::NoPlace => "X14",
            Fault::TooMany => "X15",
        }
    }
}

impl fmt::Display for Fault {
    ghost use Rattle.std.specs.Prelude.{Some};
    ghost use Rattle.plain_world.specs.FaultCodes.{fault_code};

    ghost output = { λ fault. Some (fault_code fault) };

    fn fmt<W: fmt::Write>(&self, f: &mut fmt::Formatter<W>) -> fmt::Result {
        f.write_str(self.code())
    }
}

impl From<NoMemory> for Fault {
    ghost use Rattle.std.specs.Prelude.{◌≡◌};
    ghost use Rattle.plain_world.specs.declared.faults.Fault.TheVariants.{Memory};

    ghost from_gives = { λ no_memory fault. fault ≡ Memory no_memory };

    fn from(no_memory: NoMemory) -> Self {
        Fault::Memory(no_memory)
    }
}

impl From<StoreFault> for Fault {
    ghost use Rattle.std.specs.Prelude.{◌≡◌};
    ghost use Rattle.plain_world.specs.StoreFaults.{fault_of_store};

    ghost from_gives = { λ refusal fault. fault ≡ fault_of_store refusal };

    fn from(refusal: StoreFault) -> Self {
        match refusal {
            StoreFault::Full => Fault::StoreFull,
            StoreFault::Memory(no_memory) => Fault::Memory(no_memory),
        }
    }
}
