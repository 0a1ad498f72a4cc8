//! Why a request asks for no list of changes, and where in its body.

ghost use Rattle.std.specs.Prelude.{◌≡◌};

use geojson::{Cause, FeatureFault, Member};
use map_changes::ChangeFault;
use memory::NoMemory;

/// A part of a change of a list.
#[derive(Clone, Copy, Debug, PartialEq, Eq)]
pub enum Part {
    /// The whole change, of which the geometry is a member as of a Feature.
    Whole,
    /// What is to be done.
    Action,
    /// The id of the feature to reshape or delete.
    Id,
    /// The version of it that is meant.
    Version,
    /// The feature to add.
    Feature,
}

impl Part {
    ghost use Rattle.map_lists.specs.Faults.{pointer_of};

    /// The part's JSON pointer (RFC 6901), from the change on.
    pub fn pointer(self) -> &'static str
        ensures { result.now ≡ pointer_of self }
    {
        match self {
            Part::Whole => "",
            Part::Action => "/action",
            Part::Id => "/id",
            Part::Version => "/version",
            Part::Feature => "/feature",
        }
    }
}

/// Why a value is no change of a list, and where in it.
#[derive(Debug, Drop, PartialEq, Eq)]
pub struct ItemFault {
    /// The part that is at fault.
    pub part: Part,
    /// Its fault, as that of the body of a request to make one change.
    pub fault: ChangeFault,
}

impl ItemFault {
    ghost use Rattle.map_lists.specs.Faults.{form_at};

    /// J2: the part is not there, or has not the form that is wanted.
    pub(crate) fn form_at(part: Part) -> Self
        ensures { result ≡ form_at part }
    {
        ItemFault {
            part,
            fault: ChangeFault::Feature(FeatureFault::at(Member::Text, Cause::Form)),
        }
    }
}

/// Why a request asks for no list of changes, in the order in which the faults are looked for.
#[derive(Debug, Drop, PartialEq, Eq)]
pub enum ListFault {
    /// U2: the page has no parameters.
    Parameter,
    /// media: the body is not JSON by its type.
    Media,
    /// J1: the body is not JSON. J4: an allocation was refused.
    Unread(Cause),
    /// J2: the body is no object with an array `changes`.
    Form,
    /// E7: there is no change in the list.
    Empty,
    /// X6: there are more than 16.
    TooMany,
    /// The code of its fault, as of a request to make one change: the change at this index, counted
    /// from 0.
    Item(usize, ItemFault),
    /// X5: the change at this index is of a feature that a change before it names already.
    Twice(usize),
}

impl From<NoMemory> for ListFault {
    ghost use Rattle.std.specs.Prelude.{◌≡◌};
    ghost use Rattle.geojson.specs.declared.faults.Cause.TheVariants.{Memory};
    ghost use Rattle.map_lists.specs.declared.faults.ListFault.TheVariants.{Unread};

    ghost from_gives = { λ no_memory fault. fault ≡ Unread (Memory no_memory) };

    fn from(no_memory: NoMemory) -> Self {
        ListFault::Unread(Cause::Memory(no_memory))
    }
}
