//! Why a text is no document.

ghost use Rattle.std.specs.Prelude.{◌≡◌};

use crate::paths::Path;
use features::Name;
use memory::{JsonFault, NoMemory, NotStored};
use std::fmt;
use wkt::WktFault;

/// Why a text is no document: the first fault, in the order that `read_document` states.
#[derive(Debug, Drop, PartialEq, Eq)]
pub enum TextFault {
    /// D1: the text is not JSON.
    NotJson,
    /// D2: a value is missing or of the wrong form.
    Form(Path),
    /// D3: an object has a key that is not listed for it.
    UnknownKey(Path),
    /// D4: two sets, policies or rules, or two zones, have this name; the path is that of the
    /// second.
    NameTwice(Path, Name),
    /// D5: no zone has this name, which a match has at the path.
    NoZone(Path, Name),
    /// D6: the shape at the path, of the zone of this name, is invalid.
    BadZone(Path, Name, WktFault),
    /// D7: sets and policies nest more than 8 deep; the path is that of the ninth.
    TooDeep(Path),
    /// D8: too many zones, sets and policies, rules, or matches and atoms; the path is that of the
    /// first that is too many.
    TooMany(Path),
    /// D9: out of memory.
    Memory(NoMemory),
}

impl TextFault {
    ghost use Rattle.policy_text.specs.FaultCodes.{code_of};
    ghost use Rattle.policy_text.specs.FaultPaths.{path_of};

    /// The fault's code, as users see it.
    pub fn code(&self) -> &'static str
        ensures { result.now ≡ code_of self.now }
    {
        match self {
            TextFault::NotJson => "D1",
            TextFault::Form(_) => "D2",
            TextFault::UnknownKey(_) => "D3",
            TextFault::NameTwice(_, _) => "D4",
            TextFault::NoZone(_, _) => "D5",
            TextFault::BadZone(_, _, _) => "D6",
            TextFault::TooDeep(_) => "D7",
            TextFault::TooMany(_) => "D8",
            TextFault::Memory(_) => "D9",
        }
    }

    /// Where in the document the fault is: the path of D2 to D8.
    pub fn path(&self) -> Option<Path>
        ensures { result ≡ path_of self.now }
    {
        match self {
            TextFault::Form(path)
            | TextFault::UnknownKey(path)
            | TextFault::NameTwice(path, _)
            | TextFault::NoZone(path, _)
            | TextFault::BadZone(path, _, _)
            | TextFault::TooDeep(path)
            | TextFault::TooMany(path) => Some(*path),
            TextFault::NotJson | TextFault::Memory(_) => None,
        }
    }
}

impl fmt::Display for TextFault {
    ghost use Rattle.std.specs.Prelude.{Some};
    ghost use Rattle.policy_text.specs.FaultCodes.{code_of};

    ghost output = { λ fault. Some (code_of fault) };

    fn fmt<W: fmt::Write>(&self, f: &mut fmt::Formatter<W>) -> fmt::Result {
        f.write_str(self.code())
    }
}

impl From<NoMemory> for TextFault {
    ghost use Rattle.std.specs.Prelude.{◌≡◌};
    ghost use Rattle.policy_text.specs.declared.faults.TextFault.TheVariants.{Memory};

    ghost from_gives = { λ no_memory fault. fault ≡ Memory no_memory };

    fn from(no_memory: NoMemory) -> Self {
        TextFault::Memory(no_memory)
    }
}

impl<T: Drop> From<NotStored<T>> for TextFault {
    ghost use Rattle.std.specs.Prelude.{◌≡◌};
    ghost use Rattle.policy_text.specs.declared.faults.TextFault.TheVariants.{Memory};

    ghost from_gives = { λ failed fault. fault ≡ Memory failed.cause };

    fn from(failed: NotStored<T>) -> Self {
        TextFault::Memory(failed.cause)
    }
}

impl From<JsonFault> for TextFault {
    ghost use Rattle.std.specs.Prelude.{◌≡◌};
    ghost use Rattle.policy_text.specs.Bytes.{json_fault};

    ghost from_gives = { λ unread fault. fault ≡ json_fault unread };

    fn from(unread: JsonFault) -> Self {
        match unread {
            JsonFault::Text(_) => TextFault::NotJson,
            JsonFault::Memory(no_memory) => TextFault::Memory(no_memory),
        }
    }
}
