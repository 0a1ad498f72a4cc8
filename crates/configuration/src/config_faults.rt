//! Why a text is not a configuration.

ghost use Rattle.std.specs.Prelude.{◌≡◌};

use crate::paths::ConfigPath;
use features::SubjectsFault;
use memory::{JsonFault, NoMemory};
use policy_text::TextFault;
use std::fmt;

/// Why a text is not a configuration. Of several faults, the first in this order is reported.
#[derive(Debug, Drop, PartialEq, Eq)]
pub enum ConfigFault {
    /// B1: the text is not JSON.
    NotJson,
    /// B2: outside the policy document, the value at this path is missing or of the wrong form, or
    /// has an unknown key.
    Form(ConfigPath),
    /// N1 to N3, the code of the fault inside: the list of subjects is rejected. The path is that
    /// of the list; of N3, that of the second name.
    Subjects(SubjectsFault, ConfigPath),
    /// D2 to D8, the code of the fault inside: the policies are not a policy document. Its path
    /// begins at the policies.
    Policies(TextFault),
    /// B5: an allocation was refused. It can occur with any text and replaces any other fault,
    /// except that `read_config` always returns `NotJson` for an empty text.
    Memory(NoMemory),
}

impl ConfigFault {
    ghost use Rattle.configuration.specs.ConfigFaults.{config_code_of};

    /// The code that users see. For `Subjects` and `Policies` it is the code of the fault inside.
    pub fn code(&self) -> &'static str
        ensures { result.now ≡ config_code_of self.now }
    {
        match self {
            ConfigFault::NotJson => "B1",
            ConfigFault::Form(_) => "B2",
            ConfigFault::Subjects(fault, _) => (*fault).code(),
            ConfigFault::Policies(fault) => fault.code(),
            ConfigFault::Memory(_) => "B5",
        }
    }
}

impl fmt::Display for ConfigFault {
    ghost use Rattle.std.specs.Prelude.{Some};
    ghost use Rattle.configuration.specs.ConfigFaults.{config_code_of};

    ghost output = { λ fault. Some (config_code_of fault) };

    fn fmt<W: fmt::Write>(&self, f: &mut fmt::Formatter<W>) -> fmt::Result {
        f.write_str(self.code())
    }
}

impl From<NoMemory> for ConfigFault {
    ghost use Rattle.std.specs.Prelude.{◌≡◌};
    ghost use Rattle.configuration.specs.declared.config_faults.ConfigFault.TheVariants.{Memory};

    ghost from_gives = { λ no_memory fault. fault ≡ Memory no_memory };

    fn from(no_memory: NoMemory) -> Self {
        ConfigFault::Memory(no_memory)
    }
}

impl From<JsonFault> for ConfigFault {
    ghost use Rattle.std.specs.Prelude.{◌≡◌};
    ghost use Rattle.configuration.specs.ConfigFaults.{unread_fault};

    ghost from_gives = { λ unread fault. fault ≡ unread_fault unread };

    fn from(unread: JsonFault) -> Self {
        match unread {
            JsonFault::Text(_) => ConfigFault::NotJson,
            JsonFault::Memory(no_memory) => ConfigFault::Memory(no_memory),
        }
    }
}

impl From<ConfigPath> for ConfigFault {
    ghost use Rattle.std.specs.Prelude.{◌≡◌};
    ghost use Rattle.configuration.specs.declared.config_faults.ConfigFault.TheVariants.{Form};

    ghost from_gives = { λ path fault. fault ≡ Form path };

    fn from(path: ConfigPath) -> Self {
        ConfigFault::Form(path)
    }
}

impl From<TextFault> for ConfigFault {
    ghost use Rattle.std.specs.Prelude.{◌≡◌};
    ghost use Rattle.configuration.specs.ConfigFaults.{policies_fault};

    ghost from_gives = { λ unread fault. fault ≡ policies_fault unread };

    fn from(unread: TextFault) -> Self {
        match unread {
            TextFault::Memory(no_memory) => ConfigFault::Memory(no_memory),
            fault => ConfigFault::Policies(fault),
        }
    }
}
