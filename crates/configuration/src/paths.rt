//! Where in a configuration a fault is.

ghost use Rattle.std.specs.Prelude.{◌≡◌};
ghost use Rattle.configuration.specs.Paths.{key_text};

use std::fmt;

/// A key of an object of a configuration.
#[derive(Clone, Copy, Debug, PartialEq, Eq)]
pub enum MemberName {
    Subjects,
    Policies,
    Grid,
    Anonymous,
    Metrics,
    Public,
    Collections,
    Keys,
    TrustedField,
    Origin,
    Decimals,
    Between,
    Name,
    Office,
    Role,
    Steward,
    Subject,
    Sha256,
}

impl MemberName {
    /// The key as it is written.
    pub fn text(self) -> &'static str
        ensures { result.now ≡ key_text self }
    {
        match self {
            MemberName::Subjects => "subjects",
            MemberName::Policies => "policies",
            MemberName::Grid => "grid",
            MemberName::Anonymous => "anonymous",
            MemberName::Metrics => "metrics",
            MemberName::Public => "public",
            MemberName::Collections => "collections",
            MemberName::Keys => "keys",
            MemberName::TrustedField => "trusted-field",
            MemberName::Origin => "origin",
            MemberName::Decimals => "decimals",
            MemberName::Between => "between",
            MemberName::Name => "name",
            MemberName::Office => "office",
            MemberName::Role => "role",
            MemberName::Steward => "steward",
            MemberName::Subject => "subject",
            MemberName::Sha256 => "sha256",
        }
    }
}

/// A place in a configuration, outside the policies. Items are counted from 0. It is printed as a
/// JSON pointer: `/subjects/0/name`; the whole configuration, as the empty text.
#[derive(Clone, Copy, Debug, PartialEq, Eq)]
pub enum ConfigPath {
    /// The whole configuration.
    Whole,
    /// The value under this key of it.
    Member(MemberName),
    /// An item of the array under this key.
    Item(MemberName, usize),
    /// The value under a key, the last of the three, of such an item.
    ItemMember(MemberName, usize, MemberName),
}

impl fmt::Display for ConfigPath {
    ghost use Rattle.std.specs.Prelude.{Some};
    ghost use Rattle.configuration.specs.Paths.{path_text};

    ghost output = { λ path. Some (path_text path) };

    fn fmt<W: fmt::Write>(&self, f: &mut fmt::Formatter<W>) -> fmt::Result {
        match self {
            ConfigPath::Whole => Ok(()),
            ConfigPath::Member(key) => write!(f, "/{}", key.text()),
            ConfigPath::Item(key, index) => write!(f, "/{}/{}", key.text(), *index),
            ConfigPath::ItemMember(key, index, below) => {
                write!(f, "/{}/{}/{}", key.text(), *index, below.text())
            }
        }
    }
}
