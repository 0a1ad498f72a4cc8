//! Where in a document a fault is.

ghost use Rattle.std.specs.Prelude.{◌≡◌, ◌↔◌, ◌<◌, [], ◌∷◌, ◌++◌, length, IsTrue};
ghost use Rattle.policy_text.specs.Keys.{key_text};
ghost use Rattle.policy_text.specs.Places.{same_path};

use std::fmt;
use std::marker::Model;

/// The most parts that a path can have. The longest path of a fault has 22: the root, seven nested
/// sets, a policy's rule, and in its target the key of a match.
pub const PART_LIMIT: usize = 24;

/// A key of an object of a document.
#[derive(Clone, Copy, Debug, PartialEq, Eq)]
pub enum MemberName {
    Zones,
    Root,
    Zone,
    Shape,
    Set,
    Policy,
    Combine,
    Target,
    Of,
    Rules,
    Rule,
    Effect,
    When,
    Role,
    Office,
    Class,
    Owner,
    Action,
    Own,
    Not,
}

impl MemberName {
    /// The key as text.
    pub fn text(self) -> &'static str
        ensures { result.now ≡ key_text self }
    {
        match self {
            MemberName::Zones => "zones",
            MemberName::Root => "root",
            MemberName::Zone => "zone",
            MemberName::Shape => "shape",
            MemberName::Set => "set",
            MemberName::Policy => "policy",
            MemberName::Combine => "combine",
            MemberName::Target => "target",
            MemberName::Of => "of",
            MemberName::Rules => "rules",
            MemberName::Rule => "rule",
            MemberName::Effect => "effect",
            MemberName::When => "when",
            MemberName::Role => "role",
            MemberName::Office => "office",
            MemberName::Class => "class",
            MemberName::Owner => "owner",
            MemberName::Action => "action",
            MemberName::Own => "own",
            MemberName::Not => "not",
        }
    }
}

/// One part of a path: to the value under a key, or to an item of an array, counted from 0.
#[derive(Clone, Copy, Debug, PartialEq, Eq)]
pub enum PathPart {
    Member(MemberName),
    Item(usize),
}

/// A position in a document. A contract sees its parts. The parts are stored inline, so that a
/// fault needs no allocation. It is printed as `/root/of/0`, and the document itself as the empty
/// text.
#[derive(Clone, Copy)]
pub struct Path {
    parts: [PathPart; PART_LIMIT],
    len: usize,
}

impl Model for Path {
    ghost use Rattle.policy_text.specs.Paths.{HoldsParts, padded, padded_again, length_again};
    ghost use Rattle.policy_text.specs.declared.paths.PathPart.{PathPart};
    ghost use Rattle.std.specs.Prelude.{List, take, length};

    ghost Value = { List PathPart };

    ghost view = { λ p. take p.len p.parts };

    ghost invariant = { λ p. HoldsParts p.parts p.len };

    ghost inverse = { λ v. record { parts = padded v; len = length v } };

    ghost inverse_ok = { λ p h i. record {
      parts = padded_again p.parts p.len h i;
      len = length_again p.parts p.len h i;
    } };
}

impl Path {
    /// The path of the document itself.
    pub fn new() -> Path
        ensures { result ≡ [] }
    {
        Path {
            parts: [PathPart::Item(0); PART_LIMIT],
            len: 0,
        }
    }

    /// The path with one more part.
    pub(crate) fn with(self, part: PathPart) -> Path
        requires { length self < PART_LIMIT }
        ensures { result ≡ self ++ part ∷ [] }
    {
        let mut parts = self.parts;
        parts[self.len] = part;
        Path {
            parts,
            len: self.len + 1,
        }
    }

    /// The parts, starting from the document.
    pub fn as_slice(&self) -> &[PathPart]
        ensures { result.now ≡ self.now }
    {
        &self.parts[..self.len]
    }
}

impl PartialEq for Path {
    ghost use Rattle.std.specs.Cmp.{decided, partial_equiv_from_equiv};
    ghost use Rattle.policy_text.specs.Places.{same_path, same_path_decides};

    ghost eq = { same_path };

    ghost laws = { partial_equiv_from_equiv (decided same_path same_path_decides) };

    #[tactic(auto, using(crate::proofs::PlaceLemmas::same_path_derived))]
    fn eq(&self, other: &Self) -> bool
        ensures tested { result ≡ same_path self.now other.now }
        ensures exact { IsTrue result ↔ (self.now ≡ other.now) }
    {
        self.as_slice() == other.as_slice()
    }
}

impl Eq for Path {
    ghost use Rattle.std.specs.Cmp.{decided};
    ghost use Rattle.policy_text.specs.Places.{same_path, same_path_decides};

    ghost laws = { decided same_path same_path_decides };
}

impl fmt::Display for PathPart {
    ghost use Rattle.std.specs.Prelude.{Some};
    ghost use Rattle.policy_text.specs.Pointers.{part_text};

    ghost output = { λ part. Some (part_text part) };

    fn fmt<W: fmt::Write>(&self, f: &mut fmt::Formatter<W>) -> fmt::Result {
        match self {
            PathPart::Member(key) => write!(f, "/{}", key.text()),
            PathPart::Item(index) => write!(f, "/{}", *index),
        }
    }
}

impl fmt::Display for Path {
    ghost use Rattle.std.specs.Prelude.{Some};
    ghost use Rattle.policy_text.specs.Pointers.{path_text};

    ghost output = { λ path. Some (path_text path) };

    fn fmt<W: fmt::Write>(&self, f: &mut fmt::Formatter<W>) -> fmt::Result {
        for part in self.as_slice() {
            fmt::Display::fmt(part, f)?;
        }
        Ok(())
    }
}

impl fmt::Debug for Path {
    ghost use Rattle.std.specs.Prelude.{Some};
    ghost use Rattle.policy_text.specs.Pointers.{path_text};

    ghost debug_output = { λ path. Some (path_text path) };

    fn fmt<W: fmt::Write>(&self, f: &mut fmt::Formatter<W>) -> fmt::Result {
        fmt::Display::fmt(self, f)
    }
}
