//! Names of subjects, offices, roles, classes, rules and sessions.

ghost use Rattle.std.specs.Prelude.{◌≡◌, ℕ, ◌≤◌, ◌++◌, length, nat_eq, IsTrue};
ghost use Rattle.std.specs.List.{list_all};
ghost use Rattle.std.specs.Cmp.Lexicographic.{pointwise};
ghost use Rattle.std.specs.Cmp.Rules.{comparing};
ghost use Rattle.std.proofs.Common.{rules};
ghost use Rattle.features.specs.Names.{is_name, is_name_byte, name_of, padding};

use std::fmt;
use std::marker::Model;

/// The most bytes of a name.
pub const NAME_LIMIT: usize = 32;

/// The name of a subject, an office, a role, a class, a rule or a session: 1 to 32 bytes of `a-z`,
/// `0-9` and `-`. A contract sees the bytes.
#[derive(Clone, Copy)]
pub struct Name {
    bytes: [u8; NAME_LIMIT],
    len: u8,
}

impl Model for Name {
    ghost use Rattle.std.specs.Prelude.{List, ℕ, ◌++◌, length, take};
    ghost use Rattle.features.specs.Names.{HoldsName, padding, padded_again, length_again};

    ghost Value = { List ℕ };

    ghost view = { λ n. take n.len n.bytes };

    ghost invariant = { λ n. HoldsName n.bytes n.len };

    ghost inverse = { λ v. record { bytes = v ++ padding (length v); len = length v } };

    ghost inverse_ok = { λ n h i. record {
      bytes = padded_again n.bytes n.len h i;
      len = length_again n.bytes n.len h i;
    } };
}

impl Name {
    /// The name with this text, or `None` if the text is no valid name.
    pub fn new(text: &[u8]) -> Option<Name>
        ensures { result ≡ name_of text.now }
    {
        if !is_name(text) {
            return None;
        }
        Some(Name {
            bytes: padded(text),
            len: text.len() as u8,
        })
    }

    /// The bytes of the name, which are ASCII.
    pub fn as_bytes(&self) -> &[u8]
        ensures value { result.now ≡ self.now }
        ensures name { IsTrue (is_name self.now) }
        ensures fits { length self.now ≤ NAME_LIMIT }
    {
        &self.bytes[..self.len as usize]
    }
}

/// Whether a text is a valid name.
fn is_name(text: &[u8]) -> bool
    ensures { result ≡ is_name text.now }
{
    !text.is_empty() && text.len() <= NAME_LIMIT && may_all_stand(text)
}

/// Whether all these bytes are allowed in a name.
fn may_all_stand(text: &[u8]) -> bool
    ensures { result ≡ list_all is_name_byte text.now }
{
    text.iter().all(|byte| may_stand(*byte))
}

/// A text in an array of fixed length, padded with zeros.
fn padded(text: &[u8]) -> [u8; NAME_LIMIT]
    requires { length text.now ≤ NAME_LIMIT }
    ensures { result ≡ text.now ++ padding (length text.now) }
{
    let mut bytes = [0; NAME_LIMIT];
    bytes[..text.len()].copy_from_slice(text);
    bytes
}

/// Whether a byte is allowed in a name.
fn may_stand(byte: u8) -> bool
    ensures { result ≡ is_name_byte byte }
{
    matches!(byte, b'a'..=b'z' | b'0'..=b'9' | b'-')
}

impl PartialEq for Name {
    ghost eq = { pointwise nat_eq };

    ghost laws = { Prim.search (comparing, rules) };

    fn eq(&self, other: &Self) -> bool {
        self.as_bytes() == other.as_bytes()
    }
}

impl Eq for Name {
    ghost laws = { Prim.search (comparing, rules) };
}

impl fmt::Display for Name {
    ghost use Rattle.std.specs.Prelude.{Some};

    ghost output = { λ name. Some name };

    fn fmt<W: fmt::Write>(&self, f: &mut fmt::Formatter<W>) -> fmt::Result {
        match str::from_utf8(self.as_bytes()) {
            Ok(text) => f.write_str(text),
            Err(_) => Err(fmt::Error),
        }
    }
}

impl fmt::Debug for Name {
    fn fmt<W: fmt::Write>(&self, f: &mut fmt::Formatter<W>) -> fmt::Result {
        fmt::Display::fmt(self, f)
    }
}
