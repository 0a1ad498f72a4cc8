//! Matches, targets and conditions as JSON values.

ghost use Rattle.std.specs.Prelude.{◌≡◌, IfOk, map};
ghost use Rattle.serde_json.specs.Data.{Data, array, string};
ghost use Rattle.serde_json.specs.View.{view, items_of};
ghost use Rattle.policy_text.specs.Printed.{match_data, term_data, atom_data, single};

use crate::paths::MemberName;
use crate::words::{action_word, name_value, single_value};
use features::Name;
use memory::{GrowVec, NoMemory, json_string};
use policy_documents::{Atom, Items, Match, Term};
use serde_json::Value;
use std::alloc::{Allocator, Global};

/// A part of a document that has a JSON value of its own.
pub(crate) trait Printed {
    /// The part's JSON value, as data.
    ghost printed: { Self → Data };

    /// The part's JSON value. Fails only when out of memory.
    fn value(&self, heap: Global) -> Result<Value, NoMemory>
        ensures { IfOk result (λ v. view v ≡ printed self.now) };
}

/// The JSON values of parts, in their order. Fails only when out of memory.
pub(crate) fn part_values<T: Printed>(heap: Global, parts: &[T]) -> Result<Vec<Value>, NoMemory>
    ensures { IfOk result (λ values. map view values.items ≡ map T.printed parts.now) }
{
    let mut values = Vec::new(heap);
    for part in parts {
        values.try_push(part.value(heap)?)?;
    }
    Ok(values)
}

impl<T: Printed, A: Allocator> Printed for Items<T, A> {
    ghost printed = { λ parts. array (items_of (map T.printed parts)) };

    fn value(&self, heap: Global) -> Result<Value, NoMemory> {
        Ok(Value::Array(part_values(heap, self.as_slice())?))
    }
}

/// An object with one member, a name. Fails only when out of memory.
fn named_value(heap: Global, key: MemberName, name: &Name) -> Result<Value, NoMemory>
    ensures { IfOk result (λ v. view v ≡ single key (string name.now)) }
{
    single_value(heap, key, name_value(heap, name)?)
}

impl Printed for Match {
    ghost printed = { match_data };

    fn value(&self, heap: Global) -> Result<Value, NoMemory> {
        match self {
            Match::Role(name) => named_value(heap, MemberName::Role, name),
            Match::Office(name) => named_value(heap, MemberName::Office, name),
            Match::Class(name) => named_value(heap, MemberName::Class, name),
            Match::Owner(name) => named_value(heap, MemberName::Owner, name),
            Match::Zone(name) => named_value(heap, MemberName::Zone, name),
            Match::Action(action) => {
                let word = json_string(heap, action_word(*action))?;
                single_value(heap, MemberName::Action, word)
            }
        }
    }
}

/// A term as a JSON value. Fails only when out of memory.
fn term_value(heap: Global, term: &Term) -> Result<Value, NoMemory>
    ensures { IfOk result (λ v. view v ≡ term_data term.now) }
{
    match term {
        Term::Match(test) => test.value(heap),
        Term::Own => single_value(heap, MemberName::Own, Value::Bool(true)),
    }
}

impl Printed for Atom {
    ghost printed = { atom_data };

    fn value(&self, heap: Global) -> Result<Value, NoMemory> {
        match self {
            Atom::Is(term) => term_value(heap, term),
            Atom::Not(term) => single_value(heap, MemberName::Not, term_value(heap, term)?),
        }
    }
}
