//! Lists of changes that are stored in the value itself.
ghost use Rattle.std.specs.Prelude.{◌≡◌, ◌≤◌, ◌<◌, ◌++◌, ◌∷◌, [], length};
ghost use Rattle.plain_world.specs.declared.settings.TheConstants.{CHANGE_LIMIT};

use features::{Change, Name};
use plain_world::CHANGE_LIMIT;
use plane::{Point, Shape};
use std::marker::Model;

/// At most 16 changes. A contract sees their list.
#[derive(Debug, Drop)]
pub(crate) struct ChangeList {
    places: [Change; CHANGE_LIMIT],
    len: usize,
}

impl Model for ChangeList {
    ghost use Rattle.std.specs.Prelude.{◌≤◌, List, take};
    ghost use Rattle.features.specs.declared.rows.Change.{Change};
    ghost use Rattle.plain_world.specs.declared.settings.TheConstants.{CHANGE_LIMIT};

    ghost Value = { List Change };

    ghost view = { λ l. take l.len l.places };

    ghost invariant = { λ l. l.len ≤ CHANGE_LIMIT };
}

impl ChangeList {
    /// No changes.
    pub fn new() -> Self
        ensures { result ≡ [] }
    {
        ChangeList {
            places: [unused(); CHANGE_LIMIT],
            len: 0,
        }
    }

    /// The changes.
    pub fn as_slice(&self) -> &[Change]
        ensures value { result.now ≡ self.now }
        ensures few { length self.now ≤ CHANGE_LIMIT }
    {
        &self.places[..self.len]
    }

    /// How many changes the list has.
    pub fn len(&self) -> usize
        ensures { result ≡ length self.now }
    {
        self.as_slice().len()
    }

    /// Appends a change.
    pub fn push(&mut self, change: Change)
        requires { length self.old < CHANGE_LIMIT }
        ensures { self.new ≡ self.old ++ change ∷ [] }
    {
        self.places[self.len] = change;
        self.len += 1;
    }

    /// Drops all changes.
    pub fn clear(&mut self)
        ensures { self.new ≡ [] }
    {
        self.len = 0;
    }
}

/// Filler for the places that no change has taken.
fn unused() -> Change {
    Change::Add {
        id: 0,
        class: Name::new(b"-").unwrap(),
        shape: Shape::point(Point { x: 0, y: 0 }).unwrap(),
    }
}
