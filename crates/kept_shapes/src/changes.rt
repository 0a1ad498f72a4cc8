//! Lists of changes that take the room of their shapes' corners.

ghost use Rattle.std.specs.Prelude.{◌≡◌, ◌↔◌, IfOk, IsTrue, length, slice_get};
ghost use Rattle.features.specs.Equality.{same_changes};
ghost use Rattle.kept_shapes.specs.Kinds.{change_kept};

use crate::shapes::KeptShape;
use features::{Change, Name};
use memory::{GrowVec, MOST_SLOTS, NoMemory, vec_with_slots};
use std::alloc::Allocator;
use std::marker::Model;

/// What a change does, with its shape kept.
#[derive(Debug, Drop)]
enum Kind<A: Allocator> {
    Added {
        id: u64,
        class: Name,
        shape: KeptShape<A>,
    },
    Reshaped {
        id: u64,
        version: u64,
        shape: KeptShape<A>,
    },
    Deleted {
        id: u64,
        version: u64,
    },
}

/// What a change does, with its shape kept, if there is memory for that.
fn kind_of<A: Allocator>(alloc: A, change: &Change) -> Result<Kind<A>, NoMemory>
    ensures { IfOk result (λ kind. change_kept kind ≡ change.now) }
{
    match change {
        Change::Add { id, class, shape } => Ok(Kind::Added {
            id: *id,
            class: *class,
            shape: KeptShape::make(alloc, shape)?,
        }),
        Change::Reshape { id, version, shape } => Ok(Kind::Reshaped {
            id: *id,
            version: *version,
            shape: KeptShape::make(alloc, shape)?,
        }),
        Change::Delete { id, version } => Ok(Kind::Deleted {
            id: *id,
            version: *version,
        }),
    }
}

/// A change that takes the room of its shape's corners. A contract sees the change.
#[derive(Debug, Drop)]
struct KeptChange<A: Allocator> {
    kind: Kind<A>,
}

impl<A: Allocator> Model for KeptChange<A> {
    ghost use Rattle.features.specs.declared.rows.Change.{Change};
    ghost use Rattle.kept_shapes.specs.Kinds.{change_kept};

    ghost Value = { Change };

    ghost view = { λ k. change_kept k.kind };
}

impl<A: Allocator> KeptChange<A> {
    /// The change.
    fn change(&self) -> Change
        ensures { result ≡ self.now }
    {
        match &self.kind {
            Kind::Added { id, class, shape } => Change::Add {
                id: *id,
                class: *class,
                shape: shape.shape(),
            },
            Kind::Reshaped { id, version, shape } => Change::Reshape {
                id: *id,
                version: *version,
                shape: shape.shape(),
            },
            Kind::Deleted { id, version } => Change::Delete {
                id: *id,
                version: *version,
            },
        }
    }
}

impl<A: Allocator> PartialEq for KeptChange<A> {
    ghost use Rattle.std.specs.Cmp.{decided, partial_equiv_from_equiv};
    ghost use Rattle.features.specs.Equality.{same_change, same_change_decides};

    ghost eq = { same_change };

    ghost laws = { partial_equiv_from_equiv (decided same_change same_change_decides) };

    fn eq(&self, other: &Self) -> bool
        ensures tested { result ≡ same_change self.now other.now }
        ensures exact { IsTrue result ↔ (self.now ≡ other.now) }
    {
        self.change() == other.change()
    }
}

impl<A: Allocator> Eq for KeptChange<A> {
    ghost use Rattle.std.specs.Cmp.{decided};
    ghost use Rattle.features.specs.Equality.{same_change, same_change_decides};

    ghost laws = { decided same_change same_change_decides };
}

/// A list of changes that takes the room of its shapes' corners. A contract sees the list.
#[derive(Debug, Drop)]
pub struct ChangeList<A: Allocator> {
    changes: Vec<KeptChange<A>, A>,
}

impl<A: Allocator> Model for ChangeList<A> {
    ghost use Rattle.std.specs.Prelude.{List};
    ghost use Rattle.features.specs.declared.rows.Change.{Change};

    ghost Value = { List Change };

    ghost view = { λ l. l.changes.items };
}

impl<A: Allocator + Copy> ChangeList<A> {
    /// A list of these changes. The only error is that memory is refused.
    pub fn new(alloc: A, changes: &[Change]) -> Result<ChangeList<A>, NoMemory>
        ensures { IfOk result (λ list. list ≡ changes.now) }
    {
        let mut list = vec_with_slots(alloc, changes.len().min(MOST_SLOTS))?;
        for change in changes {
            let kind = kind_of(alloc, change)?;
            list.try_push(KeptChange { kind })?;
        }
        Ok(ChangeList { changes: list })
    }
}

impl<A: Allocator> ChangeList<A> {
    /// How many changes there are.
    pub fn len(&self) -> usize
        ensures { result ≡ length self.now }
    {
        self.changes.len()
    }

    /// The change at an index, counted from 0.
    pub fn get(&self, at: usize) -> Option<Change>
        ensures { result ≡ slice_get self.now at }
    {
        match self.changes.get(at) {
            Some(change) => Some(change.change()),
            None => None,
        }
    }

    /// A copy of the changes. The only error is that memory is refused.
    pub fn copied<B: Allocator>(&self, alloc: B) -> Result<Vec<Change, B>, NoMemory>
        ensures { IfOk result (λ changes. changes.items ≡ self.now) }
    {
        let mut changes = Vec::new(alloc);
        for change in &self.changes {
            changes.try_push(change.change())?;
        }
        Ok(changes)
    }

    /// Whether two lists have equal changes.
    pub fn is_same(&self, other: &ChangeList<A>) -> bool
        ensures tested { result ≡ same_changes self.now other.now }
        ensures exact { IsTrue result ↔ (self.now ≡ other.now) }
    {
        self.changes == other.changes
    }
}
