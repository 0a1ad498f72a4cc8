//! Which slots of the index may have something to tend.

use arrayvec::ArrayVec;
use features::Change;
use plane::Shape;
use std::alloc::Allocator;
use world::{Advance, Crowded, Fault, NAMED_SLOTS, Outcome, Tending, TreeFault, Visit, World};

/// The most slots that are noted.
const DUE_LIMIT: usize = 256;

/// The most retired nodes whose slots are noted.
const RETIRED_LIMIT: usize = 64;

/// The slots of the index that may have something to tend, as far as the events so far tell. This is
/// a hint and no promise: a slot that is tended without cause answers Idle, and what is missed here
/// is found by a round over all slots. Neither makes an answer wrong, so no contract speaks of it.
/// There is room for a fixed number of slots, and no call takes memory.
#[derive(Drop)]
pub(crate) struct DueSlots {
    /// No slot stands here twice.
    slots: ArrayVec<u32, DUE_LIMIT>,
    /// Slots of retired nodes, which can be freed once the searches that may come to them have
    /// ended.
    retired: ArrayVec<u32, RETIRED_LIMIT>,
    /// A round over all slots is wanted: something had no place in these lists, or was not found.
    missed: bool,
    /// The index or what it is to keep has changed since the last round over all slots began.
    changed: bool,
}

impl DueSlots {
    /// Nothing is due.
    pub(crate) fn none() -> Self {
        DueSlots {
            slots: ArrayVec::new(),
            retired: ArrayVec::new(),
            missed: false,
            changed: false,
        }
    }

    /// Takes a slot out.
    pub(crate) fn next(&mut self) -> Option<u32> {
        self.slots.pop()
    }

    /// Begins a round over all slots if one is wanted, and returns whether it is.
    pub(crate) fn begin_round(&mut self) -> bool {
        let wanted = self.missed;
        if wanted {
            self.missed = false;
            self.changed = false;
        }
        wanted
    }

    /// Asks for a round over all slots, if anything has changed since the last one.
    pub(crate) fn want_round(&mut self) {
        if self.changed {
            self.missed = true;
        }
    }

    /// Notes a slot.
    fn note(&mut self, slot: u32) {
        self.changed = true;
        if self.slots.as_slice().contains(&slot) {
            return;
        }
        if self.slots.try_push(slot).is_err() {
            self.missed = true;
        }
    }

    /// Notes the slots that have the pair of this id and shape.
    fn note_pair<A: Allocator>(&mut self, world: &World<A>, id: u64, shape: &Shape) {
        self.note_found(world.slots_with(id, shape));
    }

    /// Notes the slots that were found.
    fn note_found(&mut self, found: Result<ArrayVec<u32, NAMED_SLOTS>, Crowded>) {
        match found {
            Ok(slots) => {
                for slot in slots.as_slice() {
                    self.note(*slot);
                }
            }
            Err(Crowded) => self.missed = true,
        }
    }

    /// Notes the slots that have the shapes which these changes take away from their features. To be
    /// called before the list is committed.
    pub(crate) fn note_old<A: Allocator>(&mut self, world: &World<A>, changes: &[Change]) {
        self.changed = true;
        for change in changes {
            if let Some(feature) = world.feature(change.id()) {
                self.note_pair(world, feature.id, &feature.shape);
            }
        }
    }

    /// Notes the slots that have the shapes which these changes bring, where they are not to stay.
    pub(crate) fn note_new<A: Allocator>(&mut self, world: &World<A>, changes: &[Change]) {
        self.changed = true;
        for change in changes {
            match change {
                Change::Add { id, shape, .. } | Change::Reshape { id, shape, .. } => {
                    self.note_pair(world, *id, shape);
                }
                Change::Delete { .. } => {}
            }
        }
    }

    /// Notes what a commit of this list has left: the shapes that a rejected list has placed.
    pub(crate) fn committed<A: Allocator>(
        &mut self,
        world: &World<A>,
        changes: &[Change],
        outcome: &Result<Outcome, Fault>,
    ) {
        if let Ok(Outcome::Refused(..)) = outcome {
            self.note_new(world, changes);
        }
    }

    /// Notes what a step of a walk has left: `left` is the slot of the node to the left of the one
    /// where the walk is, if that has no entry. S7 ends the transaction, whatever it has placed.
    pub(crate) fn advanced(&mut self, advanced: &Result<Advance, Fault>, left: Option<u32>) {
        self.changed = true;
        if let Some(slot) = left {
            self.note(slot);
        }
        if let Err(Fault::Tree(TreeFault::Overrun)) = advanced {
            self.missed = true;
        }
    }

    /// Notes what a visit has left: S7 ends the search.
    pub(crate) fn visited(&mut self, visited: &Result<Visit, Fault>) {
        if let Err(Fault::Tree(TreeFault::Overrun)) = visited {
            self.search_ended();
        }
    }

    /// Notes that a search may have ended, so that retired nodes may be freed.
    pub(crate) fn search_ended(&mut self) {
        for index in 0..RETIRED_LIMIT {
            let Some(slot) = self.retired.as_slice().get(index).copied() else {
                return;
            };
            self.note(slot);
        }
    }

    /// Notes what tending a slot makes due: what was emptied is to be retired, and what was retired
    /// to be freed, now or at the end of a search.
    pub(crate) fn tended(&mut self, slot: u32, tended: &Result<Tending, Fault>) {
        match tended {
            Ok(Tending::Installed) | Ok(Tending::Cleaned) => self.note(slot),
            Ok(Tending::Retired) => {
                self.note(slot);
                if self.retired.try_push(slot).is_err() {
                    self.missed = true;
                }
            }
            Ok(Tending::Freed) => self.retired.retain(|held| *held != slot),
            Ok(Tending::Idle) | Err(_) => {}
        }
    }
}
