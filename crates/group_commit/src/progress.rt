//! How far a desk has come.

ghost use Rattle.std.specs.Prelude.{◌≡◌, ◌+◌, [], IfOk, true, vec_len};
ghost use Rattle.group_commit.specs.Groups.{HandsOver};

use memory::{NoMemory, vec_with_slots};
use std::alloc::Global;
use std::mem;

/// The most items of a group, and the most that wait for the writer.
pub const GROUP_LIMIT: usize = 1_024;

/// A list that only grows, and that many threads read: for instance the records of a world.
pub trait Source<T> {
    /// How many items there are.
    fn count(&self) -> u64;

    /// How many items there were when the last one came that changed something.
    fn changed(&self) -> u64;

    /// Appends the items from this place on, counted from 0, to a list, no more than it has room for.
    fn copy_from(&self, place: u64, into: &mut Vec<T>);
}

/// What a desk's lock guards. Items that were taken over from the source wait for the writer, are
/// in its hand, or last.
#[derive(Drop)]
pub(crate) struct Progress<T: Drop> {
    /// What waits for the writer, in order.
    waiting: Vec<T>,
    /// How many items were taken over.
    taken: u64,
    /// How many the writer has in hand.
    in_hand: u64,
    /// How many last.
    lasting: u64,
    /// The writer has given up: what does not last by now never will.
    failed: bool,
    /// Nothing more is taken over.
    ended: bool,
    pub ghost in_step: { lasting + in_hand + vec_len waiting ≡ taken },
}

impl<T: Drop> Progress<T> {
    /// Nothing is taken over yet; there is room for a group.
    pub(crate) fn new(heap: Global) -> Result<Self, NoMemory>
        ensures { IfOk result (λ p. (p.taken ≡ 0) × (p.waiting.items ≡ [])) }
    {
        Ok(Progress {
            waiting: vec_with_slots(heap, GROUP_LIMIT)?,
            taken: 0,
            in_hand: 0,
            lasting: 0,
            failed: false,
            ended: false,
        })
    }

    /// Takes over what the source has and the desk has not, as far as there is room, behind what
    /// waits already. Where the count of all items would not fit, what waits is left to the source.
    pub(crate) fn take_over<S: Source<T>>(&mut self, source: &S)
        ensures lasting { self.new.lasting ≡ self.old.lasting }
        ensures in_hand { self.new.in_hand ≡ self.old.in_hand }
    {
        let behind = self.lasting + self.in_hand;
        source.copy_from(self.taken, &mut self.waiting);
        match behind.checked_add(self.waiting.len() as u64) {
            Some(taken) => self.taken = taken,
            None => {
                self.waiting.clear();
                self.taken = behind;
            }
        }
    }

    /// Gives all that waits to the writer, in place of what the list had. Nothing where nothing
    /// waits, or where the writer has a group in hand.
    pub(crate) fn hand_over(&mut self, into: &mut Vec<T>) -> bool
        ensures given { HandsOver result self.old.waiting.items self.new.waiting.items into.new.items }
        ensures taken { self.new.taken ≡ self.old.taken }
        ensures lasting { self.new.lasting ≡ self.old.lasting }
    {
        if self.waiting.is_empty() || self.in_hand > 0 {
            return false;
        }
        into.clear();
        mem::swap(&mut self.waiting, into);
        self.in_hand = into.len() as u64;
        true
    }

    /// What the writer had in hand lasts.
    pub(crate) fn note_lasting(&mut self)
        ensures lasting { self.new.lasting ≡ self.old.lasting + self.old.in_hand }
        ensures in_hand { self.new.in_hand ≡ 0 }
        ensures taken { self.new.taken ≡ self.old.taken }
    {
        self.lasting += self.in_hand;
        self.in_hand = 0;
    }

    pub(crate) fn fail(&mut self)
        ensures { self.new ≡ record self.old { failed = true } }
    {
        self.failed = true;
    }

    pub(crate) fn end(&mut self)
        ensures { self.new ≡ record self.old { ended = true } }
    {
        self.ended = true;
    }

    pub(crate) fn lasting(&self) -> u64
        ensures { result ≡ self.now.lasting }
    {
        self.lasting
    }

    /// Whether fewer items than this many were taken over.
    pub(crate) fn is_behind(&self, count: u64) -> bool {
        self.taken < count
    }

    /// Whether nothing waits for the writer and it has nothing in hand.
    pub(crate) fn is_idle(&self) -> bool {
        self.in_hand == 0 && self.waiting.is_empty()
    }

    pub(crate) fn has_failed(&self) -> bool
        ensures { result ≡ self.now.failed }
    {
        self.failed
    }

    /// Whether the writer has nothing more to do.
    pub(crate) fn is_done(&self) -> bool {
        self.failed || self.ended && self.waiting.is_empty()
    }
}
