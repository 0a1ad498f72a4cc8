//! A row of raw places, each empty or with a value.

ghost use Rattle.std.specs.Prelude.{◌≡◌, ◌<◌, List, length, Option, Some, None, IsSome, slice_index_or, slice_set};
ghost use Rattle.std.specs.Borrow.{sem};
ghost use Rattle.std.specs.Coded.{coded_list, coded_option};
ghost use Rattle.chunks.specs.Owned.{row_owned, row_lent};

use std::marker::Model;

/// A row of places. It owns their values, and not the right to free them (`Lease`).
///
/// It is not `Drop`, so that no value in it can be lost.
pub(crate) struct Places<S> {
    pub(crate) at: *mut S,
    /// What each place holds.
    pub(crate) ghost items: { List (Option S) } by { coded_list (coded_option S.code) },
}

impl<S> Model for Places<S> {
    ghost also_owns = { λ row. row_owned S.row row.at row.items };

    ghost also_shares = { λ row _ κ. row_lent S.row row.at row.items κ };
}

impl<S> Places<S> {
    ghost use Rattle.chunks.specs.Places.{follows_place};

    /// The value in a place.
    pub(crate) fn get(&self, place: usize) -> &S
        requires within { place < length self.now.items }
        requires filled { IsSome (slice_index_or self.now.items place None) }
        ensures { slice_index_or self.now.items place None ≡ Some result.now }
    {
        unsafe { &*self.at.add(place) }
    }

    /// The value in a place, for writing.
    pub(crate) fn get_mut(&mut self, place: usize) -> &mut S
        requires within { place < length self.old.items }
        requires filled { IsSome (slice_index_or self.old.items place None) }
        ensures* writes_back { sem 𝓛 (follows_place S.row self.entry place result) }
        ensures value { slice_index_or self.old.items place None ≡ Some result.now }
    {
        unsafe { &mut *self.at.add(place) }
    }

    /// Puts a value into an empty place.
    pub(crate) fn put(&mut self, place: usize, value: S)
        requires within { place < length self.old.items }
        requires empty { slice_index_or self.old.items place None ≡ None }
        ensures items { self.new.items ≡ slice_set self.old.items place (Some value) }
        ensures address { self.new.at ≡ self.old.at }
    {
        unsafe { self.at.add(place).write(value) }
    }

    /// Takes the value out of a place.
    pub(crate) fn take(&mut self, place: usize) -> S
        requires within { place < length self.old.items }
        requires filled { IsSome (slice_index_or self.old.items place None) }
        ensures value { slice_index_or self.old.items place None ≡ Some result }
        ensures items { self.new.items ≡ slice_set self.old.items place None }
        ensures address { self.new.at ≡ self.old.at }
    {
        unsafe { self.at.add(place).read() }
    }
}

unsafe impl<S: Send> Send for Places<S> {}

unsafe impl<S: Sync> Sync for Places<S> {}
