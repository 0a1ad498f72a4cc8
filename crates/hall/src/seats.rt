//! Seats.

ghost use Rattle.std.specs.Prelude.{◌≡◌, map};
ghost use Rattle.std.specs.Arc.{arc_value};

use crate::halls::Hall;
use crate::names::HallName;
use audit_trail::Record;
use features::Subject;
use std::alloc::Allocator;
use std::marker::Model;
use std::sync::ledger::Share;
use std::sync::{Arc, Wait};

/// A seat of a hall, for one session. It keeps a receipt for each of its calls that is recorded:
/// another owner of the record itself. Contracts see its number, its subject and its receipts.
#[derive(Drop)]
pub struct Seat<'h, L: HallName, R: Wait + Drop, A: Allocator> {
    pub(crate) hall: &'h Hall<L, R, A>,
    pub(crate) number: u32,
    pub(crate) subject: Subject,
    pub(crate) share: Share<L>,
    pub(crate) receipts: Vec<Arc<Record<A>, A>, A>,
}

impl<'h, L: HallName, R: Wait + Drop, A: Allocator> Model for Seat<'h, L, R, A> {
    ghost use Rattle.std.specs.Prelude.{◌≡◌, map, length};
    ghost use Rattle.std.specs.Arc.{arc_value};
    ghost use Rattle.std.specs.Coded.{code_by, codes};
    ghost use Rattle.hall.specs.Seats.{SeatData, StoredSeat, stored_seat, restored_seat, restored_seat-stored_seat};

    ghost Value = { SeatData };

    ghost coded = { code_by StoredSeat (Prim.hlevel codes) stored_seat restored_seat
        restored_seat-stored_seat };

    ghost view = { λ s. record {
      number = s.number;
      subject = s.subject;
      receipts = map arc_value s.receipts.items;
    } };

    // a seat has one part of the ledger, with as much in its share as it has receipts
    ghost invariant = { λ s. (s.share.parts ≡ 1) × (s.share.amount ≡ length s.receipts.items) };
}

impl<'h, L: HallName, R: Wait + Drop, A: Allocator> Seat<'h, L, R, A> {
    /// The seat's number, from 1.
    pub fn number(&self) -> u32
        ensures { result ≡ self.now.number }
    {
        self.number
    }

    /// The subject for whom the seat was given.
    pub fn subject(&self) -> Subject
        ensures { result ≡ self.now.subject }
    {
        self.subject
    }

    /// The records of the seat's calls, in order.
    pub fn receipts(&self) -> &[Arc<Record<A>, A>]
        ensures { map arc_value result.now ≡ self.now.receipts }
    {
        self.receipts.as_slice()
    }
}
