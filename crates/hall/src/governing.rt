//! Policies that a seat puts in force, and rolls of the trail.

ghost use Rattle.std.specs.Prelude.{◌≡◌, ◌<◌, ◌+◌, None, Some, IfOk, OnErr, OnOk};
ghost use Rattle.std.specs.Arc.{arc_value};
ghost use Rattle.std.specs.List.{last_or};
ghost use Rattle.audit_trail.specs.Records.{governed};
ghost use Rattle.published_policies.specs.Lists.{last_edition};
ghost use Rattle.hall.specs.Calls.{IsGoverned, put_in_force};

use crate::faults::HallFault;
use crate::halls::Hall;
use crate::names::HallName;
use crate::seats::Seat;
use audit_trail::Record;
use memory::GrowVec;
use policy_documents::Document;
use published_policies::Edition;
use std::alloc::{Allocator, Global};
use std::sync::ledger::Share;
use std::sync::{Arc, Wait};
use world::Rolled;

/// Puts a document in force for a seat, and publishes it, in one critical section. The record is
/// counted in the seat's share.
fn governed<L: HallName, R: Wait + Drop, A: Allocator + Copy, W: Wait>(
    rt: &W,
    hall: &Hall<L, R, A>,
    seat: u32,
    share: &mut Share<L>,
    document: Document<Global>,
) -> Result<(Edition<L>, Arc<Record<A>, A>), HallFault>
    requires { 0 < share.old.parts }
    ensures last { IfOk result
        (λ done. last_or None done.0 ≡ Some (put_in_force document done.0)) }
    ensures receipt { IfOk result
        (λ done. arc_value done.1
        ≡ record {
          seat = seat;
          deed = governed (last_edition done.0) (put_in_force document done.0);
        }) }
    ensures amount { OnOk result (share.new.amount ≡ share.old.amount + 1) }
    ensures err { OnErr result (share.new.amount ≡ share.old.amount) }
    ensures parts { share.new.parts ≡ share.old.parts }
{
    hall.write_world(rt)
        .govern(rt, &hall.lobby, hall.heap, seat, share, document)
}

impl<'h, L: HallName, R: Wait + Drop, A: Allocator + Copy> Seat<'h, L, R, A> {
    /// Puts a document in force, and returns its edition, which a view may be told. H6 where there
    /// is no memory for the receipt's place; H5 with X7 where the seat's subject is no steward, X8
    /// where the edition is at its end, X10 where the trail is full; then H6 where there is no
    /// memory for the decider, and H5 with X12 where there is none for the event. A fault leaves
    /// the seat unchanged.
    pub fn govern<W: Wait>(
        &mut self,
        rt: &W,
        document: Document<Global>,
    ) -> Result<Edition<L>, HallFault>
        ensures ok { IfOk result (λ edition. IsGoverned document edition self.old self.new) }
        ensures err { OnErr result (self.new ≡ self.old) }
    {
        self.receipts.make_slot()?;
        let hall = self.hall;
        match governed(rt, hall, self.number, &mut self.share, document) {
            Ok((edition, receipt)) => {
                self.receipts.push_reserved(receipt);
                Ok(edition)
            }
            Err(fault) => Err(fault),
        }
    }

    /// Takes the trail out: the records since the last roll, with their lines. The hall keeps the
    /// records too. H5 with X7 where the seat's subject is no steward, X8 where the numbers of the
    /// records are at their end, X12 where an allocation is refused.
    pub fn roll<W: Wait>(&mut self, rt: &W) -> Result<Arc<Rolled<A>, A>, HallFault>
        ensures { self.new ≡ self.old }
    {
        let hall = self.hall;
        hall.write_world(rt)
            .roll(rt, &hall.lobby, hall.heap, self.number)
    }
}
