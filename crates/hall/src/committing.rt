//! Committing a list of a seat.

ghost use Rattle.std.specs.Prelude.{◌≡◌, ◌<◌, ◌+◌, IfOk, OnOk, OnErr};
ghost use Rattle.std.specs.Arc.{arc_value};
ghost use Rattle.plain_world.specs.Laws.{deed_of};
ghost use Rattle.hall.specs.Calls.{IsCommitted, IsOutcome};

use crate::faults::HallFault;
use crate::guarded::Guarded;
use crate::halls::Hall;
use crate::names::HallName;
use crate::seats::Seat;
use crate::sections::{Committing, Pause, TRY_LIMIT, Unfinished, events_in_section};
use audit_trail::Record;
use features::{Change, Subject};
use memory::GrowVec;
use std::alloc::Allocator;
use std::sync::ledger::Share;
use std::sync::{Arc, Condvar, RwLockWriteGuard, Wait};
use world::{Fault, Outcome, TreeFault};

/// Lets the world go until one of what is waited for has ended, and takes it again. Whoever waits has
/// the lock of those who wait before he lets the world go: so he misses no end.
fn waited_for<'h, L: HallName, R: Wait + Drop, A: Allocator + Copy, W: Wait>(
    rt: &W,
    hall: &'h Hall<L, R, A>,
    world: RwLockWriteGuard<'h, Guarded<L, A>>,
    ended: &Condvar,
) -> RwLockWriteGuard<'h, Guarded<L, A>> {
    let waiting = hall.waiting.lock(rt);
    drop(world);
    drop(ended.wait(rt, waiting));
    hall.write_world(rt)
}

/// Ends a try of a list that is refused. S3 waits first, and lets the world go, until a search ends,
/// X15 until a transaction ends. The list's transaction is aborted then, and whoever waits
/// for its end is woken. Ok where the list may be tried again: it waited, and `tries` leaves one
/// more. H4 for S3.
fn wait_or_give_up<'h, L: HallName, R: Wait + Drop, A: Allocator + Copy, W: Wait>(
    rt: &W,
    hall: &'h Hall<L, R, A>,
    world: RwLockWriteGuard<'h, Guarded<L, A>>,
    seat: u32,
    committing: Committing,
    fault: Fault,
    tries: &mut u32,
) -> Result<(), HallFault> {
    let waits = matches!(fault, Fault::TooMany | Fault::Tree(TreeFault::Held(_)));
    let mut world = match &fault {
        Fault::Tree(TreeFault::Held(_)) => waited_for(rt, hall, world, &hall.search_ended),
        Fault::TooMany => waited_for(rt, hall, world, &hall.transaction_ended),
        _ => world,
    };
    let ended = world.abort(seat, committing);
    drop(world);
    if ended {
        hall.wake(rt, &hall.transaction_ended);
    }
    *tries = tries.saturating_sub(1);
    if waits && *tries > 0 {
        return Ok(());
    }
    match fault {
        Fault::Tree(TreeFault::Held(_)) => Err(HallFault::Held),
        fault => Err(HallFault::from(fault)),
    }
}

/// Commits a list of a seat of this subject, in one critical section after another. The record is
/// counted in the seat's share. A list that searches hold back, or that finds as many transactions
/// open as may be, waits until one of them ends; H4 or X15 after `TRY_LIMIT` tries. After a fault
/// no transaction is open.
fn committed<L: HallName, R: Wait + Drop, A: Allocator + Copy, W: Wait, P: Pause>(
    rt: &W,
    hall: &Hall<L, R, A>,
    seat: u32,
    subject: &Subject,
    share: &mut Share<L>,
    changes: &[Change],
    pause: &mut P,
) -> Result<(Outcome, Arc<Record<A>, A>), HallFault>
    requires { 0 < share.old.parts }
    ensures judged { IfOk result (λ done. IsOutcome subject.now changes.now done.0) }
    ensures receipt { IfOk result
        (λ done. arc_value done.1
        ≡ record { seat = seat; deed = deed_of subject.now changes.now done.0 }) }
    ensures amount { OnOk result (share.new.amount ≡ share.old.amount + 1) }
    ensures err { OnErr result (share.new.amount ≡ share.old.amount) }
    ensures parts { share.new.parts ≡ share.old.parts }
{
    let events = events_in_section(pause);
    let mut committing = Committing::New;
    let mut tries = TRY_LIMIT;
    for _ in rt.forever() {
        let mut world = hall.write_world(rt);
        let lobby = &hall.lobby;
        match world.commit_on(
            rt,
            lobby,
            seat,
            subject,
            share,
            changes,
            &mut committing,
            events,
        ) {
            Ok(done) => {
                drop(world);
                hall.wake(rt, &hall.transaction_ended);
                return Ok(done);
            }
            Err(Unfinished::More) => drop(world),
            Err(Unfinished::Refused(fault)) => {
                wait_or_give_up(rt, hall, world, seat, committing, fault, &mut tries)?;
                committing = Committing::New;
            }
        }
        pause.between();
    }
    unreachable!()
}

impl<'h, L: HallName, R: Wait + Drop, A: Allocator + Copy> Seat<'h, L, R, A> {
    /// Commits a list of changes, all or none. A list that a search holds back waits until a search
    /// ends, one that finds 64 transactions open until a transaction ends; it is then tried again,
    /// at most `TRY_LIMIT` times in all. H4 where a search held it back at the last try. H6 where
    /// there is no memory for the receipt's place. H5 with X15 where 64 transactions are open at the
    /// last try, X5 or X6 where the list cannot be staged, S4 to S7 where the index does not place a
    /// shape, X10 where the trail is full, X8 where a number is at its end, X11 where there would be
    /// more features than the limit, X12 where an allocation is refused. A fault leaves the seat
    /// unchanged.
    pub fn commit<W: Wait, P: Pause>(
        &mut self,
        rt: &W,
        changes: &[Change],
        pause: &mut P,
    ) -> Result<Outcome, HallFault>
        ensures ok { IfOk result (λ outcome. IsCommitted changes.now outcome self.old self.new) }
        ensures err { OnErr result (self.new ≡ self.old) }
    {
        self.receipts.make_slot()?;
        let hall = self.hall;
        let seat = self.number;
        match committed(
            rt,
            hall,
            seat,
            &self.subject,
            &mut self.share,
            changes,
            pause,
        ) {
            Ok((outcome, receipt)) => {
                self.receipts.push_reserved(receipt);
                Ok(outcome)
            }
            Err(fault) => Err(fault),
        }
    }
}
