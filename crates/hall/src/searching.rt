//! Searches of a seat.

ghost use Rattle.std.specs.Prelude.{◌≡◌, ◌<◌, ◌+◌, IfOk, OnOk, OnErr};
ghost use Rattle.std.specs.Arc.{arc_value};
ghost use Rattle.chronicle.specs.Noting.{told_answer};
ghost use Rattle.plain_world.specs.Answers.{IsAnswer};
ghost use Rattle.hall.specs.Calls.{IsSearched};

use crate::faults::HallFault;
use crate::guarded::Guarded;
use crate::halls::Hall;
use crate::names::HallName;
use crate::seats::Seat;
use crate::sections::{Pause, Searching, TRY_LIMIT, Unfinished};
use audit_trail::Record;
use features::Subject;
use memory::GrowVec;
use plane::Shape;
use std::alloc::Allocator;
use std::sync::ledger::Share;
use std::sync::{Arc, RwLockWriteGuard, Wait};
use world::{Answer, Fault, TreeFault};

/// Ends a call of a search that is refused. S2 waits first, and lets the world go, until a search
/// ends; any other fault drops the search, and wakes whoever waits for its end. Ok where the search
/// may be tried again: it waited, and `tries` leaves one more.
fn wait_or_give_up<L: HallName, R: Wait + Drop, A: Allocator + Copy, W: Wait>(
    rt: &W,
    hall: &Hall<L, R, A>,
    world: RwLockWriteGuard<'_, Guarded<L, A>>,
    seat: u32,
    searching: Searching,
    fault: Fault,
    tries: &mut u32,
) -> Result<(), HallFault> {
    if let Fault::Tree(TreeFault::TooMany) = &fault {
        let waiting = hall.waiting.lock(rt);
        drop(world);
        drop(hall.search_ended.wait(rt, waiting));
        *tries = tries.saturating_sub(1);
        if *tries > 0 {
            return Ok(());
        }
    } else {
        let mut world = world;
        let ended = world.drop_search(seat, searching);
        drop(world);
        if ended {
            hall.wake(rt, &hall.search_ended);
        }
    }
    Err(HallFault::from(fault))
}

/// Searches a window for a seat of this subject, each event in a critical section of its own. The
/// record is counted in the seat's share. A search that finds as many open as may be waits until one
/// ends; S2 after `TRY_LIMIT` tries. After a fault no search is open.
fn searched_by_steps<L: HallName, R: Wait + Drop, A: Allocator + Copy, W: Wait, P: Pause>(
    rt: &W,
    hall: &Hall<L, R, A>,
    seat: u32,
    subject: &Subject,
    share: &mut Share<L>,
    window: &Shape,
    pause: &mut P,
) -> Result<(Answer<A>, Arc<Record<A>, A>), HallFault>
    requires { 0 < share.old.parts }
    ensures subject { IfOk result (λ done. done.0.subject ≡ subject.now) }
    ensures window { IfOk result (λ done. done.0.window ≡ window.now) }
    ensures shown { IfOk result (λ done. IsAnswer done.0) }
    ensures receipt { IfOk result
        (λ done. arc_value done.1 ≡ record { seat = seat; deed = told_answer done.0 }) }
    ensures amount { OnOk result (share.new.amount ≡ share.old.amount + 1) }
    ensures err { OnErr result (share.new.amount ≡ share.old.amount) }
    ensures parts { share.new.parts ≡ share.old.parts }
{
    let mut searching = Searching::New;
    let mut tries = TRY_LIMIT;
    for _ in rt.forever() {
        let mut world = hall.write_world(rt);
        let lobby = &hall.lobby;
        match world.search_on(rt, lobby, seat, subject, share, window, &mut searching, 1) {
            Ok(done) => {
                drop(world);
                hall.wake(rt, &hall.search_ended);
                return Ok(done);
            }
            Err(Unfinished::More) => drop(world),
            Err(Unfinished::Refused(fault)) => {
                wait_or_give_up(rt, hall, world, seat, searching, fault, &mut tries)?;
            }
        }
        pause.between();
    }
    unreachable!()
}

/// Searches a window for a seat of this subject: as a whole, in one event beside others who read,
/// unless the pause wants steps; where its record cannot lie in the tray, while nobody else reads.
/// The record is counted in the seat's share.
fn searched<L: HallName, R: Wait + Drop, A: Allocator + Copy, W: Wait, P: Pause>(
    rt: &W,
    hall: &Hall<L, R, A>,
    seat: u32,
    subject: &Subject,
    share: &mut Share<L>,
    window: &Shape,
    pause: &mut P,
) -> Result<(Answer<A>, Arc<Record<A>, A>), HallFault>
    requires { 0 < share.old.parts }
    ensures subject { IfOk result (λ done. done.0.subject ≡ subject.now) }
    ensures window { IfOk result (λ done. done.0.window ≡ window.now) }
    ensures shown { IfOk result (λ done. IsAnswer done.0) }
    ensures receipt { IfOk result
        (λ done. arc_value done.1 ≡ record { seat = seat; deed = told_answer done.0 }) }
    ensures amount { OnOk result (share.new.amount ≡ share.old.amount + 1) }
    ensures err { OnErr result (share.new.amount ≡ share.old.amount) }
    ensures parts { share.new.parts ≡ share.old.parts }
{
    if pause.wants_steps() {
        return searched_by_steps(rt, hall, seat, subject, share, window, pause);
    }
    let lobby = &hall.lobby;
    let beside = hall
        .read_world(rt)
        .search_beside(rt, lobby, seat, subject, share, window);
    match beside {
        Ok(done) => return Ok(done),
        Err(Unfinished::Refused(fault)) => return Err(HallFault::from(fault)),
        Err(Unfinished::More) => {}
    }
    let alone = hall
        .write_world(rt)
        .search_whole(rt, lobby, seat, subject, share, window);
    match alone {
        Ok(done) => Ok(done),
        Err(fault) => Err(HallFault::from(fault)),
    }
}

impl<'h, L: HallName, R: Wait + Drop, A: Allocator + Copy> Seat<'h, L, R, A> {
    /// Searches a window: lists what meets it and the seat's subject may read. The search is one
    /// event, beside the searches of others, unless the pause wants steps. H6 where there is no memory for
    /// the receipt's place; H5 with S7 where the search takes too many steps, X10 where the trail is
    /// full, X12 where an allocation is refused. A fault leaves the seat unchanged.
    ///
    /// By steps, the rows are those of the moment when the search finishes. Where 16 searches are
    /// open, it then waits until one ends, and is tried again, at most `TRY_LIMIT` times. H5 with S2
    /// where 16 searches are open at each try, and with S6 where the numbers of searches are at
    /// their end, come by steps alone.
    pub fn search<W: Wait, P: Pause>(
        &mut self,
        rt: &W,
        window: Shape,
        pause: &mut P,
    ) -> Result<Answer<A>, HallFault>
        ensures ok { IfOk result (λ answer. IsSearched window answer self.old self.new) }
        ensures err { OnErr result (self.new ≡ self.old) }
    {
        self.receipts.make_slot()?;
        let hall = self.hall;
        let seat = self.number;
        match searched(
            rt,
            hall,
            seat,
            &self.subject,
            &mut self.share,
            &window,
            pause,
        ) {
            Ok((answer, receipt)) => {
                self.receipts.push_reserved(receipt);
                Ok(answer)
            }
            Err(fault) => Err(fault),
        }
    }
}
