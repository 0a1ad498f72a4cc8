//! What the second lock guards.

ghost use Rattle.std.specs.Prelude.{◌≡◌, ◌<◌, ◌+◌, ◌++◌, ◌∷◌, [], length, slice_get, None, Some, IfNone, IfSome, OnErr, OnOk};
ghost use Rattle.std.specs.Arc.{arc_value};
ghost use Rattle.std.specs.List.{last_or};
ghost use Rattle.answer_tray.specs.Trays.{AreAnswersAt, empty_at, told_in};
ghost use Rattle.published_policies.specs.Coding.{decider_set};
ghost use Rattle.published_policies.specs.Lists.{edition_of};
ghost use Rattle.hall.specs.Present.{policy_of};

use crate::names::HallName;
use answer_tray::Tray;
use audit_trail::Record;
use chronicle::Chronicle;
use decision::Decider;
use published_policies::{Edition, Publisher, View};
use state_lists::{ListLength, SeenStates};
use std::alloc::Allocator;
use std::sync::ledger::Share;
use std::sync::{Arc, Wait};
use world::Fault;

/// What the second lock guards, which whoever has the world's lock for reading may change: the tray,
/// with the records that the world has not taken in yet, and the published policies that views read.
/// Whoever gets the lock knows the facts below, and those of a tray.
#[derive(Drop)]
pub(crate) struct Lobby<L: HallName, R: Wait + Drop, A: Allocator> {
    pub(crate) tray: Tray<L, A>,
    publisher: Publisher<L, R>,
    /// How many views may still be given.
    views_left: usize,
    pub ghost begins: { slice_get publisher 0 ≡ Some L.opening.base.decider } by { decider_set _ _ },
    pub ghost in_force: { last_or None publisher ≡ policy_of (last_or None tray.seen) } by { decider_set _ _ },
}

impl<L: HallName, R: Wait + Drop, A: Allocator> Lobby<L, R, A> {
    /// The lobby of a world that was just opened, with its first policy published, and this many
    /// views to give.
    pub(crate) fn new(tray: Tray<L, A>, publisher: Publisher<L, R>, views: usize) -> Self
        requires published { publisher ≡ L.opening.base.decider ∷ [] }
        requires in_force { policy_of (last_or None tray.seen) ≡ Some L.opening.base.decider }
        ensures { result.tray ≡ tray }
    {
        Lobby {
            tray,
            publisher,
            views_left: views,
        }
    }

    /// Gives a view of the policies. `None` where all views are given.
    pub(crate) fn view(&mut self) -> Option<View<L>>
        ensures list { IfSome result (λ view. view ≡ self.old.publisher) }
        ensures begins { IfSome result (λ view. slice_get view 0 ≡ Some L.opening.base.decider) }
        ensures fewer { IfSome result (λ _. self.old.views_left ≡ self.new.views_left + 1) }
        ensures none { IfNone result (self.new.views_left ≡ self.old.views_left) }
    {
        let Lobby {
            publisher,
            views_left,
            ..
        } = self;
        if *views_left == 0 {
            return None;
        }
        let view = publisher.view()?;
        *views_left -= 1;
        Some(view)
    }

    /// Puts down the record of an answer that was given at the last of these chronicles, and counts
    /// it in a seat's share. The record comes back where the tray cannot take it.
    pub(crate) fn put(
        &mut self,
        at: &SeenStates<L, Chronicle<A>>,
        share: &mut Share<L>,
        entry: Arc<Record<A>, A>,
    ) -> Result<(), Arc<Record<A>, A>>
        requires parts { 0 < share.old.parts }
        requires answer { AreAnswersAt (last_or None at.now) (arc_value entry ∷ []) }
        ensures ok { OnOk result (self.new.tray
            ≡ record self.old.tray { answers = self.old.tray.answers ++ arc_value entry ∷ [] }) }
        ensures err { OnErr result (self.new.tray ≡ self.old.tray) }
        ensures counted { OnOk result (share.new.amount ≡ share.old.amount + 1) }
        ensures uncounted { OnErr result (share.new.amount ≡ share.old.amount) }
        ensures share_parts { share.new.parts ≡ share.old.parts }
    {
        self.tray.put(at, share, entry)
    }
}

impl<L: HallName, R: Wait + Drop, A: Allocator + Copy> Lobby<L, R, A> {
    /// The chronicle takes in the answers of the tray, and is added to the list. X10 where the trail
    /// is full, X12 where an allocation is refused; what was not taken in stays in the tray.
    pub(crate) fn take_in<W: Wait>(
        &mut self,
        rt: &W,
        list: &ListLength<L, Chronicle<A>>,
        seen: &mut SeenStates<L, Chronicle<A>>,
        chronicle: &mut Chronicle<A>,
    ) -> Result<(), Fault>
        requires { last_or None seen.old ≡ Some chronicle.old }
        ensures seen { last_or None seen.new ≡ Some chronicle.new }
        ensures same { chronicle.new ≡ record chronicle.old { records = chronicle.new.records } }
        ensures all { chronicle.new.records ++ self.new.tray.answers
            ≡ chronicle.old.records ++ self.old.tray.answers }
        ensures level { OnOk result (self.new.tray ≡ empty_at seen.new) }
    {
        self.tray.take_in(rt, list, seen, chronicle)
    }

    /// The chronicle has one more seat: it is added to the list.
    pub(crate) fn go_on<W: Wait>(
        &mut self,
        rt: &W,
        list: &ListLength<L, Chronicle<A>>,
        seen: &mut SeenStates<L, Chronicle<A>>,
        chronicle: &Chronicle<A>,
    )
        requires empty { self.old.tray.answers ≡ [] }
        requires told { length chronicle.now.records ≡ told_in self.old.tray }
        requires policy { policy_of (last_or None self.old.tray.seen)
            ≡ Some chronicle.now.state.decider }
        ensures { last_or None seen.new ≡ Some chronicle.now }
    {
        self.tray.go_on(rt, list, seen, chronicle);
    }

    /// The chronicle has one more record, which left the policy in force: it is counted in a seat's
    /// share, and the chronicle added to the list. Returns another owner of the record.
    pub(crate) fn note<W: Wait>(
        &mut self,
        rt: &W,
        list: &ListLength<L, Chronicle<A>>,
        seen: &mut SeenStates<L, Chronicle<A>>,
        chronicle: &Chronicle<A>,
        share: &mut Share<L>,
    ) -> Arc<Record<A>, A>
        requires parts { 0 < share.old.parts }
        requires empty { self.old.tray.answers ≡ [] }
        requires told { length chronicle.now.records ≡ told_in self.old.tray + 1 }
        requires policy { policy_of (last_or None self.old.tray.seen)
            ≡ Some chronicle.now.state.decider }
        ensures last { last_or None chronicle.now.records ≡ Some (arc_value result) }
        ensures seen { last_or None seen.new ≡ Some chronicle.now }
        ensures counted { share.new.amount ≡ share.old.amount + 1 }
        ensures share_parts { share.new.parts ≡ share.old.parts }
    {
        self.tray.note(rt, list, seen, chronicle, share)
    }

    /// The chronicle has one more record, of a policy that was put in force: the policy is published,
    /// the record counted in a seat's share, and the chronicle added to the list. Returns the list of
    /// policies that ends with it, and another owner of the record.
    pub(crate) fn publish<W: Wait>(
        &mut self,
        rt: &W,
        list: &ListLength<L, Chronicle<A>>,
        seen: &mut SeenStates<L, Chronicle<A>>,
        chronicle: &Chronicle<A>,
        share: &mut Share<L>,
        decider: Arc<Decider>,
    ) -> (Edition<L>, Arc<Record<A>, A>)
        requires parts { 0 < share.old.parts }
        requires empty { self.old.tray.answers ≡ [] }
        requires told { length chronicle.now.records ≡ told_in self.old.tray + 1 }
        requires in_force { chronicle.now.state.decider ≡ arc_value decider }
        requires next { (arc_value decider).edition
            ≡ edition_of (policy_of (last_or None self.old.tray.seen)) + 1 }
        ensures edition { result.0 ≡ self.old.publisher ++ arc_value decider ∷ [] }
        ensures last { last_or None chronicle.now.records ≡ Some (arc_value result.1) }
        ensures seen { last_or None seen.new ≡ Some chronicle.now }
        ensures counted { share.new.amount ≡ share.old.amount + 1 }
        ensures share_parts { share.new.parts ≡ share.old.parts }
    {
        let Lobby {
            tray,
            publisher,
            ..
        } = self;
        let edition = publisher.publish(decider);
        let receipt = tray.note(rt, list, seen, chronicle, share);
        (edition, receipt)
    }
}
