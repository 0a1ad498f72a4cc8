//! Replies, as values.

ghost use Rattle.std.specs.Prelude.{◌≡◌};
ghost use Rattle.session_lines.specs.Replies.{denial_rule, ends_list as reply_ends_list, fault_reply, outcome_reply, policy_reply, refusal_reply, visit_reply};

use crate::faults::LineFault;
use features::Name;
use judging::{Cause, Refusal};
use memory::NoMemory;
use plain_world::{Answer, Denial, Fault as WorldFault, Outcome, Rolled};
use policy_text::TextFault;
use std::alloc::Allocator;
use std::sync::Arc;
use tree_answers::{TreeFault, Visit};

/// A reply of one line.
#[derive(Debug, Drop)]
pub enum Reply {
    /// `hello NAME`
    Hello(Name),
    /// `staged`
    Staged,
    /// `applied VERSION`
    Applied(u64),
    /// `denied rule NAME change K`, or `denied none change K` where no rule decides.
    Denied(Option<Name>, u64),
    /// `absent change K`: the feature that change K, counted from 1, reshapes or deletes is not
    /// there.
    Absent(u64),
    /// `exists change K`: the change adds a feature that is there already.
    Exists(u64),
    /// `stale CURRENT change K`: the feature's present version is CURRENT, and the change names
    /// another.
    Stale(u64, u64),
    /// `held`: an open search looks for a shape that would be placed.
    Held,
    /// `opened`
    Opened,
    /// `more`: the open search has more to see.
    More,
    /// `ready`: the open search has found all there is to find, and may be finished.
    Ready,
    /// `aborted`
    Aborted,
    /// `edition N`
    Edition(u64),
    /// `permit rule NAME edition N`, or `permit none edition N` where the document permits by
    /// default.
    Permitted(Option<Name>, u64),
    /// `denied rule NAME edition N`, or `denied none edition N` where no rule decides.
    Forbidden(Option<Name>, u64),
    /// `bye`
    Bye,
    /// `memory`: an allocation was refused.
    Memory(NoMemory),
    /// `error CODE`, an E, an H or the code of a shape's text: see `LineFault`.
    Error(LineFault),
    /// `error CODE`, D1 to D8: the text is no policy document.
    Unread(TextFault),
    /// `error CODE`, an X or an S: the world refuses the call. X9 is shown as the code of the
    /// index. Out of memory, an unknown subject, no seat left and a list that is held have replies
    /// of their own.
    Failed(WorldFault),
}

impl Reply {
    /// Whether the session's staged list was judged, applied or rejected: then it is dropped.
    pub fn ends_list(&self) -> bool
        ensures { result ≡ reply_ends_list self.now }
    {
        matches!(
            self,
            Reply::Applied(_)
                | Reply::Denied(..)
                | Reply::Absent(_)
                | Reply::Exists(_)
                | Reply::Stale(..)
        )
    }
}

/// The reply to a line.
#[derive(Debug, Drop)]
pub enum Said<A: Allocator> {
    /// A reply of one line.
    Line(Reply),
    /// `rows N`, and then the rows.
    Rows(Answer<A>),
    /// `rolled N`, and then a line for each record that was taken out.
    Rolled(Arc<Rolled<A>, A>),
}

/// The reply to a call that the world refuses.
pub fn fault_reply(fault: WorldFault) -> Reply
    ensures { result ≡ fault_reply fault }
{
    match fault {
        WorldFault::Memory(refusal) => Reply::Memory(refusal),
        WorldFault::Tree(TreeFault::Memory(refusal)) => Reply::Memory(refusal),
        WorldFault::Tree(TreeFault::Held(_)) => Reply::Held,
        WorldFault::NoSubject => Reply::Error(LineFault::NoSubject),
        WorldFault::NoPlace => Reply::Error(LineFault::NoPlace),
        other => Reply::Failed(other),
    }
}

/// The reply to STEP.
pub fn visit_reply(visit: Visit) -> Reply
    ensures { result ≡ visit_reply visit }
{
    match visit {
        Visit::More => Reply::More,
        Visit::Ready => Reply::Ready,
    }
}

/// The reply where no document was read: `memory`, or D1 to D8.
pub(crate) fn policy_reply(fault: TextFault) -> Reply
    ensures { result ≡ policy_reply fault }
{
    match fault {
        TextFault::Memory(refusal) => Reply::Memory(refusal),
        other => Reply::Unread(other),
    }
}

/// The name of the rule by which a denial denies, if one does.
fn denial_rule(denial: &Option<Denial>) -> Option<Name>
    ensures { result ≡ denial_rule denial.now }
{
    let denial = denial.as_ref()?;
    let rule = denial.rule()?;
    denial.decider().rule_name(rule)
}

/// The reply to a commit that the world has judged.
pub fn outcome_reply(outcome: &Outcome) -> Reply
    ensures { result ≡ outcome_reply outcome.now }
{
    match outcome {
        Outcome::Applied(version) => Reply::Applied(*version),
        Outcome::Refused(refusal, denial) => refusal_reply(refusal, denial),
    }
}

/// The reply to a list that was rejected.
fn refusal_reply(refusal: &Refusal, denial: &Option<Denial>) -> Reply
    ensures { result ≡ refusal_reply refusal.now.cause refusal.now.change denial.now }
{
    let change = refusal.change;
    match refusal.cause {
        Cause::Denied(_) => Reply::Denied(denial_rule(denial), change),
        Cause::Exists => Reply::Exists(change),
        Cause::Absent => Reply::Absent(change),
        Cause::Stale(current) => Reply::Stale(current, change),
    }
}
