//! A policy that is kept ready for what was asked.

ghost use Rattle.std.specs.Prelude.{◌≡◌, IfSome, IsTrue, None, Some};
ghost use Rattle.std.specs.Arc.{arc_value};
ghost use Rattle.std.specs.List.{last_or};
ghost use Rattle.published_policies.specs.Explaining.{Explains};

use crate::explaining::{Explained, told};
use crate::policies::Policy;
use crate::seen_lists::SeenList;
use combining::Question;
use decision::{Decider, InForce};
use std::marker::Model;
use std::sync::Arc;

/// For how many subjects, actions and kinds of features, each an office and a class, a policy is
/// made ready.
const ASKED_LIMIT: usize = 64;

/// For how many kinds of features one question makes a policy ready.
const KINDS_AT_ONCE: usize = 16;

/// A policy that was published, with what is left of its document for what was asked about.
/// Contracts see the list that ends with it.
#[derive(Drop)]
pub(crate) struct ReadyPolicy {
    in_force: InForce,
    list: SeenList,
    /// What was asked about, as `mark_of` has it; beyond `count` nothing.
    asked: [u64; ASKED_LIMIT],
    count: usize,
}

impl Model for ReadyPolicy {
    ghost use Rattle.std.specs.Prelude.{◌≡◌, None, Some};
    ghost use Rattle.std.specs.List.{last_or};
    ghost use Rattle.std.specs.Coded.{code_by, codes};
    ghost use Rattle.published_policies.specs.Lists.{SeenData};
    ghost use Rattle.published_policies.specs.Coding.{StoredSeen, stored_seen, restored_seen, restored_seen-stored_seen};

    ghost Value = { SeenData };

    ghost coded = { code_by StoredSeen (Prim.hlevel codes) stored_seen restored_seen
        restored_seen-stored_seen };

    ghost view = { λ r. r.list };

    ghost invariant = { λ r. last_or None r.list.list ≡ Some r.in_force };
}

impl ReadyPolicy {
    /// The policy of this decider, with which the list ends. Nothing was asked about yet.
    fn new(decider: Arc<Decider>, list: SeenList) -> ReadyPolicy
        requires { last_or None list.list ≡ Some (arc_value decider) }
        ensures { result ≡ list }
    {
        ReadyPolicy {
            in_force: InForce::new(decider),
            list,
            asked: [0; ASKED_LIMIT],
            count: 0,
        }
    }

    /// Whether this list ends with the policy.
    fn is_of(&self, list: &SeenList) -> bool
        requires { list.now.book ≡ self.now.book }
        ensures { IsTrue result → list.now ≡ self.now }
    {
        self.list.is_same(list)
    }

    /// Notes what is asked about, and returns whether it is to be made ready: it was not asked about
    /// before, and there is a place for it.
    fn notes(&mut self, mark: u64) -> bool
        ensures { self.new ≡ self.old }
    {
        if self
            .asked
            .iter()
            .take(self.count)
            .any(|known| *known == mark)
        {
            return false;
        }
        match self.asked.get_mut(self.count) {
            Some(place) => {
                *place = mark;
                self.count += 1;
                true
            }
            None => false,
        }
    }

    /// Makes the policy ready for what this question's subject asks about such features, as far as
    /// there is memory.
    pub(crate) fn prepare(&mut self, question: &Question)
        ensures { self.new ≡ self.old }
    {
        if self.notes(mark_of(question)) {
            self.in_force.tell(question.owner, question.class);
            self.in_force
                .prepare(&question.subject, &question.action, KINDS_AT_ONCE);
        }
    }

    /// The policy's ruling on a question, if this list ends with it.
    pub(crate) fn explain(&self, list: &SeenList, question: &Question) -> Option<Explained>
        requires { list.now.book ≡ self.now.book }
        ensures { IfSome result (Explains list.now.list question.now) }
    {
        if !self.is_of(list) {
            return None;
        }
        let ruling = self.in_force.decide(question);
        Some(told(self.in_force.shared(), ruling))
    }
}

/// A number for what a question asks about, but for the feature's shape. Two that differ may have
/// the same number, but seldom do.
fn mark_of(question: &Question) -> u64 {
    let subject = &question.subject;
    let mut mark = question.action as u64;
    for name in [
        &subject.office,
        &subject.role,
        &question.owner,
        &question.class,
    ] {
        for byte in name.as_bytes() {
            mark = mark.wrapping_mul(0x100_0000_01b3) ^ u64::from(*byte);
        }
        mark = mark.wrapping_mul(0x100_0000_01b3);
    }
    mark
}

/// This policy: as it was made ready before, if it was. None where it has as many owners as can be
/// counted.
pub(crate) fn made_ready(ready: Option<ReadyPolicy>, policy: &Policy) -> Option<ReadyPolicy>
    requires { IfSome ready (λ before. before.book ≡ policy.now.book) }
    ensures { IfSome result (λ after. after ≡ policy.now) }
{
    let list = policy.list();
    if let Some(ready) = ready {
        if ready.is_of(&list) {
            return Some(ready);
        }
    }
    Some(ReadyPolicy::new(policy.shared().ok()?, list))
}
