//! A published policy.

ghost use Rattle.std.specs.Prelude.{◌≡◌, ◌<◌, length, None, Some, IfOk};
ghost use Rattle.std.specs.Arc.{arc_value};
ghost use Rattle.std.specs.List.{last_or};
ghost use Rattle.published_policies.specs.Explaining.{Explains};

use crate::explaining::{Explained, explain};
use crate::seen_lists::SeenList;
use combining::Question;
use decision::Decider;
use left_right::Absorb;
use memory::{NoMemory, another};
use std::alloc::AllocError;
use std::marker::Model;
use std::sync::Arc;

/// A policy in force: its decider, and the list of policies that ends with it. Contracts see the
/// list.
#[derive(Drop)]
pub struct Policy {
    decider: Arc<Decider>,
    list: SeenList,
}

impl Model for Policy {
    ghost use Rattle.std.specs.Prelude.{◌≡◌, None, Some};
    ghost use Rattle.std.specs.Arc.{arc_value};
    ghost use Rattle.std.specs.List.{last_or};
    ghost use Rattle.std.specs.Coded.{code_by, codes};
    ghost use Rattle.published_policies.specs.Lists.{SeenData};
    ghost use Rattle.published_policies.specs.Coding.{StoredSeen, stored_seen, restored_seen, restored_seen-stored_seen};

    ghost Value = { SeenData };

    ghost coded = { code_by StoredSeen (Prim.hlevel codes) stored_seen restored_seen
        restored_seen-stored_seen };

    ghost view = { λ p. p.list };

    ghost invariant = { λ p. last_or None p.list.list ≡ Some (arc_value p.decider) };
}

impl Policy {
    /// The policy of this decider, with which the list ends.
    pub(crate) fn new(decider: Arc<Decider>, list: SeenList) -> Policy
        requires { last_or None list.list ≡ Some (arc_value decider) }
        ensures { result ≡ list }
    {
        Policy { decider, list }
    }

    /// The same policy again, over the same decider. Refused only where the decider has as many
    /// owners as can be counted.
    pub(crate) fn again(&self) -> Result<Policy, NoMemory>
        ensures { IfOk result (λ policy. policy ≡ self.now) }
    {
        Ok(Policy {
            decider: another(&self.decider)?,
            list: self.list.again(),
        })
    }

    /// The list that ends with this policy.
    pub(crate) fn list(&self) -> SeenList
        ensures list { result ≡ self.now }
        ensures not_empty { 0 < length self.now.list }
    {
        self.list.again()
    }

    /// The policy's decider, with one more owner. Refused only where it has as many owners as can be
    /// counted.
    pub(crate) fn shared(&self) -> Result<Arc<Decider>, NoMemory>
        ensures { IfOk result
            (λ decider. last_or None self.now.list ≡ Some (arc_value decider)) }
    {
        another(&self.decider)
    }

    /// The policy's ruling on a question.
    pub(crate) fn explain(&self, question: &Question) -> Explained
        ensures { Explains self.now.list question.now result }
    {
        explain(&self.decider, question)
    }
}

/// Each copy becomes the policy that is to be shown.
impl Absorb<Policy> for Policy {
    type State = SeenList;

    ghost state = { λ policy. policy };

    ghost applied = { λ policy next. next };

    fn absorb_first(&mut self, operation: &Policy, _other: &Policy) -> Result<(), AllocError> {
        match operation.again() {
            Ok(policy) => {
                *self = policy;
                Ok(())
            }
            Err(_) => Err(AllocError),
        }
    }
}
