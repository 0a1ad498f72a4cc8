//! Rules.

ghost use Rattle.std.specs.Prelude.{◌≡◌, ◌↔◌, IfOk, IsTrue};
ghost use Rattle.policy_documents.specs.Equality.{same_rule};

use crate::algorithms::Effect;
use crate::matches::{Conditions, Target, copy_items, copy_target};
use features::Name;
use memory::NoMemory;
use std::alloc::Allocator;
use std::marker::Model;

/// A rule: it decides its effect if its target and all its conditions hold.
#[derive(Debug, Drop)]
pub struct Rule<A: Allocator> {
    pub name: Name,
    pub effect: Effect,
    pub target: Target<A>,
    pub when: Conditions<A>,
}

impl<A: Allocator> Model for Rule<A> {
    ghost use Rattle.policy_documents.specs.Documents.{RuleData};

    ghost Value = { RuleData };

    ghost view = { λ r. record {
      name = r.name;
      effect = r.effect;
      target = r.target;
      when = r.when;
    } };
}

impl<A: Allocator> Rule<A> {
    /// A copy of the rule. Fails only when out of memory.
    pub fn copy<B: Allocator + Copy>(&self, alloc: B) -> Result<Rule<B>, NoMemory>
        ensures { IfOk result (λ copy. copy ≡ self.now) }
    {
        Ok(Rule {
            name: self.name,
            effect: self.effect,
            target: copy_target(alloc, &self.target)?,
            when: copy_items(alloc, &self.when)?,
        })
    }
}

impl<A: Allocator> PartialEq for Rule<A> {
    ghost use Rattle.std.specs.Cmp.{decided, partial_equiv_from_equiv};
    ghost use Rattle.policy_documents.specs.Equality.{same_rule, same_rule_decides};

    ghost eq = { same_rule };

    ghost laws = { partial_equiv_from_equiv (decided same_rule same_rule_decides) };

    fn eq(&self, other: &Self) -> bool
        ensures tested { result ≡ same_rule self.now other.now }
        ensures exact { IsTrue result ↔ (self.now ≡ other.now) }
    {
        is_same(self, other)
    }
}

impl<A: Allocator> Eq for Rule<A> {
    ghost use Rattle.std.specs.Cmp.{decided};
    ghost use Rattle.policy_documents.specs.Equality.{same_rule, same_rule_decides};

    ghost laws = { decided same_rule same_rule_decides };
}

/// Whether two rules are equal, field by field.
#[tactic(auto, using(crate::proofs::EqualLemmas::same_target_derived, crate::proofs::EqualLemmas::same_conditions_derived))]
fn is_same<A: Allocator>(rule: &Rule<A>, other: &Rule<A>) -> bool
    ensures { result ≡ same_rule rule.now other.now }
{
    rule.name == other.name
        && rule.effect == other.effect
        && rule.target == other.target
        && rule.when == other.when
}
