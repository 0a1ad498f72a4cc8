//! The ruling on a question, with its edition and its rule.

ghost use Rattle.std.specs.Prelude.{◌≡◌};
ghost use Rattle.published_policies.specs.Explaining.{ExplainsBy, name_of_rule, rule_in};

use combining::Question;
use decision::{Decider, Ruling};
use features::Name;

/// A policy's ruling on a question.
#[derive(Clone, Copy, Debug, PartialEq, Eq)]
pub struct Explained {
    /// The edition of the policy.
    pub edition: u64,
    /// The ruling of its document.
    pub ruling: Ruling,
    /// The document's name of the rule that decided; `None` where no rule did.
    pub rule: Option<Name>,
}

/// The ruling of a decider on a question.
pub(crate) fn explain(decider: &Decider, question: &Question) -> Explained
    ensures { ExplainsBy decider.now question.now result }
{
    told(decider, decider.decide(question))
}

/// What is told of a ruling of this decider.
pub(crate) fn told(decider: &Decider, ruling: Ruling) -> Explained
    ensures edition { result.edition ≡ decider.now.edition }
    ensures ruling { result.ruling ≡ ruling }
    ensures rule { result.rule ≡ name_of_rule decider.now (rule_in ruling) }
{
    let rule = name_of_rule(decider, rule_in(&ruling));
    Explained {
        edition: decider.edition(),
        ruling,
        rule,
    }
}

/// The number of the rule that decided, if one did.
fn rule_in(ruling: &Ruling) -> Option<u32>
    ensures { result ≡ rule_in ruling.now }
{
    match ruling {
        Ruling::Permit(rule) => *rule,
        Ruling::DeniedBy(rule) => Some(*rule),
        Ruling::NoneApplied => None,
    }
}

/// The name of a rule by its number, if there is one.
fn name_of_rule(decider: &Decider, rule: Option<u32>) -> Option<Name>
    ensures { result ≡ name_of_rule decider.now rule }
{
    match rule {
        Some(number) => decider.rule_name(number),
        None => None,
    }
}
