//! Denials.

ghost use Rattle.std.specs.Prelude.{◌≡◌, IfOk};
ghost use Rattle.std.specs.Arc.{arc_value};
ghost use Rattle.judging.specs.Judging.{IsFounded};
ghost use Rattle.plain_world.specs.Answers.{denial_of};

use combining::Question;
use decision::Decider;
use judging::Cause;
use memory::{NoMemory, another};
use std::marker::Model;
use std::sync::Arc;

/// A change that the policy denies: the question, the decider, and the first deciding rule, or
/// `None` where no rule decided. Only a world makes one.
#[derive(Debug, Drop)]
pub struct Denial {
    question: Question,
    decider: Arc<Decider>,
    rule: Option<u32>,
}

impl Model for Denial {
    ghost use Rattle.std.specs.Arc.{arc_value};
    ghost use Rattle.plain_world.specs.Answers.{DenialData, IsDenial};
    ghost use Rattle.plain_world.specs.Coding.{StoredDenial, stored_denial, restored_denial, restored_denial-stored_denial};
    ghost use Rattle.std.specs.Coded.{code_by, codes};

    ghost Value = { DenialData };

    ghost coded = { code_by StoredDenial (Prim.hlevel codes) stored_denial restored_denial
        restored_denial-stored_denial };

    ghost view = { λ d. record {
      question = d.question;
      decider = arc_value d.decider;
      rule = d.rule;
    } };

    ghost invariant = { λ d. IsDenial
        (record { question = d.question; decider = arc_value d.decider; rule = d.rule }) };
}

impl Denial {
    ghost use Rattle.decision.specs.Rulings.{Denies};

    /// The question. The denial's decider denies it, by the denial's rule, or without one: because
    /// no rule applied, or by default.
    pub fn question(&self) -> Question
        ensures value { result ≡ self.now.question }
        ensures denied { Denies self.now.decider.document self.now.question self.now.rule }
    {
        self.question
    }

    /// The decider that denies it.
    pub fn decider(&self) -> &Arc<Decider>
        ensures { arc_value result.now ≡ self.now.decider }
    {
        &self.decider
    }

    /// The number of the first deciding rule, in document order. `None` where no rule decided: none
    /// applied, or the question is denied by default.
    pub fn rule(&self) -> Option<u32>
        ensures { result ≡ self.now.rule }
    {
        self.rule
    }
}

/// The denial to report for this cause: `None` unless the cause is `Denied`. Fails only where an
/// allocation is refused.
pub(crate) fn denial_for(
    decider: &Arc<Decider>,
    cause: &Cause,
    question: &Option<Question>,
) -> Result<Option<Denial>, NoMemory>
    requires { IsFounded (arc_value decider.now).document cause.now question.now }
    ensures { IfOk result
        (λ made. made ≡ denial_of (arc_value decider.now) cause.now question.now) }
{
    match (cause, question) {
        (Cause::Denied(rule), Some(question)) => {
            let decider = another(decider)?;
            Ok(Some(Denial {
                question: *question,
                decider,
                rule: *rule,
            }))
        }
        _ => Ok(None),
    }
}
