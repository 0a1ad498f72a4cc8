//! Documents folded for one subject and one action.

ghost use Rattle.std.specs.Prelude.{◌≡◌};
ghost use Rattle.combining.specs.declared.questions.Question.{Question};
ghost use Rattle.decision.specs.Folding.{asked};
ghost use Rattle.decision.specs.Plans.{Decides};
ghost use Rattle.decision.specs.Rulings.{Rules};

use crate::deciders::{Decider, ruling};
use crate::plans::Plan;
use crate::rulings::Ruling;
use combining::Question;
use features::{Action, Name, Subject};
use plane::Shape;
use std::alloc::Global;
use std::marker::Model;

/// A decider folded for one subject and one action: matches of role, office and action are decided
/// in advance, and rules, sets and policies that cannot apply are left out. Rules keep their
/// numbers. A contract sees the decider, the subject and the action.
#[derive(Debug, Drop)]
pub struct Folded<'a> {
    decider: &'a Decider,
    subject: Subject,
    action: Action,
    plan: Plan<Global>,
}

impl<'a> Model for Folded<'a> {
    ghost use Rattle.std.specs.Prelude.{◌≡◌};
    ghost use Rattle.combining.specs.declared.questions.Question.{Question};
    ghost use Rattle.decision.specs.Folding.{FoldedData, Stored, stored, restored, restored-stored};
    ghost use Rattle.decision.specs.Plans.{Decides};
    ghost use Rattle.std.specs.Coded.{code_by, codes};

    ghost Value = { FoldedData };

    ghost coded = { code_by Stored (Prim.hlevel codes) stored restored restored-stored };

    ghost view = { λ f. record {
      decider = f.decider.now;
      subject = f.subject;
      action = f.action;
    } };

    ghost invariant = { λ f. (q : Question) → q.subject ≡ f.subject → q.action ≡ f.action
        → Decides _ f.plan f.decider.now.document.root q };
}

impl<'a> Folded<'a> {
    /// The decider with a plan for questions of this subject and action.
    pub(crate) fn new(
        decider: &'a Decider,
        subject: Subject,
        action: Action,
        plan: Plan<Global>,
    ) -> Folded<'a>
        requires { (q : Question) → q.subject ≡ subject → q.action ≡ action
            → Decides _ plan decider.now.document.root q }
        ensures { result ≡ record { decider = decider.now; subject = subject; action = action } }
    {
        Folded {
            decider,
            subject,
            action,
            plan,
        }
    }

    /// How the document rules if the subject asks for the action on a feature of this office and
    /// class, at this shape. Agrees with `Decider::decide`. Allocates nothing.
    pub fn decide(&self, owner: Name, class: Name, shape: Shape) -> Ruling
        ensures { Rules self.now.decider.document (asked self.now owner class shape) result }
    {
        let question = Question {
            subject: self.subject,
            action: self.action,
            owner,
            class,
            shape,
        };
        ruling(self.plan.verdict(self.decider.document(), &question))
    }
}
