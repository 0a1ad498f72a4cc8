//! Rulings on many features, for one subject and one action.

ghost use Rattle.std.specs.Prelude.{◌≡◌, IfOk};
ghost use Rattle.decision.specs.Folding.{asked};
ghost use Rattle.decision.specs.Known.{StandsBy};
ghost use Rattle.decision.specs.Rulings.{Rules};

use crate::deciders::Decider;
use crate::folding::Folded;
use crate::rests::Rests;
use crate::rulings::Ruling;
use combining::Question;
use features::{Action, Name, Subject};
use memory::NoMemory;
use plane::Shape;
use std::marker::Model;

/// How a document rules on what one subject asks of many features, one after another: by the rests
/// that are kept for it, and by a fold, made for the first feature that has none. A contract sees the
/// decider, the subject and the action.
#[derive(Debug, Drop)]
pub struct Reading<'a> {
    decider: &'a Decider,
    subject: Subject,
    action: Action,
    rests: Option<&'a Rests>,
    folded: Option<Folded<'a>>,
}

impl<'a> Model for Reading<'a> {
    ghost use Rattle.std.specs.Prelude.{◌≡◌, IfSome};
    ghost use Rattle.decision.specs.Folding.{FoldedData, Stored, stored, restored, restored-stored};
    ghost use Rattle.decision.specs.Known.{StandsBy};
    ghost use Rattle.std.specs.Coded.{code_by, codes};

    ghost Value = { FoldedData };

    ghost coded = { code_by Stored (Prim.hlevel codes) stored restored restored-stored };

    ghost view = { λ r. record {
      decider = r.decider.now;
      subject = r.subject;
      action = r.action;
    } };

    ghost invariant = { λ r. IfSome r.rests (λ kept. (kept.now.decider ≡ r.decider.now)
        × StandsBy kept.now.standpoint r.subject r.action)
        × IfSome r.folded (λ folded. folded
        ≡ record { decider = r.decider.now; subject = r.subject; action = r.action }) };
}

impl<'a> Reading<'a> {
    /// Where no rests are kept.
    pub(crate) fn new(decider: &'a Decider, subject: Subject, action: Action) -> Reading<'a>
        ensures { result ≡ record { decider = decider.now; subject = subject; action = action } }
    {
        Reading {
            decider,
            subject,
            action,
            rests: None,
            folded: None,
        }
    }

    /// Where these rests are kept.
    pub(crate) fn by_rests(
        decider: &'a Decider,
        subject: Subject,
        action: Action,
        rests: &'a Rests,
    ) -> Reading<'a>
        requires decider { rests.now.decider ≡ decider.now }
        requires standpoint { StandsBy rests.now.standpoint subject action }
        ensures { result ≡ record { decider = decider.now; subject = subject; action = action } }
    {
        Reading {
            decider,
            subject,
            action,
            rests: Some(rests),
            folded: None,
        }
    }

    /// How the document rules if the subject asks for the action on a feature of this office and
    /// class, at this shape. Agrees with `Decider::decide`. Fails only when out of memory.
    pub fn decide(&mut self, owner: Name, class: Name, shape: Shape) -> Result<Ruling, NoMemory>
        ensures ruled { IfOk result
            (Rules self.old.decider.document (asked self.old owner class shape)) }
        ensures same { self.new ≡ self.old }
    {
        if let Some(rests) = self.rests {
            let question = Question {
                subject: self.subject,
                action: self.action,
                owner,
                class,
                shape,
            };
            if let Some(ruling) = rests.ruling(&question) {
                return Ok(ruling);
            }
        }
        if let Some(folded) = &self.folded {
            return Ok(folded.decide(owner, class, shape));
        }
        let folded = self.decider.fold(&self.subject, &self.action)?;
        let ruling = folded.decide(owner, class, shape);
        self.folded = Some(folded);
        Ok(ruling)
    }
}
