//! Policy documents that are in force.

ghost use Rattle.std.specs.Prelude.{◌≡◌, ◌↔◌, IfOk, IfErr, IsTrue};
ghost use Rattle.policy_documents.specs.Documents.{rule_named};
ghost use Rattle.decision.specs.Rulings.{Rules, ruling_by};

use crate::folding::Folded;
use crate::known::Known;
use crate::plans::Plan;
use crate::rulings::Ruling;
use combining::{Decision, Question, Verdict};
use features::{Action, Name, Subject};
use memory::{NoMemory, NotStored};
use policy_documents::{Document, Node};
use std::alloc::Global;
use std::marker::Model;

/// A policy document with its edition, compiled for deciding. It never changes after it is made, so
/// it can be shared. A contract sees the document's plain data and the edition.
#[derive(Debug, Drop)]
pub struct Decider {
    document: Document<Global>,
    edition: u64,
    plan: Plan<Global>,
}

impl Model for Decider {
    ghost use Rattle.decision.specs.Deciders.{DeciderData, Stored, stored, restored, restored-stored};
    ghost use Rattle.std.specs.Coded.{code_by, codes};

    ghost Value = { DeciderData };

    ghost coded = { code_by Stored (Prim.hlevel codes) stored restored restored-stored };

    ghost view = { λ d. record { document = d.document; edition = d.edition } };

    ghost use Rattle.combining.specs.declared.questions.Question.{Question};
    ghost use Rattle.decision.specs.Plans.{Decides};

    ghost invariant = { λ d. (q : Question) → Decides _ d.plan d.document.root q };
}

/// The allocator of a document's root.
pub(crate) fn heap_of(document: &Document<Global>) -> Global {
    match document.root() {
        Node::Set { of, .. } => *of.allocator(),
        Node::Policy { rules, .. } => *rules.allocator(),
    }
}

/// The ruling for a verdict: only a Permit lets pass.
pub(crate) fn ruling(verdict: Verdict) -> Ruling
    ensures { result ≡ ruling_by verdict.decision verdict.rule }
{
    match verdict.decision {
        Decision::Permit => Ruling::Permit(verdict.rule),
        Decision::Deny => match verdict.rule {
            Some(rule) => Ruling::DeniedBy(rule),
            None => Ruling::NoneApplied,
        },
        Decision::NotApplicable => Ruling::NoneApplied,
    }
}

impl Decider {
    /// A decider for a document under an edition. If out of memory, the error holds the document.
    pub fn new(
        document: Document<Global>,
        edition: u64,
    ) -> Result<Decider, NotStored<Document<Global>>>
        ensures ok { IfOk result
            (λ decider. decider ≡ record { document = document; edition = edition }) }
        ensures document_returned { IfErr result (λ failed. failed.value ≡ document) }
    {
        match Plan::new(heap_of(&document), &Known::Nothing, &document) {
            Ok(plan) => Ok(Decider {
                document,
                edition,
                plan,
            }),
            Err(cause) => Err(NotStored {
                value: document,
                cause,
            }),
        }
    }

    /// How the document rules on a question. Allocates nothing.
    pub fn decide(&self, question: &Question) -> Ruling
        ensures { Rules self.now.document question.now result }
    {
        ruling(self.plan.verdict(&self.document, question))
    }

    /// Specializes the decider for one subject and one action: all that these two determine is
    /// decided in advance. Fails only when out of memory.
    pub fn fold(&self, subject: &Subject, action: &Action) -> Result<Folded<'_>, NoMemory>
        ensures { IfOk result
            (λ folded. folded
            ≡ record { decider = self.now; subject = subject.now; action = action.now }) }
    {
        let known = Known::Asked {
            subject: *subject,
            action: *action,
        };
        let plan = Plan::new(heap_of(&self.document), &known, &self.document)?;
        Ok(Folded::new(self, *subject, *action, plan))
    }

    /// How many rules, policies and sets the compiled document has.
    pub(crate) fn steps(&self) -> usize {
        self.plan.len()
    }

    /// The name of the document's rule with this number, counted from 1 in document order.
    pub fn rule_name(&self, number: u32) -> Option<Name>
        ensures { result ≡ rule_named number self.now.document.root }
    {
        self.document.rule_name(number)
    }

    /// The document that this decider decides by.
    pub fn document(&self) -> &Document<Global>
        ensures { result.now ≡ self.now.document }
    {
        &self.document
    }

    /// The number of the document's edition.
    pub fn edition(&self) -> u64
        ensures { result ≡ self.now.edition }
    {
        self.edition
    }
}

impl PartialEq for Decider {
    ghost use Rattle.std.specs.Cmp.{decided, partial_equiv_from_equiv};
    ghost use Rattle.decision.specs.Equality.{same_decider, same_decider_decides};

    ghost eq = { same_decider };

    ghost laws = { partial_equiv_from_equiv (decided same_decider same_decider_decides) };

    /// Whether the two have equal documents and editions.
    fn eq(&self, other: &Self) -> bool
        ensures tested { result ≡ same_decider self.now other.now }
        ensures exact { IsTrue result ↔ (self.now ≡ other.now) }
    {
        self.document == other.document && self.edition == other.edition
    }
}

impl Eq for Decider {
    ghost use Rattle.std.specs.Cmp.{decided};
    ghost use Rattle.decision.specs.Equality.{same_decider, same_decider_decides};

    ghost laws = { decided same_decider same_decider_decides };
}
