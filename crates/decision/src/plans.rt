//! Documents compiled for deciding.

ghost use Rattle.std.specs.Prelude.{◌≡◌, IfOk};
ghost use Rattle.combining.specs.Deciding.{Answers, verdict_of};
ghost use Rattle.combining.specs.declared.questions.Question.{Question};
ghost use Rattle.decision.specs.Known.{Fits};
ghost use Rattle.decision.specs.Plans.{Decides, IsFlat};
ghost use Rattle.policy_documents.specs.Documents.{NodeData};

use crate::compiling::compile_node;
use crate::known::Known;
use crate::plan_nodes::PlanNode;
use crate::running::run_steps;
use combining::{Question, Verdict, met_zones};
use features::Name;
use memory::NoMemory;
use policy_documents::{Algorithm, Document};
use std::alloc::Allocator;
use std::marker::Model;

/// A document compiled to one flat list, for questions that may be known in part: its numbered
/// rules, its sets and its policies, in document order. A contract sees the list.
#[derive(Debug, Drop)]
pub(crate) struct Plan<A: Allocator> {
    steps: Vec<PlanNode<A>, A>,
}

impl<A: Allocator> Model for Plan<A> {
    ghost use Rattle.std.specs.Prelude.{List};
    ghost use Rattle.decision.specs.declared.plan_nodes.PlanNode.{PlanNode};

    ghost Value = { List (PlanNode A) };

    ghost view = { λ p. p.steps.items };
}

impl<A: Allocator + Copy> Plan<A> {
    /// Compiles a document for questions that fit `known`. Fails only when out of memory.
    pub fn new<D: Allocator>(
        alloc: A,
        known: &Known,
        document: &Document<D>,
    ) -> Result<Plan<A>, NoMemory>
        ensures { IfOk result
            (λ plan. (q : Question) → Fits known.now q → Decides A plan document.now.root q) }
    {
        let mut steps = Vec::new(alloc);
        compile_node(alloc, known, document.root(), 1, &mut steps)?;
        Ok(Plan { steps })
    }
}

impl<A: Allocator> Plan<A> {
    /// How many steps the plan has.
    pub fn len(&self) -> usize {
        self.steps.len()
    }

    /// What `document` decides; this has to be its plan. Allocates nothing.
    pub fn verdict<D: Allocator>(&self, document: &Document<D>, question: &Question) -> Verdict
        requires { Decides A self.now document.now.root question.now }
        ensures { Answers document.now question.now result }
    {
        let _root = document.root();
        if document.zone_count() == 0 {
            return self.verdict_by(question, &[]);
        }
        self.verdict_in_zones(document, question)
    }

    /// What `document` decides, by the zones of it that the question's shape meets.
    fn verdict_in_zones<D: Allocator>(&self, document: &Document<D>, question: &Question) -> Verdict
        requires { Decides A self.now document.now.root question.now }
        ensures { Answers document.now question.now result }
    {
        let _root = document.root();
        let met = met_zones(document, &question.shape, question.class);
        self.verdict_by(question, met.as_slice())
    }

    /// What the steps decide where the zones with these names are met.
    fn verdict_by(&self, question: &Question, met: &[Name]) -> Verdict
        requires { IsFlat A self.now }
        ensures { (root : NodeData) → Decides A self.now root question.now
            → result ≡ verdict_of question.now met.now root }
    {
        run_steps(question, met, Algorithm::FirstApplicable, &self.steps)
    }
}
