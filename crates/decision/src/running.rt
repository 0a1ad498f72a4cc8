//! Evaluates a plan's flat list of steps to a decision and the rule that made it.

ghost use Rattle.std.specs.Prelude.{◌≡◌};
ghost use Rattle.decision.specs.Plans.{Branches, flat, IsFlat, branches_verdict, step_verdict};

use crate::plan_nodes::PlanNode;
use combining::{
    Decision, Gathered, Question, Verdict, conditions_hold, effect_decision, target_holds,
};
use features::Name;
use policy_documents::Algorithm;
use std::alloc::Allocator;

const NOT_APPLICABLE: Verdict = Verdict {
    decision: Decision::NotApplicable,
    rule: None,
};

/// The verdict of an algorithm on these steps. Stops as soon as decision and rule are known.
#[cycle(run)]
pub(crate) fn run_steps<A: Allocator>(
    question: &Question,
    met: &[Name],
    combine: Algorithm,
    steps: &[PlanNode<A>],
) -> Verdict
    requires { IsFlat A steps.now }
    ensures { (row : Branches) → steps.now ≡ flat A row
        → result ≡ branches_verdict question.now met.now combine row }
{
    let mut gathered = Gathered::new();
    let mut rest = steps;
    while let Some((step, behind)) = rest.split_first() {
        if gathered.is_finished(combine) {
            return gathered.settle(combine);
        }
        let (below, others) = behind.split_at(step.count_below());
        let verdict = run_step(question, met, step, below);
        gathered = gathered.with(combine, verdict);
        rest = others;
    }
    gathered.settle(combine)
}

/// The verdict of `step`; `below` are the steps below it.
#[cycle(run)]
fn run_step<A: Allocator>(
    question: &Question,
    met: &[Name],
    step: &PlanNode<A>,
    below: &[PlanNode<A>],
) -> Verdict
    requires { IsFlat A below.now }
    ensures { (row : Branches) → below.now ≡ flat A row
        → result ≡ step_verdict question.now met.now A step.now row }
{
    match step {
        PlanNode::Rule {
            number,
            effect,
            target,
            when,
        } => {
            if target_holds(question, met, target) && conditions_hold(question, met, when) {
                return Verdict {
                    decision: effect_decision(*effect),
                    rule: Some(*number),
                };
            }
            NOT_APPLICABLE
        }
        PlanNode::Node {
            combine,
            target,
            ..
        } => {
            if !target_holds(question, met, target) {
                return NOT_APPLICABLE;
            }
            run_steps(question, met, *combine, below)
        }
    }
}
