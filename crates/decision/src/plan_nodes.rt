//! The steps of a plan.

ghost use Rattle.std.specs.Prelude.{◌≡◌};
ghost use Rattle.decision.specs.Plans.{count_below};

use policy_documents::{Algorithm, Conditions, Effect, Target};
use std::alloc::Allocator;

/// One step of a plan. A set or a policy comes before the steps below it.
#[derive(Debug, Drop)]
pub(crate) enum PlanNode<A: Allocator> {
    /// A rule with its number in document order, counted from 1.
    Rule {
        number: u32,
        effect: Effect,
        target: Target<A>,
        when: Conditions<A>,
    },
    /// A set or a policy. The next `below` steps are below it.
    Node {
        combine: Algorithm,
        target: Target<A>,
        below: usize,
    },
}

impl<A: Allocator> PlanNode<A> {
    /// How many of the steps after this one are below it.
    pub fn count_below(&self) -> usize
        ensures { result ≡ count_below _ self.now }
    {
        match self {
            PlanNode::Rule { .. } => 0,
            PlanNode::Node { below, .. } => *below,
        }
    }
}
