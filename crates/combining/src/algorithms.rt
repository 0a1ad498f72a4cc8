//! The combining algorithms of XACML 3.0.

ghost use Rattle.std.specs.Prelude.{◌≡◌, not, []};
ghost use Rattle.combining.specs.Decisions.{combined, is_settled, is_not_applicable};

use crate::decisions::Decision;
use policy_documents::Algorithm;

/// What is kept of the decisions of a node's children, instead of storing each of them.
#[derive(Clone, Copy, Debug)]
pub(crate) struct Tally {
    permits: bool,
    denies: bool,
    first: Decision,
}

impl Tally {
    ghost use Rattle.combining.specs.Tallies.{tally_of, with_decision, settled};

    pub fn new() -> Tally
        ensures { result ≡ tally_of [] }
    {
        Tally {
            permits: false,
            denies: false,
            first: Decision::NotApplicable,
        }
    }

    /// The tally with one more decision.
    pub fn with(self, decision: Decision) -> Tally
        ensures { result ≡ with_decision self decision }
    {
        Tally {
            permits: self.permits || matches!(decision, Decision::Permit),
            denies: self.denies || matches!(decision, Decision::Deny),
            first: match self.first {
                Decision::NotApplicable => decision,
                Decision::Permit => Decision::Permit,
                Decision::Deny => Decision::Deny,
            },
        }
    }

    /// Whether one of the decisions is a Permit.
    pub fn permits(self) -> bool
        ensures { result ≡ self.permits }
    {
        self.permits
    }

    /// Whether one of the decisions is a Deny.
    pub fn denies(self) -> bool
        ensures { result ≡ self.denies }
    {
        self.denies
    }

    /// Whether one of the decisions is a Permit or a Deny.
    pub fn is_applicable(self) -> bool
        ensures { result ≡ not (is_not_applicable self.first) }
    {
        !matches!(self.first, Decision::NotApplicable)
    }

    /// What an algorithm makes of the decisions.
    pub fn settle(self, algorithm: Algorithm) -> Decision
        ensures { result ≡ settled algorithm self }
    {
        match algorithm {
            Algorithm::DenyOverrides if self.denies => Decision::Deny,
            Algorithm::DenyOverrides if self.permits => Decision::Permit,
            Algorithm::DenyOverrides => Decision::NotApplicable,
            Algorithm::PermitOverrides if self.permits => Decision::Permit,
            Algorithm::PermitOverrides if self.denies => Decision::Deny,
            Algorithm::PermitOverrides => Decision::NotApplicable,
            Algorithm::DenyUnlessPermit if self.permits => Decision::Permit,
            Algorithm::DenyUnlessPermit => Decision::Deny,
            Algorithm::PermitUnlessDeny if self.denies => Decision::Deny,
            Algorithm::PermitUnlessDeny => Decision::Permit,
            Algorithm::FirstApplicable => self.first,
        }
    }
}

/// The decision of an algorithm over the decisions of all children, in their order.
pub fn combine(algorithm: Algorithm, decisions: &[Decision]) -> Decision
    ensures { result ≡ combined algorithm decisions.now }
{
    let mut tally = Tally::new();
    for decision in decisions {
        tally = tally.with(*decision);
    }
    tally.settle(algorithm)
}

/// Whether a child with this decision settles the algorithm: if no child before it did, the
/// algorithm's decision is this one, whatever the children after it decide.
pub fn settled(algorithm: Algorithm, decision: Decision) -> bool
    ensures { result ≡ is_settled algorithm decision }
{
    match algorithm {
        Algorithm::DenyOverrides | Algorithm::PermitUnlessDeny => {
            matches!(decision, Decision::Deny)
        }
        Algorithm::PermitOverrides | Algorithm::DenyUnlessPermit => {
            matches!(decision, Decision::Permit)
        }
        Algorithm::FirstApplicable => !matches!(decision, Decision::NotApplicable),
    }
}
