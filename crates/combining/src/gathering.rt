//! What is kept of the children of a set or a policy while they are evaluated one by one.

ghost use Rattle.std.specs.Prelude.{◌≡◌, ◌&&◌, []};
ghost use Rattle.combining.specs.Gathering.{with_verdict, settled_verdict, stays_open, nothing_gathered};
ghost use Rattle.combining.specs.Finishing.{is_finished};

use crate::algorithms::Tally;
use crate::decisions::{Decision, Verdict};
use policy_documents::Algorithm;

/// What is known of some children: the tally of their decisions, and the first rules below them
/// that made a Permit and a Deny.
#[derive(Clone, Copy, Debug)]
pub struct Gathered {
    tally: Tally,
    counts: bool,
    permitting: Option<u32>,
    denying: Option<u32>,
}

/// Whether rules after a child with this decision still count. Under first-applicable they do only
/// if no child so far was applicable.
fn still_counts(counts: bool, algorithm: Algorithm, decision: Decision) -> bool
    ensures { result ≡ (counts && stays_open algorithm decision) }
{
    counts
        && match algorithm {
            Algorithm::FirstApplicable => matches!(decision, Decision::NotApplicable),
            _ => true,
        }
}

impl Gathered {
    /// What is known of no children.
    pub fn new() -> Gathered
        ensures { result ≡ nothing_gathered }
    {
        Gathered {
            tally: Tally::new(),
            counts: true,
            permitting: None,
            denying: None,
        }
    }

    /// The same with one more child.
    pub fn with(self, algorithm: Algorithm, child: Verdict) -> Gathered
        ensures { result ≡ with_verdict algorithm self child }
    {
        let mut gathered = self;
        match child.decision {
            Decision::Permit if self.counts => gathered.permitting = self.permitting.or(child.rule),
            Decision::Deny if self.counts => gathered.denying = self.denying.or(child.rule),
            _ => {}
        }
        gathered.tally = self.tally.with(child.decision);
        gathered.counts = still_counts(self.counts, algorithm, child.decision);
        gathered
    }

    /// Whether no later child can change the decision, nor the rule that made it.
    pub fn is_finished(self, algorithm: Algorithm) -> bool
        ensures { result ≡ is_finished algorithm self }
    {
        match algorithm {
            Algorithm::DenyOverrides | Algorithm::PermitUnlessDeny => {
                self.tally.denies() && self.denying.is_some()
            }
            Algorithm::PermitOverrides | Algorithm::DenyUnlessPermit => {
                self.tally.permits() && self.permitting.is_some()
            }
            Algorithm::FirstApplicable => !self.counts && self.tally.is_applicable(),
        }
    }

    /// What an algorithm makes of the children, and the first rule that made it.
    pub fn settle(self, algorithm: Algorithm) -> Verdict
        ensures { result ≡ settled_verdict algorithm self }
    {
        let decision = self.tally.settle(algorithm);
        let rule = match decision {
            Decision::Permit => self.permitting,
            Decision::Deny => self.denying,
            Decision::NotApplicable => None,
        };
        Verdict { decision, rule }
    }
}
