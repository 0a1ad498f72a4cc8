//! What a policy answers.

/// The decision of a rule, a policy, a set or a document. XACML 3.0's Indeterminate does not exist
/// here, because conditions cannot fail.
#[derive(Clone, Copy, Debug, PartialEq, Eq)]
pub enum Decision {
    Permit,
    Deny,
    NotApplicable,
}

/// What a document decides, and the number of its first deciding rule, if there is one. Rules are
/// numbered from 1, in document order.
#[derive(Clone, Copy, Debug, PartialEq, Eq)]
pub struct Verdict {
    pub decision: Decision,
    pub rule: Option<u32>,
}
