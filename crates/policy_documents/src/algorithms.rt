//! Combining algorithms, and the effects of rules.

/// How a set or a policy combines the decisions of its children: the algorithms of XACML 3.0,
/// appendix C, without Indeterminate, because conditions cannot fail.
#[derive(Clone, Copy, Debug, PartialEq, Eq)]
pub enum Algorithm {
    /// C.2: a Deny overrides a Permit.
    DenyOverrides,
    /// C.4: a Permit overrides a Deny.
    PermitOverrides,
    /// C.6: Permit if a child permits, otherwise Deny.
    DenyUnlessPermit,
    /// C.7: Deny if a child denies, otherwise Permit.
    PermitUnlessDeny,
    /// C.8: the first child that is applicable decides.
    FirstApplicable,
}

/// The decision of a rule that applies.
#[derive(Clone, Copy, Debug, PartialEq, Eq)]
pub enum Effect {
    Permit,
    Deny,
}
