//! Why a list of changes is rejected.

use combining::Question;

/// Why a change fails.
#[derive(Clone, Copy, Debug, PartialEq, Eq)]
pub enum Cause {
    /// The policy in force denies it: by its first deciding rule, or, with `None`, because no rule
    /// applied or by default.
    Denied(Option<u32>),
    /// A feature already has the id.
    Exists,
    /// No feature has the id.
    Absent,
    /// The feature has this version, and the editor has seen another one.
    Stale(u64),
}

/// Why a list of changes is rejected: the number of its first failing change, counted from 1, and
/// that change's cause.
#[derive(Clone, Copy, Debug, PartialEq, Eq)]
pub struct Refusal {
    pub change: u64,
    pub cause: Cause,
}

/// Why a change fails: the cause, and for a denial the question that was denied.
#[derive(Clone, Copy, Debug, PartialEq, Eq)]
pub(crate) struct Objection {
    pub cause: Cause,
    pub question: Option<Question>,
}

/// What becomes of a list of changes.
#[derive(Clone, Copy, Debug, PartialEq, Eq)]
pub enum Judgement {
    Accepted,
    /// The list is rejected. The question that was denied is present exactly for a denial.
    Refused(Refusal, Option<Question>),
}
