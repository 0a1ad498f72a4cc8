//! The outcome of a commit.

use crate::denials::Denial;
use judging::Refusal;

/// How a committed list ended.
#[derive(Debug, Drop)]
pub enum Outcome {
    /// The whole list is applied, under this version.
    Applied(u64),
    /// The list is rejected, and no feature is changed. The denial is given exactly where the first
    /// failing change fails because the policy denies it.
    Refused(Refusal, Option<Denial>),
}
