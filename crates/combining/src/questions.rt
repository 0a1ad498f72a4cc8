//! What is asked of a policy.

use features::{Action, Name, Subject};
use plane::Shape;

/// May this subject do this with a feature of this office and class, at this shape?
#[derive(Clone, Copy, Debug, PartialEq, Eq)]
pub struct Question {
    pub subject: Subject,
    pub action: Action,
    /// The office that the feature belongs to.
    pub owner: Name,
    pub class: Name,
    pub shape: Shape,
}
