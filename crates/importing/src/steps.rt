//! What follows once a list is answered.

ghost use Rattle.std.specs.Prelude.{◌≡◌, ℕ, ◌+◌, IfNone, IfSome, count_by, take};
ghost use Rattle.importing.specs.Steps.{HasNo, is_staged, IsStagedAs, Follows, PointsTo};

use crate::replies::Reply;

/// What is to be done after the replies to a list's additions and to its COMMIT.
#[derive(Clone, Copy, Debug, PartialEq, Eq)]
pub enum Step {
    /// Those that were staged are applied; those that were not have their own replies.
    Done,
    /// The list is still staged: COMMIT is to be sent again.
    CommitAgain,
    /// Nothing is applied, as the addition at this index is denied: the others are to be sent again.
    Denies(usize),
    /// Nothing is applied, as there is a feature with the id of the addition at this index: it is to
    /// be looked at, and the others are to be sent again.
    Meets(usize),
    /// The server cannot go on with this list, or its reply is not known.
    Stop,
}

/// Whether an addition was staged.
pub fn is_staged(reply: Reply) -> bool
    ensures { result ≡ is_staged reply }
{
    matches!(reply, Reply::Staged)
}

/// The index of the addition that was staged as this one of all, counted from 1.
fn staged_index(adds: &[Reply], change: u64) -> Option<usize>
    ensures found { IfSome result (λ index. IsStagedAs adds.now index change) }
    ensures missing { IfNone result (HasNo adds.now change) }
{
    let mut count: u64 = 0;
    for (index, reply) in adds.iter().enumerate() {
        if is_staged(*reply) {
            count += 1;
            if count == change {
                return Some(index);
            }
        }
    }
    None
}

/// What is to be done after these replies to a list's additions and to its COMMIT.
pub fn next_step(adds: &[Reply], commit: Reply) -> Step
    ensures follows { Follows adds.now commit result }
    ensures points { PointsTo adds.now result }
{
    match commit {
        Reply::Applied => Step::Done,
        Reply::Busy => Step::CommitAgain,
        Reply::Denied(change) => match staged_index(adds, change) {
            Some(index) => Step::Denies(index),
            None => Step::Stop,
        },
        Reply::Exists(change) => match staged_index(adds, change) {
            Some(index) => Step::Meets(index),
            None => Step::Stop,
        },
        Reply::Staged | Reply::Error | Reply::Unknown => Step::Stop,
    }
}
