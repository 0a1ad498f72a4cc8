//! The last published policy is kept in two copies (crate `left_right`): readers read one, while
//! the writer prepares the other, and then shows that. What readers and writer know of the list is
//! in the proofs alone.

use crate::policies::Policy;
use crate::seen_lists::SeenList;
use atomic_table::{Join, Split};
use crossbeam_utils::rule::{Outcome, Protocol};

/// What holds at any time: each list that a reader or the writer knows is a prefix of the shown
/// one.
pub struct CopyRule;

impl Protocol<Policy, Option<SeenList>> for CopyRule {
    ghost use Rattle.std.specs.Prelude.{None};
    ghost use Rattle.published_policies.specs.Copies.{AllFit};

    ghost holds = { λ policy. AllFit policy };

    ghost first = { None };
}

/// The step in which a reader reads the shown copy, and the one in which the writer shows the
/// other: the list that is shown is known afterwards.
pub struct Learn;

impl Outcome<Policy, Option<SeenList>> for Learn {
    ghost use Rattle.published_policies.specs.Copies.{Learns};

    ghost then = { λ old before shown new. Learns old shown new };
}

/// The steps in which the writer tells a new reader the list that it knows.
pub struct HandOn;

impl Split<Option<SeenList>> for HandOn {
    ghost left = { λ known. known };

    ghost right = { λ known. known };
}

impl Join<Option<SeenList>> for HandOn {
    ghost use Rattle.std.specs.Prelude.{None};

    ghost both = { λ known told. told };

    ghost spent = { None };
}
