//! How a list grows. The list is in the proofs alone, in a book of the crate `logbook`; at run time
//! there is one word, its length.

use decision::Decider;
use logbook::{Gain, Plain, Play, Rule};
use std::sync::Arc;

/// What holds of the book at any time: its word is the length of the list, whose editions follow one
/// another.
pub struct ListRule;

impl Rule<Decider, u64> for ListRule {
    ghost use Rattle.std.specs.Prelude.{[]};
    ghost use base.Fml.{ftrue};
    ghost use Rattle.published_policies.specs.Growing.{IsKept};

    ghost holds = { λ cells list. IsKept cells list };

    ghost first = { [] };

    ghost hinted = { λ n list. Unit {0} };

    ghost shows = { λ list. [] };

    ghost keeps = { λ names list. ftrue };

    ghost moves = { λ ask before after answer. Unit {0} };
}

/// What a caller gains by adding a policy: nothing.
pub struct NoGain;

impl Gain<Decider, u64> for NoGain {
    ghost use base.Fml.{ftrue};

    ghost after = { λ names about answer. ftrue };
}

/// The step that adds a policy, or finds that the list is longer than what was seen of it.
pub struct Add;

impl Play<Decider, u64> for Add {
    ghost use Rattle.published_policies.specs.Growing.{Adds};

    ghost then = { Adds };
}

impl Plain<Arc<Decider>, Decider, u64> for Add {
    ghost use Rattle.std.specs.Prelude.{None};
    ghost use Rattle.std.specs.Arc.{arc_value};

    ghost ask = { λ decider. arc_value decider };

    ghost state = { λ decider. None };
}
