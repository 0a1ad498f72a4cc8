//! How a list grows. The list is in the proofs alone, in a book of the crate `logbook`; at run time
//! there is one word, its length.

use logbook::{Gain, Plain, Play, Rule};

/// What holds of the book at any time: its word is the length of the list.
pub struct StateRule;

impl<S> Rule<S, u64> for StateRule {
    ghost use Rattle.std.specs.Prelude.{[]};
    ghost use base.Fml.{ftrue};
    ghost use Rattle.state_lists.specs.Growing.{IsKept};

    ghost holds = { λ cells list. IsKept cells list };

    ghost first = { [] };

    ghost hinted = { λ n list. Unit {0} };

    ghost shows = { λ list. [] };

    ghost keeps = { λ names list. ftrue };

    ghost moves = { λ ask before after answer. Unit {0} };
}

/// What a caller gains by adding a state: nothing.
pub struct NoGain;

impl<S> Gain<S, u64> for NoGain {
    ghost use base.Fml.{ftrue};

    ghost after = { λ names about answer. ftrue };
}

/// The step that adds a state, or finds that the list is longer than what was seen of it.
pub struct AddState;

impl<S> Play<S, u64> for AddState {
    ghost use Rattle.state_lists.specs.Growing.{Adds};

    ghost then = { Adds };
}

impl<S> Plain<S, S, u64> for AddState {
    ghost use Rattle.std.specs.Prelude.{None};

    ghost ask = { λ state. state };

    ghost state = { λ state. None };
}
