//! The name of a list, and a list before its first policy.

ghost use Rattle.std.specs.Prelude.{◌≡◌};

use crate::growing::ListRule;
use decision::Decider;
use logbook::{Seen, Start, Word};
use std::marker::{Brand, Model};

/// The name of a list. A list's publisher, its views and its editions have it as a type parameter,
/// so a view is never told of another list. It is a name for proofs, without code: a program makes
/// an `EmptyList`, and passes it to a function that is generic in the name, which it calls at
/// `Brand`.
pub trait ListName {
    ghost use Rattle.logbook.specs.Pages.{Book};

    ghost book: { Book };
}

impl ListName for Brand {
    ghost book = { record { number = 0; log_name = 0; cells_name = 0 } };
}

/// A list with no policy, which has no name yet. Contracts see the book of the list: the name that
/// it is given (`ListName`) has that book.
#[derive(Drop)]
pub struct EmptyList {
    pub(crate) word: Word<Decider, u64, ListRule>,
    pub(crate) seen: Seen<Decider, u64, ListRule>,
}

impl Model for EmptyList {
    ghost use Rattle.std.specs.Prelude.{◌≡◌, []};
    ghost use Rattle.logbook.specs.Pages.{Book, book_coded};
    ghost use Rattle.published_policies.specs.Growing.{length_word};

    ghost Value = { Book };

    ghost coded = { book_coded };

    ghost view = { λ e. e.seen.book };

    ghost invariant = { λ e. (e.seen.log ≡ []) × (e.word ≡ length_word e.seen.book) };
}

impl EmptyList {
    /// A new list.
    #[tactic(auto, using(crate::proofs::ListLemmas::no_editions))]
    pub fn new() -> EmptyList {
        let (seen, mut first, _second) = Seen::open(Start::alone(), 0, 0);
        EmptyList {
            word: Word::tracked(0, &mut first),
            seen,
        }
    }
}
