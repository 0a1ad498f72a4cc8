//! The name of a list, a list that is new, and the word that is its length.

ghost use Rattle.std.specs.Prelude.{◌≡◌, []};
ghost use Rattle.state_lists.specs.Growing.{length_word};

use crate::growing::StateRule;
use crate::seen_states::SeenStates;
use logbook::{Seen, Start, Word};
use std::marker::{Brand, Model, PhantomData};

/// The name of a list. Its length and what was seen of it have that as a type parameter, so nobody
/// is told of another list. It is a name for proofs, without code.
pub trait StatesName {
    ghost use Rattle.logbook.specs.Pages.{Book};

    ghost states: { Book };
}

impl StatesName for Brand {
    ghost states = { record { number = 0; log_name = 0; cells_name = 0 } };
}

/// A list with no state, which has no name yet. Contracts see the book of the list: the name that
/// it is given (`StatesName`) has that book.
#[derive(Drop)]
pub struct NewList<S> {
    pub(crate) word: Word<S, u64, StateRule>,
    pub(crate) seen: Seen<S, u64, StateRule>,
}

impl<S> Model for NewList<S> {
    ghost use Rattle.std.specs.Prelude.{◌≡◌, []};
    ghost use Rattle.logbook.specs.Pages.{Book, book_coded};
    ghost use Rattle.state_lists.specs.Growing.{length_word};

    ghost Value = { Book };

    ghost coded = { book_coded };

    ghost view = { λ l. l.seen.book };

    ghost invariant = { λ l. (l.seen.log ≡ []) × (l.word ≡ length_word l.seen.book) };
}

impl<S> NewList<S> {
    /// A list with no state.
    pub fn new() -> NewList<S> {
        let (seen, mut first, _second) = Seen::open(Start::alone(), 0, 0);
        NewList {
            word: Word::tracked(0, &mut first),
            seen,
        }
    }

    /// The list under its name: its length, and its beginning of which nothing was seen.
    pub fn named<J: StatesName>(self) -> (ListLength<J, S>, SeenStates<J, S>)
        requires { self ≡ J.states }
        ensures { result.1 ≡ [] }
    {
        let NewList { word, seen } = self;
        let length = ListLength {
            word,
            of: PhantomData,
        };
        (length, SeenStates::nothing(seen))
    }
}

/// The word that threads share: the length of a list.
#[derive(Drop)]
pub struct ListLength<J: StatesName, S> {
    pub(crate) word: Word<S, u64, StateRule>,
    of: PhantomData<J>,
    ghost is_its_word: { word ≡ length_word J.states },
}
