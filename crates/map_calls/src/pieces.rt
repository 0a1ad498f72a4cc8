//! Pieces of the trail that were taken out, and are kept until they are let go.

ghost use Rattle.std.specs.Prelude.{◌≡◌, ◌≤◌, ◌<◌, ◌+◌, IfSome, OnOk, length, map, option_map, string_bytes, vec_capacity, vec_len};
ghost use Rattle.std.specs.Arc.{arc_value};
ghost use Rattle.map_sessions.specs.Keeping.{next_number};
ghost use Rattle.map_calls.specs.Keeping.{IsPieceKept, is_asked, is_full, left_of, lines_asked, no_pieces, pieces_data, place_asked};

use features::Name;
use memory::{GrowVec, NoMemory};
use plain_world::Rolled;
use std::alloc::Allocator;
use std::sync::Arc;

/// How many pieces are kept at most.
pub const PIECE_LIMIT: usize = 4;

/// A piece of the trail.
#[derive(Debug, Drop)]
pub struct Piece<A: Allocator> {
    /// The number by which it is asked for.
    pub(crate) number: u64,
    /// Who took it out; nobody else gets it.
    pub(crate) asker: Name,
    pub(crate) rolled: Arc<Rolled<A>, A>,
}

impl<A: Allocator> Piece<A> {
    /// Whether it has this number, and was taken out by this subject.
    fn is_asked(&self, number: u64, asker: &Name) -> bool
        ensures { result ≡ is_asked number asker.now self.now }
    {
        self.number == number && self.asker == *asker
    }
}

/// The pieces of the trail that were taken out and not let go, the oldest first: at most
/// `PIECE_LIMIT`.
#[derive(Debug, Drop)]
pub struct Pieces<A: Allocator> {
    pub(crate) pieces: Vec<Piece<A>, A>,
    /// The greatest number that was given.
    pub(crate) given: u64,
}

impl<A: Allocator> Pieces<A> {
    /// Nothing is kept yet.
    pub fn new(alloc: A) -> Self
        ensures { pieces_data result ≡ no_pieces }
    {
        Pieces {
            pieces: Vec::new(alloc),
            given: 0,
        }
    }

    /// Whether as many are kept as may be.
    pub(crate) fn is_full(&self) -> bool
        ensures { result ≡ is_full (pieces_data self.now) }
    {
        self.pieces.len() >= PIECE_LIMIT
    }

    /// Makes room for one more.
    pub(crate) fn make_room(&mut self) -> Result<(), NoMemory>
        ensures same { pieces_data self.new ≡ pieces_data self.old }
        ensures room { OnOk result
            (vec_len self.new.pieces + 1 ≤ vec_capacity self.new.pieces) }
    {
        self.pieces.make_slot()
    }

    /// Keeps what was taken out, for who took it out, under the next number, which it returns. There
    /// is room for it.
    pub(crate) fn keep(&mut self, asker: Name, rolled: Arc<Rolled<A>, A>) -> u64
        requires { vec_len self.old.pieces + 1 ≤ vec_capacity self.old.pieces }
        ensures kept { IsPieceKept asker (arc_value rolled) (pieces_data self.old)
            (pieces_data self.new) }
        ensures number { result ≡ next_number self.old.given }
    {
        let number = self.given.saturating_add(1);
        self.pieces.push_reserved(Piece {
            number,
            asker,
            rolled,
        });
        self.given = number;
        number
    }

    /// The lines of the piece of a number, if this subject took it out.
    pub(crate) fn lines(&self, number: u64, asker: &Name) -> Option<&[String<A>]>
        ensures { option_map (λ lines. map string_bytes lines.now) result
            ≡ lines_asked number asker.now self.now.pieces.items }
    {
        for piece in &self.pieces {
            if piece.is_asked(number, asker) {
                return Some(piece.rolled.lines());
            }
        }
        None
    }

    /// Where the piece of a number stands, if this subject took it out.
    fn place(&self, number: u64, asker: &Name) -> Option<usize>
        ensures place { result ≡ place_asked 0 number asker.now self.now.pieces.items }
        ensures fits { IfSome result (λ place. place < length self.now.pieces.items) }
    {
        let mut place = 0;
        for piece in &self.pieces {
            if piece.is_asked(number, asker) {
                return Some(place);
            }
            place += 1;
        }
        None
    }

    /// Lets the piece of a number go, if this subject took it out; else nothing changes. Whether
    /// there was one.
    pub(crate) fn let_go(&mut self, number: u64, asker: &Name) -> bool
        ensures { (result, pieces_data self.new) ≡ left_of number asker.now (pieces_data self.old) }
    {
        match self.place(number, asker) {
            Some(place) => {
                let _piece = self.pieces.remove(place);
                true
            }
            None => false,
        }
    }
}
