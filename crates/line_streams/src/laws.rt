//! Laws that follow from the definitions alone. The functions do nothing; each is its contract.

ghost use Rattle.std.specs.Prelude.{List, ℕ, Option, Result};
ghost use Rattle.byte_streams.specs.declared.writing.Flushed.{Flushed};
ghost use Rattle.line_streams.specs.declared.streams.ServeFault.{ServeFault};
ghost use Rattle.line_streams.specs.Lines.{begun_of};
ghost use Rattle.line_streams.specs.Streams.{IsLine, RanOn, Rests, with_begun};

use crate::streams::LineDesk;

/// A run that was broken off, at a read or where its reads were used up, and is gone on with, is one
/// run: what is said of its last part is so of the whole, and by this of any number of parts. The
/// line that has begun, as every one that has, has no line feed.
pub fn parts_are_one_run<D: LineDesk>()
    ensures line { (text : List ℕ) → IsLine (begun_of text) }
    ensures whole { (reads : ℕ) (result : Result Flushed ServeFault) (old mid new : D.World × D)
        (held kept : List ℕ) (input left rest before between after : Option (List ℕ))
        → (first : Rests D.tells old mid held input left before between)
        → RanOn reads D.tells result mid new kept (with_begun (begun_of first.run.text) left) rest
        between after
        → RanOn reads D.tells result old new kept input rest before after }
{}
