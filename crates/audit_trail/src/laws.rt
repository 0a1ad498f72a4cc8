//! Laws of the definitions. The functions have empty bodies: each is its contract.

ghost use Rattle.std.specs.Prelude.{◌≡◌, ℕ, ◌++◌, ◌↔◌, List};
ghost use Rattle.audit_trail.specs.Calls.{calls_of};
ghost use Rattle.audit_trail.specs.Legal.{IsLegal, replay};
ghost use Rattle.audit_trail.specs.Records.{RecordData};
ghost use Rattle.judging.specs.States.{PlainState};

use features::Subject;

/// A trail is legal from a base exactly if its first part is, and the rest is legal from the replay
/// of that part. Replaying the rest from there gives the replay of the whole. The calls of a seat
/// in the whole are those in the first part followed by those in the rest.
pub fn trails_join()
    ensures legal { (seats : List Subject) (base : PlainState) (first rest : List RecordData) →
        IsLegal seats base (first ++ rest) ↔ (IsLegal seats base first
        × IsLegal seats (replay base first) rest) }
    ensures replayed { (base : PlainState) (first rest : List RecordData) →
        replay base (first ++ rest) ≡ replay (replay base first) rest }
    ensures calls { (seat : ℕ) (first rest : List RecordData) →
        calls_of seat (first ++ rest) ≡ calls_of seat first ++ calls_of seat rest }
{}
