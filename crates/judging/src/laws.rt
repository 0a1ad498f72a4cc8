//! Laws of the definitions. The functions have empty bodies: each is its contract.

ghost use Rattle.std.specs.Prelude.{◌≡◌, List};
ghost use Rattle.plane.specs.declared.point.Point.{Point};
ghost use Rattle.features.specs.Rows.{IsSortedById};
ghost use Rattle.judging.specs.Judging.{Judged, IsFoundedJudgement};
ghost use Rattle.judging.specs.Listing.{Listed, AreShown};
ghost use Rattle.judging.specs.States.{PlainState};

use crate::causes::Judgement;
use features::{Change, Feature, Subject};

/// At one state, a subject and a window have one listing, and a list of changes has one judgement.
/// A denial comes with a question that the document denies, by the rule it names or without a rule.
pub fn answers_are_one()
    ensures rows { (state : PlainState) (subject : Subject) (window : List Point)
        (rows others : List Feature) → Listed state subject window rows
        → Listed state subject window others → rows ≡ others }
    ensures judgement { (state : PlainState) (subject : Subject) (changes : List Change)
        (a b : Judgement) → Judged state subject changes a → Judged state subject changes b
        → a ≡ b }
    ensures founded { (state : PlainState) (subject : Subject) (changes : List Change)
        (judgement : Judgement) → Judged state subject changes judgement
        → IsFoundedJudgement state.decider.document judgement }
{}

/// Each listed row is shown. If the features are sorted by id, so are the rows, without repeats.
pub fn listings_are_shown_and_sorted()
    ensures shown { (state : PlainState) (subject : Subject) (window : List Point)
        (rows : List Feature) → Listed state subject window rows
        → AreShown state.decider.document subject window rows }
    ensures sorted { (state : PlainState) (subject : Subject) (window : List Point)
        (rows : List Feature) → IsSortedById state.features → Listed state subject window rows
        → IsSortedById rows }
{}
