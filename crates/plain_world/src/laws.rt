//! Laws over runs. The functions do nothing; their contracts state the laws.

ghost use Rattle.std.specs.Prelude.{◌≡◌, ◌⊎◌, ℕ, ◌++◌, ◌∷◌, [], IsTrue, List, Some};
ghost use Rattle.plane.specs.declared.point.Point.{Point};
ghost use Rattle.features.specs.Rows.{IsSortedById};
ghost use Rattle.policy_documents.specs.Documents.{DocumentData};
ghost use Rattle.decision.specs.Deciders.{DeciderData};
ghost use Rattle.judging.specs.Judging.{Judged};
ghost use Rattle.judging.specs.declared.causes.Judgement.{Judgement};
ghost use Rattle.audit_trail.specs.Legal.{IsSeated, IsLegal, replay};
ghost use Rattle.plain_world.specs.Answers.{AnswerData};
ghost use Rattle.plain_world.specs.Events.{Event, Finish, Answer, Commit, Govern, Roll, Reply, Number, Rows, Ended, TakenOut, Happens, Failed, Run};
ghost use Rattle.plain_world.specs.Laws.{IsExact, IsAnswerTo, Accounts, EndsAs, IsStewards, LeadsOn, AddsAlone, Leaves, IsAsked, IsOrdered, IsUnderWay, records_out, in_force, outcome_of};
ghost use Rattle.plain_world.specs.Rolls.{RolledData};
ghost use Rattle.plain_world.specs.Settings.{IsSettled};
ghost use Rattle.plain_world.specs.Staging.{TransactionData, transaction_with};
ghost use Rattle.judging.specs.States.{PlainState};
ghost use Rattle.plain_world.specs.States.{WorldData, IsSoundWorld, opened, opened_from};
ghost use Rattle.plain_world.specs.declared.faults.Fault.{Fault};
ghost use Rattle.plain_world.specs.declared.outcomes.Outcome.{Outcome};

use crate::settings::{Limits, Starts};
use features::Subject;

/// A run followed by one more event is a run, and two runs are one where the second begins at the
/// world that the first leaves. So events in any order, each on the world that the one before it
/// leaves, are a run.
pub fn runs_go_on()
    ensures event { (old mid new : WorldData) (steps : List (Event × Reply)) (event : Event)
        (reply : Reply) → Run old steps mid → Happens event mid new reply
        → Run old (steps ++ (event, reply) ∷ []) new }
    ensures run { (old mid new : WorldData) (before later : List (Event × Reply))
        → Run old before mid → Run mid later new → Run old (before ++ later) new }
{}

/// Over every run from a sound world, the trail is legal from its base and the state is its replay.
pub fn every_run_is_sound()
    ensures { (old new : WorldData) (steps : List (Event × Reply)) → IsSoundWorld old
        → Run old steps new → IsSoundWorld new }
{}

/// After any run from a sound world, an answer has its seat's subject, its search's window and the
/// decider in force, and it lists exactly the rows that are listed at that moment. The trail up to
/// then accounts for the state.
pub fn every_answer_is_exact()
    ensures search { (old mid new : WorldData) (before : List (Event × Reply)) (seat number : ℕ)
        (answer : AnswerData) → IsSoundWorld old → Run old before mid
        → Happens (Finish seat number) mid new (Rows answer) → IsExact seat number mid answer
        × Accounts mid }
    ensures whole { (old mid new : WorldData) (before : List (Event × Reply)) (seat : ℕ)
        (window : List Point) (answer : AnswerData) → IsSoundWorld old → Run old before mid
        → Happens (Answer seat window) mid new (Rows answer) → IsAnswerTo seat window mid answer
        × Accounts mid }
{}

/// After any run from a sound world, the outcome of a commit is the judgement of the staged list on
/// the present state: the list is applied as a whole under the next version, or features, version
/// and policy stay unchanged. A denial is given exactly where the first failing change is denied by
/// the decider in force.
pub fn every_outcome_is_the_judgement()
    ensures { (old mid new : WorldData) (before : List (Event × Reply)) (seat number : ℕ)
        (outcome : Outcome) → IsSoundWorld old → Run old before mid
        → Happens (Commit seat number) mid new (Ended outcome) → EndsAs seat number mid new outcome
        × Accounts mid }
{}

/// After any run from a sound world, only a steward puts a document in force, under the next
/// edition.
pub fn every_policy_is_a_stewards()
    ensures { (old mid new : WorldData) (before : List (Event × Reply)) (seat : ℕ)
        (document : DocumentData) (edition : ℕ) → IsSoundWorld old → Run old before mid
        → Happens (Govern seat document) mid new (Number edition)
        → IsStewards seat document edition mid new × Accounts mid }
{}

/// After any run from a sound world, a piece that is rolled out is legal from its base, and its
/// replay is the base of the trail that follows.
pub fn every_piece_leads_on()
    ensures { (old mid new : WorldData) (before : List (Event × Reply)) (seat : ℕ)
        (piece : RolledData) → IsSoundWorld old → Run old before mid
        → Happens (Roll seat) mid new (TakenOut piece) → LeadsOn mid new piece }
{}

/// Only a steward rolls the trail.
pub fn every_roll_is_a_stewards()
    ensures { (old new : WorldData) (seat : ℕ) (piece : RolledData)
        → Happens (Roll seat) old new (TakenOut piece) → (subject : Subject)
        × IsSeated seat old.seats subject × IsTrue subject.steward }
{}

/// No number of a search or of a transaction is given twice: what opens gets the next number, and
/// the next one is then one higher. No event changes the subjects, the opening decider, where
/// numbers started, or the limits.
pub fn numbers_are_given_once()
    ensures { (event : Event) (old new : WorldData) (reply : Reply) → Happens event old new reply
        → IsSettled event old new reply }
{}

/// An answer, an outcome and a governed edition each add their own record to the trail, and change
/// the state as that record says. A roll takes the trail out. Every other event, and every refused
/// one, leaves features, version, document, edition and trail unchanged.
pub fn records_are_added_alone()
    ensures { (event : Event) (old new : WorldData) (reply : Reply) → Happens event old new reply
        → AddsAlone event old new reply }
{}

/// A refused event leaves the whole world unchanged, except that an overrun (S7) ends its search or
/// transaction.
pub fn every_refusal_changes_nothing()
    ensures { (event : Event) (old new : WorldData) (fault : Fault)
        → Happens event old new (Failed fault) → Leaves event old new fault }
{}

/// A world that has just been opened is sound; its features are sorted by id, and no staged list
/// names a feature twice. Every run keeps the latter two, so the rows of an answer are sorted by
/// id.
pub fn every_run_is_ordered()
    ensures opened { (subjects : List Subject) (decider : DeciderData) (starts : Starts)
        (limits : Limits) → IsSoundWorld (opened subjects decider starts limits)
        × IsOrdered (opened subjects decider starts limits) }
    ensures opened_from { (subjects : List Subject) (base : PlainState) (starts : Starts)
        (limits : Limits) → IsSortedById base.features
        → IsSoundWorld (opened_from subjects base starts limits)
        × IsOrdered (opened_from subjects base starts limits) }
    ensures run { (old new : WorldData) (steps : List (Event × Reply)) → IsOrdered old
        → Run old steps new → IsOrdered new }
    ensures rising { (old mid new : WorldData) (before : List (Event × Reply)) (seat number : ℕ)
        (answer : AnswerData) → IsOrdered old → Run old before mid
        → Happens (Finish seat number) mid new (Rows answer) → IsSortedById answer.rows }
    ensures whole { (old mid new : WorldData) (before : List (Event × Reply)) (seat : ℕ)
        (window : List Point) (answer : AnswerData) → IsOrdered old → Run old before mid
        → Happens (Answer seat window) mid new (Rows answer) → IsSortedById answer.rows }
{}

/// Over every run from a sound world, the pieces that were rolled out and the present trail are one
/// legal trail from the base at the start of the run, and its replay is the state.
pub fn pieces_and_trail_join()
    ensures { (old new : WorldData) (steps : List (Event × Reply)) → IsSoundWorld old
        → Run old steps new → IsLegal new.seats old.base (records_out steps ++ new.trail)
        × (replay old.base (records_out steps ++ new.trail) ≡ new.state) }
{}

/// Over every run, the document and edition in force are those of the last `govern` that succeeded,
/// or else those at the start of the run.
pub fn policy_in_force_is_the_last()
    ensures { (old new : WorldData) (steps : List (Event × Reply)) → Run old steps new
        → new.state.decider ≡ in_force old.state.decider steps }
{}

/// In a world that has just been opened, the open searches and transactions are in order, and every
/// run keeps them so: their numbers rise and are below the next ones, so no number occurs twice,
/// and each staged list is within its limits.
pub fn what_is_under_way_is_in_order()
    ensures opened { (subjects : List Subject) (decider : DeciderData) (starts : Starts)
        (limits : Limits) → IsUnderWay (opened subjects decider starts limits) }
    ensures opened_from { (subjects : List Subject) (base : PlainState) (starts : Starts)
        (limits : Limits) → IsUnderWay (opened_from subjects base starts limits) }
    ensures run { (old new : WorldData) (steps : List (Event × Reply)) → IsUnderWay old
        → Run old steps new → IsUnderWay new }
{}

/// What is open was asked for. A search that is open after an event was opened by it, for the
/// event's seat and window, or was open before for the same seat and window. A transaction that is
/// open was opened by the event, for its seat and with nothing staged; or it was open before for
/// the same seat, with the same list, or without the one change that the event stages for this seat
/// and transaction. Seats stay given; at most one more is given, to the subject that the event
/// names.
pub fn what_is_under_way_was_asked()
    ensures { (event : Event) (old new : WorldData) (reply : Reply) → Happens event old new reply
        → IsAsked event old new reply }
{}

/// A commit that is not refused ends as its judgement says: an accepted list is applied, and a
/// failing one is rejected for its first failing change.
pub fn every_commit_ends_as_judged()
    ensures { (old new : WorldData) (seat number : ℕ) (subject : Subject) (t : TransactionData)
        (judgement : Judgement) (reply : Reply) → IsSeated seat old.seats subject
        → transaction_with number old.transactions ≡ Some t
        → Judged old.state subject t.changes judgement → Happens (Commit seat number) old new reply
        → ((fault : Fault) × (reply ≡ Failed fault))
        ⊎ (reply ≡ Ended (outcome_of old.state judgement)) }
{}
