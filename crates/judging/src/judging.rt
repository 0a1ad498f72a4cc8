//! Judging lists of changes.

ghost use Rattle.std.specs.Prelude.{◌≡◌};
ghost use Rattle.features.specs.Rows.{feature_with};
ghost use Rattle.features.specs.Changes.{change_id};
ghost use Rattle.judging.specs.Listing.{question_on};
ghost use Rattle.judging.specs.Judging.{question_on_new, stale, DenialOf, Objects, JudgedFrom, IsFoundedJudgement};

use crate::causes::{Cause, Judgement, Objection, Refusal};
use combining::Question;
use decision::{InForce, Ruling};
use feature_store::{Meter, Store};
use features::{Action, Change, Feature, Name, Subject};
use plane::Shape;
use std::alloc::Allocator;

/// Judges a list of changes: `Accepted`, or `Refused` for the first change that fails, with its
/// first cause. Each change is judged on the store as it is before the list. Allocates nothing.
pub fn judge<A: Allocator>(
    decider: &InForce,
    store: &Store<A>,
    subject: &Subject,
    changes: &[Change],
) -> Judgement
    ensures judged { JudgedFrom 1 decider.now.document store.now subject.now changes.now result }
    ensures founded { IsFoundedJudgement decider.now.document result }
{
    let mut number = 1;
    for change in changes {
        if let Some(objection) = objection_to(decider, store, subject, change) {
            let refusal = Refusal {
                change: number,
                cause: objection.cause,
            };
            return Judgement::Refused(refusal, objection.question);
        }
        number += 1;
    }
    Judgement::Accepted
}

/// The first objection to a change.
fn objection_to<A: Allocator>(
    decider: &InForce,
    store: &Store<A>,
    subject: &Subject,
    change: &Change,
) -> Option<Objection>
    ensures { Objects decider.now.document subject.now change.now
        (feature_with (change_id change.now) store.now) result }
{
    let mut meter = Meter::new();
    match store.get(change.id(), &mut meter) {
        Some(feature) => objection_where_present(decider, subject, change, &feature),
        None => objection_where_absent(decider, subject, change),
    }
}

/// The first objection to a change of an id that no feature has.
fn objection_where_absent(
    decider: &InForce,
    subject: &Subject,
    change: &Change,
) -> Option<Objection>
    ensures { Objects decider.now.document subject.now change.now None result }
{
    match change {
        Change::Add { class, shape, .. } => denial(
            decider,
            &question_on_new(subject, class, shape),
        ),
        Change::Reshape { .. } => Some(absent()),
        Change::Delete { .. } => Some(absent()),
    }
}

/// The first objection to a change of this feature's id.
fn objection_where_present(
    decider: &InForce,
    subject: &Subject,
    change: &Change,
    feature: &Feature,
) -> Option<Objection>
    ensures { Objects decider.now.document subject.now change.now (Some feature.now) result }
{
    match change {
        Change::Add { class, shape, .. } => {
            let denied = denial(decider, &question_on_new(subject, class, shape));
            denied.or(Some(in_use()))
        }
        Change::Reshape { version, shape, .. } => {
            let before = question_on(subject, Action::Reshape, feature, &feature.shape);
            let after = question_on(subject, Action::Reshape, feature, shape);
            let later = denial(decider, &after).or(stale(*version, feature));
            denial(decider, &before).or(later)
        }
        Change::Delete { version, .. } => {
            let question = question_on(subject, Action::Delete, feature, &feature.shape);
            denial(decider, &question).or(stale(*version, feature))
        }
    }
}

/// May the subject add a feature of this class at this shape?
fn question_on_new(subject: &Subject, class: &Name, shape: &Shape) -> Question
    ensures { result ≡ question_on_new subject.now class.now shape.now }
{
    Question {
        subject: *subject,
        action: Action::Add,
        owner: subject.office,
        class: *class,
        shape: *shape,
    }
}

/// May the subject do this with the feature, at this shape?
fn question_on(subject: &Subject, action: Action, feature: &Feature, shape: &Shape) -> Question
    ensures { result ≡ question_on subject.now action feature.now shape.now }
{
    Question {
        subject: *subject,
        action,
        owner: feature.office,
        class: feature.class,
        shape: *shape,
    }
}

/// The objection to a change if the decider denies this question.
fn denial(decider: &InForce, question: &Question) -> Option<Objection>
    ensures { DenialOf decider.now.document question.now result }
{
    let rule = match decider.decide(question) {
        Ruling::Permit(_) => return None,
        Ruling::DeniedBy(rule) => Some(rule),
        Ruling::NoneApplied => None,
    };
    Some(Objection {
        cause: Cause::Denied(rule),
        question: Some(*question),
    })
}

/// The objection that a feature already has the id.
fn in_use() -> Objection
    ensures { result ≡ record { cause = Cause.Exists; question = None } }
{
    Objection {
        cause: Cause::Exists,
        question: None,
    }
}

/// The objection that no feature has the id.
fn absent() -> Objection
    ensures { result ≡ record { cause = Cause.Absent; question = None } }
{
    Objection {
        cause: Cause::Absent,
        question: None,
    }
}

/// The objection that `seen` is not the feature's present version, if it is not.
fn stale(seen: u64, feature: &Feature) -> Option<Objection>
    ensures { result ≡ stale seen feature.now }
{
    if seen == feature.version {
        return None;
    }
    Some(Objection {
        cause: Cause::Stale(feature.version),
        question: None,
    })
}
