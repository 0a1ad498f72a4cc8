//! Comparing records by their contents.

ghost use Rattle.std.specs.Prelude.{◌≡◌, ◌↔◌, IsTrue};
ghost use Rattle.audit_trail.specs.Equality.{same_rule, same_cause, same_refusal, same_search, same_rows, same_list, same_deed};
ghost use Rattle.audit_trail.specs.Records.{answered, applied, turned_away, governed};
ghost use Rattle.audit_trail.specs.Views.{deed_view};

use crate::records::{Deed, Record};
use decision::Decider;
use features::Subject;
use judging::{Cause, Refusal};
use kept_shapes::ChangeList;
use plane::Shape;
use std::alloc::Allocator;

impl<A: Allocator> PartialEq for Record<A> {
    ghost use Rattle.std.specs.Cmp.{decided, partial_equiv_from_equiv};
    ghost use Rattle.audit_trail.specs.Equality.{same_record, same_record_decides};

    ghost eq = { same_record };

    ghost laws = { partial_equiv_from_equiv (decided same_record same_record_decides) };

    /// Whether the two have the same seat and equal deeds.
    fn eq(&self, other: &Self) -> bool
        ensures tested { result ≡ same_record self.now other.now }
        ensures exact { IsTrue result ↔ (self.now ≡ other.now) }
    {
        self.seat() == other.seat() && same_deed(self.deed(), other.deed())
    }
}

impl<A: Allocator> Eq for Record<A> {
    ghost use Rattle.std.specs.Cmp.{decided};
    ghost use Rattle.audit_trail.specs.Equality.{same_record, same_record_decides};

    ghost laws = { decided same_record same_record_decides };
}

/// Whether two deeds are equal.
fn same_deed<A: Allocator>(first: &Deed<A>, second: &Deed<A>) -> bool
    ensures { result ≡ same_deed (deed_view first.now) (deed_view second.now) }
{
    match first {
        Deed::Answered {
            subject,
            window,
            ids,
            versions,
        } => is_answer(second, subject, window, ids, versions),
        Deed::Applied {
            subject,
            version,
            changes,
        } => is_applied_list(second, subject, *version, changes),
        Deed::Refused {
            subject,
            changes,
            refusal,
        } => is_refused_list(second, subject, changes, refusal),
        Deed::Governed { edition, decider } => is_governing(second, *edition, decider),
    }
}

/// Whether `deed` is this answer to a search.
fn is_answer<A: Allocator>(
    deed: &Deed<A>,
    subject: &Subject,
    window: &Shape,
    ids: &[u64],
    versions: &[u64],
) -> bool
    ensures { result
        ≡ same_deed (answered subject.now window.now ids.now versions.now) (deed_view deed.now) }
{
    match deed {
        Deed::Answered {
            subject: other,
            window: place,
            ids: others,
            versions: more,
        } => {
            same_search(subject, window, other, place) && same_rows(ids, versions, others, more)
        }
        _ => false,
    }
}

/// Whether `deed` applies this list as this version.
fn is_applied_list<A: Allocator>(
    deed: &Deed<A>,
    subject: &Subject,
    version: u64,
    changes: &ChangeList<A>,
) -> bool
    ensures { result ≡ same_deed (applied subject.now version changes.now) (deed_view deed.now) }
{
    match deed {
        Deed::Applied {
            subject: other,
            version: number,
            changes: others,
        } => same_list(subject, changes, other, others) && version == *number,
        _ => false,
    }
}

/// Whether `deed` rejects this list with this refusal.
fn is_refused_list<A: Allocator>(
    deed: &Deed<A>,
    subject: &Subject,
    changes: &ChangeList<A>,
    refusal: &Refusal,
) -> bool
    ensures { result
        ≡ same_deed (turned_away subject.now changes.now refusal.now) (deed_view deed.now) }
{
    match deed {
        Deed::Refused {
            subject: other,
            changes: others,
            refusal: why,
        } => same_list(subject, changes, other, others) && same_refusal(refusal, why),
        _ => false,
    }
}

/// Whether `deed` puts this decider's document in force as this edition.
fn is_governing<A: Allocator>(deed: &Deed<A>, edition: u64, decider: &Decider) -> bool
    ensures { result ≡ same_deed (governed edition decider.now) (deed_view deed.now) }
{
    match deed {
        Deed::Governed {
            edition: number,
            decider: other,
        } => edition == *number && *decider == **other,
        _ => false,
    }
}

/// Whether two searches have the same subject and window.
fn same_search(subject: &Subject, window: &Shape, other: &Subject, place: &Shape) -> bool
    ensures { result ≡ same_search subject.now window.now other.now place.now }
{
    subject == other && window == place
}

/// Whether two answers have the same rows: equal ids and equal versions.
fn same_rows(ids: &[u64], versions: &[u64], others: &[u64], more: &[u64]) -> bool
    ensures { result ≡ same_rows ids.now versions.now others.now more.now }
{
    *ids == *others && *versions == *more
}

/// Whether two lists have the same subject and equal changes.
fn same_list<A: Allocator>(
    subject: &Subject,
    changes: &ChangeList<A>,
    other: &Subject,
    others: &ChangeList<A>,
) -> bool
    ensures { result ≡ same_list subject.now changes.now other.now others.now }
{
    subject == other && changes.is_same(others)
}

/// Whether two refusals are equal.
fn same_refusal(first: &Refusal, second: &Refusal) -> bool
    ensures { result ≡ same_refusal first.now second.now }
{
    first.change == second.change && same_cause(&first.cause, &second.cause)
}

/// Whether two causes are equal.
fn same_cause(first: &Cause, second: &Cause) -> bool
    ensures { result ≡ same_cause first.now second.now }
{
    match first {
        Cause::Denied(rule) => match second {
            Cause::Denied(other) => same_rule(rule, other),
            _ => false,
        },
        Cause::Exists => match second {
            Cause::Exists => true,
            _ => false,
        },
        Cause::Absent => match second {
            Cause::Absent => true,
            _ => false,
        },
        Cause::Stale(version) => match second {
            Cause::Stale(other) => version == other,
            _ => false,
        },
    }
}

/// Whether both are the same rule, or both are `None`.
fn same_rule(rule: &Option<u32>, other: &Option<u32>) -> bool
    ensures { result ≡ same_rule rule.now other.now }
{
    match rule {
        Some(number) => match other {
            Some(another) => number == another,
            None => false,
        },
        None => other.is_none(),
    }
}
