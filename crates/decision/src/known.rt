//! Reduces tests by what is known of a question in advance: nothing, its subject and action, or all
//! but its shape.

ghost use Rattle.std.specs.Prelude.{◌≡◌, IfOk};
ghost use Rattle.combining.specs.Holding.{target_holds};
ghost use Rattle.decision.specs.Known.{told_match, told_own, told_atom, all_hold, some_hold, conditions_hold, KeepsTest, LeavesTest};

use features::{Action, Name, Subject};
use memory::{GrowVec, NoMemory};
use policy_documents::{AllOf, AnyOf, Atom, Conditions, Match, Target, Term};
use std::alloc::Allocator;

/// What is known of a question in advance.
#[derive(Clone, Copy)]
pub(crate) enum Known {
    Nothing,
    Asked {
        subject: Subject,
        action: Action,
    },
    /// All but the shape: who asks for what, and the feature's office and class.
    Feature {
        standpoint: Standpoint,
        owner: Name,
        class: Name,
    },
}

/// What policies can tell of who asks, and for what. Subjects of one office and one role are alike.
#[derive(Clone, Copy, Debug)]
pub(crate) struct Standpoint {
    pub office: Name,
    pub role: Name,
    pub action: Action,
}

/// A test, reduced by what is known.
#[derive(Drop)]
pub(crate) enum Kept<T> {
    /// It holds for each question that fits.
    Always,
    /// It holds for no question that fits.
    Never,
    /// This test is left to evaluate.
    Asks(T),
}

/// Whether a match holds; `None` if that is not known yet.
fn known_match(known: &Known, test: &Match) -> Option<bool>
    ensures { result ≡ told_match known.now test.now }
{
    match known {
        Known::Nothing => None,
        Known::Asked { subject, action } => match test {
            Match::Role(name) => Some(subject.role == *name),
            Match::Office(name) => Some(subject.office == *name),
            Match::Action(wanted) => Some(*action == *wanted),
            Match::Class(_) | Match::Owner(_) | Match::Zone(_) => None,
        },
        Known::Feature {
            standpoint,
            owner,
            class,
        } => match test {
            Match::Role(name) => Some(standpoint.role == *name),
            Match::Office(name) => Some(standpoint.office == *name),
            Match::Action(wanted) => Some(standpoint.action == *wanted),
            Match::Class(name) => Some(*class == *name),
            Match::Owner(name) => Some(*owner == *name),
            Match::Zone(_) => None,
        },
    }
}

/// Whether the feature is of the subject's own office; `None` if that is not known yet.
fn known_own(known: &Known) -> Option<bool>
    ensures { result ≡ told_own known.now }
{
    match known {
        Known::Nothing | Known::Asked { .. } => None,
        Known::Feature {
            standpoint,
            owner,
            ..
        } => Some(*owner == standpoint.office),
    }
}

/// Whether a condition holds; `None` if that is not known yet.
fn known_atom(known: &Known, atom: &Atom) -> Option<bool>
    ensures { result ≡ told_atom known.now atom.now }
{
    match atom {
        Atom::Is(Term::Match(test)) => known_match(known, test),
        Atom::Not(Term::Match(test)) => match known_match(known, test) {
            Some(holds) => Some(!holds),
            None => None,
        },
        Atom::Is(Term::Own) => known_own(known),
        Atom::Not(Term::Own) => match known_own(known) {
            Some(holds) => Some(!holds),
            None => None,
        },
    }
}

/// Reduces matches that all have to hold. Fails only when out of memory.
fn keep_all_of<A: Allocator, B: Allocator + Copy>(
    alloc: B,
    known: &Known,
    matches: &AllOf<A>,
) -> Result<Kept<AllOf<B>>, NoMemory>
    ensures { IfOk result (KeepsTest known.now all_hold matches.now) }
{
    let mut kept = Vec::new(alloc);
    let tests = matches.as_slice();
    for test in tests {
        match known_match(known, test) {
            Some(true) => {}
            Some(false) => return Ok(Kept::Never),
            None => kept.try_push(*test)?,
        }
    }
    if kept.is_empty() {
        return Ok(Kept::Always);
    }
    Ok(Kept::Asks(AllOf::from_vec(kept)))
}

/// Reduces alternatives, at least one of which has to hold. Fails only when out of memory.
fn keep_any_of<A: Allocator, B: Allocator + Copy>(
    alloc: B,
    known: &Known,
    alternatives: &AnyOf<A>,
) -> Result<Kept<AnyOf<B>>, NoMemory>
    ensures { IfOk result (KeepsTest known.now some_hold alternatives.now) }
{
    let mut kept = Vec::new(alloc);
    let rows = alternatives.as_slice();
    for matches in rows {
        match keep_all_of(alloc, known, matches)? {
            Kept::Always => return Ok(Kept::Always),
            Kept::Never => {}
            Kept::Asks(left) => kept.try_push(left)?,
        }
    }
    if kept.is_empty() {
        return Ok(Kept::Never);
    }
    Ok(Kept::Asks(AnyOf::from_vec(kept)))
}

/// Reduces a target; `None` if it holds for no question that fits. Fails only when out of memory.
pub(crate) fn keep_target<A: Allocator, B: Allocator + Copy>(
    alloc: B,
    known: &Known,
    target: &Target<A>,
) -> Result<Option<Target<B>>, NoMemory>
    ensures { IfOk result (LeavesTest known.now target_holds target.now) }
{
    let mut kept = Vec::new(alloc);
    let parts = target.as_slice();
    for part in parts {
        match keep_any_of(alloc, known, part)? {
            Kept::Always => {}
            Kept::Never => return Ok(None),
            Kept::Asks(left) => kept.try_push(left)?,
        }
    }
    Ok(Some(Target::from_vec(kept)))
}

/// Reduces conditions; `None` if they hold for no question that fits. Fails only when out of
/// memory.
pub(crate) fn keep_conditions<A: Allocator, B: Allocator + Copy>(
    alloc: B,
    known: &Known,
    when: &Conditions<A>,
) -> Result<Option<Conditions<B>>, NoMemory>
    ensures { IfOk result (LeavesTest known.now conditions_hold when.now) }
{
    let mut kept = Vec::new(alloc);
    let atoms = when.as_slice();
    for atom in atoms {
        match known_atom(known, atom) {
            Some(true) => {}
            Some(false) => return Ok(None),
            None => kept.try_push(*atom)?,
        }
    }
    Ok(Some(Conditions::from_vec(kept)))
}
