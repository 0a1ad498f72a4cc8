//! When a match, a condition, a target or a rule holds for a question.

ghost use Rattle.std.specs.Prelude.{◌≡◌};
ghost use Rattle.std.specs.List.{list_all, list_any};
ghost use Rattle.features.specs.Equality.{same_name};
ghost use Rattle.combining.specs.Holding.{match_holds, term_holds, atom_holds, target_holds, rule_applies};

use crate::questions::Question;
use features::Name;
use policy_documents::{AllOf, AnyOf, Atom, Conditions, Match, Rule, Target, Term};
use std::alloc::Allocator;

/// Whether the zone of this name is met.
fn is_met(met: &[Name], name: Name) -> bool
    ensures { result ≡ list_any (same_name name) met.now }
{
    met.iter().any(|zone| name == *zone)
}

/// Whether a match holds; `met` are the names of the zones that the question's shape meets.
fn match_holds(question: &Question, met: &[Name], test: &Match) -> bool
    ensures { result ≡ match_holds question.now met.now test.now }
{
    match test {
        Match::Role(name) => question.subject.role == *name,
        Match::Office(name) => question.subject.office == *name,
        Match::Class(name) => question.class == *name,
        Match::Owner(name) => question.owner == *name,
        Match::Zone(name) => is_met(met, *name),
        Match::Action(action) => question.action == *action,
    }
}

fn term_holds(question: &Question, met: &[Name], term: &Term) -> bool
    ensures { result ≡ term_holds question.now met.now term.now }
{
    match term {
        Term::Match(test) => match_holds(question, met, test),
        Term::Own => question.owner == question.subject.office,
    }
}

fn atom_holds(question: &Question, met: &[Name], atom: &Atom) -> bool
    ensures { result ≡ atom_holds question.now met.now atom.now }
{
    match atom {
        Atom::Is(term) => term_holds(question, met, term),
        Atom::Not(term) => !term_holds(question, met, term),
    }
}

fn all_hold<A: Allocator>(question: &Question, met: &[Name], matches: &AllOf<A>) -> bool
    ensures { result ≡ list_all (match_holds question.now met.now) matches.now }
{
    let tests = matches.as_slice();
    for test in tests {
        if !match_holds(question, met, test) {
            return false;
        }
    }
    true
}

fn some_hold<A: Allocator>(question: &Question, met: &[Name], part: &AnyOf<A>) -> bool
    ensures { result ≡ list_any (list_all (match_holds question.now met.now)) part.now }
{
    let rows = part.as_slice();
    for matches in rows {
        if all_hold(question, met, matches) {
            return true;
        }
    }
    false
}

/// Whether a target holds: each of its parts has an alternative whose matches all hold. `met` are
/// the names of the zones that the question's shape meets.
pub fn target_holds<A: Allocator>(question: &Question, met: &[Name], target: &Target<A>) -> bool
    ensures { result ≡ target_holds question.now met.now target.now }
{
    let parts = target.as_slice();
    for part in parts {
        if !some_hold(question, met, part) {
            return false;
        }
    }
    true
}

/// Whether all these conditions hold; `met` are the names of the zones that the question's shape
/// meets.
pub fn conditions_hold<A: Allocator>(
    question: &Question,
    met: &[Name],
    when: &Conditions<A>,
) -> bool
    ensures { result ≡ list_all (atom_holds question.now met.now) when.now }
{
    let atoms = when.as_slice();
    for atom in atoms {
        if !atom_holds(question, met, atom) {
            return false;
        }
    }
    true
}

/// Whether a rule applies: its target and all its conditions hold.
pub(crate) fn rule_applies<A: Allocator>(question: &Question, met: &[Name], rule: &Rule<A>) -> bool
    ensures { result ≡ rule_applies question.now met.now rule.now }
{
    target_holds(question, met, &rule.target) && conditions_hold(question, met, &rule.when)
}
