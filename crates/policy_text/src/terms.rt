//! Reads matches and atoms from JSON values.

ghost use Rattle.std.specs.Prelude.{◌≡◌, ◌<◌, ◌≤◌, length, map};
ghost use Rattle.std.specs.List.{list_any};
ghost use Rattle.serde_json.specs.View.{view};
ghost use Rattle.features.specs.Equality.{same_name};
ghost use Rattle.policy_documents.specs.Views.{zone_of};
ghost use Rattle.policy_text.specs.Reading.{match_in, known_in, match_at, term_in, known_term, term_of, term_at, atom_at, own_in};

use crate::faults::TextFault;
use crate::fields::{action_in, name_in, single_in, within};
use crate::paths::{MemberName, PART_LIMIT, Path, PathPart};
use crate::targets::Part;
use features::Name;
use policy_documents::{Atom, Match, TEST_LIMIT, Term, ZoneName, Zones};
use serde_json::Value;
use std::alloc::Allocator;

const MATCH_KEYS: [MemberName; 6] = [
    MemberName::Role,
    MemberName::Office,
    MemberName::Class,
    MemberName::Owner,
    MemberName::Zone,
    MemberName::Action,
];

const TERM_KEYS: [MemberName; 7] = [
    MemberName::Role,
    MemberName::Office,
    MemberName::Class,
    MemberName::Owner,
    MemberName::Zone,
    MemberName::Action,
    MemberName::Own,
];

const ATOM_KEYS: [MemberName; 8] = [
    MemberName::Role,
    MemberName::Office,
    MemberName::Class,
    MemberName::Owner,
    MemberName::Zone,
    MemberName::Action,
    MemberName::Own,
    MemberName::Not,
];

/// Reads the match of an object whose only key is a match's.
#[tactic(auto, unfolding(crate::specs::Reading::match_in))]
fn match_in(value: &Value, path: Path) -> Result<Match, TextFault>
    requires { length path < PART_LIMIT }
    ensures { result ≡ match_in path (view value.now) }
{
    if value.get(MemberName::Role.text()).is_some() {
        return Ok(Match::Role(name_in(value, MemberName::Role, path)?));
    }
    if value.get(MemberName::Office.text()).is_some() {
        return Ok(Match::Office(name_in(value, MemberName::Office, path)?));
    }
    if value.get(MemberName::Class.text()).is_some() {
        return Ok(Match::Class(name_in(value, MemberName::Class, path)?));
    }
    if value.get(MemberName::Owner.text()).is_some() {
        return Ok(Match::Owner(name_in(value, MemberName::Owner, path)?));
    }
    if value.get(MemberName::Zone.text()).is_some() {
        return Ok(Match::Zone(name_in(value, MemberName::Zone, path)?));
    }
    Ok(Match::Action(action_in(value, path)?))
}

/// Whether a zone has this name.
pub(crate) fn has_zone<A: Allocator>(zones: &Zones<A>, name: Name) -> bool
    ensures { result ≡ list_any (λ z. same_name name z.name) (map zone_of zones.now.entries) }
{
    zones.contains_key(&ZoneName { name })
}

/// Checks that the zone of the match at `path` exists (else `NoZone`).
fn known_in<A: Allocator>(zones: &Zones<A>, test: &Match, path: Path) -> Result<(), TextFault>
    requires { length path < PART_LIMIT }
    ensures { result ≡ known_in (map zone_of zones.now.entries) path test.now }
{
    match test {
        Match::Zone(name) => {
            if has_zone(zones, *name) {
                Ok(())
            } else {
                Err(TextFault::NoZone(path.with(PathPart::Member(MemberName::Zone)), *name))
            }
        }
        _ => Ok(()),
    }
}

impl<A: Allocator + Copy> Part<A> for Match {
    ghost reads = { match_at };

    ghost depth = { 1 };

    #[tactic(auto, unfolding(crate::specs::Reading::match_at))]
    fn read<B: Allocator>(
        _alloc: A,
        zones: &Zones<B>,
        value: &Value,
        path: Path,
        tests: u32,
    ) -> Result<(Self, u32), TextFault> {
        single_in(value, &MATCH_KEYS, path)?;
        let test = match_in(value, path)?;
        known_in(zones, &test, path)?;
        let tests = within(TEST_LIMIT, tests, path)?;
        Ok((test, tests))
    }
}

/// Reads the term of an object whose only key is a term's.
#[tactic(auto, unfolding(crate::specs::Reading::term_in))]
fn term_in(value: &Value, path: Path) -> Result<Term, TextFault>
    requires { length path < PART_LIMIT }
    ensures { result ≡ term_in path (view value.now) }
{
    let Some(own) = value.get(MemberName::Own.text()) else {
        return Ok(Term::Match(match_in(value, path)?));
    };
    match own.as_bool() {
        Some(true) => Ok(Term::Own),
        _ => Err(TextFault::Form(path.with(PathPart::Member(MemberName::Own)))),
    }
}

/// Checks that the zone of the term at `path` exists (else `NoZone`).
fn known_term<A: Allocator>(zones: &Zones<A>, term: &Term, path: Path) -> Result<(), TextFault>
    requires { length path < PART_LIMIT }
    ensures { result ≡ known_term (map zone_of zones.now.entries) path term.now }
{
    match term {
        Term::Match(test) => known_in(zones, test, path),
        Term::Own => Ok(()),
    }
}

/// Reads the term of an object whose only key is a term's, and returns it with the count of matches
/// and atoms after it.
#[tactic(auto, unfolding(crate::specs::Reading::term_of))]
fn term_of<A: Allocator>(
    zones: &Zones<A>,
    value: &Value,
    path: Path,
    tests: u32,
) -> Result<(Term, u32), TextFault>
    requires { length path < PART_LIMIT }
    ensures { result ≡ term_of (map zone_of zones.now.entries) path tests (view value.now) }
{
    let term = term_in(value, path)?;
    known_term(zones, &term, path)?;
    let tests = within(TEST_LIMIT, tests, path)?;
    Ok((term, tests))
}

/// Reads the term in a `not`.
#[tactic(auto, unfolding(crate::specs::Reading::term_at))]
fn term_at<A: Allocator>(
    zones: &Zones<A>,
    value: &Value,
    path: Path,
    tests: u32,
) -> Result<(Term, u32), TextFault>
    requires { length path < PART_LIMIT }
    ensures { result ≡ term_at (map zone_of zones.now.entries) path tests (view value.now) }
{
    single_in(value, &TERM_KEYS, path)?;
    term_of(zones, value, path, tests)
}

impl<A: Allocator + Copy> Part<A> for Atom {
    ghost reads = { atom_at };

    ghost depth = { 2 };

    #[tactic(auto, unfolding(crate::specs::Reading::atom_at, crate::specs::Reading::atom_of))]
    fn read<B: Allocator>(
        _alloc: A,
        zones: &Zones<B>,
        value: &Value,
        path: Path,
        tests: u32,
    ) -> Result<(Self, u32), TextFault> {
        single_in(value, &ATOM_KEYS, path)?;
        let Some(inner) = value.get(MemberName::Not.text()) else {
            let (term, tests) = term_of(zones, value, path, tests)?;
            return Ok((Atom::Is(term), tests));
        };
        let tests = within(TEST_LIMIT, tests, path)?;
        let (term, tests) = term_at(
            zones,
            inner,
            path.with(PathPart::Member(MemberName::Not)),
            tests,
        )?;
        Ok((Atom::Not(term), tests))
    }
}
