//! Subjects, lists of them, and the actions that they ask for.

ghost use Rattle.std.specs.Prelude.{◌≡◌, ◌≤◌, ◌↔◌, length, IsTrue};
ghost use Rattle.features.specs.Subjects.{subject_named, have_distinct_names, subjects_of};

use crate::names::Name;
use std::fmt;
use std::marker::Model;

/// The most subjects of a list.
pub const SUBJECT_LIMIT: usize = 64;

/// What a subject asks to do with a feature.
#[derive(Clone, Copy, Debug, PartialEq, Eq)]
pub enum Action {
    Read,
    Add,
    Reshape,
    Delete,
}

/// Who acts: a person or a program of an office. A steward may replace the access policy.
#[derive(Clone, Copy, Debug)]
pub struct Subject {
    pub name: Name,
    pub office: Name,
    pub role: Name,
    pub steward: bool,
}

impl PartialEq for Subject {
    ghost use Rattle.std.specs.Cmp.{decided, partial_equiv_from_equiv};
    ghost use Rattle.features.specs.Equality.{same_subject, same_subject_decides};

    ghost eq = { same_subject };

    ghost laws = { partial_equiv_from_equiv (decided same_subject same_subject_decides) };

    /// Whether the two are equal, field by field.
    fn eq(&self, other: &Subject) -> bool
        ensures tested { result ≡ same_subject self.now other.now }
        ensures exact { IsTrue result ↔ (self.now ≡ other.now) }
    {
        self.name == other.name
            && self.office == other.office
            && self.role == other.role
            && self.steward == other.steward
    }
}

impl Eq for Subject {
    ghost use Rattle.std.specs.Cmp.{decided};
    ghost use Rattle.features.specs.Equality.{same_subject, same_subject_decides};

    ghost laws = { decided same_subject same_subject_decides };
}

/// Why a list of subjects is rejected.
#[derive(Clone, Copy, Debug, PartialEq, Eq)]
pub enum SubjectsFault {
    NoneGiven,
    TooMany,
    NameTwice,
}

impl SubjectsFault {
    ghost use Rattle.features.specs.FaultCodes.{subjects_code};

    /// The fault's code, as users see it.
    pub fn code(self) -> &'static str
        ensures { result.now ≡ subjects_code self }
    {
        match self {
            SubjectsFault::NoneGiven => "N1",
            SubjectsFault::TooMany => "N2",
            SubjectsFault::NameTwice => "N3",
        }
    }
}

impl fmt::Display for SubjectsFault {
    ghost use Rattle.std.specs.Prelude.{Some};
    ghost use Rattle.features.specs.FaultCodes.{subjects_code};

    ghost output = { λ fault. Some (subjects_code fault) };

    fn fmt<W: fmt::Write>(&self, f: &mut fmt::Formatter<W>) -> fmt::Result {
        f.write_str(self.code())
    }
}

/// The subjects that a server knows: 1 to 64, with distinct names. A contract sees the list.
#[derive(Debug, Drop)]
pub struct Subjects {
    places: [Subject; SUBJECT_LIMIT],
    count: usize,
}

impl Model for Subjects {
    ghost use Rattle.std.specs.Prelude.{List, take};
    ghost use Rattle.features.specs.declared.actors.Subject.{Subject};
    ghost use Rattle.features.specs.Subjects.{HoldsSubjects};

    ghost Value = { List Subject };

    ghost view = { λ s. take s.count s.places };

    ghost invariant = { λ s. HoldsSubjects s.places s.count };
}

impl Subjects {
    /// Copies a list of subjects. Faults in this order: `NoneGiven` for an empty list, `TooMany`
    /// for more than 64, `NameTwice` if two have the same name.
    pub fn new(subjects: &[Subject]) -> Result<Subjects, SubjectsFault>
        ensures { result ≡ subjects_of subjects.now }
    {
        let Some(first) = subjects.first() else {
            return Err(SubjectsFault::NoneGiven);
        };
        if subjects.len() > SUBJECT_LIMIT {
            return Err(SubjectsFault::TooMany);
        }
        if !have_distinct_names(subjects) {
            return Err(SubjectsFault::NameTwice);
        }
        let mut places = [*first; SUBJECT_LIMIT];
        places[..subjects.len()].copy_from_slice(subjects);
        Ok(Subjects {
            places,
            count: subjects.len(),
        })
    }

    /// The subject with this name.
    pub fn get(&self, name: Name) -> Option<Subject>
        ensures { result ≡ subject_named name self.now }
    {
        find_named(self.as_slice(), &name)
    }

    /// The subjects, in the order in which they were given.
    pub fn as_slice(&self) -> &[Subject]
        ensures value { result.now ≡ self.now }
        ensures distinct { IsTrue (have_distinct_names self.now) }
        ensures some { 1 ≤ length self.now }
        ensures fits { length self.now ≤ SUBJECT_LIMIT }
    {
        &self.places[..self.count]
    }
}

/// The first subject with this name.
fn find_named(subjects: &[Subject], name: &Name) -> Option<Subject>
    ensures { result ≡ subject_named name.now subjects.now }
{
    for subject in subjects {
        if subject.name == *name {
            return Some(*subject);
        }
    }
    None
}

/// Whether no two of these subjects have the same name.
fn have_distinct_names(subjects: &[Subject]) -> bool
    ensures { result ≡ have_distinct_names subjects.now }
{
    let mut rest = subjects;
    while let Some((first, others)) = rest.split_first() {
        if find_named(others, &first.name).is_some() {
            return false;
        }
        rest = others;
    }
    true
}
