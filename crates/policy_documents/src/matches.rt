//! Tests of a question: matches, conditions, and targets.

ghost use Rattle.std.specs.Prelude.{◌≡◌, ◌↔◌, IfOk, IsTrue};
ghost use Rattle.std.specs.Cmp.Lexicographic.{pointwise, lists_per, lists_equiv};

use features::{Action, Name};
use memory::{GrowVec, NoMemory, copied};
use std::alloc::Allocator;
use std::marker::Model;

/// A test of one part of a question.
#[derive(Clone, Copy, Debug, PartialEq, Eq)]
pub enum Match {
    /// The subject's role is this one.
    Role(Name),
    /// The subject's office is this one.
    Office(Name),
    /// The feature's class is this one.
    Class(Name),
    /// The feature belongs to this office.
    Owner(Name),
    /// The question's shape meets the shape of this zone.
    Zone(Name),
    /// The subject asks for this action.
    Action(Action),
}

/// A match, or the test that the feature belongs to the subject's own office.
#[derive(Clone, Copy, Debug, PartialEq, Eq)]
pub enum Term {
    Match(Match),
    Own,
}

/// A condition of a rule: a term that has to hold, or one that must not.
#[derive(Clone, Copy, Debug, PartialEq, Eq)]
pub enum Atom {
    Is(Term),
    Not(Term),
}

/// Parts, in written order. A contract sees the list.
#[derive(Debug, Drop)]
pub struct Items<T, A: Allocator> {
    items: Vec<T, A>,
}

/// Matches that all have to hold.
pub type AllOf<A> = Items<Match, A>;

/// Alternatives, at least one of which has to hold.
pub type AnyOf<A> = Items<AllOf<A>, A>;

/// What a set, a policy or a rule is about. Each of its parts has to hold.
pub type Target<A> = Items<AnyOf<A>, A>;

/// The conditions of a rule. All have to hold.
pub type Conditions<A> = Items<Atom, A>;

impl<T, A: Allocator> Model for Items<T, A> {
    ghost use Rattle.std.specs.Prelude.{List};

    ghost Value = { List T };

    ghost view = { λ i. i.items.items };
}

impl<T, A: Allocator> Items<T, A> {
    /// A list of these parts.
    pub fn from_vec(items: Vec<T, A>) -> Self
        ensures { result ≡ items.items }
    {
        Items { items }
    }

    /// The parts, in written order.
    pub fn as_slice(&self) -> &[T]
        ensures { result.now ≡ self.now }
    {
        &self.items
    }
}

impl<T: PartialEq, A: Allocator> PartialEq for Items<T, A> {
    ghost eq = { pointwise T.eq };

    ghost laws = { lists_per T.laws };

    /// Compares part by part. Exact if `==` on the parts is exact.
    fn eq(&self, other: &Self) -> bool
        ensures tested { result ≡ pointwise T.eq self.now other.now }
        ensures exact { ((a b : T) → IsTrue (T.eq a b) ↔ (a ≡ b))
            → (IsTrue result ↔ (self.now ≡ other.now)) }
    {
        self.as_slice() == other.as_slice()
    }
}

impl<T: Eq, A: Allocator> Eq for Items<T, A> {
    ghost laws = { lists_equiv T.Eq.laws };
}

/// A copy of these matches or conditions. Fails only when out of memory.
pub(crate) fn copy_items<T: Copy, A: Allocator, B: Allocator + Copy>(
    alloc: B,
    items: &Items<T, A>,
) -> Result<Items<T, B>, NoMemory>
    ensures { IfOk result (λ copy. copy ≡ items.now) }
{
    Ok(Items::from_vec(copied(alloc, items.as_slice())?))
}

/// A copy of these alternatives. Fails only when out of memory.
pub(crate) fn copy_alternatives<A: Allocator, B: Allocator + Copy>(
    alloc: B,
    alternatives: &AnyOf<A>,
) -> Result<AnyOf<B>, NoMemory>
    ensures { IfOk result (λ copy. copy ≡ alternatives.now) }
{
    let mut copies = Vec::new(alloc);
    for matches in alternatives.as_slice() {
        copies.try_push(copy_items(alloc, matches)?)?;
    }
    Ok(Items::from_vec(copies))
}

/// A copy of this target. Fails only when out of memory.
pub(crate) fn copy_target<A: Allocator, B: Allocator + Copy>(
    alloc: B,
    target: &Target<A>,
) -> Result<Target<B>, NoMemory>
    ensures { IfOk result (λ copy. copy ≡ target.now) }
{
    let mut copies = Vec::new(alloc);
    for part in target.as_slice() {
        copies.try_push(copy_alternatives(alloc, part)?)?;
    }
    Ok(Items::from_vec(copies))
}
