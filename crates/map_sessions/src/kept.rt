//! Answers to searches of which pages are still to come.

ghost use Rattle.std.specs.Prelude.{◌≡◌, ◌↔◌, [], ◌∷◌, ◌++◌, IsTrue, IfOk, OnErr, OnOk, ◌+◌, option_map};
ghost use Rattle.map_sessions.specs.Keeping.{IsKept, TakesOver, fits, fits_in, next_number, rows_asked, same_layer, trimmed};

use features::{Feature, Name};
use map_asks::Layer;
use memory::{GrowVec, NoMemory};
use std::alloc::Allocator;

/// How many answers are kept at most.
pub const KEPT_LIMIT: usize = 16;

/// How many rows the kept answers have together at most, unless one alone has more.
pub const KEPT_ROWS_LIMIT: usize = 200_000;

/// The rows of a collection that a search has found for a subject.
#[derive(Debug, Drop)]
pub struct KeptRows<A: Allocator> {
    /// The number by which further pages name it.
    pub(crate) number: u64,
    pub(crate) layer: Layer,
    /// Who asked; nobody else gets further pages.
    pub(crate) asker: Name,
    pub(crate) rows: Vec<Feature, A>,
}

/// The answers of which pages are still to come, the oldest first. The oldest are dropped where
/// there are too many, or too many rows.
#[derive(Debug, Drop)]
pub struct Kept<A: Allocator> {
    pub(crate) answers: Vec<KeptRows<A>, A>,
    /// The greatest number that was given.
    pub(crate) given: u64,
}

/// Whether these answers have together no more rows than may be kept.
fn have_few_rows<A: Allocator>(answers: &[KeptRows<A>]) -> bool
    ensures { result ≡ fits_in KEPT_ROWS_LIMIT answers.now }
{
    let mut left = KEPT_ROWS_LIMIT;
    for answer in answers {
        if answer.rows.len() > left {
            return false;
        }
        left -= answer.rows.len();
    }
    true
}

/// Whether these answers may be kept together.
fn fits<A: Allocator>(answers: &[KeptRows<A>]) -> bool
    ensures { result ≡ fits answers.now }
{
    answers.len() <= KEPT_LIMIT && have_few_rows(answers)
}

/// Drops the oldest answers, as long as there are too many. The newest one stays.
#[tactic(auto, using(crate::proofs::KeptLemmas::one_stays, crate::proofs::KeptLemmas::fitting_stay, crate::proofs::KeptLemmas::oldest_goes))]
fn trim<A: Allocator>(answers: &mut Vec<KeptRows<A>, A>)
    ensures { answers.new.items ≡ trimmed answers.old.items }
{
    while answers.len() > 1 && !fits(answers.as_slice()) {
        let _oldest = answers.remove(0);
    }
}

/// Whether two collections are the same.
fn is_same(one: &Layer, other: &Layer) -> bool
    ensures { result ≡ same_layer one.now other.now }
{
    match (one, other) {
        (Layer::All, Layer::All) => true,
        (Layer::Class(one), Layer::Class(other)) => *one == *other,
        _ => false,
    }
}

impl<A: Allocator> Kept<A> {
    /// Nothing is kept yet.
    pub fn new(alloc: A) -> Self
        ensures none { result.answers.items ≡ [] }
        ensures given { result.given ≡ 0 }
    {
        Kept {
            answers: Vec::new(alloc),
            given: 0,
        }
    }

    /// Whether no answer is kept.
    pub fn is_empty(&self) -> bool
        ensures { IsTrue result ↔ (self.now.answers.items ≡ []) }
    {
        self.answers.is_empty()
    }

    /// The number of the next answer that is kept.
    pub fn next_number(&self) -> u64
        ensures { result ≡ next_number self.now.given }
    {
        self.given.saturating_add(1)
    }

    /// Keeps the rows of a collection for who has asked, under the next number. The oldest answers
    /// are dropped where there are too many, or too many rows. If out of memory, nothing changes.
    pub fn keep(&mut self, layer: Layer, asker: Name, rows: Vec<Feature, A>) -> Result<(), NoMemory>
        ensures ok { OnOk result (IsKept layer asker rows.items self.old self.new) }
        ensures err_answers { OnErr result (self.new.answers.items ≡ self.old.answers.items) }
        ensures err_given { OnErr result (self.new.given ≡ self.old.given) }
    {
        let number = self.next_number();
        self.answers.try_push(KeptRows {
            number,
            layer,
            asker,
            rows,
        })?;
        self.given = number;
        trim(&mut self.answers);
        Ok(())
    }

    /// An empty list aside, which goes on with the next number: what is kept there meanwhile may be
    /// taken over. Nobody else is given that number. Fails where there is no memory for what comes
    /// back; nothing changes then.
    pub fn aside(&mut self) -> Result<Self, NoMemory>
    where
        A: Copy,
        ensures answers { self.new.answers.items ≡ self.old.answers.items }
        ensures given { OnOk result (self.new.given ≡ next_number self.old.given) }
        ensures none { IfOk result (λ aside. aside.answers.items ≡ []) }
        ensures number { IfOk result (λ aside. aside.given ≡ self.old.given) }
        ensures err { OnErr result (self.new.given ≡ self.old.given) }
    {
        self.answers.make_slots(KEPT_LIMIT + 1)?;
        let aside = Kept {
            answers: Vec::new(*self.answers.allocator()),
            given: self.given,
        };
        self.given = self.next_number();
        Ok(aside)
    }

    /// Takes over the newest answer of a list that was made aside, and keeps it. The oldest answers
    /// are dropped where there are too many, or too many rows. If out of memory, nothing changes.
    pub fn take_over(&mut self, aside: Self) -> Result<(), NoMemory>
        ensures given { self.new.given ≡ self.old.given }
        ensures ok { OnOk result
            (TakesOver aside.answers.items self.old.answers.items self.new.answers.items) }
        ensures err { OnErr result (self.new.answers.items ≡ self.old.answers.items) }
    {
        let mut answers = aside.answers;
        let Some(newest) = answers.pop() else {
            return Ok(());
        };
        self.answers.try_push(newest)?;
        trim(&mut self.answers);
        Ok(())
    }

    /// The rows that are kept under a number, if they are of this collection and were found for this
    /// subject.
    pub fn rows(&self, number: u64, layer: &Layer, asker: &Name) -> Option<&[Feature]>
        ensures { option_map (λ rows. rows.now) result
            ≡ rows_asked number layer.now asker.now self.now.answers.items }
    {
        for answer in &self.answers {
            if answer.number == number && is_same(&answer.layer, layer) && answer.asker == *asker {
                return Some(answer.rows.as_slice());
            }
        }
        None
    }
}
