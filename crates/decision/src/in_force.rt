//! The decider that is in force.

ghost use Rattle.std.specs.Prelude.{◌≡◌, IfSome};
ghost use Rattle.std.specs.Arc.{arc_value};
ghost use Rattle.decision.specs.Rulings.{Rules};

use crate::deciders::{Decider, heap_of};
use crate::known::Standpoint;
use crate::readings::Reading;
use crate::rests::{Kind, Rests};
use crate::rulings::Ruling;
use combining::Question;
use features::{Action, Name, Subject};
use memory::{GrowVec, another};
use std::alloc::Global;
use std::marker::Model;
use std::sync::Arc;

/// The most kinds of features, each an office and a class, for which rests are kept.
const KIND_LIMIT: usize = 256;

/// A document of so few rules, policies and sets is asked as it is: to find a rest takes as long.
const FEW_STEPS: usize = 8;

/// Where the rests of a document have so many steps together, no more are kept.
const KEPT_STEPS: u64 = 65_536;

/// The decider in force. What is left of its document, once all but a feature's shape is known, is
/// kept for the kinds of features that were told and the subjects that were prepared for. A contract
/// sees the decider.
#[derive(Debug, Drop)]
pub struct InForce {
    decider: Arc<Decider>,
    /// Each office and class once, in the order in which they were told.
    kinds: Vec<Kind, Global>,
    standing: Vec<Rests, Global>,
    /// How many steps may still be kept.
    room: u64,
}

impl Model for InForce {
    ghost use Rattle.std.specs.Arc.{arc_value};
    ghost use Rattle.decision.specs.Deciders.{DeciderData, Stored, stored, restored, restored-stored};
    ghost use Rattle.decision.specs.InForce.{AreOf};
    ghost use Rattle.std.specs.Coded.{code_by, codes};

    ghost Value = { DeciderData };

    ghost coded = { code_by Stored (Prim.hlevel codes) stored restored restored-stored };

    ghost view = { λ i. arc_value i.decider };

    ghost invariant = { λ i. AreOf (arc_value i.decider) i.standing.items };
}

impl InForce {
    /// The decider in force, with nothing kept yet.
    pub fn new(decider: Arc<Decider>) -> InForce
        ensures { result ≡ arc_value decider }
    {
        let heap = heap_of(decider.document());
        InForce {
            decider,
            kinds: Vec::new(heap),
            standing: Vec::new(heap),
            room: KEPT_STEPS,
        }
    }

    /// Puts another decider in force. The kinds of features stay; their rests are let go.
    pub fn replace(&mut self, decider: Arc<Decider>)
        ensures { self.new ≡ arc_value decider }
    {
        let heap = heap_of(decider.document());
        self.decider = decider;
        self.standing = Vec::new(heap);
        self.room = KEPT_STEPS;
    }

    /// The decider, shared: a caller may make another owner of it.
    pub fn shared(&self) -> &Arc<Decider>
        ensures { arc_value result.now ≡ self.now }
    {
        &self.decider
    }

    /// Tells that there are features of this office and class. Where `KIND_LIMIT` kinds are known,
    /// or there is no memory for another one, nothing is kept for it.
    pub fn tell(&mut self, owner: Name, class: Name)
        ensures { self.new ≡ self.old }
    {
        let kind = Kind::new(owner, class);
        let is_known = self.kinds.iter().any(|known| kind.is_same(known));
        if !is_known && self.kinds.len() < KIND_LIMIT {
            let _ = self.kinds.try_push(kind);
        }
    }

    /// Keeps what is left of the document for what this subject asks, of so many kinds of features at
    /// most that were told and are not kept yet; of none where there is no memory for it, or where the
    /// document has few rules.
    pub fn prepare(&mut self, subject: &Subject, action: &Action, most: usize)
        ensures { self.new ≡ self.old }
    {
        if self.decider.steps() <= FEW_STEPS {
            return;
        }
        if self.place_of(subject, action).is_none() {
            self.begin(subject, action);
        }
        if let Some(place) = self.place_of(subject, action) {
            self.keep_more(place, most);
        }
    }

    /// Where the rests for a subject and an action stand.
    fn place_of(&self, subject: &Subject, action: &Action) -> Option<usize> {
        self.standing
            .iter()
            .position(|rests| rests.is_for(subject, action))
    }

    /// Begins to keep rests for a subject and an action, if there is memory for it.
    fn begin(&mut self, subject: &Subject, action: &Action)
        ensures { self.new ≡ self.old }
    {
        let standpoint = Standpoint {
            office: subject.office,
            role: subject.role,
            action: *action,
        };
        if let Ok(decider) = another(&self.decider) {
            let _ = self.standing.try_push(Rests::new(decider, standpoint));
        }
    }

    /// How the document rules on a question: by what is kept, where something is. Agrees with
    /// `Decider::decide`. Allocates nothing.
    pub fn decide(&self, question: &Question) -> Ruling
        ensures { Rules self.now.document question.now result }
    {
        match self.kept_ruling(question) {
            Some(ruling) => ruling,
            None => self.decider.decide(question),
        }
    }

    /// How the document rules on a question, if a rest is kept for it.
    fn kept_ruling(&self, question: &Question) -> Option<Ruling>
        ensures { IfSome result (Rules self.now.document question.now) }
    {
        let standing = self.standing.as_slice();
        for rests in standing {
            if rests.is_for(&question.subject, &question.action) {
                return rests.ruling(question);
            }
        }
        None
    }

    /// How the document rules on what this subject asks of many features, one after another.
    pub fn reading(&self, subject: &Subject, action: &Action) -> Reading<'_>
        ensures { result ≡ record { decider = self.now; subject = subject.now; action = action.now } }
    {
        let standing = self.standing.as_slice();
        for rests in standing {
            if rests.is_for(subject, action) {
                return Reading::by_rests(&self.decider, *subject, *action, rests);
            }
        }
        Reading::new(&self.decider, *subject, *action)
    }

    /// Keeps, at this place, the rests of so many further kinds at most.
    fn keep_more(&mut self, place: usize, most: usize)
        ensures { self.new ≡ self.old }
    {
        let InForce {
            kinds,
            standing,
            room,
            ..
        } = self;
        if let Some(rests) = standing.get_mut(place) {
            *room = kept_more(rests, kinds.as_slice(), most, *room);
        }
    }
}

/// Keeps the rests of so many further kinds at most, as long as there is room for their steps, and
/// returns the room that is left.
fn kept_more(rests: &mut Rests, kinds: &[Kind], most: usize, room: u64) -> u64
    ensures { rests.new ≡ rests.old }
{
    let mut room = room;
    for _ in 0..most {
        if room == 0 {
            return room;
        }
        let Some(kind) = kinds.get(rests.len()) else {
            return room;
        };
        match rests.keep(*kind) {
            Some(steps) => room = room.saturating_sub(steps.max(1) as u64),
            None => return room,
        }
    }
    room
}
