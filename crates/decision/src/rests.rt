//! What is left of a document once all but a feature's shape is known.

ghost use Rattle.std.specs.Prelude.{◌≡◌, IfSome, IsTrue};
ghost use Rattle.std.specs.Arc.{arc_value};
ghost use Rattle.decision.specs.Known.{StandsBy};
ghost use Rattle.decision.specs.Rulings.{Rules};

use crate::deciders::{Decider, heap_of, ruling};
use crate::known::{Known, Standpoint};
use crate::plans::Plan;
use crate::rulings::Ruling;
use combining::Question;
use features::{Action, Name, Subject};
use memory::GrowVec;
use std::alloc::Global;
use std::marker::Model;
use std::sync::Arc;

/// An office and a class that features have.
#[derive(Clone, Copy, Debug)]
pub(crate) struct Kind {
    /// The lengths and the ends of both names, by which most kinds are told apart at once.
    ends: u64,
    owner: Name,
    class: Name,
}

/// What is left of a document for the features of one kind.
#[derive(Debug, Drop)]
struct Rest {
    kind: Kind,
    plan: Plan<Global>,
}

/// The rests of a document that are kept for one standpoint. A contract sees the decider and the
/// standpoint.
#[derive(Debug, Drop)]
pub(crate) struct Rests {
    decider: Arc<Decider>,
    standpoint: Standpoint,
    rests: Vec<Rest, Global>,
}

impl Model for Rests {
    ghost use Rattle.std.specs.Prelude.{◌≡◌, All};
    ghost use Rattle.std.specs.Arc.{arc_value};
    ghost use Rattle.decision.specs.Rests.{RestsData, StoredRests, stored_rests, restored_rests, restored_rests-stored_rests, IsRest};
    ghost use Rattle.std.specs.Coded.{code_by, codes};

    ghost Value = { RestsData };

    ghost coded = { code_by StoredRests (Prim.hlevel codes) stored_rests restored_rests
        restored_rests-stored_rests };

    ghost view = { λ r. record { decider = arc_value r.decider; standpoint = r.standpoint } };

    ghost invariant = { λ r. All (λ rest. IsRest (arc_value r.decider).document r.standpoint
        rest.kind.owner rest.kind.class rest.plan) r.rests.items };
}

/// The last two bytes of a name; 0 where it has no such byte.
fn last_two(name: &Name) -> [u8; 2] {
    let bytes = name.as_bytes();
    let length = bytes.len();
    if length >= 2 {
        return [bytes[length - 2], bytes[length - 1]];
    }
    [0, bytes.first().copied().unwrap_or(0)]
}

impl Kind {
    /// The kind of an office and a class.
    pub fn new(owner: Name, class: Name) -> Kind
        ensures owner { result.owner ≡ owner }
        ensures class { result.class ≡ class }
    {
        let [a, b] = last_two(&owner);
        let [c, d] = last_two(&class);
        let long = owner.as_bytes().len() as u8;
        let wide = class.as_bytes().len() as u8;
        Kind {
            ends: u64::from_le_bytes([a, b, c, d, long, wide, 0, 0]),
            owner,
            class,
        }
    }

    /// Whether the two are of one office and one class.
    pub fn is_same(&self, other: &Kind) -> bool
        ensures { IsTrue result → (self.now.owner ≡ other.now.owner) × (self.now.class ≡ other.now.class) }
    {
        self.ends == other.ends && self.owner == other.owner && self.class == other.class
    }
}

impl Rests {
    /// No rests of a decider's document yet.
    pub fn new(decider: Arc<Decider>, standpoint: Standpoint) -> Rests
        ensures { result ≡ record { decider = arc_value decider; standpoint = standpoint } }
    {
        let heap = heap_of(decider.document());
        Rests {
            decider,
            standpoint,
            rests: Vec::new(heap),
        }
    }

    /// Whether a subject that asks for this has the standpoint.
    pub fn is_for(&self, subject: &Subject, action: &Action) -> bool
        ensures { IsTrue result → StandsBy self.now.standpoint subject.now action.now }
    {
        let Standpoint {
            office,
            role,
            action: asked,
        } = &self.standpoint;
        *action == *asked && subject.office == *office && subject.role == *role
    }

    /// How many rests are kept.
    pub fn len(&self) -> usize {
        self.rests.len()
    }

    /// Keeps the rest for features of a kind, and returns how many steps it has; `None` where an
    /// allocation is refused.
    pub fn keep(&mut self, kind: Kind) -> Option<usize>
        ensures { self.new ≡ self.old }
    {
        let known = Known::Feature {
            standpoint: self.standpoint,
            owner: kind.owner,
            class: kind.class,
        };
        let document = self.decider.document();
        let plan = match Plan::new(heap_of(document), &known, document) {
            Ok(plan) => plan,
            Err(_) => return None,
        };
        let steps = plan.len();
        match self.rests.try_push(Rest { kind, plan }) {
            Ok(()) => Some(steps),
            Err(_) => None,
        }
    }

    /// How the document rules on a question from this standpoint; `None` where the rest for the
    /// feature's office and class is not kept. Allocates nothing.
    pub fn ruling(&self, question: &Question) -> Option<Ruling>
        requires { StandsBy self.now.standpoint question.now.subject question.now.action }
        ensures { IfSome result (Rules self.now.decider.document question.now) }
    {
        let kind = Kind::new(question.owner, question.class);
        let rests = self.rests.as_slice();
        for rest in rests {
            if kind.is_same(&rest.kind) {
                return Some(ruling(rest.plan.verdict(self.decider.document(), question)));
            }
        }
        None
    }
}
