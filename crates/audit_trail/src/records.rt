//! Records of a trail.

ghost use Rattle.std.specs.Prelude.{◌≡◌};

use decision::Decider;
use features::Subject;
use judging::Refusal;
use kept_shapes::ChangeList;
use plane::Shape;
use std::alloc::Allocator;
use std::marker::Model;
use std::sync::Arc;

/// What was answered to a seat, or done for it.
#[derive(Debug, Drop)]
pub enum Deed<A: Allocator> {
    /// A search was answered with the features of these ids, in these versions.
    Answered {
        subject: Subject,
        window: Shape,
        ids: Vec<u64, A>,
        versions: Vec<u64, A>,
    },
    /// A list of changes was applied as this version.
    Applied {
        subject: Subject,
        version: u64,
        changes: ChangeList<A>,
    },
    /// A list of changes was rejected.
    Refused {
        subject: Subject,
        changes: ChangeList<A>,
        refusal: Refusal,
    },
    /// A document was put in force, as this edition.
    Governed {
        edition: u64,
        decider: Arc<Decider>,
    },
}

/// A record of a trail. A contract sees it as plain data.
#[derive(Debug, Drop)]
pub struct Record<A: Allocator> {
    seat: u32,
    deed: Deed<A>,
}

impl<A: Allocator> Model for Record<A> {
    ghost use Rattle.audit_trail.specs.Records.{RecordData};
    ghost use Rattle.audit_trail.specs.Coding.{StoredRecord, stored, restored, restored-stored};
    ghost use Rattle.std.specs.Coded.{code_by, codes};

    ghost Value = { RecordData };

    ghost coded = { code_by StoredRecord (Prim.hlevel codes) stored restored restored-stored };

    ghost use Rattle.audit_trail.specs.Views.{deed_view};

    ghost view = { λ r. record { seat = r.seat; deed = deed_view r.deed } };
}

impl<A: Allocator> Record<A> {
    ghost use Rattle.audit_trail.specs.Records.{RecordData};
    ghost use Rattle.audit_trail.specs.Views.{deed_view};

    /// The record of what was done for a seat.
    pub fn new(seat: u32, deed: Deed<A>) -> Self
        ensures { result ≡ record { seat = seat; deed = deed_view deed } }
    {
        Record { seat, deed }
    }

    /// The seat's number.
    pub fn seat(&self) -> u32
        ensures { result ≡ self.now.seat }
    {
        self.seat
    }

    /// What was done.
    pub fn deed(&self) -> &Deed<A>
        ensures { deed_view result.now ≡ self.now.deed }
    {
        &self.deed
    }
}
