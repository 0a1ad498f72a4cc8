//! Names, shapes, documents, stores in memory, and pseudo-random numbers.
use decision::Decider;
use features::{Name, Subject};
use plane::{Point, Shape};
use policy_text::read_document;
use sqlite_trees::memory::MemStore;
use sqlite_trees::schema::Object;
use sqlite_trees::store::Shape as Kind;
use std::alloc::Global;
use std::process::Abort;
use volumes::{Tables, Volume};

/// A document that permits everything, and one that permits nothing.
pub const OPEN: &str = r#"{"root":{"policy":"all","combine":"permit-unless-deny","rules":[]}}"#;

pub const SHUT: &str = r#"{"root":{"policy":"none","combine":"deny-unless-permit","rules":[]}}"#;

/// The tables of a store that `memory_store` makes.
pub const TABLES: Tables = Tables {
    features: 0,
    policy: 1,
    records: 2,
    lives: 3,
};

/// Pseudo-random numbers, from a linear congruence.
#[derive(Drop)]
pub struct Dice {
    state: u64,
}

impl Dice {
    /// The numbers that follow from this state.
    pub fn new(state: u64) -> Self {
        Dice { state }
    }

    /// A number below `sides`, or 0 if that is 0.
    pub fn below(&mut self, sides: u32) -> u32 {
        self.state = self
            .state
            .wrapping_mul(6_364_136_223_846_793_005)
            .wrapping_add(1_442_695_040_888_963_407);
        let number = (self.state >> 33)
            .checked_rem(u64::from(sides))
            .unwrap_or(0);
        u32::try_from(number).unwrap_or(0)
    }
}

pub fn name(rt: &impl Abort, text: &str) -> Name {
    let name = Name::new(text.as_bytes());
    assert!(rt; name.is_some(), "{text}");
    name.unwrap()
}

pub fn point(rt: &impl Abort, x: i32, y: i32) -> Shape {
    let shape = Shape::point(Point { x, y });
    assert!(rt; shape.is_ok());
    shape.unwrap()
}

/// An editor of this office.
pub fn editor(rt: &impl Abort, office: &str) -> Subject {
    Subject {
        name: name(rt, office),
        office: name(rt, office),
        role: name(rt, "editor"),
        steward: false,
    }
}

/// The decider of a document under an edition.
pub fn decider(rt: &impl Abort, heap: Global, text: &str, edition: u64) -> Decider {
    let document = match read_document(heap, heap, text.as_bytes()) {
        Ok(document) => document,
        Err(_) => panic!(rt; "no document: {text}"),
    };
    match Decider::new(document, edition) {
        Ok(decider) => decider,
        Err(_) => panic!(rt; "no decider: {text}"),
    }
}

/// A table without rows.
fn table(name: &'static str) -> Object<'static> {
    Object {
        shape: Kind::Table,
        kind: "table",
        name,
        table: name,
        reals: 0,
        sql: None,
    }
}

/// A store in memory with the four tables.
pub fn memory_store(rt: &impl Abort, heap: Global) -> MemStore {
    let schema = [
        table("feature"),
        table("policy"),
        table("record"),
        table("life"),
    ];
    match MemStore::new(heap, &schema) {
        Ok(store) => store,
        Err(_) => panic!(rt; "no store"),
    }
}

/// A volume in memory that has begun: no features, version 0, and a policy that permits everything.
pub fn new_volume(rt: &impl Abort, heap: Global) -> Volume<MemStore> {
    new_volume_at(rt, heap, 1)
}

/// The same, whose first record has this number.
pub fn new_volume_at(rt: &impl Abort, heap: Global, first: u64) -> Volume<MemStore> {
    let mut volume = match Volume::new(memory_store(rt, heap), heap, TABLES, first) {
        Ok(volume) => volume,
        Err((fault, _)) => panic!(rt; "no volume: {fault}"),
    };
    let decider = decider(rt, heap, OPEN, 1);
    match volume.begin(heap, &[], 0, &decider, 1, "[]") {
        Ok(()) => volume,
        Err(fault) => panic!(rt; "not begun: {fault}"),
    }
}
