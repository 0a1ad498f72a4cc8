//! What the tests serve.
use credentials::{Key, digest_of};
use decision::Decider;
use features::{Name, Subject, Subjects};
use hall::{Closed, Pause};
use log::Log;
use policy_text::{Document, read_document};
use server::{Begins, Caller, Restored, Serving, WORKER_COUNT, serve_streams};
use std::alloc::Global;
use std::io::{Read, Write};
use std::process::Abort;
use std::sync::{Arc, Wait};
use std::thread::Threads;
use std::time::Clock;
use world::{Base, FeatureLimit};

/// A document that permits everything.
pub const OPEN: &str =
    r#"{"root":{"combine":"first-applicable","policy":"start","rules":[{"effect":"permit","rule":"open"}]}}"#;

/// The document that permits everything.
pub fn open_document(rt: &impl Abort, heap: Global) -> Document<Global> {
    match read_document(heap, heap, OPEN.as_bytes()) {
        Ok(document) => document,
        Err(_) => panic!(rt; "no document"),
    }
}

/// A subject whose name, office and role are equal.
pub fn subject(rt: &impl Abort, name: &[u8], steward: bool) -> Subject {
    let name = Name::new(name).expect(rt, "a name");
    Subject {
        name,
        office: name,
        role: name,
        steward,
    }
}

/// Two editors, `north` and `south`, and the steward `chief`.
pub fn three_subjects(rt: &impl Abort) -> Subjects {
    let subjects = [
        subject(rt, b"north", false),
        subject(rt, b"south", false),
        subject(rt, b"chief", true),
    ];
    match Subjects::new(&subjects) {
        Ok(subjects) => subjects,
        Err(_) => panic!(rt; "no subjects"),
    }
}

/// No features, and the document that permits everything as the first edition.
pub fn first_state(rt: &impl Abort, heap: Global) -> Restored {
    state_behind(rt, heap, 0)
}

/// The same behind so many records.
pub fn state_behind(rt: &impl Abort, heap: Global, records: u64) -> Restored {
    let Ok(decider) = Decider::new(open_document(rt, heap), 1) else {
        panic!(rt; "no decider");
    };
    let base = Base {
        features: Vec::new(heap),
        version: 0,
        decider: Arc::new(heap, decider).expect(rt, "memory"),
    };
    Restored::new(base, records).expect(rt, "a state")
}

/// Three subjects, for whom everything is permitted, and this many workers.
pub fn serving_by(rt: &impl Abort, heap: Global, workers: usize) -> Serving {
    Serving {
        subjects: three_subjects(rt),
        begins: Begins::Document(open_document(rt, heap)),
        workers,
        features: FeatureLimit::usual(),
    }
}

/// Three subjects, for whom everything is permitted, and the default number of workers.
pub fn serving(rt: &impl Abort, heap: Global) -> Serving {
    serving_by(rt, heap, WORKER_COUNT)
}

/// The key of a subject's secret.
pub fn key_of(rt: &impl Abort, subject: &[u8], secret: &[u8]) -> Key {
    Key {
        subject: Name::new(subject).expect(rt, "a name"),
        digest: digest_of(secret),
    }
}

/// What closing yields after this many workers have served these streams, whose HELLO is believed.
pub fn closed_by<H, R, I, O, G>(
    rt: &R,
    own: H,
    heap: Global,
    workers: usize,
    streams: Vec<(I, O, G)>,
) -> Closed
where
    H: Wait + Drop + Send,
    R: Threads + Wait + Clock + Log + Abort + Sync,
    I: Read + Drop + Send,
    O: Write + Drop + Send,
    G: Pause + Drop + Send,
{
    closed_with(rt, own, heap, workers, &[], streams)
}

/// The same where these keys let sessions begin.
pub fn closed_with<H, R, I, O, G>(
    rt: &R,
    own: H,
    heap: Global,
    workers: usize,
    keys: &[Key],
    streams: Vec<(I, O, G)>,
) -> Closed
where
    H: Wait + Drop + Send,
    R: Threads + Wait + Clock + Log + Abort + Sync,
    I: Read + Drop + Send,
    O: Write + Drop + Send,
    G: Pause + Drop + Send,
{
    let callers = streams.into_iter().map(|(reader, writer, pause)| Caller {
        reader,
        writer,
        pause,
        keys,
        tally: None,
    });
    match serve_streams(rt, own, heap, serving_by(rt, heap, workers), callers) {
        Ok(closed) => closed,
        Err(fault) => panic!(rt; "{fault}"),
    }
}
