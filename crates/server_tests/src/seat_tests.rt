//! Halls that give way before their seats are used up.
use crate::clients::Talk;
use crate::servers::{open_document, subject};
use features::Subjects;
use hall_workers::Turn;
use server::{Begins, Connections, Serving, SocketOptions, Stop, serve_socket};
use std::alloc::Global;
use std::net::Net;
use std::os::unix::net::UnixStream;
use std::process::Abort;
use std::sync::Wait;
use std::test::Fail;
use std::time::{Clock, Duration};
use std::{fs, thread};
use world::FeatureLimit;

/// How many subjects there are, and workers: each worker gets a seat for each subject, which is more
/// than a hall has.
const SUBJECTS: u64 = 32;

const WORKERS: usize = 33;

/// How many of these subjects a hall has seats for, for each of the workers.
const SEATED: u64 = 31;

/// How often a turn is looked at from its ending on, until it is over.
const LOOKS: u32 = 62;

/// Looks at a turn with so many records and seats, and returns whether it is over.
fn is_over(records: u64, seats: usize) -> bool {
    let turn = Turn::new(1_000);
    for _ in 0..LOOKS {
        turn.look(records, seats);
    }
    turn.is_over()
}

/// A turn ends for want of seats, and behind its records.
#[test]
fn turns_end(rt: HostRuntime) {
    assert!(&rt; !is_over(999, 1_008));
    assert!(&rt; is_over(0, 1_009));
    assert!(&rt; is_over(1_000, 0));
}

/// As many sessions of one subject as there are workers, all at once, and then their ends.
fn take_seats<R: Abort + Net>(rt: &R, heap: Global, path: &str, name: &str) {
    let line = format!(in heap; "HELLO {name}\n").expect(rt, "a line");
    let wanted = format!(in heap; "hello {name}\n").expect(rt, "a line");
    let mut talks = Vec::new(heap);
    for _ in 0..WORKERS {
        let mut talk = Talk::begin(rt, heap, path).expect(rt, "a connection");
        let hello = talk.ask(heap, line.as_str(), 1).expect(rt, "a reply");
        assert_eq!(rt; hello.as_str(), wanted.as_str());
        talks.push(talk).expect(rt, "memory");
    }
    for talk in talks.iter_mut() {
        let bye = talk.ask(heap, "BYE\n", 1).expect(rt, "a reply");
        assert_eq!(rt; bye.as_str(), "bye\n");
    }
}

/// The name of a subject.
fn subject_name(rt: &impl Abort, heap: Global, number: u64) -> String {
    format!(in heap; "subject-{number}").expect(rt, "a name")
}

/// Takes more seats than a hall has. Where they are nearly used up it waits for the next hall.
fn take_all_seats<R: Abort + Net + Clock + Wait>(rt: &R, heap: Global, path: &str, stop: &Stop) {
    for number in 0..SUBJECTS {
        if number == SEATED {
            thread::sleep(rt, Duration::from_secs(3));
        }
        let name = subject_name(rt, heap, number);
        take_seats(rt, heap, path, name.as_str());
    }
    stop.ask();
    let _ = UnixStream::connect(rt, path);
}

/// A hall whose seats are nearly used up by sessions that have ended gives way: nobody is refused.
#[test]
fn seats_for_all(rt: HostRuntime) -> Result<(), Fail> {
    let heap: Global = rt.alloc();
    let path = "server_seats.sock";
    let _ = fs::remove_file(&rt, path);
    let mut subjects = Vec::new(heap);
    for number in 0..SUBJECTS {
        let name = subject_name(&rt, heap, number);
        subjects.push(subject(&rt, name.as_bytes(), false))?;
    }
    let Ok(subjects) = Subjects::new(subjects.as_slice()) else {
        panic!(&rt; "no subjects")
    };
    let serving = Serving {
        subjects,
        begins: Begins::Document(open_document(&rt, heap)),
        workers: WORKERS,
        features: FeatureLimit::usual(),
    };
    let stop = Stop::new();
    let options = SocketOptions {
        connections: Connections::Endless(262_144),
        idle: None,
        takeover: false,
        stop: Some(&stop),
        keys: &[],
        web: None,
    };
    let (served, ()) = thread::join(
        &rt,
        || serve_socket(&rt, rt, heap, path, serving, options),
        || take_all_seats(&rt, heap, path, &stop),
    );
    let closed = served.expect(&rt, "it ends well");
    assert_eq!(&rt; closed.records, 0);
    assert!(&rt; closed.seats >= SUBJECTS as usize * WORKERS);
    Ok(())
}
