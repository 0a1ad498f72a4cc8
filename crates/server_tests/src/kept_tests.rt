//! A server whose records are kept in a store.
use crate::clients::{connected, told};
use crate::servers::{first_state, three_subjects};
use audit_trail::Record;
use hall::Closed;
use log::Log;
use server::{
    AppendFault, Connections, Handover, Keeping, Keeps, Restored, Rests, ServerFault,
    SocketOptions, StoreFault, Writes, serve_kept,
};
use std::alloc::Global;
use std::fs::Files;
use std::io::{Read, Write};
use std::net::Net;
use std::process::Abort;
use std::sync::atomic::{AtomicU64, Ordering};
use std::sync::{Arc, Wait};
use std::test::Fail;
use std::time::Clock;
use std::{fs, thread};
use world::FeatureLimit;

/// What a store of the tests does, and what became of it.
#[derive(Drop)]
pub struct Deeds {
    /// How many records last.
    lasting: AtomicU64,
    /// How often it takes nothing for now, before each time that it takes something.
    refusals: AtomicU64,
    /// How many records it takes in all.
    most: u64,
    /// Not 0 once it was closed, and once it gave up.
    closed: AtomicU64,
    gave_up: AtomicU64,
}

impl Deeds {
    /// Takes so many records, and refuses so often before the first of them.
    pub fn new(most: u64, refusals: u64) -> Self {
        Deeds {
            lasting: AtomicU64::new(0),
            refusals: AtomicU64::new(refusals),
            most,
            closed: AtomicU64::new(0),
            gave_up: AtomicU64::new(0),
        }
    }

    /// How many records last.
    pub fn lasting(&self) -> u64 {
        self.lasting.load(Ordering::SeqCst)
    }
}

/// A store that counts its records.
#[derive(Drop)]
struct Counting<'a> {
    deeds: &'a Deeds,
}

impl Keeps for Counting<'_> {
    fn append(
        &mut self,
        _heap: Global,
        records: &[Arc<Record<Global>>],
    ) -> Result<(), AppendFault> {
        let refusals = self.deeds.refusals.load(Ordering::SeqCst);
        if refusals > 0 {
            self.deeds
                .refusals
                .store(refusals.saturating_sub(1), Ordering::SeqCst);
            return Err(AppendFault::ForNow);
        }
        let lasting = self.deeds.lasting.load(Ordering::SeqCst);
        let lasting = lasting.saturating_add(records.len() as u64);
        if lasting > self.deeds.most {
            return Err(AppendFault::ForEver(StoreFault::Failed));
        }
        self.deeds.lasting.store(lasting, Ordering::SeqCst);
        Ok(())
    }

    fn close(self) -> Result<(), StoreFault> {
        self.deeds.closed.store(1, Ordering::SeqCst);
        Ok(())
    }

    fn give_up(&self, _fault: StoreFault) {
        self.deeds.gave_up.store(1, Ordering::SeqCst);
    }
}

/// That store before it is opened: with nothing in it, or of no use.
#[derive(Drop)]
pub struct Unopened<'a> {
    restored: Result<Restored, StoreFault>,
    deeds: &'a Deeds,
}

impl<'a> Unopened<'a> {
    pub fn new(restored: Result<Restored, StoreFault>, deeds: &'a Deeds) -> Self {
        Unopened { restored, deeds }
    }
}

impl Writes for Unopened<'_> {
    fn write<R: Wait + Clock + Log>(self, rt: &R, handover: Handover<'_>) {
        let Unopened { restored, deeds } = self;
        let opened = match restored {
            Ok(restored) => Ok((Counting { deeds }, restored)),
            Err(fault) => Err(fault),
        };
        handover.run(rt, opened);
    }
}

/// What is kept of three subjects.
pub fn keeping(rt: &impl Abort, rests: Rests) -> Keeping {
    Keeping {
        subjects: three_subjects(rt),
        workers: 2,
        features: FeatureLimit::usual(),
        rests,
    }
}

/// So many connections.
fn connections(connections: u16) -> SocketOptions<'static> {
    SocketOptions {
        connections: Connections::UpTo(connections),
        idle: None,
        takeover: false,
        stop: None,
        keys: &[],
        web: None,
    }
}

/// Sends a line, and returns how many records last once its reply has come.
fn lasting_behind<R: Net>(rt: &R, path: &str, deeds: &Deeds) -> Option<u64> {
    let mut stream = connected(rt, path)?;
    stream
        .write_all(b"HELLO north\nADD 1 mast POINT (3 4)\nCOMMIT\nSEARCH POINT (3 4)\n")
        .ok()?;
    let mut bytes = [0; 256];
    let mut count = 0;
    for _ in 0..256 {
        count += stream.read(&mut bytes[count..]).ok()?;
        if bytes[..count].ends_with(b"mast POINT (3 4)\n") {
            return Some(deeds.lasting.load(Ordering::SeqCst));
        }
    }
    None
}

/// A reply leaves once its record lasts. The store takes nothing for now at first.
#[test]
fn a_reply_waits_for_its_record(rt: HostRuntime) -> Result<(), Fail> {
    let heap: Global = rt.alloc();
    let path = "server_kept.sock";
    let _ = fs::remove_file(&rt, path);
    let deeds = Deeds::new(u64::MAX, 1);
    let unopened = Unopened {
        restored: Ok(first_state(&rt, heap)),
        deeds: &deeds,
    };
    let (served, lasting) = thread::join(
        &rt,
        || {
            serve_kept(
                &rt,
                rt,
                heap,
                path,
                keeping(&rt, Rests::All),
                connections(1),
                unopened,
            )
        },
        || lasting_behind(&rt, path, &deeds),
    );
    assert_eq!(rt; lasting, Some(2));
    let closed = Closed {
        records: 2,
        seats: 1,
    };
    assert_eq!(rt; served, Ok(closed));
    assert_eq!(rt; deeds.closed.load(Ordering::SeqCst), 1);
    assert_eq!(rt; deeds.gave_up.load(Ordering::SeqCst), 0);
    Ok(())
}

/// Where a record does not last, its reply does not leave, and the server fails.
#[test]
fn a_reply_without_its_record_stays(rt: HostRuntime) -> Result<(), Fail> {
    let heap: Global = rt.alloc();
    let path = "server_not_kept.sock";
    let _ = fs::remove_file(&rt, path);
    let deeds = Deeds::new(0, 0);
    let unopened = Unopened {
        restored: Ok(first_state(&rt, heap)),
        deeds: &deeds,
    };
    let lines = "HELLO north\nADD 1 mast POINT (3 4)\nCOMMIT\n";
    let (served, told) = thread::join(
        &rt,
        || {
            serve_kept(
                &rt,
                rt,
                heap,
                path,
                keeping(&rt, Rests::Changes),
                connections(1),
                unopened,
            )
        },
        || told(&rt, heap, path, lines.as_bytes()),
    );
    assert_eq!(rt; served, Err(ServerFault::Store(StoreFault::Failed)));
    if let Some(told) = told {
        assert!(rt; !told.as_str().contains("applied"), "{told}");
    }
    assert_eq!(rt; deeds.gave_up.load(Ordering::SeqCst), 1);
    assert_eq!(rt; deeds.closed.load(Ordering::SeqCst), 0);
    Ok(())
}

/// A store that another program has open: nothing is bound.
#[test]
fn a_store_in_use(rt: HostRuntime) -> Result<(), Fail> {
    let heap: Global = rt.alloc();
    let path = "server_in_use.sock";
    let _ = fs::remove_file(&rt, path);
    let deeds = Deeds::new(0, 0);
    let unopened = Unopened {
        restored: Err(StoreFault::InUse),
        deeds: &deeds,
    };
    let keeping = keeping(&rt, Rests::All);
    let served = serve_kept(&rt, rt, heap, path, keeping, connections(1), unopened);
    assert_eq!(rt; served, Err(ServerFault::Store(StoreFault::InUse)));
    assert!(rt; fs::symlink_metadata(&rt, path).is_err());
    Ok(())
}
