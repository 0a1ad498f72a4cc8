//! The result when a stream or an allocation fails.
use crate::runs::{Fails, NONE_FAILS, outcome_of};
use crate::texts::{DRAWN, REPLIES, SCRIPT};
use drawing::{DrawFault, MARK_LIMIT, draw};
use failing_streams::Failure;
use refusing::Refusing;
use std::process::Abort;

/// The script or the replies fail at each of their reads: nothing is written.
#[test]
fn each_read_fails(rt: HostRuntime) {
    for at in 1..=SCRIPT.len() as u64 + 1 {
        let fails = Fails {
            script: at,
            ..NONE_FAILS
        };
        let outcome = outcome_of(rt.alloc(), rt.alloc(), SCRIPT, REPLIES, fails);
        assert!(rt; matches!(&outcome.end, Err(DrawFault::Read(_))), "at {at}");
        assert!(rt; outcome.written.is_empty(), "at {at}");
    }
    for at in 1..=REPLIES.len() as u64 + 1 {
        let fails = Fails {
            replies: at,
            ..NONE_FAILS
        };
        let outcome = outcome_of(rt.alloc(), rt.alloc(), SCRIPT, REPLIES, fails);
        assert!(rt; matches!(&outcome.end, Err(DrawFault::Read(_))), "at {at}");
        assert!(rt; outcome.written.is_empty(), "at {at}");
    }
}

/// Each write fails: a front part of the drawing is written, a longer one at each later write.
#[test]
fn each_write_fails(rt: HostRuntime) {
    let mut before = 0;
    for at in 1..=12 {
        let fails = Fails {
            output: at,
            ..NONE_FAILS
        };
        let outcome = outcome_of(rt.alloc(), rt.alloc(), SCRIPT, REPLIES, fails);
        assert!(rt; matches!(&outcome.end, Err(DrawFault::Write(_))), "at {at}");
        assert!(rt;
            DRAWN.as_bytes().starts_with(outcome.written.as_slice()),
            "at {at}"
        );
        assert!(rt; at == 1 || before < outcome.written.len(), "at {at}");
        before = outcome.written.len();
    }
    let fails = Fails {
        output: 13,
        ..NONE_FAILS
    };
    let outcome = outcome_of(rt.alloc(), rt.alloc(), SCRIPT, REPLIES, fails);
    assert!(rt; outcome.end.is_ok());
}

/// A flush that fails is a write that failed; the drawing is written.
#[test]
fn a_flush_fails(rt: HostRuntime) {
    let fails = Fails {
        with: Failure::Flush,
        ..NONE_FAILS
    };
    let outcome = outcome_of(rt.alloc(), rt.alloc(), SCRIPT, REPLIES, fails);
    assert!(rt; matches!(&outcome.end, Err(DrawFault::Write(_))));
    assert!(rt; outcome.written.starts_with(DRAWN.as_bytes()));
}

/// An interrupted write is repeated.
#[test]
fn an_interrupted_write(rt: HostRuntime) {
    let fails = Fails {
        output: 3,
        with: Failure::Interrupted,
        ..NONE_FAILS
    };
    let outcome = outcome_of(rt.alloc(), rt.alloc(), SCRIPT, REPLIES, fails);
    assert!(rt; outcome.end.is_ok());
    assert_eq!(rt; outcome.written.as_slice(), DRAWN.as_bytes());
}

/// Each allocation in turn is refused, and nothing is written, until none is left to refuse.
#[test]
fn each_allocation_is_refused(rt: HostRuntime) {
    let memory = Refusing::new(rt.alloc(), 0);
    let mut refused = 0;
    for at in 1..=20 {
        memory.refuse(at);
        let outcome = outcome_of(&memory, rt.alloc(), SCRIPT, REPLIES, NONE_FAILS);
        if !memory.has_refused() {
            assert!(rt; outcome.end.is_ok(), "at {at}");
            break;
        }
        assert!(rt;
            matches!(&outcome.end, Err(DrawFault::Memory(_))),
            "at {at}"
        );
        assert!(rt; outcome.written.is_empty(), "at {at}");
        refused = at;
    }
    assert!(rt; (3..20).contains(&refused), "{refused}");
}

/// `MARK_LIMIT` marks are drawn, and not one more.
#[test]
fn too_many_marks(rt: HostRuntime) {
    let row = b"1 1 n c POINT (0 0)\n";
    let Ok(mut rows) = Vec::with_capacity(rt.alloc(), row.len() * (MARK_LIMIT + 1)) else {
        panic!(rt; "no memory")
    };
    for _ in 0..MARK_LIMIT {
        assert!(rt; rows.extend_from_slice(row).is_ok());
    }
    let mut drawn = Vec::new(rt.alloc());
    let end = draw(
        rt.alloc(),
        &mut b"".as_slice(),
        &mut rows.as_slice(),
        &mut drawn,
    );
    assert!(rt; end.is_ok());
    assert!(rt; rows.extend_from_slice(row).is_ok());
    let mut none = Vec::new(rt.alloc());
    let end = draw(
        rt.alloc(),
        &mut b"".as_slice(),
        &mut rows.as_slice(),
        &mut none,
    );
    assert!(rt; matches!(&end, Err(DrawFault::TooManyMarks)));
    assert!(rt; none.is_empty());
}

#[test]
fn codes(rt: HostRuntime) {
    assert_eq!(rt; DrawFault::TooManyMarks.code(), "G1");
}
