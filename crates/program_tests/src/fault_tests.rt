//! What was sent and written when a talk ends with a fault.
use crate::talking::{
    ASKED, ASKED_ENDS, Fails, NONE_FAILS, TOLD, TOLD_ENDS, check, outcome_of, writer,
};
use client::{Gone, TalkFault, talk};
use failing_streams::{CountingReader, FailingReader};
use refusing::Refusing;
use std::process::Abort;
use std::test::Fail;

/// How many of the ends after the first are at `place` or before it.
fn whole(ends: &[usize; 5], place: usize) -> usize {
    let mut count = 0usize;
    for end in &ends[1..] {
        if *end <= place {
            count = count.saturating_add(1);
        }
    }
    count
}

/// The text up to its end number `count`.
fn up_to<'a>(text: &'a str, ends: &[usize; 5], count: usize) -> &'a [u8] {
    match ends.get(count) {
        Some(end) => text.as_bytes().split_at((*end).min(text.len())).0,
        None => text.as_bytes(),
    }
}

/// The input fails at each of its reads: the whole lines before have their replies, and nothing of
/// the next one is sent.
#[test]
fn each_read_of_the_input_fails(rt: HostRuntime) {
    for at in 0..=ASKED.len() {
        let fails = Fails {
            input: (at as u64).saturating_add(1),
            ..NONE_FAILS
        };
        let outcome = outcome_of(rt.alloc(), rt.alloc(), ASKED, TOLD.as_bytes(), fails);
        assert!(rt; matches!(outcome.end, Err(TalkFault::Input(_))), "at {at}");
        let count = whole(&ASKED_ENDS, at);
        check(
            &rt,
            &outcome,
            up_to(ASKED, &ASKED_ENDS, count),
            up_to(TOLD, &TOLD_ENDS, count),
        );
    }
}

/// The server fails at each read from it, or ends there: all that it sent is written, and no
/// further line is sent.
#[test]
fn the_server_is_gone(rt: HostRuntime) {
    for at in 0..TOLD.len() {
        let count = whole(&TOLD_ENDS, at).saturating_add(1);
        let heard = TOLD.as_bytes().split_at(at).0;
        let fails = Fails {
            heard: (at as u64).saturating_add(1),
            ..NONE_FAILS
        };
        let failed = outcome_of(rt.alloc(), rt.alloc(), ASKED, TOLD.as_bytes(), fails);
        assert!(rt;
            matches!(failed.end, Err(TalkFault::Gone(Gone::Unread(_)))),
            "at {at}"
        );
        check(&rt, &failed, up_to(ASKED, &ASKED_ENDS, count), heard);
        let ended = outcome_of(rt.alloc(), rt.alloc(), ASKED, heard, NONE_FAILS);
        assert!(rt;
            matches!(ended.end, Err(TalkFault::Gone(Gone::Ended))),
            "at {at}"
        );
        check(&rt, &ended, up_to(ASKED, &ASKED_ENDS, count), heard);
    }
}

/// Each line in turn cannot be sent: those before it have their replies.
#[test]
fn each_line_is_not_sent(rt: HostRuntime) {
    for at in 0..4usize {
        let fails = Fails {
            sent: (at as u64).saturating_add(1),
            ..NONE_FAILS
        };
        let outcome = outcome_of(rt.alloc(), rt.alloc(), ASKED, TOLD.as_bytes(), fails);
        assert!(rt;
            matches!(outcome.end, Err(TalkFault::Gone(Gone::Unsent(_)))),
            "at {at}"
        );
        check(
            &rt,
            &outcome,
            up_to(ASKED, &ASKED_ENDS, at),
            up_to(TOLD, &TOLD_ENDS, at),
        );
    }
}

/// Each write of the output in turn fails; there is one a line. Nothing more is written or sent.
#[test]
fn each_write_of_the_output_fails(rt: HostRuntime) {
    let writes: [(&str, usize); 6] = [
        ("", 1),
        ("hello north\n", 2),
        ("hello north\nrows 2\n", 2),
        ("hello north\nrows 2\n1 1 north mast POINT (3 4)\n", 2),
        (
            "hello north\nrows 2\n1 1 north mast POINT (3 4)\n2 1 north mast POINT (3 4)\n",
            3,
        ),
        (
            "hello north\nrows 2\n1 1 north mast POINT (3 4)\n2 1 north mast POINT (3 4)\nstaged\n",
            4,
        ),
    ];
    for (at, (written, lines)) in writes.iter().enumerate() {
        let fails = Fails {
            output: (at as u64).saturating_add(1),
            ..NONE_FAILS
        };
        let outcome = outcome_of(rt.alloc(), rt.alloc(), ASKED, TOLD.as_bytes(), fails);
        assert!(rt; matches!(outcome.end, Err(TalkFault::Output(_))), "at {at}");
        check(
            &rt,
            &outcome,
            up_to(ASKED, &ASKED_ENDS, *lines),
            written.as_bytes(),
        );
    }
}

/// Each allocation in turn is refused, and the talk ends with `Memory`, until no allocation is left
/// to refuse.
#[test]
fn each_allocation_is_refused(rt: HostRuntime) {
    let memory = Refusing::new(rt.alloc(), 0);
    let mut refused = 0u64;
    for at in 1..=20 {
        memory.refuse(at);
        let outcome = outcome_of(&memory, rt.alloc(), ASKED, TOLD.as_bytes(), NONE_FAILS);
        if !memory.has_refused() {
            assert!(rt; outcome.end.is_ok(), "at {at}");
            break;
        }
        assert!(rt; matches!(outcome.end, Err(TalkFault::Memory(_))), "at {at}");
        assert!(rt;
            TOLD.as_bytes().starts_with(outcome.written.as_slice()),
            "at {at}"
        );
        refused = at;
    }
    assert!(rt; (2..20).contains(&refused), "{refused}");
}

/// A server's line without an end is held until memory runs out; all that was read of it is
/// written.
#[test]
fn a_line_without_end(rt: HostRuntime) {
    let memory = Refusing::new(rt.alloc(), 6);
    let mut input = FailingReader {
        bytes: b"A\n",
        fails_at: 0,
    };
    let mut peer = CountingReader {
        gives: b'#',
        left: u64::MAX,
        calls: 0,
    };
    let mut sent = writer(rt.alloc(), 0);
    let mut written = writer(rt.alloc(), 0);
    let end = talk(&memory, &mut input, &mut peer, &mut sent, &mut written);
    assert!(rt; matches!(end, Err(TalkFault::Memory(_))));
    assert!(rt; peer.calls > 4_096);
    assert_eq!(rt; written.taken.len() as u64, peer.calls);
}

/// A talk of short lines asks for memory less often than this: each of its two buffers is made, and
/// grows once.
const LONG_TALK: u64 = 5;

/// How many lines a long talk sends.
const MANY: usize = 20_000;

/// The memory of a talk is that of its longest line, however many lines it sends and hears: what
/// was used makes room for what is read.
#[test]
fn a_long_talk_keeps_no_line(rt: HostRuntime) -> Result<(), Fail> {
    let mut asked: Vec<u8> = Vec::new(rt.alloc());
    let mut told: Vec<u8> = Vec::new(rt.alloc());
    for _ in 0..MANY {
        asked.extend_from_slice(b"ADD 1 mast POINT (3 4)\n")?;
        told.extend_from_slice(b"staged\n")?;
    }
    let memory = Refusing::new(rt.alloc(), LONG_TALK);
    let (mut input, mut peer) = (asked.as_slice(), told.as_slice());
    let mut sent = writer(rt.alloc(), 0);
    let mut written = writer(rt.alloc(), 0);
    let end = talk(&memory, &mut input, &mut peer, &mut sent, &mut written);
    assert!(rt; end.is_ok());
    assert!(rt; !memory.has_refused(), "it asks for memory again");
    assert!(rt; sent.taken == asked);
    assert!(rt; written.taken == told);
    Ok(())
}

/// How faults are shown.
#[test]
fn words(rt: HostRuntime) {
    assert_eq!(rt; TalkFault::Gone(Gone::Ended).word(), "the server is gone");
    assert_eq!(rt; TalkFault::TooManyLines.word(), "V3");
}
