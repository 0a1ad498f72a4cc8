//! A list of one session that another session's search holds back.
use crate::memory_streams::{Client, Meeting, Replies, Step, check_told, whole};
use crate::servers::closed_by;
use failing_streams::FailingWriter;
use hall::{Pause, TRY_LIMIT};
use server::WORKER_COUNT;
use std::alloc::Global;
use std::sync::atomic::{AtomicU64, Ordering};
use std::sync::{Mutex, Wait};
use std::test::Fail;

/// A search that waits, after it has passed the place that the list below changes, until that list
/// is answered.
const SEARCHES: [Step; 1] = [Step::Sends(
    "HELLO north\nSEARCH POLYGON ((0 0, 4 0, 4 4, 0 4, 0 0))\n",
)];

/// A list that is committed while that search waits, and again afterwards.
const COMMITS: [Step; 4] = [
    Step::Awaits,
    Step::Sends("HELLO south\nADD 1 mast POINT (2 2)\nCOMMIT\n"),
    Step::Sets,
    Step::Sends("COMMIT\n"),
];

/// Searches elsewhere, repeated until the list is answered.
const ELSEWHERE: [Step; 2] = [
    Step::Sends("HELLO chief\n"),
    Step::Repeats("SEARCH POINT (100 100)\n"),
];

/// Such a pause, which counts its calls until what it waits for is set.
#[derive(Drop)]
struct Counting<'a> {
    pause: Meeting<'a>,
    calls: &'a AtomicU64,
}

impl Pause for Counting<'_> {
    fn between(&mut self) {
        if self.pause.other.load(Ordering::SeqCst) == 0 {
            self.calls.fetch_add(1, Ordering::SeqCst);
        }
        self.pause.between();
    }

    fn wants_steps(&self) -> bool {
        self.pause.wants_steps()
    }
}

/// A client that takes these steps. Its pause lets `passes` calls pass, then waits once, for
/// `answered`. Its calls before that are counted.
fn client<'a, R: Wait>(
    rt: &'a R,
    steps: &'static [Step],
    told: &'a Mutex<FailingWriter>,
    passes: u64,
    seen: &'a AtomicU64,
    answered: &'a AtomicU64,
    calls: &'a AtomicU64,
) -> (Client<'a>, Replies<'a, R>, Counting<'a>) {
    let client = Client {
        steps,
        seen,
        answered,
    };
    let pause = Meeting {
        passes,
        mine: seen,
        other: answered,
    };
    let pause = Counting { pause, calls };
    (client, Replies::kept_in(rt, told), pause)
}

/// How many searches were answered with no rows.
fn searched(told: &[u8]) -> u64 {
    let lines = told.split(|byte| *byte == b'\n');
    lines.filter(|line| *line == b"rows 0".as_slice()).count() as u64
}

/// How often the list's pause is called until it is answered. A try has three events: it begins,
/// stages the change, and walks. The pause is called between two events.
const CALLS: u64 = 3 * TRY_LIMIT as u64 - 1;

/// The list is retried each time another search ends, until the hall gives up and answers `held`:
/// just so often, since the session does not try again by itself. The list stays staged, and is
/// applied when it is committed again.
#[test]
fn held_by_another_session(rt: HostRuntime) -> Result<(), Fail> {
    let heap: Global = rt.alloc();
    let (seen, answered) = (AtomicU64::new(0), AtomicU64::new(0));
    let (calls, uncounted) = (AtomicU64::new(0), AtomicU64::new(0));
    let (found, changed) = (whole(heap), whole(heap));
    let others = whole(heap);
    let streams = vec![in heap;
        client(&rt, &SEARCHES, &found, 1, &seen, &answered, &uncounted),
        client(&rt, &COMMITS, &changed, u64::MAX, &seen, &answered, &calls),
        client(
            &rt,
            &ELSEWHERE,
            &others,
            u64::MAX,
            &seen,
            &answered,
            &uncounted
        ),
    ]?;
    let closed = closed_by(&rt, rt, heap, WORKER_COUNT, streams);
    assert_eq!(rt; seen.load(Ordering::SeqCst), Meeting::MET);
    check_told(&rt, found, "hello north\nrows 0\n");
    check_told(&rt, changed, "hello south\nstaged\nheld\napplied 1\n");
    assert_eq!(rt; calls.load(Ordering::SeqCst), CALLS);
    let searches = searched(others.into_inner().taken.as_slice());
    assert!(rt; searches >= u64::from(TRY_LIMIT));
    assert_eq!(rt; closed.records, searches.saturating_add(2));
    assert_eq!(rt; closed.seats, 3);
    Ok(())
}
