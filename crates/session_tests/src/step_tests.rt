//! Searches made step by step: OPEN, STEP and FINISH of a script.
use crate::fakes::{FailingReader, FailingWriter, Failure, SIXTEEN_OPEN, SIXTEEN_OPENED};
use crate::script_lines::{BEHIND_SIXTEEN, Opening, SEATED, check_cases};
use crate::worlds::{opened, replies, serve_first};
use scripts::{ServeFault, run_script};
use std::alloc::Global;
use std::process::Abort;
use std::test::Fail;
use world::World;

/// Searches beside lists and policies, in sessions with three seats.
const CASES: &str = r#"=== a search is finished by the policy in force
> n: ADD 1 parcel POINT (1 1)
< n: staged
> n: ADD 2 road POINT (2 2)
< n: staged
> n: COMMIT
< n: applied 1
> s: OPEN POLYGON ((0 0, 4 0, 4 4, 0 4, 0 0))
< s: opened
> s: STEP 1000000
< s: ready
> c: POLICY {"root":{"combine":"deny-overrides","policy":"p","rules":[{"effect":"deny","rule":"no-parcel","target":[[[{"class":"parcel"}]]]},{"effect":"permit","rule":"open"}]}}
< c: edition 2
> s: FINISH
< s: rows 1
< s: 2 1 north road POINT (2 2)
=== a list is held while a ready search looks for one of its shapes
> s: OPEN POLYGON ((0 0, 4 0, 4 4, 0 4, 0 0))
< s: opened
> s: STEP 1000000
< s: ready
> n: ADD 2 mast POINT (1 1)
< n: staged
> n: COMMIT
< n: held
> s: FINISH
< s: rows 0
> n: COMMIT
< n: applied 1
=== one's own search holds too; none that has made no step or looks elsewhere; and no list that only deletes is held
> s: OPEN POINT (1 1)
< s: opened
> c: OPEN POINT (5 5)
< c: opened
> c: STEP 1
< c: ready
> n: ADD 1 mast POINT (1 1)
< n: staged
> n: COMMIT
< n: applied 1
> s: STEP 1
< s: ready
> s: ADD 2 road POINT (1 1)
< s: staged
> s: COMMIT
< s: held
> n: RESHAPE 1 1 POINT (1 1)
< n: staged
> n: COMMIT
< n: held
> n: ABORT
< n: aborted
> n: DELETE 1 1
< n: staged
> n: COMMIT
< n: applied 2
> s: FINISH
< s: rows 0
> s: COMMIT
< s: applied 3
=== STEP and FINISH without a search, OPEN beside one, and all without a session
> x: OPEN x
< x: error E5
> x: STEP
< x: error E5
> x: FINISH x
< x: error E5
> n: STEP 0x
< n: error E8
> n: STEP
< n: error E8
> n: FINISH x
< n: error E8
> n: OPEN POINT (0)
< n: error K3
> n: OPEN POINT (0 0)
< n: opened
> n: OPEN POINT (0)
< n: error E8
> n: FINISH
< n: rows 0
> n: FINISH
< n: error E8
=== numbers of steps, and what stands behind them
> n: OPEN POINT (0 0)
< n: opened
> n: STEP
< n: error E2
> n: STEP 0x
< n: error E3
> n: STEP 0
< n: error E3
> n: STEP 0 x
< n: error E3
> n: STEP 1000001
< n: error E3
> n: STEP 1 x
< n: error E2
> n: FINISH x
< n: error E2
> n: STEP 1000000 
< n: ready
> n: STEP 1
< n: ready
> n: FINISH
< n: rows 0
"#;

/// A leaf holds sixteen points, so seventeen make a root and two leaves: a search for all of them
/// is ready after three steps. A STEP makes at most as many steps as it says.
const COUNTED: &str = r#"=== three steps, one by one
> n: COMMIT
< n: applied 2
> n: OPEN POLYGON ((0 -1, 500 -1, 500 1, 0 1, 0 -1))
< n: opened
> n: STEP 1
< n: more
> n: STEP 1
< n: more
> n: STEP 1
< n: ready
=== one step and two
> n: COMMIT
< n: applied 2
> n: OPEN POLYGON ((0 -1, 500 -1, 500 1, 0 1, 0 -1))
< n: opened
> n: STEP 1
< n: more
> n: STEP 2
< n: ready
=== two steps and one
> n: COMMIT
< n: applied 2
> n: OPEN POLYGON ((0 -1, 500 -1, 500 1, 0 1, 0 -1))
< n: opened
> n: STEP 2
< n: more
> n: STEP 1
< n: ready
=== as many as are left, and none
> n: COMMIT
< n: applied 2
> n: OPEN POLYGON ((0 -1, 500 -1, 500 1, 0 1, 0 -1))
< n: opened
> n: STEP 4
< n: ready
> n: STEP 1
< n: ready
=== FINISH makes those that are left
> n: COMMIT
< n: applied 2
> n: OPEN POLYGON ((0 -1, 500 -1, 500 1, 0 1, 0 -1))
< n: opened
> n: STEP 1
< n: more
> n: FINISH
< n: rows 17
< n: 1 1 north road POINT (1 0)
< n: 2 1 north road POINT (2 0)
< n: 3 1 north road POINT (3 0)
< n: 4 1 north road POINT (4 0)
< n: 5 1 north road POINT (5 0)
< n: 6 1 north road POINT (6 0)
< n: 7 1 north road POINT (7 0)
< n: 8 1 north road POINT (8 0)
< n: 9 1 north road POINT (9 0)
< n: 10 1 north road POINT (10 0)
< n: 11 1 north road POINT (11 0)
< n: 12 1 north road POINT (12 0)
< n: 13 1 north road POINT (13 0)
< n: 14 1 north road POINT (14 0)
< n: 15 1 north road POINT (15 0)
< n: 16 1 north road POINT (16 0)
< n: 17 2 north road POINT (17 0)
"#;

/// A seventeenth search is refused until one of the sixteen sessions with a search has ended.
const BESIDE_SIXTEEN: &str = r#"=== no room for another search
> s16: OPEN POINT (0 0)
< s16: error S2
> s16: SEARCH POINT (0 0)
< s16: error S2
> s15: BYE
< s15: bye
> s16: SEARCH POINT (0 0)
< s16: rows 0
> s16: OPEN POINT (0 0)
< s16: opened
"#;

#[test]
fn step_by_step(rt: HostRuntime) -> Result<(), Fail> {
    check_cases(&rt, rt.alloc(), SEATED, CASES)?;
    check_cases(&rt, rt.alloc(), BEHIND_SIXTEEN, COUNTED)?;
    let sixteen = Opening {
        lines: SIXTEEN_OPEN,
        replies: SIXTEEN_OPENED,
    };
    check_cases(&rt, rt.alloc(), sixteen, BESIDE_SIXTEEN)?;
    Ok(())
}

#[test]
fn dropped_at_the_end(rt: HostRuntime) {
    let mut world = opened(&rt, rt.alloc(), rt.alloc());
    for _ in 0..2 {
        let output = replies(&rt, rt.alloc(), &mut world, SIXTEEN_OPEN);
        assert!(rt; output.ends_with(b"s14: opened\ns15: opened\n"));
    }
}

/// A session that opens a search and makes a step.
const OPENING: &str = "n: HELLO north\nn: OPEN POINT (3 4)\nn: STEP 1\n";

/// Checks that a run has left all sixteen places for searches free.
fn check_places(rt: &impl Abort, alloc: Global, world: &mut World<Global>) {
    let output = replies(rt, alloc, world, SIXTEEN_OPEN);
    assert!(rt; output.ends_with(b"s14: opened\ns15: opened\n"));
}

/// Each read of one byte in turn fails; the last would find the end of the input. The search is
/// open if its line was read.
#[test]
fn dropped_where_a_read_fails(rt: HostRuntime) {
    for at in 0..=OPENING.len() {
        let mut world = opened(&rt, rt.alloc(), rt.alloc());
        let mut output = Vec::new(rt.alloc());
        let mut reader = FailingReader {
            bytes: OPENING.as_bytes(),
            fails_at: (at as u64).saturating_add(1),
        };
        let end = run_script(rt.alloc(), rt.alloc(), &mut world, &mut reader, &mut output);
        assert!(rt; matches!(end, Err(ServeFault::Read(_))), "at {at}");
        check_places(&rt, rt.alloc(), &mut world);
    }
}

/// Each write of the replies in turn fails. When the reply `opened` or the next one fails, the
/// search is open.
#[test]
fn dropped_where_a_write_fails(rt: HostRuntime) {
    for at in 1..4 {
        let mut world = opened(&rt, rt.alloc(), rt.alloc());
        let mut writer = FailingWriter {
            taken: Vec::new(rt.alloc()),
            most: 1_000,
            fails_at: at,
            with: Failure::Error,
        };
        let mut reader = OPENING.as_bytes();
        let end = run_script(rt.alloc(), rt.alloc(), &mut world, &mut reader, &mut writer);
        assert!(rt; matches!(end, Err(ServeFault::Write(_))), "at {at}");
        check_places(&rt, rt.alloc(), &mut world);
    }
}

#[test]
fn only_in_scripts(rt: HostRuntime) {
    let ran = serve_first(
        &rt,
        rt.alloc(),
        "OPEN\nHELLO north\nOPEN POINT (0 0)\nSTEP 1\nFINISH\n",
    );
    assert_eq!(rt;
        ran.output.as_slice(),
        b"error E2\nhello north\nerror E2\nerror E2\nerror E2\n".as_slice()
    );
}
