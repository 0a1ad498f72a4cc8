//! Scripts of all kinds of lines.
use crate::fakes::{FIRST_POINT, FIRST_REPLIES};
use crate::script_lines::{SEATED, check_cases};
use crate::worlds::{opened, serve_first};
use refusing::Refusing;
use scripts::run_script;
use std::alloc::{AllocError, Global};
use std::process::Abort;
use std::test::Fail;
use world::World;

/// Policies, lists, refusals and rolls, in sessions with three seats.
const CASES: &str = r#"=== the first rule that decides is named
> c: POLICY {"root":{"combine":"deny-overrides","of":[{"combine":"permit-overrides","policy":"soft","rules":[{"effect":"deny","rule":"early"},{"effect":"permit","rule":"grant"}]},{"combine":"deny-overrides","policy":"hard","rules":[{"effect":"deny","rule":"late"}]}],"set":"top"}}
< c: edition 2
> n: ADD 1 mast POINT (0 0)
< n: staged
> n: COMMIT
< n: denied rule late change 1
=== a list is applied as a whole or not at all
> c: POLICY {"root":{"combine":"first-applicable","policy":"p","rules":[{"effect":"permit","rule":"roads","target":[[[{"class":"road"}]]]}]}}
< c: edition 2
> n: ADD 1 road POINT (1 1)
< n: staged
> n: ADD 2 parcel POINT (2 2)
< n: staged
> n: COMMIT
< n: denied none change 2
> n: SEARCH POLYGON ((0 0, 4 0, 4 4, 0 4, 0 0))
< n: rows 0
> n: ADD 5 road POINT (1 1)
< n: staged
> n: DELETE 5 1
< n: error X5
=== EXPLAIN, and who may change the policy
> n: EXPLAIN read north mast POINT (0 0)
< n: permit rule open edition 1
> c: POLICY {"root":{"combine":"first-applicable","policy":"p","rules":[{"effect":"permit","rule":"roads","target":[[[{"class":"road"}]]]}]}}
< c: edition 2
> n: EXPLAIN add north parcel POINT (2 2)
< n: denied none edition 2
> n: POLICY {}
< n: error D2
> n: POLICY {"root":{"combine":"first-applicable","policy":"p","rules":[{"effect":"permit","rule":"roads","target":[[[{"class":"road"}]]]}]}}
< n: error X7
> n: EXPLAIN walk north mast POINT (0 0)
< n: error E4
> n: EXPLAIN read
< n: error E2
=== lines that are refused
> x: SEARCH POINT (0 0)
< x: error E5
> x: HELLO nobody
< x: error H1
> n: FLY
< n: error E2
> n: COMMIT
< n: error E7
> n: ADD 1 mast
< n: error K3
> n: DELETE 9 1
< n: staged
> n: COMMIT
< n: absent change 1
> n: COMMIT
< n: error E7
> no label
< ?: error E9
> n: POLICY
< n: error D1
=== a reshape of a version that is no more
> n: ADD 7 road POINT (0 0)
< n: staged
> n: COMMIT
< n: applied 1
> n: ADD 8 road POINT (9 9)
< n: staged
> n: COMMIT
< n: applied 2
> n: RESHAPE 7 1 POINT (1 0)
< n: staged
> n: COMMIT
< n: applied 3
> n: RESHAPE 7 3 POINT (5 5)
< n: staged
> s: RESHAPE 7 3 POINT (6 6)
< s: staged
> n: COMMIT
< n: applied 4
> s: COMMIT
< s: stale 4 change 1
> s: SEARCH POINT (5 5)
< s: rows 1
< s: 7 4 north road POINT (5 5)
=== ABORT, and what drops a list
> n: ADD 1 road POINT (0 0)
< n: staged
> n: ABORT
< n: aborted
> n: COMMIT
< n: error E7
> n: ABORT
< n: aborted
> n: ABORT x
< n: error E2
> n: ADD 1 road POINT (0 0)
< n: staged
> n: COMMIT
< n: applied 1
> n: DELETE 1 1
< n: staged
> n: COMMIT
< n: applied 2
> n: SEARCH POINT (0 0)
< n: rows 0
=== rolls, their lines letter by letter, and numbers that run on
> n: ADD 1 mast POINT (4 4)
< n: staged
> n: COMMIT
< n: applied 1
> n: SEARCH POLYGON ((0 0, 4 0, 4 4, 0 4, 0 0))
< n: rows 1
< n: 1 1 north mast POINT (4 4)
> n: ROLL
< n: error X7
> c: ROLL x
< c: error E2
> c: ROLL
< c: rolled 2
< c: {"changes":[{"class":"mast","id":1,"shape":"POINT (4 4)","what":"add"}],"kind":"applied","number":1,"seat":1,"subject":"north","version":1}
< c: {"ids":[1],"kind":"answered","number":2,"seat":1,"subject":"north","window":"POLYGON ((0 0, 4 0, 4 4, 0 4, 0 0))"}
> c: ROLL
< c: rolled 0
> n: SEARCH POLYGON ((0 0, 4 0, 4 4, 0 4, 0 0))
< n: rows 1
< n: 1 1 north mast POINT (4 4)
> c: ROLL
< c: rolled 1
< c: {"ids":[1],"kind":"answered","number":3,"seat":1,"subject":"north","window":"POLYGON ((0 0, 4 0, 4 4, 0 4, 0 0))"}
"#;

#[test]
fn behind_three_seats(rt: HostRuntime) -> Result<(), Fail> {
    check_cases(&rt, rt.alloc(), SEATED, CASES)?;
    Ok(())
}

/// The worked script of a point, without labels; then an empty line, and the end of the session.
const UNLABELLED: &str =
    "HELLO north\nADD 1 mast POINT (3 4)\nCOMMIT\nSEARCH point(3 4)\nSEARCH POINT (3 5)\n\nBYE\n";

#[test]
fn without_labels(rt: HostRuntime) {
    let ran = serve_first(&rt, rt.alloc(), UNLABELLED);
    assert_eq!(rt;
        ran.output.as_slice(),
        b"hello north\nstaged\napplied 1\nrows 1\n1 1 north mast POINT (3 4)\nrows 0\nerror E2\nbye\n".as_slice()
    );
}

/// After a run in which a line was answered `memory`, checks that a new run finds the point if and
/// only if its COMMIT was answered `applied`, and no staged list.
fn check_behind<'a>(
    rt: &impl Abort,
    heap: Global,
    world: &mut World<&'a Refusing<Global>>,
    memory: &'a Refusing<Global>,
    first: &[u8],
) -> Result<(), AllocError> {
    memory.refuse(0);
    let mut output = Vec::new(heap);
    let mut script = "n: HELLO north\nn: COMMIT\nn: SEARCH POINT (3 4)\n".as_bytes();
    let end = run_script(memory, heap, world, &mut script, &mut output);
    assert!(rt; end.is_ok());
    let replies = str::from_utf8(first);
    assert!(rt; replies.is_ok());
    let replies = replies.unwrap();
    assert!(rt; replies.contains("n: memory\n"), "no line was refused");
    let expected = if replies.contains("n: applied 1\n") {
        "n: hello north\nn: error E7\nn: rows 1\nn: 1 1 north mast POINT (3 4)\n"
    } else {
        "n: hello north\nn: error E7\nn: rows 0\n"
    };
    assert_eq!(rt; output.as_slice(), expected.as_bytes());
    Ok(())
}

/// Each allocation in a world during the worked script is refused in turn: a line is answered
/// `memory`, and a new run finds what was committed before.
#[test]
fn each_allocation_refused(rt: HostRuntime) -> Result<(), Fail> {
    let memory = Refusing::new(rt.alloc(), 0);
    for at in 3..60 {
        let mut world = opened(&rt, &memory, rt.alloc());
        let mut output = Vec::new(rt.alloc());
        memory.refuse(at);
        let end = run_script(
            &memory,
            rt.alloc(),
            &mut world,
            &mut FIRST_POINT.as_bytes(),
            &mut output,
        );
        assert!(rt; end.is_ok());
        if !memory.has_refused() {
            assert_eq!(rt; output.as_slice(), FIRST_REPLIES.as_bytes());
            assert!(rt; at > 6, "nothing was refused");
            return Ok(());
        }
        check_behind(&rt, rt.alloc(), &mut world, &memory, output.as_slice())?;
    }
    assert!(rt; false, "each allocation was refused");
    Ok(())
}
