//! Worked scripts, lines and labels, and limits.
use crate::script_lines::{AT_ONCE, check_cases};
use crate::worlds::{run_first, serve_first};
use std::alloc::{AllocError, Global};
use std::process::Abort;
use std::test::Fail;

/// The second case has the lines of examples/three_shapes.map.
const CASES: &str = r#"=== a point is added and found again
> n: HELLO north
< n: hello north
> n: ADD 1 mast POINT (3 4)
< n: staged
> n: COMMIT
< n: applied 1
> n: SEARCH point(3 4)
< n: rows 1
< n: 1 1 north mast POINT (3 4)
> n: SEARCH POINT (3 5)
< n: rows 0
=== two offices
> # Two offices: one adds a list of three shapes, the other finds what its window touches.
> n: HELLO north
< n: hello north
> n: ADD 1 mast POINT (4 4)
< n: staged
> n: ADD 2 road LINESTRING (6 2, -1 3)
< n: staged
> n: ADD 3 parcel POLYGON ((0 0, 0 4, 4 4, 4 2, 4 0, 0 0))
< n: staged
> n: COMMIT
< n: applied 1
> 
> s: HELLO south
< s: hello south
> s: SEARCH POLYGON ((4 4, 9 4, 9 9, 4 9, 4 4))
< s: rows 2
< s: 1 1 north mast POINT (4 4)
< s: 3 1 north parcel POLYGON ((0 0, 4 0, 4 4, 0 4, 0 0))
> s: SEARCH LINESTRING (5 0, 5 9)
< s: rows 1
< s: 2 1 north road LINESTRING (-1 3, 6 2)
> s: BYE
< s: bye
> n: BYE
< n: bye
=== a search without a session
> x: SEARCH POINT (0 0)
< x: error E5
=== a subject that nobody knows
> x: HELLO nobody
< x: error H1
=== lines that are refused
> n: HELLO north
< n: hello north
> n: FLY
< n: error E2
> n: COMMIT
< n: error E7
> n: ADD 1 mast
< n: error K3
=== a line without a label
> no label
< ?: error E9
=== a point is found once it is committed
> n: HELLO north
< n: hello north
> n: SEARCH POINT (4 4)
< n: rows 0
> n: ADD 1 mast POINT (4 4)
< n: staged
> n: COMMIT
< n: applied 1
> n: SEARCH POINT (4 4)
< n: rows 1
< n: 1 1 north mast POINT (4 4)
=== coordinates at their limits and beyond
> n: HELLO north
< n: hello north
> n: ADD 1 mast POINT (10000001 0)
< n: error K5
> n: ADD 1 mast point(+3.00 -0)
< n: staged
> n: COMMIT
< n: applied 1
> n: SEARCH POINT (3 0)
< n: rows 1
< n: 1 1 north mast POINT (3 0)
> n: SEARCH POINT (10000000 -10000000)
< n: rows 0
=== a window over nothing
> n: HELLO north
< n: hello north
> n: SEARCH POLYGON ((0 0, 4 0, 4 4, 0 4, 0 0))
< n: rows 0
=== shapes of each kind, as windows and as features
> n: HELLO north
< n: hello north
> n: ADD 1 mast POINT (4 4)
< n: staged
> n: COMMIT
< n: applied 1
> n: SEARCH POLYGON ((0 0, 4 0, 4 4, 0 4, 0 0))
< n: rows 1
< n: 1 1 north mast POINT (4 4)
> n: ADD 2 road LINESTRING (6 2, -1 3)
< n: staged
> n: ADD 3 road LINESTRING (5 0, 9 9)
< n: staged
> n: ADD 4 parcel polygon((0 0,0 4,4 4,4 2,4 0,0 0))
< n: staged
> n: COMMIT
< n: applied 2
> n: SEARCH POLYGON ((0 0, 4 0, 4 4, 0 4, 0 0))
< n: rows 3
< n: 1 1 north mast POINT (4 4)
< n: 2 2 north road LINESTRING (-1 3, 6 2)
< n: 4 2 north parcel POLYGON ((0 0, 4 0, 4 4, 0 4, 0 0))
> n: SEARCH LINESTRING (5 0, 5 9)
< n: rows 2
< n: 2 2 north road LINESTRING (-1 3, 6 2)
< n: 3 2 north road LINESTRING (5 0, 9 9)
> n: SEARCH POLYGON ((0 0, 1 1, 2 2, 0 0))
< n: error P7
> n: SEARCH POLYGON ((0 0, 6 4, -2 4, 4 0, 2 7, 0 0))
< n: error P8
=== no line
=== a session that has not begun, and words behind a command
> n: BYE x
< n: error E2
> n: COMMIT
< n: error E5
> n: COMMIT x
< n: error E5
> n: SEARCH x
< n: error E5
=== the order of faults of a line
> n: HELLO chief
< n: hello chief
> n: ADD
< n: error E2
> n: ADD x
< n: error E3
> n: ADD 1
< n: error E2
> n: ADD 1 A POINT (0 0)
< n: error E4
> n: ADD 1 a POLYGON EMPTY
< n: error K2
> n: COMMIT x
< n: error E2
> n: OPEN POINT (0 0)
< n: opened
=== numbers and their signs
> n: HELLO north
< n: hello north
> n: ADD 18446744073709551615 a POINT (0 0)
< n: staged
> n: ADD 18446744073709551616 a POINT (0 0)
< n: error E3
> n: ADD 000000000000000000000 a POINT (0 0)
< n: error E3
> n: ADD +1 a POINT (0 0)
< n: error E3
> n: ADD 00000000000000000007 a POINT (0 0)
< n: staged
=== a list is of its session
> n: HELLO north
< n: hello north
> s: HELLO south
< s: hello south
> n: ADD 1 a POINT (0 0)
< n: staged
> s: COMMIT
< s: error E7
> s: ADD 1 b POINT (0 0)
< s: staged
> n: COMMIT
< n: applied 1
> s: COMMIT
< s: exists change 1
> s: COMMIT
< s: error E7
> n: COMMIT
< n: error E7
=== a later session of a label has none of the list of the one before
> n: HELLO north
< n: hello north
> n: ADD 1 a POINT (0 0)
< n: staged
> n: BYE
< n: bye
> n: COMMIT
< n: error E5
> n: HELLO south
< n: hello south
> n: COMMIT
< n: error E7
=== of a list that is refused nothing is added
> n: HELLO north
< n: hello north
> n: ADD 2 a POINT (0 0)
< n: staged
> n: COMMIT
< n: applied 1
> n: ADD 1 a POINT (0 0)
< n: staged
> n: ADD 2 a POINT (0 0)
< n: staged
> n: ADD 2 a POINT (1 1)
< n: error X5
> n: COMMIT
< n: exists change 2
> n: SEARCH POINT (0 0)
< n: rows 1
< n: 2 1 north a POINT (0 0)
=== rows come by rising id
> n: HELLO north
< n: hello north
> n: ADD 3 c POINT (0 0)
< n: staged
> n: ADD 1 a POINT (0 0)
< n: staged
> n: ADD 2 b POINT (1 0)
< n: staged
> n: COMMIT
< n: applied 1
> n: SEARCH POINT (0 0)
< n: rows 2
< n: 1 1 north a POINT (0 0)
< n: 3 1 north c POINT (0 0)
=== a list has 16 changes at most
> n: HELLO north
< n: hello north
> n: ADD 0 a POINT (0 0)
< n: staged
> n: ADD 1 a POINT (0 0)
< n: staged
> n: ADD 2 a POINT (0 0)
< n: staged
> n: ADD 3 a POINT (0 0)
< n: staged
> n: ADD 4 a POINT (0 0)
< n: staged
> n: ADD 5 a POINT (0 0)
< n: staged
> n: ADD 6 a POINT (0 0)
< n: staged
> n: ADD 7 a POINT (0 0)
< n: staged
> n: ADD 8 a POINT (0 0)
< n: staged
> n: ADD 9 a POINT (0 0)
< n: staged
> n: ADD 10 a POINT (0 0)
< n: staged
> n: ADD 11 a POINT (0 0)
< n: staged
> n: ADD 12 a POINT (0 0)
< n: staged
> n: ADD 13 a POINT (0 0)
< n: staged
> n: ADD 14 a POINT (0 0)
< n: staged
> n: ADD 15 a POINT (0 0)
< n: staged
> n: ADD 16 a POINT (0 0)
< n: error X6
> n: COMMIT
< n: applied 1
> n: COMMIT
< n: error E7
"#;

#[test]
fn worked_scripts(rt: HostRuntime) -> Result<(), Fail> {
    check_cases(&rt, rt.alloc(), AT_ONCE, CASES)?;
    Ok(())
}

/// Line ends that the cases above cannot show: returns, tabs and spaces, and a last line without a
/// line feed.
#[test]
fn lines_and_labels(rt: HostRuntime) {
    let cases = [
        ("\n\r\n# a comment\n#\n", ""),
        (
            "n: HELLO north\r\nn:  BYE  \r\nn: BYE",
            "n: hello north\nn: bye\nn: bye\n",
        ),
        (
            "n:HELLO north\nn:   HELLO\nn: BYE\r",
            "n: hello north\nn: error E6\nn: error E2\n",
        ),
        (
            " n: BYE\nN: BYE\n: BYE\n # x\n \nn\n",
            "?: error E9\n?: error E9\n?: error E9\n?: error E9\n?: error E9\n?: error E9\n",
        ),
        (
            "n:\nn: \nn: hello north\nn: HELLO\nn: HELLO North\nn: HELLO north x\nn: HELLO\tnorth\n",
            "n: error E2\nn: error E2\nn: error E2\nn: error E2\nn: error E4\nn: error E2\nn: error E2\n",
        ),
    ];
    for (script, expected) in cases {
        let ran = run_first(&rt, rt.alloc(), script);
        assert_eq!(rt; ran.output.as_slice(), expected.as_bytes(), "{script}");
    }
}

/// A line for each of 66 labels.
const LABELS: &str =
    "s0: BYE\ns1: BYE\ns2: BYE\ns3: BYE\ns4: BYE\ns5: BYE\ns6: BYE\ns7: BYE\ns8: BYE\ns9: BYE\ns10: BYE\ns11: BYE\ns12: BYE\ns13: BYE\ns14: BYE\ns15: BYE\ns16: BYE\ns17: BYE\ns18: BYE\ns19: BYE\ns20: BYE\ns21: BYE\ns22: BYE\ns23: BYE\ns24: BYE\ns25: BYE\ns26: BYE\ns27: BYE\ns28: BYE\ns29: BYE\ns30: BYE\ns31: BYE\ns32: BYE\ns33: BYE\ns34: BYE\ns35: BYE\ns36: BYE\ns37: BYE\ns38: BYE\ns39: BYE\ns40: BYE\ns41: BYE\ns42: BYE\ns43: BYE\ns44: BYE\ns45: BYE\ns46: BYE\ns47: BYE\ns48: BYE\ns49: BYE\ns50: BYE\ns51: BYE\ns52: BYE\ns53: BYE\ns54: BYE\ns55: BYE\ns56: BYE\ns57: BYE\ns58: BYE\ns59: BYE\ns60: BYE\ns61: BYE\ns62: BYE\ns63: BYE\ns64: BYE\ns65: BYE\n";

/// Checks how the replies to a script end.
fn check_end(rt: &impl Abort, alloc: Global, script: &str, end: &str) {
    let ran = run_first(rt, alloc, script);
    assert!(rt; ran.output.ends_with(end.as_bytes()), "{end}");
}

#[test]
fn limits(rt: HostRuntime) -> Result<(), Fail> {
    // 64 labels get a session; each further label is refused, even after a BYE.
    let end = "s63: bye\n?: error E9\n?: error E9\n";
    check_end(&rt, rt.alloc(), LABELS, end);
    // 1,024 seats are given; the next HELLO is refused.
    let seats = "n: HELLO north\nn: BYE\n".repeat(rt.alloc(), 1_026)?;
    let end = "n: hello north\nn: bye\nn: error H2\nn: bye\nn: error H2\nn: bye\n";
    check_end(&rt, rt.alloc(), seats.as_str(), end);
    Ok(())
}

/// A line of this length that names no command, followed by `end`.
fn long_line(alloc: Global, len: usize, end: &str) -> Result<String, AllocError> {
    let word = "X".repeat(alloc, len.saturating_sub("n: ".len()))?;
    format!(in alloc; "n: {word}{end}")
}

/// Checks the replies to a script with a line of this length, followed by `end`.
fn check_long(
    rt: &impl Abort,
    alloc: Global,
    len: usize,
    end: &str,
    expected: &str,
) -> Result<(), AllocError> {
    let script = long_line(alloc, len, end)?;
    let ran = run_first(rt, alloc, script.as_str());
    assert_eq!(rt; ran.output.as_slice(), expected.as_bytes(), "{len}");
    Ok(())
}

/// Checks the replies of an unlabelled session to a line of this length and a BYE.
fn served_alone(
    rt: &impl Abort,
    alloc: Global,
    len: usize,
    expected: &str,
) -> Result<(), AllocError> {
    let lines = long_line(alloc, len, "\nBYE\n")?;
    let ran = serve_first(rt, alloc, lines.as_str());
    assert_eq!(rt; ran.output.as_slice(), expected.as_bytes(), "{len}");
    Ok(())
}

#[test]
fn long_lines(rt: HostRuntime) -> Result<(), Fail> {
    for (len, end, expected) in [
        (65_536, "\nn: BYE\n", "n: error E2\nn: bye\n"),
        (65_536, "\r\nn: BYE\n", "n: error E2\nn: bye\n"),
        (65_537, "\nn: BYE\n", "?: error E1\nn: bye\n"),
        (65_537, "\r\nn: BYE\n", "?: error E1\nn: bye\n"),
        (65_536, "\r", "?: error E1\n"),
        (200_000, "", "?: error E1\n"),
    ] {
        check_long(&rt, rt.alloc(), len, end, expected)?;
    }
    served_alone(&rt, rt.alloc(), 65_536, "error E2\nbye\n")?;
    served_alone(&rt, rt.alloc(), 65_537, "error E1\nbye\n")?;
    Ok(())
}
