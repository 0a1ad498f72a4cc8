//! Drawings that are made: what is written, and which lines show something.
use crate::runs::{NONE_FAILS, outcome_of};
use crate::texts::{DRAWN, EMPTY, REPLIES, SCRIPT};
use drawing::{Mark, read_mark};
use std::alloc::Global;
use std::process::Abort;

/// Checks that this script and these replies are drawn as `drawn`.
fn draws(rt: &impl Abort, heap: Global, script: &str, replies: &str, drawn: &str) {
    let outcome = outcome_of(heap, heap, script, replies, NONE_FAILS);
    assert!(rt; outcome.end.is_ok());
    assert_eq!(rt; outcome.written.as_slice(), drawn.as_bytes());
}

#[test]
fn a_script_and_its_replies(rt: HostRuntime) {
    draws(&rt, rt.alloc(), SCRIPT, REPLIES, DRAWN);
}

/// Without marks the whole range of coordinates is shown.
#[test]
fn nothing(rt: HostRuntime) {
    draws(&rt, rt.alloc(), "", "", EMPTY);
    draws(&rt, rt.alloc(), "n: COMMIT\n", "n: error E5", EMPTY);
}

/// Lines that are drawn, and lines that are not.
#[test]
fn lines(rt: HostRuntime) {
    let windows = [
        "SEARCH POINT (3 4)",
        "n: SEARCH POINT (3 4)",
        "n:SEARCH POINT (3 4)",
        "  OPEN  POINT (3 4)",
        "north-1: OPEN LINESTRING (0 0, 1 1)",
    ];
    for line in windows {
        let mark = read_mark(line.as_bytes());
        assert!(rt; matches!(&mark, Some(Mark::Window(_))), "{line}");
    }
    let rows = [
        "1 2 north mast POINT (3 4)",
        "n: 1 2 north mast POINT (3 4)",
        "18446744073709551615 0 a b POLYGON ((0 0, 1 0, 1 1, 0 0))",
    ];
    for line in rows {
        let mark = read_mark(line.as_bytes());
        assert!(rt; matches!(&mark, Some(Mark::Row(_))), "{line}");
    }
    let others = [
        "",
        "# n: SEARCH POINT (3 4)",
        "#: SEARCH POINT (3 4)",
        "n: SEARCH",
        "n: SEARCH POINT (3)",
        "n: FINISH",
        "n: rows 2",
        "n: ADD 1 mast POINT (3 4)",
        "1 2 north mast",
        "1 2 north mast POINT EMPTY",
        "1 2 North mast POINT (3 4)",
        "1 x north mast POINT (3 4)",
        "18446744073709551616 0 a b POINT (3 4)",
    ];
    for line in others {
        assert!(rt; read_mark(line.as_bytes()).is_none(), "{line}");
    }
}

/// The ninth class has no colour of its own, and is not in the legend.
#[test]
fn nine_classes(rt: HostRuntime) {
    let rows = concat!(
        "1 1 n c1 POINT (1 0)\n",
        "2 1 n c2 POINT (2 0)\n",
        "3 1 n c3 POINT (3 0)\n",
        "4 1 n c4 POINT (4 0)\n",
        "5 1 n c5 POINT (5 0)\n",
        "6 1 n c6 POINT (6 0)\n",
        "7 1 n c7 POINT (7 0)\n",
        "8 1 n c8 POINT (8 0)\n",
        "9 1 n c9 POINT (9 0)\n",
        "10 1 n c1 POINT (0 0)\n",
    );
    let outcome = outcome_of(rt.alloc(), rt.alloc(), "", rows, NONE_FAILS);
    let Ok(text) = str::from_utf8(outcome.written.as_slice()) else {
        panic!(rt; "not UTF-8")
    };
    assert!(rt; text.contains("<g fill=\"#17becf\" stroke=\"#17becf\"><title>8 c8 n</title>"));
    assert!(rt; text.contains("<g fill=\"#7f7f7f\" stroke=\"#7f7f7f\"><title>9 c9 n</title>"));
    assert!(rt; text.contains("<g fill=\"#1f77b4\" stroke=\"#1f77b4\"><title>10 c1 n</title>"));
    assert!(rt; text.contains("fill=\"#17becf\">c8</tspan>"));
    assert!(rt; !text.contains("c9</tspan>"));
}
