//! Lines over a tree of many nodes, and the index slots that a script tends.
use crate::worlds::{opened, replies, run_first, serve_first, served};
use std::alloc::{AllocError, Global};
use std::process::Abort;
use std::test::Fail;
use world::World;

/// Appends a template to a text, with `number` in place of each `#`.
fn put_numbered(text: &mut String, template: &str, number: u64) -> Result<(), AllocError> {
    let mut parts = template.split('#');
    if let Some(front) = parts.next() {
        text.push_str(front)?;
    }
    for part in parts {
        write!(text, "{number}{part}")?;
    }
    Ok(())
}

/// The lines `before`, and then the template `count` times, with the numbers from `first` on,
/// `apart` apart, in place of each `#`.
fn numbered(
    alloc: Global,
    before: &str,
    template: &str,
    first: u64,
    count: u64,
    apart: u64,
) -> Result<String, AllocError> {
    let mut text = String::from_str(alloc, before)?;
    for turn in 0..count {
        let number = first.saturating_add(turn.saturating_mul(apart));
        put_numbered(&mut text, template, number)?;
    }
    Ok(text)
}

/// Adds sixteen points at one place, and commits them.
const LIST: &str =
    "n: ADD #00 road POINT (0 0)\nn: ADD #01 road POINT (0 0)\nn: ADD #02 road POINT (0 0)\nn: ADD #03 road POINT (0 0)\nn: ADD #04 road POINT (0 0)\nn: ADD #05 road POINT (0 0)\nn: ADD #06 road POINT (0 0)\nn: ADD #07 road POINT (0 0)\nn: ADD #08 road POINT (0 0)\nn: ADD #09 road POINT (0 0)\nn: ADD #10 road POINT (0 0)\nn: ADD #11 road POINT (0 0)\nn: ADD #12 road POINT (0 0)\nn: ADD #13 road POINT (0 0)\nn: ADD #14 road POINT (0 0)\nn: ADD #15 road POINT (0 0)\nn: COMMIT\n";

/// The rows of a list's points.
const ROWS: &str =
    "n: #00 # north road POINT (0 0)\nn: #01 # north road POINT (0 0)\nn: #02 # north road POINT (0 0)\nn: #03 # north road POINT (0 0)\nn: #04 # north road POINT (0 0)\nn: #05 # north road POINT (0 0)\nn: #06 # north road POINT (0 0)\nn: #07 # north road POINT (0 0)\nn: #08 # north road POINT (0 0)\nn: #09 # north road POINT (0 0)\nn: #10 # north road POINT (0 0)\nn: #11 # north road POINT (0 0)\nn: #12 # north road POINT (0 0)\nn: #13 # north road POINT (0 0)\nn: #14 # north road POINT (0 0)\nn: #15 # north road POINT (0 0)\n";

/// A hundred lists, searches, and one more list.
fn many_lines(alloc: Global) -> Result<String, AllocError> {
    let lists = numbered(alloc, "n: HELLO north\n", LIST, 1, 100, 1)?;
    let further = numbered(alloc, "", LIST, 101, 1, 1)?;
    format!(in alloc;
        "{lists}n: SEARCH POINT (0 0)\nn: OPEN POINT (0 0)\nn: STEP 50\nn: STEP 100\nn: STEP 1000000\nn: FINISH\n{further}n: SEARCH POINT (0 0)\n"
    )
}

/// The replies to `many_lines`, from the last of the hundred lists on.
fn many_replies(alloc: Global) -> Result<String, AllocError> {
    let rows = numbered(alloc, "", ROWS, 1, 100, 1)?;
    let further = numbered(alloc, "", ROWS, 101, 1, 1)?;
    format!(in alloc;
        "n: staged\nn: applied 100\nn: rows 1600\n{rows}n: opened\nn: more\nn: more\nn: ready\nn: rows 1600\n{rows}n: staged\nn: staged\nn: staged\nn: staged\nn: staged\nn: staged\nn: staged\nn: staged\nn: staged\nn: staged\nn: staged\nn: staged\nn: staged\nn: staged\nn: staged\nn: staged\nn: applied 101\nn: rows 1616\n{rows}{further}"
    )
}

/// A leaf holds sixteen points, and many leaves are half full: a search for all points visits more
/// than 150 nodes.
#[test]
fn large_searches(rt: HostRuntime) -> Result<(), Fail> {
    let script = many_lines(rt.alloc())?;
    let expected = many_replies(rt.alloc())?;
    let ran = run_first(&rt, rt.alloc(), script.as_str());
    assert!(rt; ran.slots > 150, "{}", ran.slots);
    assert!(rt; ran.output.ends_with(expected.as_bytes()));
    Ok(())
}

/// Unlabelled lines that add sixteen points by one list and delete them by another; `#` is the
/// version of the points.
const ROUND: &str =
    "ADD 0 road POINT (0 0)\nADD 1 road POINT (1 0)\nADD 2 road POINT (2 0)\nADD 3 road POINT (3 0)\nADD 4 road POINT (4 0)\nADD 5 road POINT (5 0)\nADD 6 road POINT (6 0)\nADD 7 road POINT (7 0)\nADD 8 road POINT (8 0)\nADD 9 road POINT (9 0)\nADD 10 road POINT (10 0)\nADD 11 road POINT (11 0)\nADD 12 road POINT (12 0)\nADD 13 road POINT (13 0)\nADD 14 road POINT (14 0)\nADD 15 road POINT (15 0)\nCOMMIT\nDELETE 0 #\nDELETE 1 #\nDELETE 2 #\nDELETE 3 #\nDELETE 4 #\nDELETE 5 #\nDELETE 6 #\nDELETE 7 #\nDELETE 8 #\nDELETE 9 #\nDELETE 10 #\nDELETE 11 #\nDELETE 12 #\nDELETE 13 #\nDELETE 14 #\nDELETE 15 #\nCOMMIT\n";

/// The same lines for a script.
const ROUND_OF_NORTH: &str =
    "n: ADD 0 road POINT (0 0)\nn: ADD 1 road POINT (1 0)\nn: ADD 2 road POINT (2 0)\nn: ADD 3 road POINT (3 0)\nn: ADD 4 road POINT (4 0)\nn: ADD 5 road POINT (5 0)\nn: ADD 6 road POINT (6 0)\nn: ADD 7 road POINT (7 0)\nn: ADD 8 road POINT (8 0)\nn: ADD 9 road POINT (9 0)\nn: ADD 10 road POINT (10 0)\nn: ADD 11 road POINT (11 0)\nn: ADD 12 road POINT (12 0)\nn: ADD 13 road POINT (13 0)\nn: ADD 14 road POINT (14 0)\nn: ADD 15 road POINT (15 0)\nn: COMMIT\nn: DELETE 0 #\nn: DELETE 1 #\nn: DELETE 2 #\nn: DELETE 3 #\nn: DELETE 4 #\nn: DELETE 5 #\nn: DELETE 6 #\nn: DELETE 7 #\nn: DELETE 8 #\nn: DELETE 9 #\nn: DELETE 10 #\nn: DELETE 11 #\nn: DELETE 12 #\nn: DELETE 13 #\nn: DELETE 14 #\nn: DELETE 15 #\nn: COMMIT\n";

/// A leaf holds sixteen pairs, so the 1,600 pairs placed here take a hundred leaves if none is
/// cleaned up. A script tends one slot after each line, round robin, so the index stays small.
#[test]
fn slots_are_tended(rt: HostRuntime) -> Result<(), Fail> {
    let labelled = numbered(rt.alloc(), "n: HELLO north\n", ROUND_OF_NORTH, 1, 100, 2)?;
    let alone = numbered(rt.alloc(), "HELLO north\n", ROUND, 1, 100, 2)?;
    let tended = run_first(&rt, rt.alloc(), labelled.as_str());
    assert!(rt; tended.output.ends_with(b"n: staged\nn: applied 200\n"));
    assert!(rt; tended.slots < 20, "{}", tended.slots);
    let untended = serve_first(&rt, rt.alloc(), alone.as_str());
    assert!(rt; untended.output.ends_with(b"staged\napplied 200\n"));
    assert!(rt; untended.slots > 100, "{}", untended.slots);
    Ok(())
}

/// Serves 30 rounds over a world, and returns how many slots the index has then.
fn serve_rounds(
    rt: &impl Abort,
    alloc: Global,
    world: &mut World<Global>,
    version: u64,
) -> Result<u32, AllocError> {
    let applied = format!(in alloc; "applied {}\n", version.saturating_add(59))?;
    let lines = numbered(alloc, "HELLO north\n", ROUND, version, 30, 2)?;
    let output = served(rt, alloc, world, lines.as_str());
    assert!(rt; output.ends_with(applied.as_bytes()));
    Ok(world.slots())
}

/// Checks that after these lines of a script the slots used by an unlabelled session are free
/// again: as many points then fit into them.
fn check_tended(
    rt: &impl Abort,
    alloc: Global,
    world: &mut World<Global>,
    lines: &str,
) -> Result<(), AllocError> {
    let before = serve_rounds(rt, alloc, world, 1)?;
    assert!(rt; before > 30, "{before}");
    replies(rt, alloc, world, lines);
    let behind = serve_rounds(rt, alloc, world, 61)?;
    assert!(rt; behind < before.saturating_add(5), "{before} {behind}");
    Ok(())
}

/// A script tends a slot after every line, even after one that is skipped, or refused because it
/// has no label.
#[test]
fn each_line_tends_a_slot(rt: HostRuntime) -> Result<(), Fail> {
    for line in ["\n", "# a comment\n", "no label\n"] {
        let mut world = opened(&rt, rt.alloc(), rt.alloc());
        let lines = line.repeat(rt.alloc(), 1_000)?;
        check_tended(&rt, rt.alloc(), &mut world, lines.as_str())?;
    }
    Ok(())
}
