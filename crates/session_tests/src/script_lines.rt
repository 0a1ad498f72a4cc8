//! Scripts with their replies, as text. A line that begins with `=== ` begins a case and says what
//! it shows, one that begins with `> ` is a line of its script, and one that begins with `< ` is a
//! reply.
use crate::fakes::{HELLO_REPLIES, HELLOS, SIXTEEN, SIXTEEN_TOLD};
use crate::worlds::{opened, opened_at, replies};
use std::alloc::{AllocError, Global};
use std::process::Abort;
use world::{Limits, Starts, World};

/// Lines before those of a case, and their replies.
#[derive(Clone, Copy, Drop)]
pub struct Opening {
    pub lines: &'static str,
    pub replies: &'static str,
}

/// No lines before.
pub const AT_ONCE: Opening = Opening {
    lines: "",
    replies: "",
};

/// A seat for each of the built-in subjects.
pub const SEATED: Opening = Opening {
    lines: HELLOS,
    replies: HELLO_REPLIES,
};

/// Sixteen points, and one more that is staged.
pub const BEHIND_SIXTEEN: Opening = Opening {
    lines: SIXTEEN,
    replies: SIXTEEN_TOLD,
};

/// The lines `before`, followed by the lines of a case with this mark, without the mark.
fn marked(heap: Global, before: &str, case: &str, mark: &str) -> Result<String, AllocError> {
    let mut text = String::from_str(heap, before)?;
    for line in case.split_inclusive('\n') {
        if let Some(said) = line.strip_prefix(mark) {
            text.push_str(said)?;
        }
    }
    Ok(text)
}

/// Checks that the output is exactly this text, first line by line.
fn check_lines(rt: &impl Abort, output: &[u8], expected: &str, case: &str) {
    let Ok(written) = str::from_utf8(output) else {
        panic!(rt; "{case}")
    };
    for (line, reply) in written.lines().zip(expected.lines()) {
        assert_eq!(rt; line, reply, "{case}");
    }
    assert_eq!(rt; written, expected, "{case}");
}

/// Checks the replies to the script of a case over this world.
fn check_case(
    rt: &impl Abort,
    heap: Global,
    world: &mut World<Global>,
    opening: Opening,
    case: &str,
) -> Result<(), AllocError> {
    let script = marked(heap, opening.lines, case, "> ")?;
    let expected = marked(heap, opening.replies, case, "< ")?;
    let output = replies(rt, heap, world, script.as_str());
    check_lines(rt, output.as_slice(), expected.as_str(), case);
    Ok(())
}

/// Checks the replies to the script of each case, each over a new world.
pub fn check_cases(
    rt: &impl Abort,
    heap: Global,
    opening: Opening,
    cases: &str,
) -> Result<(), AllocError> {
    for case in cases.split("=== ").skip(1) {
        let mut world = opened(rt, heap, heap);
        check_case(rt, heap, &mut world, opening, case)?;
    }
    Ok(())
}

/// The same, with these first numbers and limits for each world.
pub fn check_cases_at(
    rt: &impl Abort,
    heap: Global,
    starts: Starts,
    limits: Limits,
    opening: Opening,
    cases: &str,
) -> Result<(), AllocError> {
    for case in cases.split("=== ").skip(1) {
        let mut world = opened_at(rt, heap, heap, starts, limits);
        check_case(rt, heap, &mut world, opening, case)?;
    }
    Ok(())
}
