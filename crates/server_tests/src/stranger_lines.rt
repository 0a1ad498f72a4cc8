//! Lines that strangers send.
use crate::servers::OPEN;
use std::alloc::{AllocError, Global};
use std::iter;

/// Each byte in a line of its own, all bytes except the line feed in one line, a line that is too
/// long, and a last line without a line feed.
pub fn bytes_of_every_value(heap: Global) -> Result<Vec<u8>, AllocError> {
    let mut lines = Vec::new(heap);
    for byte in 0..=255u8 {
        lines.extend_from_slice(&[byte, b'\n'])?;
    }
    lines.extend((0..=255u8).filter(|byte| *byte != b'\n'))?;
    lines.push(b'\n')?;
    lines.extend(iter::repeat_n(b'x', 70_000))?;
    lines.extend_from_slice(b"\n\xff\xff\xff")?;
    Ok(lines)
}

/// Adds a POLICY line of this many bytes, with spaces after its document.
fn push_policy(lines: &mut Vec<u8>, bytes: usize) -> Result<(), AllocError> {
    let end = lines.len().saturating_add(bytes);
    lines.extend_from_slice(b"POLICY ")?;
    lines.extend_from_slice(OPEN.as_bytes())?;
    lines.resize(end, b' ')?;
    lines.push(b'\n')?;
    Ok(())
}

/// A steward's POLICY lines of 65,536 and of 65,537 bytes.
pub fn long_policies(heap: Global) -> Result<Vec<u8>, AllocError> {
    let mut lines = Vec::new(heap);
    lines.extend_from_slice(b"HELLO chief\n")?;
    push_policy(&mut lines, 65_536)?;
    push_policy(&mut lines, 65_537)?;
    lines.extend_from_slice(b"BYE\n")?;
    Ok(lines)
}

/// How many searches `long_trail` makes and rolls out.
pub const SEARCHES: u32 = 1_000;

/// A search whose record has some 400 bytes.
const WIDE_SEARCH: &str =
    "SEARCH POLYGON ((9807852 1950903, 8314695 5555702, 5555702 8314695, 1950903 9807852, -1950903 9807852, -5555702 8314695, -8314695 5555702, -9807852 1950903, -9807852 -1950903, -8314695 -5555702, -5555702 -8314695, -1950903 -9807852, 1950903 -9807852, 5555702 -8314695, 8314695 -5555702, 9807852 -1950903, 9807852 1950903))\n";

/// A steward's searches, and a ROLL of their records.
pub fn long_trail(heap: Global) -> Result<String, AllocError> {
    let mut lines = String::new(heap);
    lines.push_str("HELLO chief\n")?;
    lines.extend(iter::repeat_n(WIDE_SEARCH, SEARCHES as usize))?;
    lines.push_str("ROLL\n")?;
    Ok(lines)
}

/// Valid lines.
const RIGHT: &str =
    "SEARCH POINT (5 7)\nSEARCH POLYGON ((0 0, 9 0, 9 9, 0 9, 0 0))\nCOMMIT\nCOMMIT\nCOMMIT\nABORT\nADD 1 mast POINT (1 7)\nADD 2 road LINESTRING (1 1, 9 9)\nADD 3 mast POINT (3 7)\nADD 4 mast POINT (4 7)\nADD 5 mast POINT (5 7)\nADD 6 mast POINT (6 7)\nRESHAPE 1 1 POINT (7 7)\nDELETE 2 2\nEXPLAIN read north mast POINT (1 1)";

/// Words that a line may begin with.
const COMMANDS: &str =
    "HELLO\nSEARCH\nADD\nRESHAPE\nDELETE\nCOMMIT\nABORT\nEXPLAIN\nPOLICY\nROLL\nOPEN\nSTEP\nFINISH\nhello\nSEARCHES\n#\n";

/// Words that may follow.
const WORDS: &str =
    "north\nsouth\nmast\nread\nadd\nPOINT (1 2)\nPOINT(1 2\nLINESTRING (0 0, 3 4)\nLINESTRING (0 0, 0 0)\nPOLYGON ((0 0, 4 0, 4 4, 0 4, 0 0))\nPOLYGON ((0 0, 4 0, 0 4, 4 4, 0 0))\nMULTIPOINT (1 1)\nPOINT (1e3 2)\nPOINT (10000001 0)\nPOINT EMPTY\n1\n0\n18446744073709551615\n18446744073709551616\n-1\n+1\n{}\n[\n\t\n{\"root\":{\"combine\":\"first-applicable\",\"policy\":\"p\",\"rules\":[]}}\né\n%\n((((((";

/// Pseudo-random numbers, from a linear congruential generator.
#[derive(Drop)]
struct Dice {
    state: u64,
}

impl Dice {
    /// A number below `sides`; 0 if `sides` is 0.
    fn below(&mut self, sides: usize) -> usize {
        self.state = self
            .state
            .wrapping_mul(6_364_136_223_846_793_005)
            .wrapping_add(1_442_695_040_888_963_407);
        let drawn = (self.state >> 33) as usize;
        drawn.checked_rem(sides).unwrap_or(0)
    }

    /// A random line of the text.
    fn line_of<'a>(&mut self, text: &'a str) -> &'a str {
        let count = text.lines().count();
        text.lines().nth(self.below(count)).unwrap_or("")
    }
}

/// Replaces one byte of the last line, which begins at `begin`.
fn spoil(dice: &mut Dice, lines: &mut Vec<u8>, begin: usize) {
    let at = begin.saturating_add(dice.below(lines.len().saturating_sub(begin)));
    let byte = u8::try_from(dice.below(256)).unwrap_or(b'?');
    if let Some(place) = lines.get_mut(at)
        && byte != b'\n'
    {
        *place = byte;
    }
}

/// Adds a line that a session might send. Most of them have an error.
fn push_line(dice: &mut Dice, lines: &mut Vec<u8>) -> Result<(), AllocError> {
    let begin = lines.len();
    if dice.below(10) < 4 {
        lines.extend_from_slice(dice.line_of(RIGHT).as_bytes())?;
    } else {
        lines.extend_from_slice(dice.line_of(COMMANDS).as_bytes())?;
        for _ in 0..dice.below(5) {
            lines.push(b' ')?;
            lines.extend_from_slice(dice.line_of(WORDS).as_bytes())?;
        }
    }
    if dice.below(10) == 0 {
        spoil(dice, lines, begin);
    }
    lines.push(b'\n')?;
    Ok(())
}

/// HELLO, and `count` lines that are nearly right, from this seed.
pub fn nearly_right(heap: Global, seed: u64, count: usize) -> Result<Vec<u8>, AllocError> {
    let mut dice = Dice { state: seed };
    let mut lines = Vec::new(heap);
    lines.extend_from_slice(b"HELLO south\n")?;
    for _ in 0..count {
        push_line(&mut dice, &mut lines)?;
    }
    Ok(lines)
}
