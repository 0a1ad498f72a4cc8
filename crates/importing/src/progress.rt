//! How far an import has come: the text of its `.done` file.

ghost use Rattle.std.specs.Prelude.{◌≡◌};
ghost use Rattle.importing.specs.Progress.{progress_text, progress_of};

use arrayvec::ArrayVec;
use itoa::Buffer;
use line_words::read_number;

/// The text that tells that this many rows are settled: the number and a line feed.
pub fn progress_text(rows: u64) -> ArrayVec<u8, 24>
    ensures { result.items ≡ progress_text rows }
{
    let mut buffer = Buffer::new();
    let mut text = ArrayVec::new();
    text.try_extend_from_slice(buffer.format(rows).as_bytes())
        .unwrap();
    text.push(b'\n');
    text
}

/// The number of rows that such a text tells. `None` for every other text: one that was cut off
/// before its line feed too.
pub fn read_progress(text: &[u8]) -> Option<u64>
    ensures { result ≡ progress_of text.now }
{
    if text.is_empty() || text[text.len() - 1] != b'\n' {
        return None;
    }
    read_number(&text[..text.len() - 1])
}
