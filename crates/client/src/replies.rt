//! How many lines a reply has.

ghost use Rattle.std.specs.Prelude.{◌≡◌, IsTrue, ◌↔◌, codes};
ghost use Rattle.client.specs.Replies.{count_in, rows_behind};

use line_words::read_number;

/// The number that a text spells; 0 if it spells none.
fn count(text: &[u8]) -> u64
    ensures { result ≡ count_in text.now }
{
    read_number(text).unwrap_or(0)
}

/// How many lines follow the first line of a reply, given here without its line feed: N after `rows
/// N` and `rolled N`, otherwise none.
pub(crate) fn rows_of(head: &[u8]) -> u64
    ensures { result ≡ rows_behind head.now }
{
    if let Some(rows) = head.strip_prefix(b"rows ") {
        return count(rows);
    }
    match head.strip_prefix(b"rolled ") {
        Some(rows) => count(rows),
        None => 0,
    }
}

/// Whether the first line of a reply, given here without its line feed, ends the session.
pub(crate) fn is_farewell(head: &[u8]) -> bool
    ensures { IsTrue result ↔ (head.now ≡ codes "bye") }
{
    head == b"bye".as_slice()
}
