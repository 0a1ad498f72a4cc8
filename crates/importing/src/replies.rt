//! What a server's reply to a line of an import means.

ghost use Rattle.std.specs.Prelude.{◌≡◌, drop};
ghost use Rattle.line_words.specs.Words.{number_of};
ghost use Rattle.importing.specs.Replies.{behind_word, denied_of, exists_of, error_of, longer_of, reply_of};

use line_words::{next_word, read_number};

/// A reply to ADD or COMMIT.
#[derive(Clone, Copy, Debug, PartialEq, Eq)]
pub enum Reply {
    /// `staged`
    Staged,
    /// `applied`, and a version.
    Applied,
    /// `held`, `memory`, `error S2` or `error S7`: the line is to be sent again.
    Busy,
    /// `denied`, of the staged change with this number, counted from 1.
    Denied(u64),
    /// `exists`, of the staged change with this number, counted from 1.
    Exists(u64),
    /// `error`, and another code.
    Error,
    /// Anything else.
    Unknown,
}

/// What is behind the first word of a text.
fn behind_word(text: &[u8]) -> &[u8]
    ensures { result.now ≡ behind_word text.now }
{
    match next_word(text) {
        Some((_, rest)) => rest,
        None => b"",
    }
}

/// `denied`, of the change whose number a text is.
fn denied(text: &[u8]) -> Reply
    ensures { result ≡ denied_of (number_of text.now) }
{
    match read_number(text) {
        Some(change) => Reply::Denied(change),
        None => Reply::Unknown,
    }
}

/// `exists`, of the change whose number a text is.
fn exists(text: &[u8]) -> Reply
    ensures { result ≡ exists_of (number_of text.now) }
{
    match read_number(text) {
        Some(change) => Reply::Exists(change),
        None => Reply::Unknown,
    }
}

/// An error with this code.
fn error(code: &[u8]) -> Reply
    ensures { result ≡ error_of code.now }
{
    if code == b"S2".as_slice() || code == b"S7".as_slice() {
        Reply::Busy
    } else {
        Reply::Error
    }
}

/// A reply that begins with a word and goes on.
fn longer(line: &[u8]) -> Reply
    ensures { result ≡ longer_of line.now }
{
    if line.starts_with(b"applied ") {
        return Reply::Applied;
    }
    if let Some(rest) = line.strip_prefix(b"exists change ") {
        return exists(rest);
    }
    if let Some(rest) = line.strip_prefix(b"denied none change ") {
        return denied(rest);
    }
    if let Some(rest) = line.strip_prefix(b"denied rule ") {
        return denied_by_rule(rest);
    }
    match line.strip_prefix(b"error ") {
        Some(code) => error(code),
        None => Reply::Unknown,
    }
}

/// `denied`, of the change whose number is behind a rule's name and ` change `.
fn denied_by_rule(text: &[u8]) -> Reply
    ensures { result ≡ denied_of (number_of (drop 8 (behind_word text.now))) }
{
    let rest = behind_word(text);
    if rest.len() < 8 {
        return denied(b"");
    }
    denied(&rest[8..])
}

/// What a reply to ADD or COMMIT means, given without its line feed.
pub fn read_reply(line: &[u8]) -> Reply
    ensures { result ≡ reply_of line.now }
{
    if line == b"staged".as_slice() {
        Reply::Staged
    } else if line == b"held".as_slice() || line == b"memory".as_slice() {
        Reply::Busy
    } else {
        longer(line)
    }
}
