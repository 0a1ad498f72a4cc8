//! Texts put at the end of a page, with the bytes spelled that a reader of the page would not take
//! as they are.

ghost use Rattle.std.specs.Prelude.{◌≡◌, ◌++◌, OnOk, option_map, unwrap_or};
ghost use Rattle.std.specs.List.{flat_map};
ghost use Rattle.manual.specs.Spelling.{spelled, spelling};

use memory::{GrowVec, NoMemory, try_extend};
use std::alloc::Allocator;

/// How a text is spelled.
#[derive(Clone, Copy, Debug, PartialEq, Eq)]
pub(crate) enum Style {
    /// Within a manual page.
    Roff,
    /// Within single quotes of zsh, in front of a colon.
    Zsh,
    /// Within single quotes of fish.
    Fish,
}

/// How a byte is spelled, if not as it is.
fn spelling(style: Style, byte: u8) -> Option<&'static [u8]>
    ensures { option_map (λ bytes. bytes.now) result ≡ spelling style byte }
{
    match (style, byte) {
        (Style::Roff, b'\\') => Some(b"\\e"),
        (Style::Roff, b'-') => Some(b"\\-"),
        (Style::Roff, b'.') => Some(b"\\&."),
        (Style::Roff, b'\'') => Some(b"\\(aq"),
        (Style::Zsh, b'\'') => Some(b"'\\''"),
        (Style::Zsh, b':') => Some(b"\\:"),
        (Style::Zsh | Style::Fish, b'\\') => Some(b"\\\\"),
        (Style::Fish, b'\'') => Some(b"\\'"),
        _ => None,
    }
}

/// Puts a text at the end of a page.
pub(crate) fn put<A: Allocator>(text: &str, page: &mut Vec<u8, A>) -> Result<(), NoMemory>
    ensures { OnOk result (page.new.items ≡ page.old.items ++ text.now) }
{
    try_extend(page, text.as_bytes())
}

/// Puts a text at the end of a page, spelled.
pub(crate) fn put_spelled<A: Allocator>(
    style: Style,
    text: &str,
    page: &mut Vec<u8, A>,
) -> Result<(), NoMemory>
    ensures { OnOk result (page.new.items ≡ page.old.items ++ flat_map (spelled style) text.now) }
{
    for byte in text.as_bytes() {
        match spelling(style, *byte) {
            Some(bytes) => try_extend(page, bytes)?,
            None => page.try_push(*byte)?,
        }
    }
    Ok(())
}
