//! Texts that grow: bytes, numbers and JSON strings.

ghost use Rattle.std.specs.Prelude.{◌≡◌, ◌+◌, ◌≤◌, ◌<◌, ◌++◌, decimal, length, OnOk};
ghost use Rattle.std.specs.List.{flat_map};
ghost use Rattle.std.specs.Char.{digit_char};
ghost use Rattle.map_answers.specs.Strings.{escaped, escaped_byte, string_text};

use itoa::Buffer;
use memory::{NoMemory, try_extend};
use std::alloc::Allocator;

/// Appends bytes to a text.
pub fn put<A: Allocator>(text: &mut Vec<u8, A>, bytes: &[u8]) -> Result<(), NoMemory>
    ensures { OnOk result (text.new.items ≡ text.old.items ++ bytes.now) }
{
    try_extend(text, bytes)
}

/// Appends a number.
pub fn put_number<A: Allocator>(text: &mut Vec<u8, A>, n: u64) -> Result<(), NoMemory>
    ensures { OnOk result (text.new.items ≡ text.old.items ++ decimal n) }
{
    let mut buffer = Buffer::new();
    put(text, buffer.format(n).as_bytes())
}

/// The digit, to the base 16, of a number below 16.
fn hex_digit(n: u8) -> u8
    requires { n < 16 }
    ensures { result ≡ digit_char n }
{
    if n < 10 { b'0' + n } else { b'a' + (n - 10) }
}

/// Appends what stands for a byte in a JSON string (RFC 8259, 7).
#[tactic(auto, unfolding(crate::specs::Strings::escaped_byte))]
fn put_escaped_byte<A: Allocator>(text: &mut Vec<u8, A>, byte: u8) -> Result<(), NoMemory>
    ensures { OnOk result (text.new.items ≡ text.old.items ++ escaped_byte byte) }
{
    if byte == b'"' || byte == b'\\' {
        put(text, &[b'\\', byte])
    } else if byte < 32 {
        put(
            text,
            &[
                b'\\',
                b'u',
                b'0',
                b'0',
                hex_digit(byte / 16),
                hex_digit(byte % 16),
            ],
        )
    } else {
        put(text, &[byte])
    }
}

/// Appends what stands for these bytes in a JSON string.
fn put_escaped<A: Allocator>(text: &mut Vec<u8, A>, bytes: &[u8]) -> Result<(), NoMemory>
    ensures { OnOk result (text.new.items ≡ text.old.items ++ escaped bytes.now) }
{
    for byte in bytes {
        put_escaped_byte(text, *byte)?;
    }
    Ok(())
}

/// Appends a JSON string of these bytes.
#[tactic(auto, unfolding(crate::specs::Strings::string_text))]
pub fn put_string<A: Allocator>(text: &mut Vec<u8, A>, bytes: &[u8]) -> Result<(), NoMemory>
    ensures { OnOk result (text.new.items ≡ text.old.items ++ string_text bytes.now) }
{
    put(text, b"\"")?;
    put_escaped(text, bytes)?;
    put(text, b"\"")
}
