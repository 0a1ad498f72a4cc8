//! Printing a secret and its entry.

ghost use Rattle.std.specs.Prelude.{◌≡◌, IfOk};
ghost use Rattle.byte_streams.specs.Written.{Took};
ghost use Rattle.secrets.specs.Secrets.{IsPrinted, lines_of, printed_lines};

use crate::texts::{digest_text, secret_of};
use byte_streams::{Flushed, WriteFailed, flush, write_whole};
use features::Name;
use memory::{NoMemory, try_extend};
use std::alloc::Allocator;
use std::io::Write;

/// Why a secret is not printed.
#[derive(Debug, Drop, PartialEq, Eq)]
pub enum SecretFault {
    /// There was no memory for its lines, and nothing is written.
    Memory(NoMemory),
    /// A write or the flush failed; some of the front of the lines may be written.
    Write(WriteFailed),
}

/// The line of a secret, and the line of its entry for this subject.
fn lines_of<A: Allocator>(
    alloc: A,
    subject: Name,
    secret: &[u8],
    digest: &[u8],
) -> Result<Vec<u8, A>, NoMemory>
    ensures { IfOk result (λ lines. lines.items ≡ lines_of subject secret.now digest.now) }
{
    let mut lines = Vec::new(alloc);
    try_extend(&mut lines, secret)?;
    try_extend(&mut lines, b"\n{\"subject\": \"")?;
    try_extend(&mut lines, subject.as_bytes())?;
    try_extend(&mut lines, b"\", \"sha256\": \"")?;
    try_extend(&mut lines, digest)?;
    try_extend(&mut lines, b"\"}\n")?;
    Ok(lines)
}

/// The lines that are printed of the secret that is made of random bytes for a subject.
fn printed_lines<A: Allocator>(
    alloc: A,
    subject: Name,
    random: &[u8; 32],
) -> Result<Vec<u8, A>, NoMemory>
    ensures { IfOk result (λ lines. lines.items ≡ printed_lines subject random.now) }
{
    let secret = secret_of(random);
    let digest = digest_text(&secret);
    lines_of(alloc, subject, &secret, &digest)
}

/// Writes lines whole, and flushes.
fn write_lines<W: Write>(lines: &[u8], output: &mut W) -> Result<Flushed, WriteFailed>
    ensures { Took result (W.contents output.old) (W.contents output.new) lines.now }
{
    write_whole(lines, output)?;
    flush(output)
}

/// Prints the secret that is made of 32 random bytes, and the entry of a configuration by which a
/// subject asks with it: a line each. The lines are made whole before a byte is written.
pub fn print_secret<A: Allocator, W: Write>(
    alloc: A,
    subject: Name,
    random: &[u8; 32],
    output: &mut W,
) -> Result<Flushed, SecretFault>
    ensures { IsPrinted result (W.contents output.old) (W.contents output.new)
        (printed_lines subject random.now) }
{
    let lines = match printed_lines(alloc, subject, random) {
        Ok(lines) => lines,
        Err(no_memory) => return Err(SecretFault::Memory(no_memory)),
    };
    match write_lines(lines.as_slice(), output) {
        Ok(flushed) => Ok(flushed),
        Err(failed) => Err(SecretFault::Write(failed)),
    }
}
