//! Additions of features, and the session lines of a list of them.

ghost use Rattle.std.specs.Prelude.{◌≡◌, ◌++◌, OnOk, IfOk};
ghost use Rattle.importing.specs.Additions.{addition_text, list_text};

use features::Name;
use itoa::Buffer;
use memory::{NoMemory, try_extend};
use plane::Shape;
use std::alloc::Allocator;
use wkt::shape_text;

/// The most changes that a server takes in one list.
pub const LIST_LIMIT: usize = 16;

/// A feature that is to be added, and the number of the row of the file that it comes of.
#[derive(Clone, Copy, Debug)]
pub struct Addition {
    pub row: u64,
    pub id: u64,
    pub class: Name,
    pub shape: Shape,
}

/// Appends the line that stages an addition.
fn push_addition<A: Allocator>(text: &mut Vec<u8, A>, addition: &Addition) -> Result<(), NoMemory>
    ensures { OnOk result (text.new.items ≡ text.old.items ++ addition_text addition.now) }
{
    let mut buffer = Buffer::new();
    try_extend(text, b"ADD ")?;
    try_extend(text, buffer.format(addition.id).as_bytes())?;
    try_extend(text, b" ")?;
    try_extend(text, addition.class.as_bytes())?;
    try_extend(text, b" ")?;
    try_extend(text, shape_text(&addition.shape).as_bytes())?;
    try_extend(text, b"\n")?;
    Ok(())
}

/// The session lines that stage a list and commit it. Of at most 16 additions they have less than
/// 7,000 bytes.
pub fn list_text<A: Allocator>(alloc: A, list: &[Addition]) -> Result<Vec<u8, A>, NoMemory>
    ensures { IfOk result (λ text. text.items ≡ list_text list.now) }
{
    let mut text = Vec::new(alloc);
    for addition in list {
        push_addition(&mut text, addition)?;
    }
    try_extend(&mut text, b"COMMIT\n")?;
    Ok(text)
}
