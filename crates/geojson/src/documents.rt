//! Reads the JSON value of a text.

ghost use Rattle.std.specs.Prelude.{◌≡◌};
ghost use Rattle.geojson.specs.Documents.{ReadsJson};
ghost use Rattle.geojson.specs.Faults.{unread_cause};

use crate::faults::{Cause, JsonRefused};
use json::{Error, Scratch, Value};
use std::alloc::Allocator;

/// Why the reader of JSON read no value.
fn unread(error: Error) -> Cause
    ensures { result ≡ unread_cause error }
{
    match error {
        Error::OutOfMemory => Cause::Json(JsonRefused::seen()),
        Error::Invalid | Error::TooLong | Error::DuplicateKey => Cause::NotJson,
    }
}

/// The JSON value of a text (RFC 8259), which borrows the text and the scratch. `NotJson` where it
/// is not JSON or not UTF-8, `Json` where an allocation was refused.
pub fn read_json<'a, A: Allocator + Copy>(
    alloc: A,
    text: &'a [u8],
    scratch: &'a mut Scratch<A>,
) -> Result<Value<'a, A>, Cause>
    ensures { ReadsJson text.now result }
{
    match Value::from_slice(alloc, text, scratch) {
        Ok(value) => Ok(value),
        Err(error) => Err(unread(error)),
    }
}
