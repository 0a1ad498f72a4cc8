//! JSON values, read and printed.

ghost use Rattle.std.specs.Prelude.{◌≡◌, ◌≤◌, ◌<◌, OnOk, OnErr, IfOk, IfErr, None, Some, false, length, string_bytes, IsUtf8};
ghost use Rattle.serde_json.specs.Data.{string, depth as nesting, put as with_member};
ghost use Rattle.serde_json.specs.Read.{read, max_depth, read as read_text};
ghost use Rattle.serde_json.specs.View.{view, members_view};
ghost use Rattle.serde_json.specs.Written.{has_float, compact_text};
ghost use Rattle.memory.specs.JsonFault.{IsTextFault};

use crate::no_memory::NoMemory;
use serde_json::{Category, Error, Map, Value};
use std::alloc::Global;

/// Why bytes are not read as a JSON value.
#[derive(Debug, Drop)]
pub enum JsonFault {
    /// They are not JSON, or not UTF-8.
    Text(Error),
    /// Out of memory.
    Memory(NoMemory),
}

/// Reads a JSON text (RFC 8259) in UTF-8. An empty text is always the fault `Text`.
pub fn json_value(heap: Global, bytes: &[u8]) -> Result<Value, JsonFault>
    ensures ok { IfOk result
        (λ value. IsUtf8 bytes.now × (read_text bytes.now ≡ Some (view value))) }
    ensures nests { IfOk result (λ value. nesting (view value) ≤ max_depth) }
    ensures text { IfErr result
        (λ fault. IsTextFault fault → IsUtf8 bytes.now → read_text bytes.now ≡ None) }
    ensures empty { length bytes.now ≡ 0 → IfErr result IsTextFault }
{
    match Value::from_slice(heap, bytes) {
        Ok(value) => Ok(value),
        Err(error) => match error.classify() {
            Category::Memory => Err(JsonFault::Memory(NoMemory::seen())),
            _ => Err(JsonFault::Text(error)),
        },
    }
}

/// A JSON value as text: without spaces, the keys of each object sorted. It is read as that value,
/// if it nests no deeper than the reader allows.
pub fn json_text(heap: Global, value: &Value) -> Result<String, NoMemory>
    ensures text { IfOk result
        (λ text. has_float (view value.now) ≡ false
        → string_bytes text ≡ compact_text (view value.now)) }
    ensures reads_back { IfOk result
        (λ text. nesting (view value.now) ≤ max_depth
        → read (string_bytes text) ≡ Some (view value.now)) }
{
    match value.to_string(heap) {
        Ok(text) => Ok(text),
        Err(_) => Err(NoMemory::seen()),
    }
}

/// A text as a JSON string.
pub fn json_string(heap: Global, text: &str) -> Result<Value, NoMemory>
    ensures { IfOk result (λ value. view value ≡ string text.now) }
{
    match Value::try_from_str(heap, text) {
        Ok(value) => Ok(value),
        Err(_) => Err(NoMemory::seen()),
    }
}

/// Puts a member into a JSON object, in place of one with the same key. If out of memory, the
/// object is unchanged.
pub fn put_member(
    members: &mut Map<String, Value>,
    heap: Global,
    key: &str,
    value: Value,
) -> Result<(), NoMemory>
    ensures ok { OnOk result
        (members_view members.new.entries
        ≡ with_member key.now (view value) (members_view members.old.entries)) }
    ensures err { OnErr result (members.new.entries ≡ members.old.entries) }
{
    match serde_json::put(members, heap, key, value) {
        Ok(()) => Ok(()),
        Err(_) => Err(NoMemory::seen()),
    }
}
