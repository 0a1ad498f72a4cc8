//! Reads whole documents.

ghost use Rattle.std.specs.Prelude.{◌≡◌, length};
ghost use Rattle.serde_json.specs.View.{view};
ghost use Rattle.policy_text.specs.Reading.{Gives, document_in};
ghost use Rattle.policy_text.specs.Bytes.{document_of_bytes};

use crate::areas::document_in;
use crate::faults::TextFault;
use memory::json_value;
use policy_documents::Document;
use serde_json::Value;
use std::alloc::{Allocator, Global};

/// Reads a document from a JSON text (RFC 8259).
///
/// The text is read as a JSON value first. It is not JSON (D1) if its bytes are not UTF-8 (section
/// 8.1) or do not follow the grammar (section 2), if an escape is one half of a surrogate pair
/// (section 8.2), if arrays and objects nest more than 127 deep (section 9), or if a number is too
/// large for a 64-bit float (section 6). If an object has a key twice, its last value counts
/// (section 4).
///
/// Otherwise the error is the first fault from the top down: of the document, of its zones in
/// written order, then of its root, and there of each set, policy or rule before its children. In
/// each object the order is:
///
/// - Any object: it is not an object (D2), a key is not listed (D3), a key's value is missing or
///   wrong (D2).
/// - A zone, after that: its shape (D6), its name again (D4), more than 64 zones (D8).
/// - A set or policy, before all else: more than 8 nested sets and policies (D7). A set, policy or
///   rule, after the values of its keys: its name again (D4), more than 512 sets and policies, or
///   512 rules (D8), the parts of its target, its conditions.
/// - A match or an atom: after D3, that it does not have exactly one key (D2); after the key's
///   value, that its zone does not exist (D5), then more than 4096 matches and atoms (D8). A `not`
///   counts too, before the term in it.
///
/// `heap` holds the JSON value while it is read, and nothing afterwards. `alloc` holds the document
/// and, during the call, a list of its names. The error is D9 as soon as either refuses an
/// allocation.
pub fn read_document<A: Allocator + Copy>(
    alloc: A,
    heap: Global,
    text: &[u8],
) -> Result<Document<A>, TextFault>
    ensures value { Gives (λ document. document) result (document_of_bytes text.now) }
    ensures empty { length text.now ≡ 0 → result ≡ Err TextFault.NotJson }
{
    let value = json_value(heap, text)?;
    document_of_value(alloc, &value)
}

/// Reads a document from a JSON value, which may be part of a larger one. The faults are those of
/// [`read_document`] after D1, in the same order; paths start at `value`.
pub fn document_of_value<A: Allocator + Copy>(
    alloc: A,
    value: &Value,
) -> Result<Document<A>, TextFault>
    ensures { Gives (λ document. document) result (document_in (view value.now)) }
{
    let (zones, root) = document_in(alloc, value)?;
    Ok(Document::new(zones, root))
}
