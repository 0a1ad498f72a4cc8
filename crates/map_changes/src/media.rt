//! The type of a body (RFC 9110, 8.3).

ghost use Rattle.std.specs.Prelude.{◌≡◌, ◌≤◌, length};
ghost use Rattle.std.specs.List.{prefix_len};
ghost use Rattle.map_changes.specs.Media.{is_document, is_json, is_json_type, is_part, is_read_by, is_type_byte, media_type};

use crate::edits::Method;

/// Whether a byte may belong to the type that stands at the front of a field `content-type`.
fn is_type_byte(byte: u8) -> bool
    ensures { result ≡ is_type_byte byte }
{
    byte != b';' && byte != b' ' && byte != b'\t'
}

/// How many bytes the type at the front of a field `content-type` has.
#[tactic(auto, using(crate::proofs::PrefixLemmas::prefix_fits))]
fn type_len(field: &[u8]) -> usize
    ensures value { result ≡ prefix_len is_type_byte field.now }
    ensures fits { result ≤ length field.now }
{
    field.iter().take_while(|byte| is_type_byte(**byte)).count()
}

/// The type that a field `content-type` names (RFC 9110, 8.3), without its parameters.
pub fn media_type(field: &[u8]) -> &[u8]
    ensures { result.now ≡ media_type field.now }
{
    &field[..type_len(field)]
}

/// Whether a type is that of JSON (RFC 8259, 11).
#[tactic(auto, unfolding(crate::specs::Media::is_json_type))]
fn is_json_type(media: &[u8]) -> bool
    ensures { result ≡ is_json_type media.now }
{
    media.eq_ignore_ascii_case(b"application/json")
}

/// Whether a field `content-type` names the type of JSON (RFC 8259, 11), with parameters or without.
pub fn is_json(field: &[u8]) -> bool
    ensures { result ≡ is_json field.now }
{
    is_json_type(media_type(field))
}

/// Whether a type is that of GeoJSON (RFC 7946, 12), or of JSON.
#[tactic(auto, unfolding(crate::specs::Media::is_document))]
fn is_document(media: &[u8]) -> bool
    ensures { result ≡ is_document media.now }
{
    media.eq_ignore_ascii_case(b"application/geo+json") || is_json_type(media)
}

/// Whether a type is that of a part to be merged (RFC 7396, 4).
#[tactic(auto, unfolding(crate::specs::Media::is_part))]
fn is_part(media: &[u8]) -> bool
    ensures { result ≡ is_part media.now }
{
    media.eq_ignore_ascii_case(b"application/merge-patch+json")
}

/// Whether a method reads a body of the type that a field `content-type` names.
pub(crate) fn is_read_by(method: Method, field: &[u8]) -> bool
    ensures { result ≡ is_read_by method field.now }
{
    let media = media_type(field);
    match method {
        Method::Post => is_document(media),
        Method::Put => is_document(media),
        Method::Patch => is_document(media) || is_part(media),
        Method::Delete => true,
    }
}
