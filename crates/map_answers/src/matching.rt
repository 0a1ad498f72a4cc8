//! Entity tags (RFC 9110, 8.8.3), and the field `if-none-match` (13.1.2).

ghost use Rattle.std.specs.Prelude.{◌≡◌, ◌+◌, ◌≤◌, ◌++◌, decimal, length};
ghost use Rattle.arrayvec.specs.ArrayVec.{array_vec_len};
ghost use Rattle.map_answers.specs.Matching.{is_known, occurs, tag_text};

use arrayvec::ArrayVec;
use itoa::Buffer;

/// The text of an entity tag. The longest has 22 bytes.
pub type Tag = ArrayVec<u8, 32>;

/// Appends bytes, for which there is room.
fn push_bytes(tag: &mut Tag, bytes: &[u8])
    requires { array_vec_len tag.old + length bytes.now ≤ 32 }
    ensures items { tag.new.items ≡ tag.old.items ++ bytes.now }
    ensures len { array_vec_len tag.new ≡ array_vec_len tag.old + length bytes.now }
{
    tag.try_extend_from_slice(bytes).unwrap();
}

/// The entity tag of a version of a feature: the number in quotation marks.
#[tactic(auto, unfolding(crate::specs::Matching::tag_text))]
pub fn tag_of(version: u64) -> Tag
    ensures { result.items ≡ tag_text version }
{
    let mut buffer = Buffer::new();
    let mut tag = ArrayVec::new();
    push_bytes(&mut tag, b"\"");
    push_bytes(&mut tag, buffer.format(version).as_bytes());
    push_bytes(&mut tag, b"\"");
    tag
}

/// Whether a text stands somewhere in another one.
fn occurs(part: &[u8], text: &[u8]) -> bool
    ensures { result ≡ occurs part.now text.now }
{
    let mut rest = text;
    while let [_, behind @ ..] = rest {
        if rest.starts_with(part) {
            return true;
        }
        rest = behind;
    }
    false
}

/// Whether the field `if-none-match` names the tag of this version, or any tag by `*`. Tags may
/// have quotation marks at their ends alone, so in a field that is well formed the tag of a version
/// stands only where it is named.
pub fn is_known(field: &[u8], version: u64) -> bool
    ensures { result ≡ is_known field.now version }
{
    field == b"*".as_slice() || occurs(tag_of(version).as_slice(), field)
}
