//! Texts divided at a byte.

ghost use Rattle.std.specs.Prelude.{◌≡◌, ◌≤◌, length, IfSome, option_map};
ghost use Rattle.std.specs.List.{prefix_len};
ghost use Rattle.credentials.specs.Spelling.{divided, is_no, is_space, unspaced};

/// The most bytes of a field that is looked at.
pub const FIELD_LIMIT: usize = 512;

/// How many bytes stand before the first of a byte; all of them if there is none.
#[tactic(auto, using(crate::proofs::PrefixLemmas::prefix_fits))]
fn front_len(text: &[u8], mark: u8) -> usize
    ensures value { result ≡ prefix_len (is_no mark) text.now }
    ensures fits { result ≤ length text.now }
{
    text.iter().take_while(|byte| **byte != mark).count()
}

/// The text before the first of a byte, and the text behind it; `None` where there is none.
#[tactic(auto, unfolding(crate::specs::Spelling::divided))]
pub(crate) fn divided(mark: u8, text: &[u8]) -> Option<(&[u8], &[u8])>
    ensures value { option_map (λ parts. (parts.0.now, parts.1.now)) result
        ≡ divided mark text.now }
    ensures fits { IfSome result (λ parts. length parts.1.now ≤ length text.now) }
{
    let len = front_len(text, mark);
    if len < text.len() {
        Some((&text[..len], &text[len + 1..]))
    } else {
        None
    }
}

/// The number of leading spaces.
#[tactic(auto, using(crate::proofs::PrefixLemmas::prefix_fits))]
fn space_len(text: &[u8]) -> usize
    ensures value { result ≡ prefix_len is_space text.now }
    ensures fits { result ≤ length text.now }
{
    text.iter().take_while(|byte| **byte == b' ').count()
}

/// The text without its leading spaces.
pub(crate) fn unspaced(text: &[u8]) -> &[u8]
    ensures value { result.now ≡ unspaced text.now }
    ensures fits { length result.now ≤ length text.now }
{
    &text[space_len(text)..]
}
