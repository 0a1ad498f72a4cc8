//! Tokens: single brackets and commas, and the words between them and the spaces.

ghost use Rattle.std.specs.Prelude.{◌≡◌, ◌+◌, ◌<◌, ◌≤◌, ◌^◌, [], ◌∷◌, IfNone, IfSome, length};
ghost use Rattle.std.specs.List.{prefix_len};
ghost use Rattle.wkt.specs.Tokens.{tokens};
ghost use Rattle.wkt.specs.Tokens.{is_space as space_test, is_mark as mark_test, is_word_byte as word_byte_test, token_len as len_of_token};

/// The rest of a text from some place on.
#[derive(Clone, Copy)]
pub(crate) struct Rest<'a> {
    /// The offset in the whole text.
    pub at: usize,
    /// Its bytes.
    pub bytes: &'a [u8],
    pub ghost fits: { at + length bytes.now < 2 ^ 64 },
}

/// A token, and the rest of the text after it.
#[derive(Clone, Copy)]
pub(crate) struct Token<'a> {
    /// The offset in the whole text.
    pub at: usize,
    /// Its bytes: one bracket or comma, or a word.
    pub bytes: &'a [u8],
    /// The text after the token.
    pub rest: Rest<'a>,
}

/// Whether a byte separates words: a space, a tab, a line feed or a carriage return.
pub(crate) fn is_space(byte: u8) -> bool
    ensures { result ≡ space_test byte }
{
    byte == b' ' || byte == b'\t' || byte == b'\n' || byte == b'\r'
}

/// Whether a byte is a token of its own: a bracket or a comma.
pub(crate) fn is_mark(byte: u8) -> bool
    ensures { result ≡ mark_test byte }
{
    byte == b'(' || byte == b')' || byte == b','
}

/// How many spaces are at the front.
#[tactic(auto, using(crate::proofs::DigitsLemmas::prefix_fits))]
fn space_len(bytes: &[u8]) -> usize
    ensures value { result ≡ prefix_len space_test bytes.now }
    ensures fits { result ≤ length bytes.now }
{
    bytes.iter().take_while(|b| is_space(**b)).count()
}

/// How many bytes of a word are at the front.
#[tactic(auto, using(crate::proofs::DigitsLemmas::prefix_fits))]
fn word_len(bytes: &[u8]) -> usize
    ensures value { result ≡ prefix_len word_byte_test bytes.now }
    ensures fits { result ≤ length bytes.now }
{
    bytes
        .iter()
        .take_while(|b| !(is_space(**b) || is_mark(**b)))
        .count()
}

/// The length of the first token, if no space comes before it.
fn token_len(bytes: &[u8]) -> usize
    ensures value { result ≡ len_of_token bytes.now }
    ensures fits { result ≤ length bytes.now }
{
    match bytes {
        [] => 0,
        [first, ..] => { if is_mark(*first) { 1 } else { word_len(bytes) } }
    }
}

/// The first token of the rest of a text; `None` if only spaces are left.
pub(crate) fn first_token(text: Rest<'_>) -> Option<Token<'_>>
    ensures none { IfNone result (tokens text.entry.at text.entry.bytes.now ≡ []) }
    ensures some { IfSome result
        (λ t. tokens text.entry.at text.entry.bytes.now ≡ (t.at, t.bytes.now)
        ∷ tokens t.rest.at t.rest.bytes.now) }
    ensures shorter { IfSome result (λ t. length t.rest.bytes.now < length text.entry.bytes.now) }
    ensures length { IfSome result
        (λ t. t.rest.at + length t.rest.bytes.now ≡ text.entry.at + length text.entry.bytes.now) }
{
    let (front, found) = text.bytes.split_at(space_len(text.bytes));
    let at = text.at + front.len();
    if found.is_empty() {
        return None;
    }
    let (bytes, behind) = found.split_at(token_len(found));
    Some(Token {
        at,
        bytes,
        rest: Rest {
            at: at + bytes.len(),
            bytes: behind,
        },
    })
}
