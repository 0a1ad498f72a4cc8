//! The words of a line, and the numbers that they spell.

ghost use Rattle.std.specs.Prelude.{◌≡◌, ◌≤◌, length, option_map};
ghost use Rattle.std.specs.Char.{is_ascii_digit};
ghost use Rattle.std.specs.List.{list_all, prefix_len};
ghost use Rattle.line_words.specs.Words.{is_space, is_letter, unspaced, next_word as word_of, number_of};

/// The most digits that a number has.
const DIGITS: usize = 20;

/// The number of leading spaces.
#[tactic(auto, using(crate::proofs::WordLemmas::prefix_fits))]
fn space_len(text: &[u8]) -> usize
    ensures value { result ≡ prefix_len is_space text.now }
    ensures fits { result ≤ length text.now }
{
    text.iter().take_while(|byte| **byte == b' ').count()
}

/// The length of the word at the front.
#[tactic(auto, using(crate::proofs::WordLemmas::prefix_fits))]
fn word_len(text: &[u8]) -> usize
    ensures value { result ≡ prefix_len is_letter text.now }
    ensures fits { result ≤ length text.now }
{
    text.iter().take_while(|byte| **byte != b' ').count()
}

/// The text without its leading spaces.
fn without_spaces(text: &[u8]) -> &[u8]
    ensures { result.now ≡ unspaced text.now }
{
    &text[space_len(text)..]
}

/// The next word, and the rest of the text; `None` where only spaces are left.
#[tactic(auto, unfolding(crate::specs::Words::next_word))]
pub fn next_word(text: &[u8]) -> Option<(&[u8], &[u8])>
    ensures { option_map (λ w. (w.0.now, w.1.now)) result ≡ word_of text.now }
{
    let text = without_spaces(text);
    if text.is_empty() {
        return None;
    }
    Some(text.split_at(word_len(text)))
}

/// Whether each byte is a digit.
fn are_digits(word: &[u8]) -> bool
    ensures { result ≡ list_all is_ascii_digit word.now }
{
    word.iter().all(|byte| byte.is_ascii_digit())
}

/// The number that a word spells: 1 to 20 digits, below 2^64. `None` for every other word.
pub fn read_number(word: &[u8]) -> Option<u64>
    ensures { result ≡ number_of word.now }
{
    if word.len() > DIGITS {
        return None;
    }
    if !are_digits(word) {
        return None;
    }
    match str::from_utf8(word) {
        Ok(digits) => digits.parse().ok(),
        Err(_) => None,
    }
}
