//! The label in front of a line.

ghost use Rattle.std.specs.Prelude.{◌≡◌, ◌≤◌, length, option_map};
ghost use Rattle.std.specs.List.{prefix_len};
ghost use Rattle.line_words.specs.Labels.{is_not_colon, parts_of};

/// How many bytes stand before the first colon; all of them if there is none.
#[tactic(auto, using(crate::proofs::WordLemmas::prefix_fits))]
fn label_len(line: &[u8]) -> usize
    ensures value { result ≡ prefix_len is_not_colon line.now }
    ensures fits { result ≤ length line.now }
{
    line.iter().take_while(|byte| **byte != b':').count()
}

/// The text before the first colon of a line, and the text after it; `None` where there is no
/// colon.
#[tactic(auto, unfolding(crate::specs::Labels::parts_of))]
pub fn split_label(line: &[u8]) -> Option<(&[u8], &[u8])>
    ensures { option_map (λ parts. (parts.0.now, parts.1.now)) result ≡ parts_of line.now }
{
    let len = label_len(line);
    if len < line.len() {
        Some((&line[..len], &line[len + 1..]))
    } else {
        None
    }
}
