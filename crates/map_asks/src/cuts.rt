//! Texts cut in two.

ghost use Rattle.std.specs.Prelude.{◌≡◌, ◌≤◌, length};
ghost use Rattle.std.specs.List.{prefix_len};
ghost use Rattle.map_asks.specs.Cuts.{is_no, front, back, behind};

/// How many bytes stand before the first one of this kind; all of them if there is none.
#[tactic(auto, using(crate::proofs::CutLemmas::prefix_fits))]
fn front_len(mark: u8, text: &[u8]) -> usize
    ensures value { result ≡ prefix_len (is_no mark) text.now }
    ensures fits { result ≤ length text.now }
{
    text.iter().take_while(|byte| **byte != mark).count()
}

/// The text before the first such byte, and the text from that byte on.
pub(crate) fn cut(mark: u8, text: &[u8]) -> (&[u8], &[u8])
    ensures front { result.0.now ≡ front mark text.now }
    ensures back { result.1.now ≡ back mark text.now }
{
    text.split_at(front_len(mark, text))
}

/// The text before the first such byte, and the text behind that byte.
pub(crate) fn cut_out(mark: u8, text: &[u8]) -> (&[u8], &[u8])
    ensures front { result.0.now ≡ front mark text.now }
    ensures behind { result.1.now ≡ behind mark text.now }
{
    let (front, back) = cut(mark, text);
    match back {
        [] => (front, back),
        [_, behind @ ..] => (front, behind),
    }
}
