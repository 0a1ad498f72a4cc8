//! What a line shows: a feature or a window.

ghost use Rattle.std.specs.Prelude.{◌≡◌};
ghost use Rattle.drawing.specs.Marks.{is_window_word, mark_of, mark_shape, row_at, unlabelled, window_of};

use features::{Feature, Name};
use line_words::{next_word, read_number, split_label};
use plane::Shape;
use wkt::read_shape;

/// What is drawn.
#[derive(Clone, Copy, Debug)]
pub enum Mark {
    /// The window of a search.
    Window(Shape),
    /// A feature that was listed.
    Row(Feature),
}

impl Mark {
    /// Where the mark is.
    pub fn shape(&self) -> &Shape
        ensures { result.now ≡ mark_shape self.now }
    {
        match self {
            Mark::Window(shape) => shape,
            Mark::Row(feature) => &feature.shape,
        }
    }
}

/// A line without its label: the text after the first colon, if the text before it is a name.
fn without_label(line: &[u8]) -> &[u8]
    ensures { result.now ≡ unlabelled line.now }
{
    let Some((label, text)) = split_label(line) else {
        return line;
    };
    match Name::new(label) {
        Some(_) => text,
        None => line,
    }
}

/// Whether a word is a command with a window.
fn is_window_word(word: &[u8]) -> bool
    ensures { result ≡ is_window_word word.now }
{
    word == b"SEARCH".as_slice() || word == b"OPEN".as_slice()
}

/// The window that a text spells.
fn window(text: &[u8]) -> Option<Mark>
    ensures { result ≡ window_of text.now }
{
    match read_shape(text) {
        Ok(shape) => Some(Mark::Window(shape)),
        Err(_) => None,
    }
}

/// The row whose first word, its id, is this number, and whose further words are in `text`.
#[tactic(auto, unfolding(crate::specs::Marks::row_at))]
fn row(id: &[u8], text: &[u8]) -> Option<Mark>
    ensures { result ≡ row_at id.now text.now }
{
    let id = read_number(id)?;
    let (version, text) = next_word(text)?;
    let version = read_number(version)?;
    let (office, text) = next_word(text)?;
    let office = Name::new(office)?;
    let (class, text) = next_word(text)?;
    let class = Name::new(class)?;
    let shape = read_shape(text).ok()?;
    Some(Mark::Row(Feature {
        id,
        version,
        office,
        class,
        shape,
    }))
}

/// What a line shows: a feature, if it is the row of a listing, `ID VERSION OFFICE CLASS SHAPE`; a
/// window, if it is `SEARCH SHAPE` or `OPEN SHAPE`; otherwise nothing. A name and a colon may come
/// first.
#[tactic(auto, unfolding(crate::specs::Marks::mark_of))]
pub fn read_mark(line: &[u8]) -> Option<Mark>
    ensures { result ≡ mark_of line.now }
{
    let (word, rest) = next_word(without_label(line))?;
    if is_window_word(word) {
        window(rest)
    } else {
        row(word, rest)
    }
}
