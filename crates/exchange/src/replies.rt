//! What a server replies to a search.

ghost use Rattle.std.specs.Prelude.{◌≡◌, ◌<◌, ◌^◌, ◌++◌, ◌∷◌, ℕ, List, IfOk, IfSome, IsTrue, OnOk, Some, decimal, option_map};
ghost use Rattle.features.specs.Names.{is_name};
ghost use Rattle.features.specs.declared.rows.Feature.{Feature};
ghost use Rattle.line_words.specs.Words.{unspaced};
ghost use Rattle.exchange.specs.Replies.{IsWhole, reply_row};

use features::{Feature, Name};
use itoa::Buffer;
use line_words::{next_word, read_number};
use memory::{NoMemory, try_extend};
use std::alloc::Allocator;
use wkt::{read_shape, shape_text};

/// The text of the shape that everything meets.
pub fn whole_window() -> &'static str {
    "POLYGON ((-10000000 -10000000, 10000000 -10000000, 10000000 10000000, -10000000 10000000, -10000000 -10000000))"
}

/// Appends the row of a feature in a reply, without its line feed.
fn put_row<A: Allocator>(text: &mut Vec<u8, A>, feature: &Feature) -> Result<(), NoMemory>
    ensures { OnOk result (text.new.items ≡ text.old.items ++ reply_row feature.now) }
{
    let mut id = Buffer::new();
    let mut version = Buffer::new();
    try_extend(text, id.format(feature.id).as_bytes())?;
    try_extend(text, b" ")?;
    try_extend(text, version.format(feature.version).as_bytes())?;
    try_extend(text, b" ")?;
    try_extend(text, feature.office.as_bytes())?;
    try_extend(text, b" ")?;
    try_extend(text, feature.class.as_bytes())?;
    try_extend(text, b" ")?;
    try_extend(text, shape_text(&feature.shape).as_bytes())?;
    Ok(())
}

/// The row of a feature in a reply, without its line feed.
fn row_of<A: Allocator>(alloc: A, feature: &Feature) -> Result<Vec<u8, A>, NoMemory>
    ensures { IfOk result (λ text. text.items ≡ reply_row feature.now) }
{
    let mut text = Vec::new(alloc);
    put_row(&mut text, feature)?;
    Ok(text)
}

/// The number in front of a row, and the row behind it.
fn number_in(row: &[u8]) -> Option<(u64, &[u8])>
    ensures { (n : ℕ) (rest : List ℕ) → n < 2 ^ 64 → unspaced row.now ≡ decimal n ++ 32 ∷ rest
        → option_map {U = ℕ × List ℕ} (λ r. (r.0, r.1.now)) result ≡ Some (n, 32 ∷ rest) }
{
    let (word, rest) = next_word(row)?;
    Some((read_number(word)?, rest))
}

/// What the words of a row say, if they are those of a feature.
fn words_of(row: &[u8]) -> Option<Feature>
    ensures { (feature : Feature) → IsWhole feature → row.now ≡ reply_row feature
        → result ≡ Some feature }
{
    let (id, row) = number_in(row)?;
    let (version, row) = number_in(row)?;
    let (office, row) = next_word(row)?;
    let (class, row) = next_word(row)?;
    let (_, shape) = row.split_first()?;
    Some(Feature {
        id,
        version,
        office: Name::new(office)?,
        class: Name::new(class)?,
        shape: read_shape(shape).ok()?,
    })
}

/// The feature of a row of a reply, given without its line feed: the row is just the one that the
/// feature has. `None` for every other text, and for no such row.
pub fn feature_of_row<A: Allocator>(alloc: A, row: &[u8]) -> Result<Option<Feature>, NoMemory>
    ensures found { IfOk result (λ found. IfSome found (λ feature. row.now ≡ reply_row feature)) }
    ensures whole { IfOk result (λ found. (feature : Feature) → IsWhole feature
        → row.now ≡ reply_row feature → found ≡ Some feature) }
{
    let Some(feature) = words_of(row) else {
        return Ok(None);
    };
    let text = row_of(alloc, &feature)?;
    if text.as_slice() == row {
        Ok(Some(feature))
    } else {
        Ok(None)
    }
}
