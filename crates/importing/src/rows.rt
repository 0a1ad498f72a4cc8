//! Rows of a search.

use crate::additions::Addition;
use line_words::{next_word, read_number};
use wkt::shape_text;

/// Whether a row of a search is the feature that an addition would have made: its id, its class and
/// its shape.
pub fn is_row_of(row: &[u8], addition: &Addition) -> bool {
    let Some((id, row)) = next_word(row) else {
        return false;
    };
    let Some((_, row)) = next_word(row) else {
        return false;
    };
    let Some((_, row)) = next_word(row) else {
        return false;
    };
    let Some((class, row)) = next_word(row) else {
        return false;
    };
    let Some((_, shape)) = row.split_first() else {
        return false;
    };
    read_number(id) == Some(addition.id)
        && class == addition.class.as_bytes()
        && shape == shape_text(&addition.shape).as_bytes()
}
