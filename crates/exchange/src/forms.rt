//! The documents of features that are written.

ghost use Rattle.std.specs.Prelude.{◌++◌};
ghost use Rattle.byte_streams.specs.Written.{Took};
ghost use Rattle.exchange.specs.Documents.{between_text, head_text, own_text, piece_text, tail_text};

use byte_streams::{WriteFailed, write_whole};
use feature_csv::{HEADER, row_text};
use features::Feature;
use geojson::feature_text;
use grid::Grid;
use std::io::Write;

/// The form of a document of features.
#[derive(Clone, Copy, Debug, PartialEq, Eq)]
pub enum Form {
    /// A FeatureCollection (RFC 7946).
    Collection,
    /// A feature on each line.
    Sequence,
    /// Comma-separated values (RFC 4180).
    Table,
}

/// Writes what stands before all features.
pub fn put_head<W: Write>(form: Form, output: &mut W) -> Result<(), WriteFailed>
    ensures { Took result (W.contents output.old) (W.contents output.new) (head_text form) }
{
    match form {
        Form::Collection => write_whole(
            b"{\"type\":\"FeatureCollection\",\"features\":[\n",
            output,
        ),
        Form::Sequence => write_whole(b"", output),
        Form::Table => write_whole(HEADER, output),
    }
}

/// Writes what stands before a feature.
fn put_between<W: Write>(form: Form, is_first: bool, output: &mut W) -> Result<(), WriteFailed>
    ensures { Took result (W.contents output.old) (W.contents output.new)
        (between_text form is_first) }
{
    match (form, is_first) {
        (Form::Collection, false) => write_whole(b",\n", output),
        _ => write_whole(b"", output),
    }
}

/// Writes two texts, one after the other.
fn write_both<W: Write>(first: &[u8], second: &[u8], output: &mut W) -> Result<(), WriteFailed>
    ensures { Took result (W.contents output.old) (W.contents output.new)
        (first.now ++ second.now) }
{
    write_whole(first, output)?;
    write_whole(second, output)
}

/// Writes a feature.
fn put_own<W: Write>(
    form: Form,
    grid: &Grid,
    feature: &Feature,
    output: &mut W,
) -> Result<(), WriteFailed>
    ensures { Took result (W.contents output.old) (W.contents output.new)
        (own_text form grid.now feature.now) }
{
    match form {
        Form::Collection => {
            let text = feature_text(grid, feature);
            write_whole(text.as_slice(), output)
        }
        Form::Sequence => {
            let text = feature_text(grid, feature);
            write_both(text.as_slice(), b"\n", output)
        }
        Form::Table => {
            let row = row_text(grid, feature);
            write_whole(row.as_slice(), output)
        }
    }
}

/// Writes a feature, the first or a further one. If a write fails, only a prefix of it is written.
pub fn put_feature<W: Write>(
    form: Form,
    grid: &Grid,
    is_first: bool,
    feature: &Feature,
    output: &mut W,
) -> Result<(), WriteFailed>
    ensures { Took result (W.contents output.old) (W.contents output.new)
        (piece_text form grid.now is_first feature.now) }
{
    put_between(form, is_first, output)?;
    put_own(form, grid, feature, output)
}

/// Writes what stands behind all features.
pub fn put_tail<W: Write>(form: Form, output: &mut W) -> Result<(), WriteFailed>
    ensures { Took result (W.contents output.old) (W.contents output.new) (tail_text form) }
{
    match form {
        Form::Collection => write_whole(b"\n]}\n", output),
        Form::Sequence | Form::Table => write_whole(b"", output),
    }
}
