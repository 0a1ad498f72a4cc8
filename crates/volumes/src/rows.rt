//! Rows of the tables.

ghost use Rattle.std.specs.Prelude.{◌≡◌, [], ◌∷◌, ◌++◌, ◌<◌, ◌^◌, OnOk};
ghost use Rattle.sqlite_value.specs.declared.value.Value.TheVariants.{Null, Int, Text};
ghost use Rattle.sqlite_value.specs.Order.{column};
ghost use Rattle.wkt.specs.Printing.{printed};
ghost use Rattle.volumes.specs.Rows.{signed, row_of_feature, row_of_line, row_of_life};

use features::{Feature, Name};
use plane::Shape;
use sqlite_value::row::Row;
use sqlite_value::value::ValueRef;
use std::alloc::AllocError;
use wkt::shape_text;

/// Records have numbers below 2^63, so that each is a positive integer of SQLite.
pub(crate) const NUMBER_END: u64 = 9_223_372_036_854_775_808;

/// A number as SQLite's signed integer: those from 2^63 on are stored as `n - 2^64`.
pub(crate) fn signed(n: u64) -> i64
    ensures value { result ≡ signed n }
    ensures fits { n < 2 ^ 64 }
{
    if n < 9_223_372_036_854_775_808 {
        n as i64
    } else {
        -1 - ((u64::MAX - n) as i64)
    }
}

/// Makes the row of a record's line: its number, the key's own empty place, and the text.
pub(crate) fn set_line(row: &mut Row, number: u64, line: &[u8]) -> Result<(), AllocError>
    requires { number < NUMBER_END }
    ensures { OnOk result (row.new ≡ row_of_line number line.now) }
{
    row.clear();
    row.push(ValueRef::Int(number as i64))?;
    row.push(ValueRef::Null)?;
    row.push(ValueRef::Text(line))
}

/// Makes the row of a life: its number, the key's own empty place, the number of its first record,
/// and its subjects as a text.
pub(crate) fn set_life(
    row: &mut Row,
    life: u64,
    first: u64,
    subjects: &str,
) -> Result<(), AllocError>
    requires { first < NUMBER_END }
    ensures { OnOk result (row.new ≡ row_of_life life first subjects.now) }
{
    row.clear();
    row.push(ValueRef::Int(signed(life)))?;
    row.push(ValueRef::Null)?;
    row.push(ValueRef::Int(first as i64))?;
    row.push(ValueRef::Text(subjects.as_bytes()))
}

/// Appends a shape as its text.
fn push_shape(row: &mut Row, shape: &Shape) -> Result<(), AllocError>
    ensures { OnOk result (row.new ≡ row.old ++ Text (printed shape.now) ∷ []) }
{
    let text = shape_text(shape);
    row.push(ValueRef::Text(text.as_str().as_bytes()))
}

/// Makes the row of a feature.
pub(crate) fn set_feature(row: &mut Row, feature: &Feature) -> Result<(), AllocError>
    ensures row { OnOk result (row.new ≡ row_of_feature feature.now) }
    ensures fits { OnOk result (feature.now.id < 2 ^ 64) }
{
    row.clear();
    row.push(ValueRef::Int(signed(feature.id)))?;
    row.push(ValueRef::Null)?;
    row.push(ValueRef::Int(signed(feature.version)))?;
    row.push(ValueRef::Text(feature.office.as_bytes()))?;
    row.push(ValueRef::Text(feature.class.as_bytes()))?;
    push_shape(row, &feature.shape)
}

/// Makes the row of a feature that is reshaped: `found` is its row so far, whose office and class
/// stay.
pub(crate) fn set_reshaped(
    row: &mut Row,
    found: &Row,
    id: u64,
    version: u64,
    shape: &Shape,
) -> Result<(), AllocError>
    ensures { OnOk result (row.new ≡ Int (signed id) ∷ Null ∷ Int (signed version)
        ∷ column found.now 3 ∷ column found.now 4 ∷ Text (printed shape.now) ∷ []) }
{
    row.clear();
    row.push(ValueRef::Int(signed(id)))?;
    row.push(ValueRef::Null)?;
    row.push(ValueRef::Int(signed(version)))?;
    row.push(found.get(3))?;
    row.push(found.get(4))?;
    push_shape(row, shape)
}
