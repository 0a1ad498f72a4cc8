//! What a row of a file says of a feature.

use crate::faults::{RowFault, SourceFault};
use crate::geometry_texts::read_geometry;
use csv::{ByteRecord, ErrorKind, Reader, ReaderBuilder};
use features::Name;
use geojson::{Cause, Geometry, Wished, read_wished};
use grid::Grid;
use line_words::read_number;
use std::alloc::Global;

/// What a row says of a feature.
#[derive(Debug, Drop)]
pub struct Found {
    /// Its id, unless that is not looked at.
    pub id: Option<u64>,
    /// Its class, unless that is not looked at.
    pub class: Option<Name>,
    /// Its geometry.
    pub geometry: Geometry<Global>,
}

/// Which columns a file of comma-separated values has, counted from 0.
#[derive(Clone, Copy, Debug)]
pub struct Table {
    /// How many columns there are.
    len: usize,
    /// How many of them each row has. The last ones may be left out if they have no name: ogr2ogr
    /// writes the header `WKT,` over rows of one field.
    least: usize,
    /// The column `WKT`.
    shape: usize,
    /// The column `id`.
    id: Option<usize>,
    /// The column `class`.
    class: Option<usize>,
}

/// Reads the next record, and says whether there was one. Faults: `Columns` if it cannot be read, or
/// has another number of fields than the one before; `Memory`.
fn has_record(reader: &mut Reader<&[u8]>, record: &mut ByteRecord) -> Result<bool, RowFault> {
    match reader.read_byte_record(record) {
        Ok(read) => Ok(read),
        Err(error) => match error.kind() {
            ErrorKind::OutOfMemory => Err(RowFault::Memory),
            _ => Err(RowFault::Columns),
        },
    }
}

/// The fields of a row. Faults: `Columns` where it has none, they cannot be read, or it is more than
/// one record, as behind a quote in a field that is not quoted; `Memory`.
fn fields_of(heap: Global, text: &[u8]) -> Result<ByteRecord, RowFault> {
    let mut reader = ReaderBuilder::new()
        .has_headers(false)
        .from_reader(heap, text);
    let mut record = ByteRecord::new(heap);
    let mut further = ByteRecord::new(heap);
    if has_record(&mut reader, &mut record)? && !has_record(&mut reader, &mut further)? {
        Ok(record)
    } else {
        Err(RowFault::Columns)
    }
}

/// How many columns there are up to the last one that has a name.
fn named_len(header: &ByteRecord) -> usize {
    let mut len = 0;
    for index in 0..header.len() {
        if let Some(name) = header.get(index) {
            if !name.is_empty() {
                len = index.saturating_add(1);
            }
        }
    }
    len
}

/// The column of this name, in letters of either case.
fn column_of(record: &ByteRecord, name: &[u8]) -> Option<usize> {
    for index in 0..record.len() {
        if let Some(field) = record.get(index) {
            if field.eq_ignore_ascii_case(name) {
                return Some(index);
            }
        }
    }
    None
}

/// The columns that the first row of a file names. `NoForm` if there is no column `WKT`; `Memory`.
pub fn table_of(heap: Global, text: &[u8]) -> Result<Table, SourceFault> {
    let record = match fields_of(heap, text) {
        Ok(record) => record,
        Err(RowFault::Memory) => return Err(SourceFault::Memory),
        Err(_) => return Err(SourceFault::NoForm),
    };
    let Some(shape) = column_of(&record, b"WKT") else {
        return Err(SourceFault::NoForm);
    };
    Ok(Table {
        len: record.len(),
        least: named_len(&record),
        shape,
        id: column_of(&record, b"id"),
        class: column_of(&record, b"class"),
    })
}

/// The field of a column.
fn field(record: &ByteRecord, column: Option<usize>) -> Option<&[u8]> {
    record.get(column?)
}

/// What a row of comma-separated values says. An id or a class that is none is not there. Faults:
/// `Columns` if the row has another number of fields than the first one; `Geometry`, `Memory`.
pub fn row_of_csv(heap: Global, grid: &Grid, table: Table, text: &[u8]) -> Result<Found, RowFault> {
    let record = fields_of(heap, text)?;
    if record.len() < table.least || table.len < record.len() {
        return Err(RowFault::Columns);
    }
    let id = match field(&record, table.id) {
        Some(text) => read_number(text),
        None => None,
    };
    let class = match field(&record, table.class) {
        Some(text) => Name::new(text),
        None => None,
    };
    let Some(shape) = record.get(table.shape) else {
        return Err(RowFault::Columns);
    };
    match read_geometry(heap, grid, shape) {
        Ok(geometry) => Ok(Found {
            id,
            class,
            geometry,
        }),
        Err(crate::faults::GeometryFault::Memory) => Err(RowFault::Memory),
        Err(fault) => Err(RowFault::Geometry(fault)),
    }
}

/// What a text of GeoJSON says. Of id and class only what is wished is looked at.
pub fn row_of_json(
    heap: Global,
    grid: &Grid,
    wished: Wished,
    text: &[u8],
) -> Result<Found, RowFault> {
    match read_wished(heap, grid, wished, text) {
        Ok(given) => Ok(Found {
            id: given.id,
            class: given.class,
            geometry: given.geometry,
        }),
        Err(fault) => match fault.cause {
            Cause::Memory(_) | Cause::Json(_) => Err(RowFault::Memory),
            _ => Err(RowFault::Json(fault)),
        },
    }
}
