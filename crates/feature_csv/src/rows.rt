//! The rows of features. Making them takes no memory.

ghost use Rattle.std.specs.Prelude.{◌≡◌, ◌+◌, ◌*◌, ◌≤◌, ◌++◌, All, decimal, length};
ghost use Rattle.std.specs.List.{flat_map};
ghost use Rattle.arrayvec.specs.ArrayVec.{array_vec_len};
ghost use Rattle.plane.specs.Points.{IsInRange};
ghost use Rattle.feature_csv.specs.Rows.{pair_text, following_text, shape_text, fields_text, row_text};

use arrayvec::ArrayVec;
use features::{Feature, Name};
use grid::{Axis, Grid, NumberText, coordinate_text};
use itoa::Buffer;
use plane::{Point, corners};

/// The most bytes of a row. The longest has fewer than 1,400.
pub const ROW_LIMIT: usize = 1_536;

/// A row, as ASCII, with its line feed.
pub type Row = ArrayVec<u8, ROW_LIMIT>;

/// The first line of a file: the names of the columns.
pub const HEADER: &[u8] = b"id,version,office,class,WKT\n";

/// Appends bytes, for which there is room.
fn push_bytes(row: &mut Row, bytes: &[u8])
    requires { array_vec_len row.old + length bytes.now ≤ 1536 }
    ensures items { row.new.items ≡ row.old.items ++ bytes.now }
    ensures len { array_vec_len row.new ≡ array_vec_len row.old + length bytes.now }
{
    row.try_extend_from_slice(bytes).unwrap();
}

/// Appends a number, which has at most 20 digits.
fn push_number(row: &mut Row, n: u64)
    requires { array_vec_len row.old + 20 ≤ 1536 }
    ensures items { row.new.items ≡ row.old.items ++ decimal n }
    ensures len { array_vec_len row.new ≤ array_vec_len row.old + 20 }
{
    let mut buffer = Buffer::new();
    push_bytes(row, buffer.format(n).as_bytes());
}

/// Appends the text of a coordinate.
fn push_text(row: &mut Row, coordinate: &NumberText)
    requires { array_vec_len row.old + 32 ≤ 1536 }
    ensures items { row.new.items ≡ row.old.items ++ coordinate.now.bytes }
    ensures len { array_vec_len row.new ≤ array_vec_len row.old + 32 }
{
    push_bytes(row, coordinate.as_str().as_bytes());
}

/// Appends a name.
fn push_name(row: &mut Row, name: &Name)
    requires { array_vec_len row.old + 32 ≤ 1536 }
    ensures items { row.new.items ≡ row.old.items ++ name.now }
    ensures len { array_vec_len row.new ≤ array_vec_len row.old + 32 }
{
    push_bytes(row, name.as_bytes());
}

/// Appends two coordinates.
fn push_pair(row: &mut Row, grid: &Grid, p: Point)
    requires room { array_vec_len row.old + 65 ≤ 1536 }
    requires range { IsInRange p }
    ensures items { row.new.items ≡ row.old.items ++ pair_text grid.now p }
    ensures len { array_vec_len row.new ≤ array_vec_len row.old + 65 }
{
    let x = coordinate_text(grid, Axis::X, p.x);
    let y = coordinate_text(grid, Axis::Y, p.y);
    push_text(row, &x);
    push_bytes(row, b" ");
    push_text(row, &y);
}

/// Appends a pair after another one.
fn push_following(row: &mut Row, grid: &Grid, p: Point)
    requires room { array_vec_len row.old + 67 ≤ 1536 }
    requires range { IsInRange p }
    ensures items { row.new.items ≡ row.old.items ++ following_text grid.now p }
    ensures len { array_vec_len row.new ≤ array_vec_len row.old + 67 }
{
    push_bytes(row, b", ");
    push_pair(row, grid, p);
}

/// Appends pairs after another one.
fn push_all_following(row: &mut Row, grid: &Grid, ps: &[Point])
    requires room { array_vec_len row.old + 67 * length ps.now ≤ 1536 }
    requires range { All IsInRange ps.now }
    ensures items { row.new.items ≡ row.old.items ++ flat_map (following_text grid.now) ps.now }
    ensures len { array_vec_len row.new ≤ array_vec_len row.old + 67 * length ps.now }
{
    for p in ps {
        push_following(row, grid, *p);
    }
}

/// Appends the well-known text of the shape with these corners.
#[tactic(auto, unfolding(crate::specs::Rows::shape_text))]
fn push_shape(row: &mut Row, grid: &Grid, corners: &[Point])
    requires room { array_vec_len row.old ≤ 150 }
    requires range { All IsInRange corners.now }
    requires count { length corners.now ≤ 16 }
    ensures items { row.new.items ≡ row.old.items ++ shape_text grid.now corners.now }
    ensures len { array_vec_len row.new ≤ array_vec_len row.old + 1200 }
{
    match corners {
        [] => {}
        [p] => {
            push_bytes(row, b"POINT (");
            push_pair(row, grid, *p);
            push_bytes(row, b")");
        }
        [p, q] => {
            push_bytes(row, b"LINESTRING (");
            push_pair(row, grid, *p);
            push_following(row, grid, *q);
            push_bytes(row, b")");
        }
        [first, rest @ ..] => {
            push_bytes(row, b"POLYGON ((");
            push_pair(row, grid, *first);
            push_all_following(row, grid, rest);
            push_following(row, grid, *first);
            push_bytes(row, b"))");
        }
    }
}

/// Appends the fields before the shape, each with its comma.
#[tactic(auto, unfolding(crate::specs::Rows::fields_text))]
fn push_fields(row: &mut Row, feature: &Feature)
    requires { array_vec_len row.old ≡ 0 }
    ensures items { row.new.items ≡ row.old.items ++ fields_text feature.now }
    ensures len { array_vec_len row.new ≤ 120 }
{
    push_number(row, feature.id);
    push_bytes(row, b",");
    push_number(row, feature.version);
    push_bytes(row, b",");
    push_name(row, &feature.office);
    push_bytes(row, b",");
    push_name(row, &feature.class);
    push_bytes(row, b",");
}

/// The row of a feature: its id, version, office and class, and its shape as well-known text (OGC
/// 06-103r4, 7.2.2) in quotes, by the coordinates of a grid; a line feed ends it. No field has a
/// quote in it.
pub fn row_text(grid: &Grid, feature: &Feature) -> Row
    ensures { result.items ≡ row_text grid.now feature.now }
{
    let mut row = ArrayVec::new();
    push_fields(&mut row, feature);
    push_bytes(&mut row, b"\"");
    push_shape(&mut row, grid, corners(&feature.shape));
    push_bytes(&mut row, b"\"\n");
    row
}
