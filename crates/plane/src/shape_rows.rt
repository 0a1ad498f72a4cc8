//! The rows of shapes.

ghost use Rattle.std.specs.Prelude.{◌≡◌, ◌+◌, ◌≤◌, ◌++◌, ◌∷◌, [], All, length, map};
ghost use Rattle.plane.specs.Bounds.{IsSmallRow};
ghost use Rattle.plane.specs.Extents.{IsFrame};
ghost use Rattle.plane.specs.Points.{IsInRange};
ghost use Rattle.plane.specs.Rings.{sides};
ghost use Rattle.plane.specs.Rows.{frame_rows, edge_row, edge_rows, negated, rows_of};
ghost use Rattle.arrayvec.specs.ArrayVec.{array_vec_len};

use crate::frame::{Frame, frame_of};
use crate::point::Point;
use crate::products::{cross, difference};
use crate::ring::next_point;
use crate::rows::Row;
use crate::shape::{CORNER_LIMIT, Shape, corners};
use arrayvec::ArrayVec;

/// The closed half plane left of the directed line `from` → `to`.
fn edge_row(from: Point, to: Point) -> Row
    requires from { IsInRange from }
    requires to { IsInRange to }
    ensures value { result ≡ edge_row (from, to) }
    ensures small { IsSmallRow result }
{
    let dx = difference(from.x, to.x);
    let dy = difference(from.y, to.y);
    let c = cross(dy, i64::from(from.x), dx, i64::from(from.y));
    Row {
        a: i128::from(dy),
        b: i128::from(-dx),
        c: i128::from(c),
    }
}

/// The half plane on the other side of a row's line.
fn negated(row: Row) -> Row
    requires { IsSmallRow row }
    ensures { result ≡ negated row }
{
    Row {
        a: -row.a,
        b: -row.b,
        c: -row.c,
    }
}

/// The four rows of a frame.
fn frame_rows(frame: Frame) -> [Row; 4]
    ensures { result ≡ frame_rows frame }
{
    [
        Row {
            a: 1,
            b: 0,
            c: i128::from(frame.x1()),
        },
        Row {
            a: -1,
            b: 0,
            c: -i128::from(frame.x0()),
        },
        Row {
            a: 0,
            b: 1,
            c: i128::from(frame.y1()),
        },
        Row {
            a: 0,
            b: -1,
            c: -i128::from(frame.y0()),
        },
    ]
}

/// Appends the row of each side of a ring of at most 16 points.
fn push_sides(rows: &mut ArrayVec<Row, 40>, ring: &[Point])
    requires in_range { All IsInRange ring.now }
    requires within { length ring.now ≤ CORNER_LIMIT }
    requires room { array_vec_len rows.old ≤ 24 }
    ensures { rows.new.items ≡ rows.old.items ++ map edge_row (sides ring.now) }
{
    for (index, point) in ring.iter().enumerate() {
        rows.push(edge_row(*point, next_point(ring, index)));
    }
}

/// Appends the rows of a shape other than those of its frame.
fn push_edges(rows: &mut ArrayVec<Row, 40>, corners: &[Point])
    requires in_range { All IsInRange corners.now }
    requires within { length corners.now ≤ CORNER_LIMIT }
    requires room { array_vec_len rows.old ≤ 24 }
    ensures { rows.new.items ≡ rows.old.items ++ edge_rows corners.now }
{
    if corners.len() == 2 {
        let edge = edge_row(corners[0], corners[1]);
        rows.push(edge);
        rows.push(negated(edge));
    } else if corners.len() > 2 {
        push_sides(rows, corners);
    }
}

/// Appends the rows of a shape.
pub fn push_rows(rows: &mut ArrayVec<Row, 40>, shape: &Shape)
    requires { array_vec_len rows.old ≤ 20 }
    ensures items { rows.new.items ≡ rows.old.items ++ rows_of shape.now }
    ensures small { All IsSmallRow (rows_of shape.now) }
    ensures count { length (rows_of shape.now) ≤ 20 }
{
    rows.try_extend_from_slice(&frame_rows(frame_of(shape)))
        .unwrap();
    push_edges(rows, corners(shape));
}
