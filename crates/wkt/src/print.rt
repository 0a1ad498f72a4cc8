//! The printed form of a shape.

ghost use Rattle.std.specs.Prelude.{◌≡◌, ◌+◌, ◌*◌, ◌≤◌, ◌++◌, All, IfOk, codes, length, string_bytes};
ghost use Rattle.std.specs.Fmt.{signed_decimal};
ghost use Rattle.std.specs.List.{flat_map};
ghost use Rattle.arrayvec.specs.ArrayString.{array_string_len};
ghost use Rattle.plane.specs.Coordinates.{IsCoordinate};
ghost use Rattle.plane.specs.Points.{IsInRange};
ghost use Rattle.plane.specs.Canonical.{IsCanonical};
ghost use Rattle.wkt.specs.Printing.{pair_text, following_text, printed};
ghost use Rattle.wkt.specs.Spelling.{Spells};

use arrayvec::ArrayString;
use itoa::Buffer;
use memory::NoMemory;
use plane::{Point, Shape, corners};
use std::alloc::Allocator;

/// A text while it is printed. The longest has 367 bytes.
type Text = ArrayString<384>;

/// Prints a coordinate, in at most 9 bytes.
fn push_number(text: &mut Text, n: i32)
    requires room { array_string_len text.old + 9 ≤ 384 }
    requires range { IsCoordinate n }
    ensures bytes { text.new.bytes ≡ text.old.bytes ++ signed_decimal n }
    ensures room { array_string_len text.new ≤ array_string_len text.old + 9 }
{
    let mut buffer = Buffer::new();
    text.push_str(buffer.format(n));
}

/// Prints the two coordinates of a point, separated by a space.
fn push_pair(text: &mut Text, p: Point)
    requires room { array_string_len text.old + 19 ≤ 384 }
    requires range { IsInRange p }
    ensures bytes { text.new.bytes ≡ text.old.bytes ++ pair_text p }
    ensures room { array_string_len text.new ≤ array_string_len text.old + 19 }
{
    push_number(text, p.x);
    text.push_str(" ");
    push_number(text, p.y);
}

/// Prints a point after another one.
fn push_following(text: &mut Text, p: Point)
    requires room { array_string_len text.old + 21 ≤ 384 }
    requires range { IsInRange p }
    ensures bytes { text.new.bytes ≡ text.old.bytes ++ following_text p }
    ensures room { array_string_len text.new ≤ array_string_len text.old + 21 }
{
    text.push_str(", ");
    push_pair(text, p);
}

/// Prints points after another one.
fn push_all_following(text: &mut Text, ps: &[Point])
    requires room { array_string_len text.old + 21 * length ps.now ≤ 384 }
    requires range { All IsInRange ps.now }
    ensures bytes { text.new.bytes ≡ text.old.bytes ++ flat_map following_text ps.now }
    ensures room { array_string_len text.new ≤ array_string_len text.old + 21 * length ps.now }
{
    for p in ps {
        push_following(text, *p);
    }
}

/// Prints the shape with these corners.
fn push_corners(text: &mut Text, corners: &[Point])
    requires empty { array_string_len text.old ≡ 0 }
    requires range { All IsInRange corners.now }
    requires count { length corners.now ≤ 16 }
    ensures bytes { text.new.bytes ≡ text.old.bytes ++ printed corners.now }
    ensures short { array_string_len text.new ≤ 367 }
{
    match corners {
        [] => {}
        [p] => {
            text.push_str("POINT (");
            push_pair(text, *p);
            text.push_str(")");
        }
        [p, q] => {
            text.push_str("LINESTRING (");
            push_pair(text, *p);
            push_following(text, *q);
            text.push_str(")");
        }
        [first, rest @ ..] => {
            text.push_str("POLYGON ((");
            push_pair(text, *first);
            push_all_following(text, rest);
            push_following(text, *first);
            text.push_str("))");
        }
    }
}

/// The text of a shape: keyword in capitals, one space after it, after each comma and between two
/// coordinates, corners in canonical order, and the first corner of a ring again at its end.
/// Allocates nothing.
pub fn shape_text(shape: &Shape) -> ArrayString<384>
    ensures bytes { result.bytes ≡ printed shape.now }
    ensures spells { Spells result.bytes shape.now }
    ensures short { array_string_len result ≤ 367 }
{
    let mut text = ArrayString::new();
    push_corners(&mut text, corners(shape));
    text
}

/// The text of `shape_text` as a `String`. Fails only when out of memory.
pub fn print_shape<A: Allocator>(alloc: A, shape: &Shape) -> Result<String<A>, NoMemory>
    ensures { IfOk result (λ text. string_bytes text ≡ printed shape.now) }
{
    memory::text(alloc, shape_text(shape).as_str())
}
