//! The map on the page: what it shows, its outline, and the coordinates at its edges. Making these
//! texts takes no memory.

ghost use Rattle.std.specs.Prelude.{◌≡◌, ◌+◌, ◌≤◌, ◌<ℤ◌, ◌+ℤ◌, ◌-ℤ◌, ◌*ℤ◌, ◌++◌, int_div, pos};
ghost use Rattle.std.specs.Fmt.{signed_decimal};
ghost use Rattle.arrayvec.specs.ArrayVec.{array_vec_len};
ghost use Rattle.drawing.specs.Elements.{before_edge, behind_edge, edges_text, height_of, left_of, level_text, levels_text, longer_of, lower_of, outline_text, pair_text, right_of, sides_text, top_of, upper_of, upright_text, view_text, width_of};
ghost use Rattle.drawing.specs.Pictures.{around_text, map_text};

use crate::elements::{Element, push_attribute, push_bytes, push_number};
use arrayvec::ArrayVec;
use itoa::Buffer;
use plane::Frame;

/// Appends a place on the page, which has at most 20 bytes.
fn push_page(element: &mut Element, place: i64)
    requires room { array_vec_len element.old + 20 ≤ 640 }
    ensures items { element.new.items ≡ element.old.items ++ signed_decimal place }
    ensures len { array_vec_len element.new ≤ array_vec_len element.old + 20 }
{
    let mut buffer = Buffer::new();
    push_bytes(element, buffer.format(place).as_bytes());
}

/// Appends two numbers, and a space between them.
fn push_pair(element: &mut Element, a: i32, b: i32)
    requires room { array_vec_len element.old ≤ 200 }
    ensures items { element.new.items ≡ element.old.items ++ pair_text a b }
    ensures len { array_vec_len element.new ≤ array_vec_len element.old + 23 }
{
    push_number(element, a);
    push_bytes(element, b" ");
    push_number(element, b);
}

/// The left side of what a map of this frame shows.
fn left(frame: Frame) -> i32
    ensures { result ≡ left_of frame }
{
    frame.x0() - 1
}

/// Its right side.
fn right(frame: Frame) -> i32
    ensures { result ≡ right_of frame }
{
    let _ordered = frame.x0();
    frame.x1() + 1
}

/// Its lower side.
fn lower(frame: Frame) -> i32
    ensures { result ≡ lower_of frame }
{
    let _ordered = frame.x0();
    frame.y0() - 1
}

/// Its upper side.
fn upper(frame: Frame) -> i32
    ensures { result ≡ upper_of frame }
{
    let _ordered = frame.x0();
    frame.y1() + 1
}

/// Its upper side, as the picture's coordinate, which goes down.
fn top(frame: Frame) -> i32
    ensures { result ≡ top_of frame }
{
    let _ordered = frame.x0();
    -(frame.y1() + 1)
}

/// The width of what it shows.
fn width(frame: Frame) -> i32
    ensures value { result ≡ width_of frame }
    ensures some { pos 0 <ℤ result }
{
    let _ordered = frame.x0();
    frame.x1() + 1 - (frame.x0() - 1)
}

/// The height of what it shows.
fn height(frame: Frame) -> i32
    ensures value { result ≡ height_of frame }
    ensures some { pos 0 <ℤ result }
{
    let _ordered = frame.x0();
    frame.y1() + 1 - (frame.y0() - 1)
}

/// The longer one of width and height.
fn longer(frame: Frame) -> i32
    ensures value { result ≡ longer_of frame }
    ensures some { pos 0 <ℤ result }
{
    width(frame).max(height(frame))
}

/// A quotient, rounded toward zero.
fn quotient(dividend: i64, divisor: i64) -> i64
    requires { pos 0 <ℤ divisor }
    ensures { result ≡ int_div dividend divisor }
{
    dividend / divisor
}

/// 490 times the longer side, less 460 times a side: what `before` divides.
fn space_before(side: i32, length: i32) -> i64
    ensures { result ≡ pos 490 *ℤ side -ℤ pos 460 *ℤ length }
{
    490 * i64::from(side) - 460 * i64::from(length)
}

/// 524 times the longer side, and 460 times a side: what `behind` divides.
fn space_behind(side: i32, length: i32) -> i64
    ensures { result ≡ pos 524 *ℤ side +ℤ pos 460 *ℤ length }
{
    524 * i64::from(side) + 460 * i64::from(length)
}

/// Where the coordinate of a left or an upper edge is on the page: before the edge. `length` is
/// that of the side between the edges, `side` the longer side.
fn before(side: i32, length: i32) -> i64
    requires { pos 0 <ℤ side }
    ensures { result ≡ before_edge side length }
{
    quotient(space_before(side, length), i64::from(side))
}

/// The same of a right or a lower edge: behind the edge.
fn behind(side: i32, length: i32) -> i64
    requires { pos 0 <ℤ side }
    ensures { result ≡ behind_edge side length }
{
    quotient(space_behind(side, length), i64::from(side))
}

/// Where the coordinate of the left edge is on the page.
fn left_place(frame: Frame) -> i64
    ensures { result ≡ before_edge (longer_of frame) (width_of frame) }
{
    before(longer(frame), width(frame))
}

/// Where the coordinate of the right edge is on the page.
fn right_place(frame: Frame) -> i64
    ensures { result ≡ behind_edge (longer_of frame) (width_of frame) }
{
    behind(longer(frame), width(frame))
}

/// Where the coordinate of the lower edge is on the page.
fn lower_place(frame: Frame) -> i64
    ensures { result ≡ behind_edge (longer_of frame) (height_of frame) }
{
    behind(longer(frame), height(frame))
}

/// Where the coordinate of the upper edge is on the page.
fn upper_place(frame: Frame) -> i64
    ensures { result ≡ before_edge (longer_of frame) (height_of frame) }
{
    before(longer(frame), height(frame))
}

/// Appends the upper left corner of what a map of this frame shows, its width and its height.
fn push_view(element: &mut Element, frame: Frame)
    requires room { array_vec_len element.old ≤ 100 }
    ensures items { element.new.items ≡ element.old.items ++ view_text frame }
    ensures len { array_vec_len element.new ≤ array_vec_len element.old + 47 }
{
    push_pair(element, left(frame), top(frame));
    push_bytes(element, b" ");
    push_pair(element, width(frame), height(frame));
}

/// Appends the outline of what a map of this frame shows.
fn push_outline(element: &mut Element, frame: Frame)
    requires room { array_vec_len element.old ≤ 200 }
    ensures items { element.new.items ≡ element.old.items ++ outline_text frame }
    ensures len { array_vec_len element.new ≤ array_vec_len element.old + 200 }
{
    push_bytes(element, b"<rect");
    push_attribute(element, b" x=\"", left(frame));
    push_attribute(element, b" y=\"", top(frame));
    push_attribute(element, b" width=\"", width(frame));
    push_attribute(element, b" height=\"", height(frame));
    push_bytes(
        element,
        b" fill=\"none\" stroke=\"#7f7f7f\" stroke-width=\"0.1%\"/>\n",
    );
}

/// Appends the coordinate of a left or a right edge, at this place.
fn push_upright(element: &mut Element, place: i64, x: i32)
    requires room { array_vec_len element.old ≤ 500 }
    ensures items { element.new.items ≡ element.old.items ++ upright_text place x }
    ensures len { array_vec_len element.new ≤ array_vec_len element.old + 90 }
{
    push_bytes(element, b"<text transform=\"translate(");
    push_page(element, place);
    push_bytes(element, b" 500) rotate(-90)\">x=");
    push_number(element, x);
    push_bytes(element, b"</text>\n");
}

/// Appends the coordinate of an upper or a lower edge, at this place.
fn push_level(element: &mut Element, place: i64, y: i32)
    requires room { array_vec_len element.old ≤ 500 }
    ensures items { element.new.items ≡ element.old.items ++ level_text place y }
    ensures len { array_vec_len element.new ≤ array_vec_len element.old + 90 }
{
    push_bytes(element, b"<text transform=\"translate(500 ");
    push_page(element, place);
    push_bytes(element, b")\">y=");
    push_number(element, y);
    push_bytes(element, b"</text>\n");
}

/// Appends the coordinates of the left and the right edge.
fn push_sides(element: &mut Element, frame: Frame)
    requires room { array_vec_len element.old ≤ 400 }
    ensures items { element.new.items ≡ element.old.items ++ sides_text frame }
    ensures len { array_vec_len element.new ≤ array_vec_len element.old + 180 }
{
    push_upright(element, left_place(frame), left(frame));
    push_upright(element, right_place(frame), right(frame));
}

/// Appends the coordinates of the lower and the upper edge.
fn push_levels(element: &mut Element, frame: Frame)
    requires room { array_vec_len element.old ≤ 400 }
    ensures items { element.new.items ≡ element.old.items ++ levels_text frame }
    ensures len { array_vec_len element.new ≤ array_vec_len element.old + 180 }
{
    push_level(element, lower_place(frame), lower(frame));
    push_level(element, upper_place(frame), upper(frame));
}

/// Appends the coordinates of all edges.
fn push_edges(element: &mut Element, frame: Frame)
    requires room { array_vec_len element.old ≤ 100 }
    ensures items { element.new.items ≡ element.old.items ++ edges_text frame }
    ensures len { array_vec_len element.new ≤ array_vec_len element.old + 440 }
{
    push_bytes(
        element,
        b"<g font-family=\"monospace\" font-size=\"20\" text-anchor=\"middle\">\n",
    );
    push_sides(element, frame);
    push_levels(element, frame);
    push_bytes(element, b"</g>\n");
}

/// The start of a map: what it shows, and its outline.
pub(crate) fn map_start(frame: Frame) -> Element
    ensures { result.items ≡ map_text frame }
{
    let mut element = ArrayVec::new();
    push_view(&mut element, frame);
    push_bytes(&mut element, b"\">\n");
    push_outline(&mut element, frame);
    push_bytes(
        &mut element,
        b"<g transform=\"scale(1 -1)\" fill-opacity=\"0.4\" stroke-width=\"0.3%\">\n",
    );
    element
}

/// What is around a map: its end, the coordinates at its edges, and the start of the legend.
pub(crate) fn around(frame: Frame) -> Element
    ensures { result.items ≡ around_text frame }
{
    let mut element = ArrayVec::new();
    push_bytes(&mut element, b"</g>\n</svg>\n");
    push_edges(&mut element, frame);
    push_bytes(
        &mut element,
        b"<text font-family=\"monospace\" font-size=\"20\" x=\"1020\" y=\"40\">\n",
    );
    element
}
