//! The elements of a drawing, as bytes. Making them takes no memory.

ghost use Rattle.std.specs.Prelude.{◌≡◌, ◌+◌, ◌*◌, ◌≤◌, ◌<ℤ◌, ◌++◌, codes, decimal, length, pos};
ghost use Rattle.std.specs.Fmt.{signed_decimal};
ghost use Rattle.std.specs.List.{flat_map};
ghost use Rattle.arrayvec.specs.ArrayVec.{array_vec_len};
ghost use Rattle.drawing.specs.Elements.{attribute, circle_text, class_text, corner_text, figure_text, line_text, paint_text, place_text, polygon_text, row_text, title_text, window_text, word_text};

use arrayvec::ArrayVec;
use features::{Feature, Name};
use itoa::Buffer;
use plane::{Point, Shape, corners};

/// Room for every element. The longest is a polygon of less than 600 bytes.
const ELEMENT_ROOM: usize = 640;

/// An element while it is made.
pub(crate) type Element = ArrayVec<u8, ELEMENT_ROOM>;

/// Appends bytes, for which there is room.
pub(crate) fn push_bytes(element: &mut Element, bytes: &[u8])
    requires room { array_vec_len element.old + length bytes.now ≤ 640 }
    ensures items { element.new.items ≡ element.old.items ++ bytes.now }
    ensures len { array_vec_len element.new ≡ array_vec_len element.old + length bytes.now }
{
    element.try_extend_from_slice(bytes).unwrap();
}

/// Appends an id, which has at most 20 bytes.
fn push_id(element: &mut Element, id: u64)
    requires room { array_vec_len element.old + 20 ≤ 640 }
    ensures items { element.new.items ≡ element.old.items ++ decimal id }
    ensures len { array_vec_len element.new ≤ array_vec_len element.old + 20 }
{
    let mut buffer = Buffer::new();
    push_bytes(element, buffer.format(id).as_bytes());
}

/// Appends a number, which has at most 11 bytes.
pub(crate) fn push_number(element: &mut Element, n: i32)
    requires room { array_vec_len element.old + 11 ≤ 640 }
    ensures items { element.new.items ≡ element.old.items ++ signed_decimal n }
    ensures len { array_vec_len element.new ≤ array_vec_len element.old + 11 }
{
    let mut buffer = Buffer::new();
    push_bytes(element, buffer.format(n).as_bytes());
}

/// Appends an attribute whose value is a number.
pub(crate) fn push_attribute(element: &mut Element, name: &[u8], n: i32)
    requires room { array_vec_len element.old ≤ 600 }
    requires name { length name.now ≤ 10 }
    ensures items { element.new.items ≡ element.old.items ++ attribute name.now n }
    ensures len { array_vec_len element.new
        ≤ array_vec_len element.old + length name.now + 12 }
{
    push_bytes(element, name);
    push_number(element, n);
    push_bytes(element, b"\"");
}

/// Appends a place, as two attributes.
fn push_place(element: &mut Element, x: &[u8], y: &[u8], p: Point)
    requires room { array_vec_len element.old ≤ 500 }
    requires x { length x.now ≤ 5 }
    requires y { length y.now ≤ 5 }
    ensures items { element.new.items ≡ element.old.items ++ place_text x.now y.now p }
    ensures len { array_vec_len element.new ≤ array_vec_len element.old + 34 }
{
    push_attribute(element, x, p.x);
    push_attribute(element, y, p.y);
}

/// Appends a point, as a circle.
fn push_circle(element: &mut Element, p: Point)
    requires room { array_vec_len element.old ≤ 200 }
    ensures items { element.new.items ≡ element.old.items ++ circle_text p }
    ensures len { array_vec_len element.new ≤ 600 }
{
    push_bytes(element, b"<circle r=\"0.6%\"");
    push_place(element, b" cx=\"", b" cy=\"", p);
    push_bytes(element, b"/>");
}

/// Appends a segment, as a line.
fn push_line(element: &mut Element, p: Point, q: Point)
    requires room { array_vec_len element.old ≤ 200 }
    ensures items { element.new.items ≡ element.old.items ++ line_text p q }
    ensures len { array_vec_len element.new ≤ 600 }
{
    push_bytes(element, b"<line");
    push_place(element, b" x1=\"", b" y1=\"", p);
    push_place(element, b" x2=\"", b" y2=\"", q);
    push_bytes(element, b"/>");
}

/// Appends a corner of a polygon.
fn push_corner(element: &mut Element, p: Point)
    requires room { array_vec_len element.old + 24 ≤ 640 }
    ensures items { element.new.items ≡ element.old.items ++ corner_text p }
    ensures len { array_vec_len element.new ≤ array_vec_len element.old + 24 }
{
    push_number(element, p.x);
    push_bytes(element, b",");
    push_number(element, p.y);
    push_bytes(element, b" ");
}

/// Appends the corners of a polygon.
fn push_corners(element: &mut Element, corners: &[Point])
    requires room { array_vec_len element.old + 24 * length corners.now ≤ 640 }
    ensures items { element.new.items ≡ element.old.items ++ flat_map corner_text corners.now }
    ensures len { array_vec_len element.new
        ≤ array_vec_len element.old + 24 * length corners.now }
{
    for p in corners {
        push_corner(element, *p);
    }
}

/// Appends a polygon.
fn push_polygon(element: &mut Element, corners: &[Point])
    requires room { array_vec_len element.old ≤ 180 }
    requires count { length corners.now ≤ 16 }
    ensures items { element.new.items ≡ element.old.items ++ polygon_text corners.now }
    ensures len { array_vec_len element.new ≤ 600 }
{
    push_bytes(element, b"<polygon points=\"");
    push_corners(element, corners);
    push_bytes(element, b"\"/>");
}

/// Appends the figure of a shape with these corners.
fn push_figure(element: &mut Element, corners: &[Point])
    requires room { array_vec_len element.old ≤ 180 }
    requires count { length corners.now ≤ 16 }
    ensures items { element.new.items ≡ element.old.items ++ figure_text corners.now }
    ensures len { array_vec_len element.new ≤ 600 }
{
    match corners {
        [] => {}
        [p] => push_circle(element, *p),
        [p, q] => push_line(element, *p, *q),
        [_, _, _, ..] => push_polygon(element, corners),
    }
}

/// Appends a space and a name.
fn push_word(element: &mut Element, name: &Name)
    requires room { array_vec_len element.old ≤ 500 }
    ensures items { element.new.items ≡ element.old.items ++ word_text name.now }
    ensures len { array_vec_len element.new ≤ array_vec_len element.old + 33 }
{
    push_bytes(element, b" ");
    push_bytes(element, name.as_bytes());
}

/// Appends the title of a feature: its id, its class and its office.
fn push_title(element: &mut Element, feature: &Feature)
    requires room { array_vec_len element.old ≤ 50 }
    ensures items { element.new.items ≡ element.old.items ++ title_text feature.now }
    ensures len { array_vec_len element.new ≤ array_vec_len element.old + 101 }
{
    push_bytes(element, b"<title>");
    push_id(element, feature.id);
    push_word(element, &feature.class);
    push_word(element, &feature.office);
    push_bytes(element, b"</title>");
}

/// Begins the group of a feature of this colour.
fn push_paint(element: &mut Element, colour: &str)
    requires room { array_vec_len element.old ≡ 0 }
    requires colour { length colour.now ≤ 7 }
    ensures items { element.new.items ≡ element.old.items ++ paint_text colour.now }
    ensures len { array_vec_len element.new ≤ 50 }
{
    push_bytes(element, b"<g fill=\"");
    push_bytes(element, colour.as_bytes());
    push_bytes(element, b"\" stroke=\"");
    push_bytes(element, colour.as_bytes());
    push_bytes(element, b"\">");
}

/// The element of a feature, in this colour.
pub(crate) fn row_element(feature: &Feature, colour: &str) -> Element
    requires { length colour.now ≤ 7 }
    ensures { result.items ≡ row_text colour.now feature.now }
{
    let mut element = ArrayVec::new();
    push_paint(&mut element, colour);
    push_title(&mut element, feature);
    push_figure(&mut element, corners(&feature.shape));
    push_bytes(&mut element, b"</g>\n");
    element
}

/// The element of a window.
pub(crate) fn window_element(window: &Shape) -> Element
    ensures { result.items ≡ window_text window.now }
{
    let mut element = ArrayVec::new();
    push_bytes(
        &mut element,
        b"<g fill=\"none\" stroke=\"#000000\" stroke-dasharray=\"1% 1%\">",
    );
    push_figure(&mut element, corners(window));
    push_bytes(&mut element, b"</g>\n");
    element
}

/// The element of a class in the legend.
pub(crate) fn class_element(class: &Name, colour: &str) -> Element
    requires { length colour.now ≤ 7 }
    ensures { result.items ≡ class_text colour.now class.now }
{
    let mut element = ArrayVec::new();
    push_bytes(&mut element, b"<tspan x=\"1020\" dy=\"28\" fill=\"");
    push_bytes(&mut element, colour.as_bytes());
    push_bytes(&mut element, b"\">");
    push_bytes(&mut element, class.as_bytes());
    push_bytes(&mut element, b"</tspan>\n");
    element
}
