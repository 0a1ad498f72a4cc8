//! The texts of geometries and features. Making them takes no memory.

ghost use Rattle.std.specs.Prelude.{◌≡◌, ◌+◌, ◌*◌, ◌≤◌, ◌++◌, All, decimal, length};
ghost use Rattle.std.specs.List.{flat_map};
ghost use Rattle.arrayvec.specs.ArrayVec.{array_vec_len};
ghost use Rattle.plane.specs.Points.{IsInRange};
ghost use Rattle.grid.specs.Printing.{coordinate_text};
ghost use Rattle.geojson.specs.Texts.{position_text, following_text, point_head, line_head, ring_head, geometry_text, id_part, geometry_key, own_id_part, office_part, class_part, version_part, feature_text};

use arrayvec::ArrayVec;
use features::{Feature, Name};
use grid::{Axis, Grid, NumberText};
use itoa::Buffer;
use plane::{Point, Shape, corners};

/// The most bytes of the text of a geometry or a feature. The longest has fewer than 1,500.
pub const TEXT_LIMIT: usize = 1_536;

/// The text of a geometry or a feature, as ASCII.
pub type Text = ArrayVec<u8, TEXT_LIMIT>;

/// Appends bytes, for which there is room.
fn push_bytes(text: &mut Text, bytes: &[u8])
    requires { array_vec_len text.old + length bytes.now ≤ 1536 }
    ensures items { text.new.items ≡ text.old.items ++ bytes.now }
    ensures len { array_vec_len text.new ≡ array_vec_len text.old + length bytes.now }
{
    text.try_extend_from_slice(bytes).unwrap();
}

/// Appends a number, which has at most 20 digits.
fn push_number(text: &mut Text, n: u64)
    requires { array_vec_len text.old + 20 ≤ 1536 }
    ensures items { text.new.items ≡ text.old.items ++ decimal n }
    ensures len { array_vec_len text.new ≤ array_vec_len text.old + 20 }
{
    let mut buffer = Buffer::new();
    push_bytes(text, buffer.format(n).as_bytes());
}

/// Appends the text of a coordinate.
fn push_text(text: &mut Text, coordinate: &NumberText)
    requires { array_vec_len text.old + 32 ≤ 1536 }
    ensures items { text.new.items ≡ text.old.items ++ coordinate.now.bytes }
    ensures len { array_vec_len text.new ≤ array_vec_len text.old + 32 }
{
    push_bytes(text, coordinate.as_str().as_bytes());
}

/// Appends a position.
fn push_position(text: &mut Text, grid: &Grid, p: Point)
    requires room { array_vec_len text.old + 67 ≤ 1536 }
    requires range { IsInRange p }
    ensures items { text.new.items ≡ text.old.items ++ position_text grid.now p }
    ensures len { array_vec_len text.new ≤ array_vec_len text.old + 67 }
{
    let x = grid::coordinate_text(grid, Axis::X, p.x);
    let y = grid::coordinate_text(grid, Axis::Y, p.y);
    push_bytes(text, b"[");
    push_text(text, &x);
    push_bytes(text, b",");
    push_text(text, &y);
    push_bytes(text, b"]");
}

/// Appends a position after another one.
fn push_following(text: &mut Text, grid: &Grid, p: Point)
    requires room { array_vec_len text.old + 68 ≤ 1536 }
    requires range { IsInRange p }
    ensures items { text.new.items ≡ text.old.items ++ following_text grid.now p }
    ensures len { array_vec_len text.new ≤ array_vec_len text.old + 68 }
{
    push_bytes(text, b",");
    push_position(text, grid, p);
}

/// Appends positions after another one.
fn push_all_following(text: &mut Text, grid: &Grid, ps: &[Point])
    requires room { array_vec_len text.old + 68 * length ps.now ≤ 1536 }
    requires range { All IsInRange ps.now }
    ensures items { text.new.items
        ≡ text.old.items ++ flat_map (following_text grid.now) ps.now }
    ensures len { array_vec_len text.new ≤ array_vec_len text.old + 68 * length ps.now }
{
    for p in ps {
        push_following(text, grid, *p);
    }
}

#[tactic(auto, unfolding(crate::specs::Texts::point_head))]
fn push_point_head(text: &mut Text)
    requires { array_vec_len text.old ≤ 200 }
    ensures items { text.new.items ≡ text.old.items ++ point_head }
    ensures len { array_vec_len text.new ≤ array_vec_len text.old + 40 }
{
    push_bytes(text, b"{\"type\":\"Point\",\"coordinates\":");
}

#[tactic(auto, unfolding(crate::specs::Texts::line_head))]
fn push_line_head(text: &mut Text)
    requires { array_vec_len text.old ≤ 200 }
    ensures items { text.new.items ≡ text.old.items ++ line_head }
    ensures len { array_vec_len text.new ≤ array_vec_len text.old + 40 }
{
    push_bytes(text, b"{\"type\":\"LineString\",\"coordinates\":[");
}

#[tactic(auto, unfolding(crate::specs::Texts::ring_head))]
fn push_ring_head(text: &mut Text)
    requires { array_vec_len text.old ≤ 200 }
    ensures items { text.new.items ≡ text.old.items ++ ring_head }
    ensures len { array_vec_len text.new ≤ array_vec_len text.old + 40 }
{
    push_bytes(text, b"{\"type\":\"Polygon\",\"coordinates\":[[");
}

/// Appends the geometry of a shape with these corners.
#[tactic(auto, unfolding(crate::specs::Texts::geometry_text))]
fn push_corners(text: &mut Text, grid: &Grid, corners: &[Point])
    requires room { array_vec_len text.old ≤ 100 }
    requires range { All IsInRange corners.now }
    requires count { length corners.now ≤ 16 }
    ensures items { text.new.items ≡ text.old.items ++ geometry_text grid.now corners.now }
    ensures len { array_vec_len text.new ≤ array_vec_len text.old + 1200 }
{
    match corners {
        [] => push_bytes(text, b"null"),
        [p] => {
            push_point_head(text);
            push_position(text, grid, *p);
            push_bytes(text, b"}");
        }
        [p, q] => {
            push_line_head(text);
            push_position(text, grid, *p);
            push_following(text, grid, *q);
            push_bytes(text, b"]}");
        }
        [first, rest @ ..] => {
            push_ring_head(text);
            push_position(text, grid, *first);
            push_all_following(text, grid, rest);
            push_following(text, grid, *first);
            push_bytes(text, b"]]}");
        }
    }
}

/// The text of a shape's geometry (RFC 7946, 3.1): a Point, a LineString of two positions, or a
/// Polygon of one closed ring, counter-clockwise. No spaces; each coordinate as the grid writes it.
pub fn geometry_text(grid: &Grid, shape: &Shape) -> Text
    ensures { result.items ≡ geometry_text grid.now shape.now }
{
    let mut text = ArrayVec::new();
    push_corners(&mut text, grid, corners(shape));
    text
}

#[tactic(auto, unfolding(crate::specs::Texts::id_part))]
fn push_id(text: &mut Text, id: u64)
    requires { array_vec_len text.old ≡ 0 }
    ensures items { text.new.items ≡ text.old.items ++ id_part id }
    ensures len { array_vec_len text.new ≤ 60 }
{
    push_bytes(text, b"{\"type\":\"Feature\",\"id\":");
    push_number(text, id);
}

#[tactic(auto, unfolding(crate::specs::Texts::geometry_key))]
fn push_geometry_key(text: &mut Text)
    requires { array_vec_len text.old ≤ 60 }
    ensures items { text.new.items ≡ text.old.items ++ geometry_key }
    ensures len { array_vec_len text.new ≤ 80 }
{
    push_bytes(text, b",\"geometry\":");
}

#[tactic(auto, unfolding(crate::specs::Texts::own_id_part))]
fn push_own_id(text: &mut Text, id: u64)
    requires { array_vec_len text.old ≤ 1280 }
    ensures items { text.new.items ≡ text.old.items ++ own_id_part id }
    ensures len { array_vec_len text.new ≤ 1330 }
{
    push_bytes(text, b",\"properties\":{\"id\":");
    push_number(text, id);
}

#[tactic(auto, unfolding(crate::specs::Texts::office_part))]
fn push_office(text: &mut Text, office: &Name)
    requires { array_vec_len text.old ≤ 1330 }
    ensures items { text.new.items ≡ text.old.items ++ office_part office.now }
    ensures len { array_vec_len text.new ≤ 1380 }
{
    push_bytes(text, b",\"office\":\"");
    push_bytes(text, office.as_bytes());
}

#[tactic(auto, unfolding(crate::specs::Texts::class_part))]
fn push_class(text: &mut Text, class: &Name)
    requires { array_vec_len text.old ≤ 1380 }
    ensures items { text.new.items ≡ text.old.items ++ class_part class.now }
    ensures len { array_vec_len text.new ≤ 1430 }
{
    push_bytes(text, b"\",\"class\":\"");
    push_bytes(text, class.as_bytes());
}

#[tactic(auto, unfolding(crate::specs::Texts::version_part))]
fn push_version(text: &mut Text, version: u64)
    requires { array_vec_len text.old ≤ 1430 }
    ensures items { text.new.items ≡ text.old.items ++ version_part version }
    ensures len { array_vec_len text.new ≤ 1480 }
{
    push_bytes(text, b"\",\"version\":");
    push_number(text, version);
}

/// The text of a feature (RFC 7946, 3.2) on one line: its id, its geometry, and the properties id,
/// office, class and version. The id stands twice, since some tools keep the property alone.
pub fn feature_text(grid: &Grid, feature: &Feature) -> Text
    ensures { result.items ≡ feature_text grid.now feature.now }
{
    let mut text = ArrayVec::new();
    push_id(&mut text, feature.id);
    push_geometry_key(&mut text);
    push_corners(&mut text, grid, corners(&feature.shape));
    push_own_id(&mut text, feature.id);
    push_office(&mut text, &feature.office);
    push_class(&mut text, &feature.class);
    push_version(&mut text, feature.version);
    push_bytes(&mut text, b"}}");
    text
}
