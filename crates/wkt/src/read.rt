//! Reads a text.

ghost use Rattle.std.specs.Prelude.{◌≡◌, ◌+◌, ◌<◌, ◌^◌, Ok, IfOk, List, length};
ghost use Rattle.plane.specs.declared.point.Point.{Point};
ghost use Rattle.wkt.specs.Tokens.{tokens};
ghost use Rattle.wkt.specs.Reading.{point_at, line_string_at, shape_of};
ghost use Rattle.wkt.specs.Kept.{kept_polygon_at};
ghost use Rattle.wkt.specs.Spelling.{Spells};

use crate::fault::WktFault;
use crate::fields::{closing, end, keyword, mark, opening, pair};
use crate::keyword::Kind;
use crate::ring::ring;
use crate::tokens::Rest;
use plane::Shape;

/// `( pair )`
#[tactic(auto, unfolding(crate::specs::Reading::point_at))]
fn point(text: Rest<'_>) -> Result<Shape, WktFault>
    ensures { result
        ≡ point_at (text.entry.at + length text.entry.bytes.now)
        (tokens text.entry.at text.entry.bytes.now) }
{
    let text = opening(text)?;
    let (point, text) = pair(text)?;
    let text = mark(b')', text)?;
    end(text)?;
    Shape::point(point).map_err(WktFault::Bad)
}

/// `( pair , pair )`
#[tactic(auto, unfolding(crate::specs::Reading::line_string_at))]
fn line_string(text: Rest<'_>) -> Result<Shape, WktFault>
    ensures { result
        ≡ line_string_at (text.entry.at + length text.entry.bytes.now)
        (tokens text.entry.at text.entry.bytes.now) }
{
    let text = opening(text)?;
    let (first, text) = pair(text)?;
    let text = mark(b',', text)?;
    let (second, text) = pair(text)?;
    let text = closing(text)?;
    end(text)?;
    Shape::segment(first, second).map_err(WktFault::Bad)
}

/// `( ( pair , pair .. ) )`
#[tactic(auto, unfolding(crate::specs::Kept::kept_polygon_at))]
fn polygon(text: Rest<'_>) -> Result<Shape, WktFault>
    ensures { result
        ≡ kept_polygon_at (text.entry.at + length text.entry.bytes.now)
        (tokens text.entry.at text.entry.bytes.now) }
{
    let text = opening(text)?;
    let text = mark(b'(', text)?;
    let (points, text) = ring(text)?;
    let text = closing(text)?;
    end(text)?;
    Shape::polygon(points.as_slice()).map_err(WktFault::Bad)
}

/// Reads the keyword and what follows it.
#[tactic(auto, using(crate::proofs::KeptLemmas::kept_polygon), unfolding(crate::specs::Reading::shape_of))]
fn read(text: &[u8]) -> Result<Shape, WktFault>
    ensures { result ≡ shape_of text.now }
{
    let (kind, rest) = keyword(Rest { at: 0, bytes: text })?;
    match kind {
        Kind::Point => point(rest),
        Kind::LineString => line_string(rest),
        Kind::Polygon => polygon(rest),
    }
}

/// Reads the shape that a text spells, as in OGC 06-103r4, 7.2.2: `POINT (x y)`,
/// `LINESTRING (x y, x y)` or `POLYGON ((x y, x y, ..))`. Allocates nothing.
///
/// Another first word is K1, or K2 if it is the word for a kind of geometry that is not supported.
/// `EMPTY`, `Z`, `M` or `ZM` after the keyword, a third point of a line string and a second ring
/// are K2. Any other wrong or missing token is K3, a word that is not a number K4, and a number
/// outside of -10,000,000 to 10,000,000 K5. The error is the first fault from the left, with its
/// place. If there is none, but the points make no shape, the error is K6.
#[tactic(auto, using(crate::proofs::SpellingFound::found))]
pub fn read_shape(text: &[u8]) -> Result<Shape, WktFault>
    ensures value { result ≡ shape_of text.now }
    ensures spelled { IfOk result (Spells text.now) }
    ensures taken { (corners : List Point) → Spells text.now corners → result ≡ Ok corners }
{
    read(text)
}
