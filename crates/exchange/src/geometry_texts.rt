//! Well-known texts of geometries (OGC 06-103r4, 7.2), by the coordinates of a grid.

use crate::faults::GeometryFault;
use geojson::{Geometry, Path, Role};
use grid::{Axis, Grid, coordinate_of};
use memory::GrowVec;
use plane::Point;
use std::alloc::Allocator;

/// What is left of a text, and at which byte of it that begins.
#[derive(Clone, Copy)]
struct Rest<'a> {
    bytes: &'a [u8],
    len: usize,
}

/// Whether a byte is a bracket or a comma.
fn is_mark(byte: u8) -> bool {
    matches!(byte, b'(' | b')' | b',')
}

/// Whether a byte is white space.
fn is_space(byte: u8) -> bool {
    matches!(byte, b' ' | b'\t' | b'\r' | b'\n')
}

impl<'a> Rest<'a> {
    /// The byte at which it begins.
    fn at(self) -> usize {
        self.len.saturating_sub(self.bytes.len())
    }

    /// The same text behind white space.
    fn trimmed(self) -> Rest<'a> {
        let spaces = self
            .bytes
            .iter()
            .take_while(|byte| is_space(**byte))
            .count()
            .min(self.bytes.len());
        let (_, bytes) = self.bytes.split_at(spaces);
        Rest { bytes, ..self }
    }

    /// The next word, and what is behind it. The word is empty before a mark and at the end.
    fn word(self) -> (&'a [u8], Rest<'a>) {
        let start = self.trimmed();
        let len = start
            .bytes
            .iter()
            .take_while(|byte| !is_mark(**byte) && !is_space(**byte))
            .count()
            .min(start.bytes.len());
        let (word, bytes) = start.bytes.split_at(len);
        (word, Rest { bytes, ..self })
    }

    /// What is behind this mark, if it is next.
    fn behind(self, mark: u8) -> Option<Rest<'a>> {
        match self.trimmed().bytes {
            [first, bytes @ ..] if *first == mark => Some(Rest { bytes, ..self }),
            _ => None,
        }
    }

    /// What is behind this mark, which must be next.
    fn expect(self, mark: u8) -> Result<Rest<'a>, GeometryFault> {
        match self.behind(mark) {
            Some(rest) => Ok(rest),
            None => Err(GeometryFault::Syntax(self.trimmed().at())),
        }
    }
}

/// A geometry's word.
#[derive(Clone, Copy, PartialEq, Eq)]
enum Kind {
    Point,
    Line,
    Polygon,
    Lines,
    Polygons,
}

/// The geometry that a word names.
fn kind_of(word: &[u8], at: usize) -> Result<Kind, GeometryFault> {
    if word.eq_ignore_ascii_case(b"POINT") {
        Ok(Kind::Point)
    } else if word.eq_ignore_ascii_case(b"LINESTRING") {
        Ok(Kind::Line)
    } else if word.eq_ignore_ascii_case(b"POLYGON") {
        Ok(Kind::Polygon)
    } else if word.eq_ignore_ascii_case(b"MULTILINESTRING") {
        Ok(Kind::Lines)
    } else if word.eq_ignore_ascii_case(b"MULTIPOLYGON") {
        Ok(Kind::Polygons)
    } else if word.eq_ignore_ascii_case(b"MULTIPOINT")
        || word.eq_ignore_ascii_case(b"GEOMETRYCOLLECTION")
    {
        Err(GeometryFault::LeftOut(at))
    } else {
        Err(GeometryFault::UnknownWord(at))
    }
}

/// Passes over Z, M and ZM: heights and measures are not looked at. `LeftOut` for EMPTY.
fn behind_dimension(rest: Rest<'_>) -> Result<Rest<'_>, GeometryFault> {
    let (word, behind) = rest.word();
    if word.is_empty() {
        return Ok(rest);
    }
    if word.eq_ignore_ascii_case(b"Z")
        || word.eq_ignore_ascii_case(b"M")
        || word.eq_ignore_ascii_case(b"ZM")
    {
        return Ok(behind);
    }
    Err(GeometryFault::LeftOut(rest.trimmed().at()))
}

/// A coordinate.
fn coordinate<'a>(
    grid: &Grid,
    axis: Axis,
    rest: Rest<'a>,
) -> Result<(i32, Rest<'a>), GeometryFault> {
    let at = rest.trimmed().at();
    let (word, behind) = rest.word();
    if word.is_empty() {
        return Err(GeometryFault::Syntax(at));
    }
    match coordinate_of(grid, axis, word) {
        Ok(n) => Ok((n, behind)),
        Err(fault) => Err(GeometryFault::Number(fault, at)),
    }
}

/// A position: two coordinates, and up to two further numbers, which are not looked at.
fn position<'a>(grid: &Grid, rest: Rest<'a>) -> Result<(Point, Rest<'a>), GeometryFault> {
    let (x, rest) = coordinate(grid, Axis::X, rest)?;
    let (y, rest) = coordinate(grid, Axis::Y, rest)?;
    let (_, rest) = rest.word();
    let (_, rest) = rest.word();
    Ok((Point { x, y }, rest))
}

/// Positions in brackets.
fn positions<'a, A: Allocator + Copy>(
    alloc: A,
    grid: &Grid,
    rest: Rest<'a>,
) -> Result<(Vec<Point, A>, Rest<'a>), GeometryFault> {
    let mut points = Vec::new(alloc);
    let mut rest = rest.expect(b'(')?;
    for _ in 0..u64::MAX {
        let (point, behind) = position(grid, rest)?;
        points.try_push(point)?;
        match behind.behind(b',') {
            Some(next) => rest = next,
            None => return Ok((points, behind.expect(b')')?)),
        }
    }
    Err(GeometryFault::Syntax(rest.at()))
}

/// A path.
fn path<'a, A: Allocator + Copy>(
    alloc: A,
    grid: &Grid,
    role: Role,
    rest: Rest<'a>,
) -> Result<(Path<A>, Rest<'a>), GeometryFault> {
    let (points, rest) = positions(alloc, grid, rest)?;
    Ok((Path { role, points }, rest))
}

/// Paths in brackets: lines, or the rings of a polygon, the first of which is the outer one.
fn put_paths<'a, A: Allocator + Copy>(
    alloc: A,
    grid: &Grid,
    are_rings: bool,
    rest: Rest<'a>,
    paths: &mut Vec<Path<A>, A>,
) -> Result<Rest<'a>, GeometryFault> {
    let mut rest = rest.expect(b'(')?;
    let mut role = if are_rings { Role::Outer } else { Role::Line };
    for _ in 0..u64::MAX {
        let (path, behind) = path(alloc, grid, role, rest)?;
        paths.try_push(path)?;
        if are_rings {
            role = Role::Hole;
        }
        match behind.behind(b',') {
            Some(next) => rest = next,
            None => return behind.expect(b')'),
        }
    }
    Err(GeometryFault::Syntax(rest.at()))
}

/// Polygons in brackets.
fn put_polygons<'a, A: Allocator + Copy>(
    alloc: A,
    grid: &Grid,
    rest: Rest<'a>,
    paths: &mut Vec<Path<A>, A>,
) -> Result<Rest<'a>, GeometryFault> {
    let mut rest = rest.expect(b'(')?;
    for _ in 0..u64::MAX {
        let behind = put_paths(alloc, grid, true, rest, paths)?;
        match behind.behind(b',') {
            Some(next) => rest = next,
            None => return behind.expect(b')'),
        }
    }
    Err(GeometryFault::Syntax(rest.at()))
}

/// The path of a point.
fn put_point<'a, A: Allocator + Copy>(
    alloc: A,
    grid: &Grid,
    rest: Rest<'a>,
    paths: &mut Vec<Path<A>, A>,
) -> Result<Rest<'a>, GeometryFault> {
    let rest = rest.expect(b'(')?;
    let (point, rest) = position(grid, rest)?;
    let mut points = Vec::new(alloc);
    points.try_push(point)?;
    paths.try_push(Path {
        role: Role::Point,
        points,
    })?;
    rest.expect(b')')
}

/// Reads the geometry that a well-known text spells, by the coordinates of a grid: a POINT, a
/// LINESTRING, a POLYGON, a MULTILINESTRING or a MULTIPOLYGON. Heights and measures are not looked
/// at. The fault is the first from the left.
pub fn read_geometry<A: Allocator + Copy>(
    alloc: A,
    grid: &Grid,
    text: &[u8],
) -> Result<Geometry<A>, GeometryFault> {
    let whole = Rest {
        bytes: text,
        len: text.len(),
    };
    let (word, rest) = whole.word();
    let kind = kind_of(word, whole.trimmed().at())?;
    let rest = behind_dimension(rest)?;
    let mut paths = Vec::new(alloc);
    let rest = match kind {
        Kind::Point => put_point(alloc, grid, rest, &mut paths)?,
        Kind::Line => {
            let (path, rest) = path(alloc, grid, Role::Line, rest)?;
            paths.try_push(path)?;
            rest
        }
        Kind::Polygon => put_paths(alloc, grid, true, rest, &mut paths)?,
        Kind::Lines => put_paths(alloc, grid, false, rest, &mut paths)?,
        Kind::Polygons => put_polygons(alloc, grid, rest, &mut paths)?,
    };
    if !rest.trimmed().bytes.is_empty() {
        return Err(GeometryFault::Syntax(rest.trimmed().at()));
    }
    Ok(Geometry { paths })
}
