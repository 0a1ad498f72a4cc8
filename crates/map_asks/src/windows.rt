//! Windows: the shape that a search looks for, from the bounds of a box.

ghost use Rattle.std.specs.Prelude.{◌≡◌};
ghost use Rattle.map_asks.specs.Windows.{box_point, box_polygon, box_segment, box_shape, clipped, thin_shape, wide_shape, window_of, window_in};

use plane::{LIMIT, Point, Shape, ShapeFault};

/// Where a search looks.
#[derive(Clone, Copy, Debug)]
pub enum Window {
    /// Nowhere: the box is beyond the grid.
    Nothing,
    /// In this shape: a box along the axes, or a segment or a point where it has no width.
    Shape(Shape),
}

/// The bounds of a box, as whole coordinates. One beyond the grid is behind the grid's end.
#[derive(Clone, Copy, Debug)]
pub(crate) struct Bounds {
    pub west: i32,
    pub south: i32,
    pub east: i32,
    pub north: i32,
}

/// The bounds of the whole grid.
pub(crate) const EVERYWHERE: Bounds = Bounds {
    west: -LIMIT,
    south: -LIMIT,
    east: LIMIT,
    north: LIMIT,
};

/// The point that a box without width and height is.
#[tactic(auto, unfolding(crate::specs::Windows::box_point))]
fn box_point(bounds: Bounds) -> Result<Shape, ShapeFault>
    ensures { result ≡ box_point bounds }
{
    Shape::point(Point {
        x: bounds.west,
        y: bounds.south,
    })
}

/// The segment that a box without width or height is.
#[tactic(auto, unfolding(crate::specs::Windows::box_segment))]
fn box_segment(bounds: Bounds) -> Result<Shape, ShapeFault>
    ensures { result ≡ box_segment bounds }
{
    let least = Point {
        x: bounds.west,
        y: bounds.south,
    };
    let greatest = Point {
        x: bounds.east,
        y: bounds.north,
    };
    Shape::segment(least, greatest)
}

/// The polygon that a box is.
#[tactic(auto, unfolding(crate::specs::Windows::box_polygon))]
fn box_polygon(bounds: Bounds) -> Result<Shape, ShapeFault>
    ensures { result ≡ box_polygon bounds }
{
    let Bounds {
        west,
        south,
        east,
        north,
    } = bounds;
    Shape::polygon(&[
        Point { x: west, y: south },
        Point { x: east, y: south },
        Point { x: east, y: north },
        Point { x: west, y: north },
        Point { x: west, y: south },
    ])
}

/// The shape of a box without width.
fn thin_shape(bounds: Bounds) -> Result<Shape, ShapeFault>
    ensures { result ≡ thin_shape bounds }
{
    if bounds.south == bounds.north {
        box_point(bounds)
    } else {
        box_segment(bounds)
    }
}

/// The shape of a box with some width.
fn wide_shape(bounds: Bounds) -> Result<Shape, ShapeFault>
    ensures { result ≡ wide_shape bounds }
{
    if bounds.south == bounds.north {
        box_segment(bounds)
    } else {
        box_polygon(bounds)
    }
}

/// The shape of a box whose bounds are in order.
fn box_shape(bounds: Bounds) -> Result<Shape, ShapeFault>
    ensures { result ≡ box_shape bounds }
{
    if bounds.west == bounds.east {
        thin_shape(bounds)
    } else {
        wide_shape(bounds)
    }
}

/// The bounds without what is beyond the grid.
fn clipped(bounds: Bounds) -> Bounds
    ensures { result ≡ clipped bounds }
{
    Bounds {
        west: bounds.west.max(-LIMIT),
        south: bounds.south.max(-LIMIT),
        east: bounds.east.min(LIMIT),
        north: bounds.north.min(LIMIT),
    }
}

/// The window of bounds in order and in range.
fn window_in(bounds: Bounds) -> Option<Window>
    ensures { result ≡ window_in bounds }
{
    if bounds.west > bounds.east || bounds.south > bounds.north {
        return Some(Window::Nothing);
    }
    match box_shape(bounds) {
        Ok(shape) => Some(Window::Shape(shape)),
        Err(_) => None,
    }
}

/// The window of bounds, without what is beyond the grid. `None` where the west is above the east,
/// or the south above the north.
pub(crate) fn window_of(bounds: Bounds) -> Option<Window>
    ensures { result ≡ window_of bounds }
{
    if bounds.west > bounds.east || bounds.south > bounds.north {
        return None;
    }
    window_in(clipped(bounds))
}

/// The window of the whole grid.
pub fn everywhere() -> Option<Window>
    ensures { result ≡ window_of EVERYWHERE }
{
    window_of(EVERYWHERE)
}
