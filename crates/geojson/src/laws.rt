//! Laws of the definitions. A function here has an empty body: it is its contract.

ghost use Rattle.std.specs.Prelude.{◌≡◌, [], ◌∷◌, All, List, Ok, Some};
ghost use Rattle.json.specs.Json.{array, document};
ghost use Rattle.plane.specs.declared.point.Point.{Point};
ghost use Rattle.plane.specs.Points.{IsInRange};
ghost use Rattle.grid.specs.declared.grids.Grid.{Grid};
ghost use Rattle.geojson.specs.declared.geometries.Layout.TheVariants.{Rings};
ghost use Rattle.geojson.specs.declared.geometries.Role.TheVariants.{Outer};
ghost use Rattle.geojson.specs.Reading.{position_in, points_in, paths_in};
ghost use Rattle.geojson.specs.Texts.{geometry_text};
ghost use Rattle.geojson.specs.Trees.{geometry_tree, position_tree, positions, ring_items};

/// The text of a shape's geometry is JSON, and is read as its value.
pub fn text_is_read()
    ensures { (grid : Grid) (corners : List Point) → All IsInRange corners
        → document (geometry_text grid corners) ≡ Some (geometry_tree grid corners) }
{}

/// The coordinates of the value of a shape's geometry are read as its points, in order: those of a
/// point, of a line, and of a ring as the outer one of a polygon without holes.
pub fn coordinates_are_read()
    ensures point { (grid : Grid) (p : Point) → IsInRange p
        → position_in grid (position_tree grid p) ≡ Ok p }
    ensures line { (grid : Grid) (ps : List Point) → All IsInRange ps
        → points_in grid (array (positions grid ps)) ≡ Ok ps }
    ensures ring { (grid : Grid) (ps : List Point) → All IsInRange ps
        → paths_in grid Rings (array (ring_items grid ps)) ≡ Ok ((Outer, ps) ∷ []) }
{}
