//! Laws of the definitions. A function here has an empty body: it is its contract.

ghost use Rattle.std.specs.Prelude.{◌≡◌, ◌↔◌, ◌≤ℤ◌, ℕ, ℤ, Ok, List, Some};
ghost use Rattle.plane.specs.Coordinates.{IsCoordinate};
ghost use Rattle.grid.specs.declared.bounds.Side.TheVariants.{High, Low};
ghost use Rattle.grid.specs.declared.grids.Axis.{Axis};
ghost use Rattle.grid.specs.declared.grids.Between.TheVariants.{Nearest, Refuse};
ghost use Rattle.grid.specs.declared.grids.Grid.{Grid};
ghost use Rattle.grid.specs.Bounds.{bound_of};
ghost use Rattle.grid.specs.Exact.{IsAtLeast, IsAtMost, IsNearest, Means};
ghost use Rattle.grid.specs.Grids.{coordinate_of};
ghost use Rattle.grid.specs.Numbers.{Number, number_of};
ghost use Rattle.grid.specs.Printing.{coordinate_text};

/// The text of a coordinate is read as that coordinate, whatever the grid does with what lies
/// between two steps.
pub fn text_is_read()
    ensures { (grid : Grid) (axis : Axis) (n : ℤ) → IsCoordinate n
        → coordinate_of grid axis (coordinate_text grid axis n) ≡ Ok n }
{}

/// Where a grid refuses what lies between two steps, a text that is read as a coordinate spells
/// exactly the number that the coordinate means.
pub fn number_is_exact()
    ensures { (grid : Grid) (axis : Axis) (text : List ℕ) (n : ℤ) → grid.between ≡ Refuse
        → coordinate_of grid axis text ≡ Ok n → Means grid axis text n }
{}

/// The low bound of a text is the last step at or below the number that it spells, and its high bound
/// the first at or above it: a coordinate is at or below the one exactly where it is at or below the
/// number, and at or above the other exactly where it is at or above the number.
pub fn bound_is_closest()
    ensures low { (grid : Grid) (axis : Axis) (text : List ℕ) (number : Number) (bound n : ℤ)
        → number_of text ≡ Some number → bound_of grid axis Low text ≡ Ok bound → IsCoordinate n
        → (n ≤ℤ bound) ↔ IsAtMost grid axis number n }
    ensures high { (grid : Grid) (axis : Axis) (text : List ℕ) (number : Number) (bound n : ℤ)
        → number_of text ≡ Some number → bound_of grid axis High text ≡ Ok bound → IsCoordinate n
        → (bound ≤ℤ n) ↔ IsAtLeast grid axis number n }
{}

/// Where a grid takes the nearest step for what lies between two, a text is read as the coordinate
/// nearest to the number that it spells; of two equally near ones, as the one farther from 0.
pub fn number_is_nearest()
    ensures { (grid : Grid) (axis : Axis) (text : List ℕ) (number : Number) (n : ℤ)
        → grid.between ≡ Nearest → number_of text ≡ Some number
        → coordinate_of grid axis text ≡ Ok n → IsNearest grid axis number n }
{}
