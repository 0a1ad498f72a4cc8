//! Laws of the definitions. A function here has an empty body: it is its contract.

ghost use Rattle.std.specs.Prelude.{◌≡◌, Ok, List};
ghost use Rattle.plane.specs.declared.point.Point.{Point};
ghost use Rattle.plane.specs.Canonical.{point_of, segment_of, polygon_of, IsCanonical};

/// The corners of listed points, if they have a shape, are canonical: 1 to 16 in range, the least
/// one first, and listing them gives that very shape.
pub fn shapes_are_canonical()
    ensures point { (p : Point) (corners : List Point) → point_of p ≡ Ok corners
        → IsCanonical corners }
    ensures segment { (p q : Point) (corners : List Point) → segment_of p q ≡ Ok corners
        → IsCanonical corners }
    ensures polygon { (listed corners : List Point) → polygon_of listed ≡ Ok corners
        → IsCanonical corners }
{}
