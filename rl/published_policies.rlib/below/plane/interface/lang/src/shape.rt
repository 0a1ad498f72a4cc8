use crate :: fault :: ShapeFault ;
use crate :: point :: Point ;
use std :: marker :: Model ;
# [ derive ( Clone , Copy , Debug ) ] pub struct Shape { count : u8 , places : [ Point ; 16 ] , }
# [ read_as = "2ca265807021dd9faa7023905330a982e406e18a25a8789854e63bea9196522d" ] impl PartialEq for Shape as ShapePartialEq {
    ghost use Rattle.std.specs.Cmp.{decided, partial_equiv_from_equiv};
    ghost use Rattle.plane.specs.Equality.{same_shape, same_shape_decides};
    ghost eq = { same_shape };
    ghost laws = { partial_equiv_from_equiv (decided same_shape same_shape_decides) };
fn eq ( & self , other : & Shape ) -> bool
        ensures tested { }
        ensures exact { } ;
}
# [ read_as = "d1e964322a797b0b8f48e6e931b95645972d9d0ce4941bd3e25a41c23492b824" ] impl Eq for Shape as ShapeEq {
    ghost use Rattle.std.specs.Cmp.{decided};
    ghost use Rattle.plane.specs.Equality.{same_shape, same_shape_decides};
    ghost laws = { decided same_shape same_shape_decides };
}
impl Model for Shape {
    ghost use Rattle.std.specs.Prelude.{List, take};
    ghost use Rattle.plane.specs.declared.point.Point.{Point};
    ghost Value = { List Point };
    ghost use Rattle.plane.specs.Places.{IsKept, places_of, places_of-take};
    ghost view = { λ s. take s.count s.places };
    ghost invariant = { λ s. IsKept s.count s.places };
    ghost inverse = { λ corners. places_of corners };
    ghost inverse_ok = { λ s kept. places_of-take s kept };
}
impl Shape {
pub fn of_corners ( corners : & [ Point ] ) -> Shape
        requires { }
        ensures { } ;
pub fn point ( p : Point ) -> Result < Shape , ShapeFault >
        ensures { } ;
pub fn polygon ( listed : & [ Point ] ) -> Result < Shape , ShapeFault >
        ensures { } ;
pub fn segment ( p : Point , q : Point ) -> Result < Shape , ShapeFault >
        ensures { } ;
}
