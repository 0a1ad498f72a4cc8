# [ derive ( Clone , Copy , Debug , Default , PartialEq , Eq ) ] pub struct Point { pub x : i32 , pub y : i32 , }
impl Point {
pub fn is_before ( self , other : Point ) -> bool
        ensures { } ;
pub fn is_in_range ( self ) -> bool
        ensures test { }
        ensures range { } ;
}
