use features :: Action ;
use features :: Name ;
use std :: alloc :: Allocator ;
use std :: marker :: Model ;
pub type AllOf < A > = Items < Match , A > ;
pub type AnyOf < A > = Items < AllOf < A > , A > ;
# [ derive ( Clone , Copy , Debug , PartialEq , Eq ) ] pub enum Atom { Is ( Term ) , Not ( Term ) , }
pub type Conditions < A > = Items < Atom , A > ;
# [ derive ( Debug , Drop ) ] pub struct Items < T , A : Allocator > { items : Vec < T , A > , }
# [ derive ( Clone , Copy , Debug , PartialEq , Eq ) ] pub enum Match { Role ( Name ) , Office ( Name ) , Class ( Name ) , Owner ( Name ) , Zone ( Name ) , Action ( Action ) , }
pub type Target < A > = Items < AnyOf < A > , A > ;
# [ derive ( Clone , Copy , Debug , PartialEq , Eq ) ] pub enum Term { Match ( Match ) , Own , }
# [ read_as = "2576364029cf9494533d1594e4e90899e4589cd05182e0cd7f5ed1eedf2d3d21" ] impl < T : Eq , A : Allocator > Eq for Items < T , A > as ItemsEq {
    ghost laws = { lists_equiv T.Eq.laws };
}
# [ read_as = "5dd24e1a165ea36877375a8165bb354ba08df3b9ad776c3e048daa0c297605d4" ] impl < T : PartialEq , A : Allocator > PartialEq for Items < T , A > as ItemsPartialEq {
    ghost eq = { pointwise T.eq };
    ghost laws = { lists_per T.laws };
fn eq ( & self , other : & Self ) -> bool
        ensures tested { }
        ensures exact { } ;
}
impl < T , A : Allocator > Items < T , A > {
pub fn as_slice ( & self ) -> & [ T ]
        ensures { } ;
pub fn from_vec ( items : Vec < T , A > ) -> Self
        ensures { } ;
}
impl < T , A : Allocator > Model for Items < T , A > {
    ghost use Rattle.std.specs.Prelude.{List};
    ghost Value = { List T };
    ghost view = { λ i. i.items.items };
}
