use crate :: editions :: Edition ;
use crate :: lists :: EmptyList ;
use crate :: lists :: ListName ;
use crate :: views :: View ;
use crate :: writers :: ListWriter ;
use decision :: Decider ;
use std :: alloc :: Global ;
use std :: marker :: Model ;
use std :: sync :: Arc ;
use std :: sync :: Wait ;
# [ derive ( Debug , Drop , PartialEq , Eq ) ] pub struct NoMemoryForPolicies { seal : ( ) , }
pub struct Publisher < L : ListName , R : Wait + Drop > { writer : Option < ListWriter < L >> , rt : R , }
impl < L : ListName , R : Wait + Drop > Model for Publisher < L , R > {
    ghost use Rattle.std.specs.Prelude.{List, [], IsSome};
    ghost use Rattle.std.specs.Option.{unwrap_or};
    ghost use Rattle.std.specs.Coded.{code_by, codes};
    ghost use Rattle.decision.specs.Deciders.{DeciderData};
    ghost use Rattle.published_policies.specs.Coding.{StoredList, stored_list, restored_list, restored_list-stored_list};
    ghost Value = { List DeciderData };
    ghost coded = { code_by StoredList (Prim.hlevel codes) stored_list restored_list
        restored_list-stored_list };
    ghost view = { λ p. unwrap_or p.writer [] };
    ghost invariant = { λ p. IsSome p.writer };
}
impl < L : ListName , R : Wait + Drop > Publisher < L , R > {
pub fn open ( rt : R , heap : Global , list : EmptyList , first : Arc < Decider > , views : usize , ) -> Result < Publisher < L , R > , NoMemoryForPolicies >
        requires list { }
        requires first { }
        requires views { }
        ensures { } ;
pub fn publish ( & mut self , decider : Arc < Decider > ) -> Edition < L >
        requires { }
        ensures list { }
        ensures edition { } ;
pub fn edition ( & self ) -> u64
        ensures last { }
        ensures published { } ;
pub fn view ( & mut self ) -> Option < View < L >>
        ensures list { }
        ensures same { } ;
}
impl < L : ListName , R : Wait + Drop > Drop for Publisher < L , R > {
fn drop ( self ) ;
}
