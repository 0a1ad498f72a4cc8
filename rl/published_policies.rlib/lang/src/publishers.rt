ghost use Rattle.std.specs.Prelude.{◌≡◌, ◌<◌, ◌+◌, ◌^◌, ◌++◌, ◌∷◌, [], length, IfOk, IfSome, IsSome, None, Some};
ghost use Rattle.std.specs.Arc.{arc_value};
ghost use Rattle.published_policies.specs.Lists.{IsPublished, last_edition};
use crate :: editions :: Edition ;
use crate :: lists :: { EmptyList , ListName } ;
use crate :: views :: View ;
use crate :: writers :: ListWriter ;
use decision :: Decider ;
use std :: alloc :: Global ;
use std :: marker :: Model ;
use std :: mem ;
use std :: sync :: { Arc , Wait } ;
# [ derive ( Debug , Drop , PartialEq , Eq ) ] pub struct NoMemoryForPolicies { seal : ( ) , }
impl NoMemoryForPolicies {
fn seen ( ) -> Self ;
}
pub struct Publisher < L : ListName , R : Wait + Drop > { writer : Option < ListWriter < L >> , rt : R , }
impl < L : ListName , R : Wait + Drop > Model for Publisher < L , R > {
    ghost use Rattle.std.specs.Prelude.{List, [], IsSome};
    ghost use Rattle.std.specs.Option.{unwrap_or};
    ghost use Rattle.std.specs.Coded.{code_by, codes};
    ghost use Rattle.decision.specs.Deciders.{DeciderData};
    ghost use Rattle.published_policies.specs.Coding.{StoredList, stored_list, restored_list, restored_list-stored_list};
    ghost Value = { List DeciderData };
    ghost coded = { code_by StoredList (Prim.hlevel codes) stored_list restored_list
        restored_list-stored_list };
    ghost view = { λ p. unwrap_or p.writer [] };
    ghost invariant = { λ p. IsSome p.writer };
}
fn taken < L : ListName > ( place : & mut Option < ListWriter < L >> ) -> ListWriter < L >
    requires { IsSome place.old }
    ensures taken { place.old ≡ Some result }
    ensures empty { place.new ≡ None } ;
fn put_back < L : ListName > ( place : & mut Option < ListWriter < L >> , writer : ListWriter < L > )
    requires { place.old ≡ None }
    ensures { place.new ≡ Some writer } ;
impl < L : ListName , R : Wait + Drop > Publisher < L , R > {
pub fn open ( rt : R , heap : Global , list : EmptyList , first : Arc < Decider > , views : usize , ) -> Result < Publisher < L , R > , NoMemoryForPolicies >
        requires list { list ≡ L.book }
        requires first { 0 < (arc_value first).edition }
        requires views { (0 < views) × (views < 2 ^ 32) }
        ensures { IfOk result (λ publisher. publisher ≡ arc_value first ∷ []) } ;
pub fn publish ( & mut self , decider : Arc < Decider > ) -> Edition < L >
        requires { (arc_value decider).edition ≡ last_edition self.old + 1 }
        ensures list { self.new ≡ self.old ++ arc_value decider ∷ [] }
        ensures edition { result ≡ self.old ++ arc_value decider ∷ [] } ;
pub fn edition ( & self ) -> u64
        ensures last { result ≡ last_edition self.now }
        ensures published { IsPublished self.now } ;
pub fn view ( & mut self ) -> Option < View < L >>
        ensures list { IfSome result (λ view. view ≡ self.old) }
        ensures same { self.new ≡ self.old } ;
}
impl < L : ListName , R : Wait + Drop > Drop for Publisher < L , R > {
fn drop ( self ) ;
}
