ghost use Rattle.std.specs.Prelude.{◌≡◌, ◌<◌, ◌+◌, ◌^◌, ◌++◌, ◌∷◌, [], length, drop, IfOk, IfSome, Option, Some};
ghost use Rattle.std.specs.Arc.{arc_value};
ghost use mathlib.Core.List.{IsPrefix};
ghost use Rattle.left_right.specs.Sides.{view as known_by};
ghost use Rattle.published_policies.specs.Growing.{length_word};
ghost use Rattle.published_policies.specs.Lists.{IsNextEdition, IsPublished, SeenData, last_edition, seen_in};
use crate :: copies :: { CopyRule , HandOn , Learn } ;
use crate :: editions :: Edition ;
use crate :: growing :: ListRule ;
use crate :: lists :: { EmptyList , ListName } ;
use crate :: policies :: Policy ;
use crate :: seen_lists :: SeenList ;
use crate :: views :: View ;
use decision :: Decider ;
use left_right :: writer :: Writer ;
use logbook :: Word ;
use std :: alloc :: { AllocError , Global } ;
use std :: marker :: { Model , PhantomData } ;
use std :: sync :: { Arc , Wait } ;
type CopyWriter = Writer < Policy , Policy , Option < SeenList > , CopyRule > ;
pub ( crate ) struct ListWriter < L : ListName > { copies : CopyWriter , word : Word < Decider , u64 , ListRule > , name : PhantomData < L > , }
impl < L : ListName > Model for ListWriter < L > {
    ghost use Rattle.std.specs.Prelude.{◌≡◌, ◌<◌, List, [], length, drop, Option, Some};
    ghost use Rattle.std.specs.Coded.{code_by, codes};
    ghost use Rattle.left_right.specs.Sides.{view as known_by};
    ghost use Rattle.decision.specs.Deciders.{DeciderData};
    ghost use Rattle.published_policies.specs.Coding.{StoredList, stored_list, restored_list, restored_list-stored_list};
    ghost use Rattle.published_policies.specs.Growing.{length_word};
    ghost use Rattle.published_policies.specs.Lists.{SeenData};
    ghost Value = { List DeciderData };
    ghost coded = { code_by StoredList (Prim.hlevel codes) stored_list restored_list
        restored_list-stored_list };
    ghost view = { λ w. w.copies.desk.shown.value.list };
    ghost invariant = { λ w. (w.copies.desk.shown.value.book ≡ L.book)
        × (w.word ≡ length_word L.book)
        × (drop w.copies.behind w.copies.log.items ≡ [])
        × (known_by {V = Option SeenData} w.copies.desk.place ≡ Some w.copies.desk.shown.value) };
}
fn grown < R : Wait > ( rt : & R , list : & SeenList , word : & Word < Decider , u64 , ListRule > , decider : & Arc < Decider > , ) -> SeenList
    requires word { word.now ≡ length_word list.now.book }
    requires next { IsNextEdition list.now.list (arc_value decider.now).edition }
    ensures { result ≡ seen_in list.now.book (list.now.list ++ arc_value decider.now ∷ []) } ;
fn appended < R : Wait > ( rt : & R , copies : CopyWriter , policy : Policy ) -> CopyWriter
    requires { drop copies.behind copies.log.items ≡ [] }
    ensures desk { result.desk ≡ copies.desk }
    ensures pending { drop result.behind result.log.items ≡ policy ∷ [] } ;
fn shown < R : Wait > ( rt : & R , copies : CopyWriter , list : & SeenList ) -> CopyWriter
    requires pending { drop copies.behind copies.log.items ≡ list.now ∷ [] }
    requires book { list.now.book ≡ copies.desk.shown.value.book }
    requires longer { IsPrefix copies.desk.shown.value.list list.now.list }
    ensures shown { result.desk.shown.value ≡ list.now }
    ensures pending { drop result.behind result.log.items ≡ [] }
    ensures known { known_by {V = Option SeenData} result.desk.place ≡ Some list.now } ;
impl < L : ListName > ListWriter < L > {
pub fn open < R : Wait > ( rt : & R , heap : Global , list : EmptyList , first : Arc < Decider > , views : usize , ) -> Result < ListWriter < L > , AllocError >
        requires list { list ≡ L.book }
        requires first { 0 < (arc_value first).edition }
        requires views { (0 < views) × (views < 2 ^ 32) }
        ensures { IfOk result (λ writer. writer ≡ arc_value first ∷ []) } ;
pub fn publish < R : Wait > ( self , rt : & R , decider : Arc < Decider > ) -> ( ListWriter < L > , Edition < L > )
        requires { (arc_value decider).edition ≡ last_edition self + 1 }
        ensures list { result.0 ≡ self ++ arc_value decider ∷ [] }
        ensures edition { result.1 ≡ self ++ arc_value decider ∷ [] } ;
pub fn edition ( & self ) -> u64
        ensures last { result ≡ last_edition self.now }
        ensures published { IsPublished self.now } ;
pub fn view ( & mut self ) -> Option < View < L >>
        ensures list { IfSome result (λ view. view ≡ self.old) }
        ensures same { self.new ≡ self.old } ;
pub fn end < R : Wait > ( self , rt : & R ) ;
}
