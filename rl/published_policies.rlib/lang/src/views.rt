ghost use Rattle.std.specs.Prelude.{◌≡◌, ◌⊎◌, ◌<◌, length, IfSome, IfNone, Option};
ghost use mathlib.Core.List.{IsPrefix};
ghost use Rattle.left_right.specs.Sides.{view as known_by};
ghost use Rattle.published_policies.specs.Copies.{KnowsOf};
ghost use Rattle.published_policies.specs.Explaining.{Explains};
ghost use Rattle.published_policies.specs.Lists.{IsPublished, SeenData, last_edition};
use crate :: copies :: { CopyRule , Learn } ;
use crate :: editions :: Edition ;
use crate :: explaining :: Explained ;
use crate :: lists :: ListName ;
use crate :: policies :: Policy ;
use crate :: ready :: { ReadyPolicy , made_ready } ;
use crate :: seen_lists :: SeenList ;
use combining :: Question ;
use left_right :: reader :: Reader ;
use std :: marker :: { Model , PhantomData } ;
pub ( crate ) type CopyReader = Reader < Policy , Option < SeenList > , CopyRule > ;
# [ derive ( Drop ) ] pub struct View < L : ListName > { reader : Option < CopyReader > , list : SeenList , ready : Option < ReadyPolicy > , name : PhantomData < L > , }
impl < L : ListName > Model for View < L > {
    ghost use Rattle.std.specs.Prelude.{◌≡◌, ◌<◌, List, length, Option, IsSome, IfSome};
    ghost use Rattle.std.specs.Coded.{code_by, codes};
    ghost use Rattle.left_right.specs.Sides.{view as known_by};
    ghost use Rattle.decision.specs.Deciders.{DeciderData};
    ghost use Rattle.published_policies.specs.Coding.{StoredList, stored_list, restored_list, restored_list-stored_list};
    ghost use Rattle.published_policies.specs.Copies.{KnowsOf};
    ghost use Rattle.published_policies.specs.Lists.{SeenData};
    ghost Value = { List DeciderData };
    ghost coded = { code_by StoredList (Prim.hlevel codes) stored_list restored_list
        restored_list-stored_list };
    ghost view = { λ v. v.list.list };
    ghost invariant = { λ v. IsSome v.reader
        × IfSome v.reader (λ reader. KnowsOf L.book (known_by {V = Option SeenData} reader.place))
        × (v.list.book ≡ L.book)
        × IfSome v.ready (λ ready. ready.book ≡ L.book)
        × (0 < length v.list.list) };
}
fn explained_by ( ready : & Option < ReadyPolicy > , policy : & Policy , list : & SeenList , question : & Question , ) -> Explained
    requires same { list.now ≡ policy.now }
    requires book { IfSome ready.now (λ ready. ready.book ≡ list.now.book) }
    ensures { Explains list.now.list question.now result } ;
impl < L : ListName > View < L > {
pub ( crate ) fn over ( reader : CopyReader , list : SeenList ) -> View < L >
        requires knows { KnowsOf L.book (known_by {V = Option SeenData} reader.place) }
        requires book { list.book ≡ L.book }
        requires not_empty { 0 < length list.list }
        ensures { result ≡ list.list } ;
pub fn edition ( & self ) -> u64
        ensures last { result ≡ last_edition self.now }
        ensures published { IsPublished self.now } ;
pub fn explain ( & mut self , question : & Question ) -> Option < Explained >
        ensures later { IfSome result (λ _. IsPrefix self.old self.new) }
        ensures ruling { IfSome result (Explains self.new question.now) }
        ensures edition { IfSome result (λ explained. explained.edition ≡ last_edition self.new) }
        ensures published { IfSome result (λ _. IsPublished self.new) }
        ensures none { IfNone result (self.new ≡ self.old) } ;
pub fn prepare ( & mut self , question : & Question )
        ensures { self.new ≡ self.old } ;
pub fn catch_up ( & mut self , edition : Edition < L > )
        ensures before { IsPrefix self.old self.new }
        ensures edition { IsPrefix edition self.new }
        ensures longer { (self.new ≡ self.old) ⊎ (self.new ≡ edition) } ;
}
