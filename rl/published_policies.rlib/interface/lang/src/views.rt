use crate :: copies :: CopyRule ;
use crate :: editions :: Edition ;
use crate :: explaining :: Explained ;
use crate :: lists :: ListName ;
use crate :: policies :: Policy ;
use crate :: ready :: ReadyPolicy ;
use crate :: seen_lists :: SeenList ;
use combining :: Question ;
use left_right :: reader :: Reader ;
use std :: marker :: Model ;
use std :: marker :: PhantomData ;
pub ( crate ) type CopyReader = Reader < Policy , Option < SeenList > , CopyRule > ;
# [ derive ( Drop ) ] pub struct View < L : ListName > { reader : Option < CopyReader > , list : SeenList , ready : Option < ReadyPolicy > , name : PhantomData < L > , }
impl < L : ListName > Model for View < L > {
    ghost use Rattle.std.specs.Prelude.{◌≡◌, ◌<◌, List, length, Option, IsSome, IfSome};
    ghost use Rattle.std.specs.Coded.{code_by, codes};
    ghost use Rattle.left_right.specs.Sides.{view as known_by};
    ghost use Rattle.decision.specs.Deciders.{DeciderData};
    ghost use Rattle.published_policies.specs.Coding.{StoredList, stored_list, restored_list, restored_list-stored_list};
    ghost use Rattle.published_policies.specs.Copies.{KnowsOf};
    ghost use Rattle.published_policies.specs.Lists.{SeenData};
    ghost Value = { List DeciderData };
    ghost coded = { code_by StoredList (Prim.hlevel codes) stored_list restored_list
        restored_list-stored_list };
    ghost view = { λ v. v.list.list };
    ghost invariant = { λ v. IsSome v.reader
        × IfSome v.reader (λ reader. KnowsOf L.book (known_by {V = Option SeenData} reader.place))
        × (v.list.book ≡ L.book)
        × IfSome v.ready (λ ready. ready.book ≡ L.book)
        × (0 < length v.list.list) };
}
impl < L : ListName > View < L > {
pub fn edition ( & self ) -> u64
        ensures last { }
        ensures published { } ;
pub fn explain ( & mut self , question : & Question ) -> Option < Explained >
        ensures later { }
        ensures ruling { }
        ensures edition { }
        ensures published { }
        ensures none { } ;
pub fn prepare ( & mut self , question : & Question )
        ensures { } ;
pub fn catch_up ( & mut self , edition : Edition < L > )
        ensures before { }
        ensures edition { }
        ensures longer { } ;
}
