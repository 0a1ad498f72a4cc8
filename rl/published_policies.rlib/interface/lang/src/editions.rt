use crate :: lists :: ListName ;
use crate :: seen_lists :: SeenList ;
use std :: marker :: Model ;
use std :: marker :: PhantomData ;
# [ derive ( Drop ) ] pub struct Edition < L : ListName > { pub ( crate ) list : SeenList , name : PhantomData < L > , }
impl < L : ListName > Model for Edition < L > {
    ghost use Rattle.std.specs.Prelude.{◌≡◌, ◌<◌, List, length};
    ghost use Rattle.std.specs.Coded.{code_by, codes};
    ghost use Rattle.decision.specs.Deciders.{DeciderData};
    ghost use Rattle.published_policies.specs.Coding.{StoredList, stored_list, restored_list, restored_list-stored_list};
    ghost Value = { List DeciderData };
    ghost coded = { code_by StoredList (Prim.hlevel codes) stored_list restored_list
        restored_list-stored_list };
    ghost view = { λ e. e.list.list };
    ghost invariant = { λ e. (e.list.book ≡ L.book) × (0 < length e.list.list) };
}
impl < L : ListName > Edition < L > {
pub fn number ( & self ) -> u64
        ensures last { }
        ensures published { } ;
}
