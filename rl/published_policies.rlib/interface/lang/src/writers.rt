use crate :: copies :: CopyRule ;
use crate :: growing :: ListRule ;
use crate :: lists :: ListName ;
use crate :: policies :: Policy ;
use crate :: seen_lists :: SeenList ;
use decision :: Decider ;
use left_right :: writer :: Writer ;
use logbook :: Word ;
use std :: marker :: Model ;
use std :: marker :: PhantomData ;
type CopyWriter = Writer < Policy , Policy , Option < SeenList > , CopyRule > ;
pub ( crate ) struct ListWriter < L : ListName > { copies : CopyWriter , word : Word < Decider , u64 , ListRule > , name : PhantomData < L > , }
impl < L : ListName > Model for ListWriter < L > {
    ghost use Rattle.std.specs.Prelude.{◌≡◌, ◌<◌, List, [], length, drop, Option, Some};
    ghost use Rattle.std.specs.Coded.{code_by, codes};
    ghost use Rattle.left_right.specs.Sides.{view as known_by};
    ghost use Rattle.decision.specs.Deciders.{DeciderData};
    ghost use Rattle.published_policies.specs.Coding.{StoredList, stored_list, restored_list, restored_list-stored_list};
    ghost use Rattle.published_policies.specs.Growing.{length_word};
    ghost use Rattle.published_policies.specs.Lists.{SeenData};
    ghost Value = { List DeciderData };
    ghost coded = { code_by StoredList (Prim.hlevel codes) stored_list restored_list
        restored_list-stored_list };
    ghost view = { λ w. w.copies.desk.shown.value.list };
    ghost invariant = { λ w. (w.copies.desk.shown.value.book ≡ L.book)
        × (w.word ≡ length_word L.book)
        × (drop w.copies.behind w.copies.log.items ≡ [])
        × (known_by {V = Option SeenData} w.copies.desk.place ≡ Some w.copies.desk.shown.value) };
}
