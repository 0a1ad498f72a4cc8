use crate :: seen_lists :: SeenList ;
use decision :: Decider ;
use left_right :: Absorb ;
use std :: alloc :: AllocError ;
use std :: marker :: Model ;
use std :: sync :: Arc ;
# [ derive ( Drop ) ] pub struct Policy { decider : Arc < Decider > , list : SeenList , }
impl Model for Policy {
    ghost use Rattle.std.specs.Prelude.{◌≡◌, None, Some};
    ghost use Rattle.std.specs.Arc.{arc_value};
    ghost use Rattle.std.specs.List.{last_or};
    ghost use Rattle.std.specs.Coded.{code_by, codes};
    ghost use Rattle.published_policies.specs.Lists.{SeenData};
    ghost use Rattle.published_policies.specs.Coding.{StoredSeen, stored_seen, restored_seen, restored_seen-stored_seen};
    ghost Value = { SeenData };
    ghost coded = { code_by StoredSeen (Prim.hlevel codes) stored_seen restored_seen
        restored_seen-stored_seen };
    ghost view = { λ p. p.list };
    ghost invariant = { λ p. last_or None p.list.list ≡ Some (arc_value p.decider) };
}
# [ read_as = "19e0bb217a5ecab38c73c9b194ca9cbcbace68d815522cc3d43faccc64db6021" ] impl Absorb < Policy > for Policy as PolicyAbsorb {
type State = SeenList ;
    ghost state = { λ policy. policy };
    ghost applied = { λ policy next. next };
fn absorb_first ( & mut self , operation : & Policy , _other : & Policy ) -> Result < ( ) , AllocError > ;
}
