use crate :: seen_lists :: SeenList ;
use decision :: InForce ;
use std :: marker :: Model ;
# [ derive ( Drop ) ] pub ( crate ) struct ReadyPolicy { in_force : InForce , list : SeenList , asked : [ u64 ; 64 ] , count : usize , }
impl Model for ReadyPolicy {
    ghost use Rattle.std.specs.Prelude.{◌≡◌, None, Some};
    ghost use Rattle.std.specs.List.{last_or};
    ghost use Rattle.std.specs.Coded.{code_by, codes};
    ghost use Rattle.published_policies.specs.Lists.{SeenData};
    ghost use Rattle.published_policies.specs.Coding.{StoredSeen, stored_seen, restored_seen, restored_seen-stored_seen};
    ghost Value = { SeenData };
    ghost coded = { code_by StoredSeen (Prim.hlevel codes) stored_seen restored_seen
        restored_seen-stored_seen };
    ghost view = { λ r. r.list };
    ghost invariant = { λ r. last_or None r.list.list ≡ Some r.in_force };
}
