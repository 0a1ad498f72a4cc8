use crate :: deciders :: Decider ;
use crate :: known :: Standpoint ;
use crate :: plans :: Plan ;
use features :: Name ;
use std :: alloc :: Global ;
use std :: marker :: Model ;
use std :: sync :: Arc ;
# [ derive ( Clone , Copy , Debug ) ] pub ( crate ) struct Kind { ends : u64 , owner : Name , class : Name , }
# [ derive ( Debug , Drop ) ] struct Rest { kind : Kind , plan : Plan < Global > , }
# [ derive ( Debug , Drop ) ] pub ( crate ) struct Rests { decider : Arc < Decider > , standpoint : Standpoint , rests : Vec < Rest , Global > , }
impl Model for Rests {
    ghost use Rattle.std.specs.Prelude.{◌≡◌, All};
    ghost use Rattle.std.specs.Arc.{arc_value};
    ghost use Rattle.decision.specs.Rests.{RestsData, StoredRests, stored_rests, restored_rests, restored_rests-stored_rests, IsRest};
    ghost use Rattle.std.specs.Coded.{code_by, codes};
    ghost Value = { RestsData };
    ghost coded = { code_by StoredRests (Prim.hlevel codes) stored_rests restored_rests
        restored_rests-stored_rests };
    ghost view = { λ r. record { decider = arc_value r.decider; standpoint = r.standpoint } };
    ghost invariant = { λ r. All (λ rest. IsRest (arc_value r.decider).document r.standpoint
        rest.kind.owner rest.kind.class rest.plan) r.rests.items };
}
