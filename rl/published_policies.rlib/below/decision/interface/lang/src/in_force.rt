use combining :: Question ;
use crate :: deciders :: Decider ;
use crate :: readings :: Reading ;
use crate :: rests :: Kind ;
use crate :: rests :: Rests ;
use crate :: rulings :: Ruling ;
use features :: Action ;
use features :: Name ;
use features :: Subject ;
use std :: alloc :: Global ;
use std :: marker :: Model ;
use std :: sync :: Arc ;
# [ derive ( Debug , Drop ) ] pub struct InForce { decider : Arc < Decider > , kinds : Vec < Kind , Global > , standing : Vec < Rests , Global > , room : u64 , }
impl InForce {
pub fn decide ( & self , question : & Question ) -> Ruling
        ensures { } ;
pub fn new ( decider : Arc < Decider > ) -> InForce
        ensures { } ;
pub fn prepare ( & mut self , subject : & Subject , action : & Action , most : usize )
        ensures { } ;
pub fn reading ( & self , subject : & Subject , action : & Action ) -> Reading < '_ >
        ensures { } ;
pub fn replace ( & mut self , decider : Arc < Decider > )
        ensures { } ;
pub fn shared ( & self ) -> & Arc < Decider >
        ensures { } ;
pub fn tell ( & mut self , owner : Name , class : Name )
        ensures { } ;
}
impl Model for InForce {
    ghost use Rattle.std.specs.Arc.{arc_value};
    ghost use Rattle.decision.specs.Deciders.{DeciderData, Stored, stored, restored, restored-stored};
    ghost use Rattle.decision.specs.InForce.{AreOf};
    ghost use Rattle.std.specs.Coded.{code_by, codes};
    ghost Value = { DeciderData };
    ghost coded = { code_by Stored (Prim.hlevel codes) stored restored restored-stored };
    ghost view = { λ i. arc_value i.decider };
    ghost invariant = { λ i. AreOf (arc_value i.decider) i.standing.items };
}
