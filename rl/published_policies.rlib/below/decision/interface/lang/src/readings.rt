use crate :: deciders :: Decider ;
use crate :: folding :: Folded ;
use crate :: rests :: Rests ;
use crate :: rulings :: Ruling ;
use features :: Action ;
use features :: Name ;
use features :: Subject ;
use memory :: NoMemory ;
use plane :: Shape ;
use std :: marker :: Model ;
# [ derive ( Debug , Drop ) ] pub struct Reading < 'a > { decider : & 'a Decider , subject : Subject , action : Action , rests : Option < & 'a Rests > , folded : Option < Folded < 'a >> , }
impl < 'a > Model for Reading < 'a > {
    ghost use Rattle.std.specs.Prelude.{◌≡◌, IfSome};
    ghost use Rattle.decision.specs.Folding.{FoldedData, Stored, stored, restored, restored-stored};
    ghost use Rattle.decision.specs.Known.{StandsBy};
    ghost use Rattle.std.specs.Coded.{code_by, codes};
    ghost Value = { FoldedData };
    ghost coded = { code_by Stored (Prim.hlevel codes) stored restored restored-stored };
    ghost view = { λ r. record {
      decider = r.decider.now;
      subject = r.subject;
      action = r.action;
    } };
    ghost invariant = { λ r. IfSome r.rests (λ kept. (kept.now.decider ≡ r.decider.now)
        × StandsBy kept.now.standpoint r.subject r.action)
        × IfSome r.folded (λ folded. folded
        ≡ record { decider = r.decider.now; subject = r.subject; action = r.action }) };
}
impl < 'a > Reading < 'a > {
pub fn decide ( & mut self , owner : Name , class : Name , shape : Shape ) -> Result < Ruling , NoMemory >
        ensures ruled { }
        ensures same { } ;
}
