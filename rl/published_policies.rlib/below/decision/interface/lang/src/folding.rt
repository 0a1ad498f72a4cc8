use crate :: deciders :: Decider ;
use crate :: plans :: Plan ;
use crate :: rulings :: Ruling ;
use features :: Action ;
use features :: Name ;
use features :: Subject ;
use plane :: Shape ;
use std :: alloc :: Global ;
use std :: marker :: Model ;
# [ derive ( Debug , Drop ) ] pub struct Folded < 'a > { decider : & 'a Decider , subject : Subject , action : Action , plan : Plan < Global > , }
impl < 'a > Folded < 'a > {
pub fn decide ( & self , owner : Name , class : Name , shape : Shape ) -> Ruling
        ensures { } ;
}
impl < 'a > Model for Folded < 'a > {
    ghost use Rattle.std.specs.Prelude.{◌≡◌};
    ghost use Rattle.combining.specs.declared.questions.Question.{Question};
    ghost use Rattle.decision.specs.Folding.{FoldedData, Stored, stored, restored, restored-stored};
    ghost use Rattle.decision.specs.Plans.{Decides};
    ghost use Rattle.std.specs.Coded.{code_by, codes};
    ghost Value = { FoldedData };
    ghost coded = { code_by Stored (Prim.hlevel codes) stored restored restored-stored };
    ghost view = { λ f. record {
      decider = f.decider.now;
      subject = f.subject;
      action = f.action;
    } };
    ghost invariant = { λ f. (q : Question) → q.subject ≡ f.subject → q.action ≡ f.action
        → Decides _ f.plan f.decider.now.document.root q };
}
