use combining :: Question ;
use crate :: folding :: Folded ;
use crate :: plans :: Plan ;
use crate :: rulings :: Ruling ;
use features :: Action ;
use features :: Name ;
use features :: Subject ;
use memory :: NoMemory ;
use memory :: NotStored ;
use policy_documents :: Document ;
use std :: alloc :: Global ;
use std :: marker :: Model ;
# [ derive ( Debug , Drop ) ] pub struct Decider { document : Document < Global > , edition : u64 , plan : Plan < Global > , }
# [ read_as = "4b0a1e3d7330dfa1cbcca27a74bbe7ff7db0f6159481eac37ff622c32f8e3421" ] impl PartialEq for Decider as DeciderPartialEq {
    ghost use Rattle.std.specs.Cmp.{decided, partial_equiv_from_equiv};
    ghost use Rattle.decision.specs.Equality.{same_decider, same_decider_decides};
    ghost eq = { same_decider };
    ghost laws = { partial_equiv_from_equiv (decided same_decider same_decider_decides) };
fn eq ( & self , other : & Self ) -> bool
        ensures tested { }
        ensures exact { } ;
}
# [ read_as = "d019ddf0549fa43b74144df3e1fd2255cb978dd8d2b8dbd0941dc20351350a67" ] impl Eq for Decider as DeciderEq {
    ghost use Rattle.std.specs.Cmp.{decided};
    ghost use Rattle.decision.specs.Equality.{same_decider, same_decider_decides};
    ghost laws = { decided same_decider same_decider_decides };
}
impl Decider {
pub fn decide ( & self , question : & Question ) -> Ruling
        ensures { } ;
pub fn document ( & self ) -> & Document < Global >
        ensures { } ;
pub fn edition ( & self ) -> u64
        ensures { } ;
pub fn fold ( & self , subject : & Subject , action : & Action ) -> Result < Folded < '_ > , NoMemory >
        ensures { } ;
pub fn new ( document : Document < Global > , edition : u64 , ) -> Result < Decider , NotStored < Document < Global >>>
        ensures ok { }
        ensures document_returned { } ;
pub fn rule_name ( & self , number : u32 ) -> Option < Name >
        ensures { } ;
}
impl Model for Decider {
    ghost use Rattle.decision.specs.Deciders.{DeciderData, Stored, stored, restored, restored-stored};
    ghost use Rattle.std.specs.Coded.{code_by, codes};
    ghost Value = { DeciderData };
    ghost coded = { code_by Stored (Prim.hlevel codes) stored restored restored-stored };
    ghost view = { λ d. record { document = d.document; edition = d.edition } };
    ghost use Rattle.combining.specs.declared.questions.Question.{Question};
    ghost use Rattle.decision.specs.Plans.{Decides};
    ghost invariant = { λ d. (q : Question) → Decides _ d.plan d.document.root q };
}
