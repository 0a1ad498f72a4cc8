use crate :: algorithms :: Effect ;
use crate :: matches :: Conditions ;
use crate :: matches :: Target ;
use features :: Name ;
use memory :: NoMemory ;
use std :: alloc :: Allocator ;
use std :: marker :: Model ;
# [ derive ( Debug , Drop ) ] pub struct Rule < A : Allocator > { pub name : Name , pub effect : Effect , pub target : Target < A > , pub when : Conditions < A > , }
# [ read_as = "aa388310d0c1adb25c53d8442ae68ed4e02073ab03bfeabc3b236cd25360aef6" ] impl < A : Allocator > Eq for Rule < A > as RuleEq {
    ghost use Rattle.std.specs.Cmp.{decided};
    ghost use Rattle.policy_documents.specs.Equality.{same_rule, same_rule_decides};
    ghost laws = { decided same_rule same_rule_decides };
}
# [ read_as = "fab8390f820da484ef285366802b3c385c1bb9012e5b8215edb363600101dc62" ] impl < A : Allocator > PartialEq for Rule < A > as RulePartialEq {
    ghost use Rattle.std.specs.Cmp.{decided, partial_equiv_from_equiv};
    ghost use Rattle.policy_documents.specs.Equality.{same_rule, same_rule_decides};
    ghost eq = { same_rule };
    ghost laws = { partial_equiv_from_equiv (decided same_rule same_rule_decides) };
fn eq ( & self , other : & Self ) -> bool
        ensures tested { }
        ensures exact { } ;
}
impl < A : Allocator > Model for Rule < A > {
    ghost use Rattle.policy_documents.specs.Documents.{RuleData};
    ghost Value = { RuleData };
    ghost view = { λ r. record {
      name = r.name;
      effect = r.effect;
      target = r.target;
      when = r.when;
    } };
}
impl < A : Allocator > Rule < A > {
pub fn copy < B : Allocator + Copy > ( & self , alloc : B ) -> Result < Rule < B > , NoMemory >
        ensures { } ;
}
