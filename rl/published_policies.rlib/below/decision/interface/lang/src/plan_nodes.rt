use policy_documents :: Algorithm ;
use policy_documents :: Conditions ;
use policy_documents :: Effect ;
use policy_documents :: Target ;
use std :: alloc :: Allocator ;
# [ derive ( Debug , Drop ) ] pub ( crate ) enum PlanNode < A : Allocator > { Rule { number : u32 , effect : Effect , target : Target < A > , when : Conditions < A > , } , Node { combine : Algorithm , target : Target < A > , below : usize , } , }
