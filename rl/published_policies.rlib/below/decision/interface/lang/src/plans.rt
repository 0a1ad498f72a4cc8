use crate :: plan_nodes :: PlanNode ;
use std :: alloc :: Allocator ;
use std :: marker :: Model ;
# [ derive ( Debug , Drop ) ] pub ( crate ) struct Plan < A : Allocator > { steps : Vec < PlanNode < A > , A > , }
impl < A : Allocator > Model for Plan < A > {
    ghost use Rattle.std.specs.Prelude.{List};
    ghost use Rattle.decision.specs.declared.plan_nodes.PlanNode.{PlanNode};
    ghost Value = { List (PlanNode A) };
    ghost view = { λ p. p.steps.items };
}
