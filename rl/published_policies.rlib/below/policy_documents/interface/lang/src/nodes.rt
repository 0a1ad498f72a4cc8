use crate :: algorithms :: Algorithm ;
use crate :: matches :: Target ;
use crate :: rules :: Rule ;
use features :: Name ;
use std :: alloc :: Allocator ;
# [ derive ( Debug , Drop ) ] pub enum Node < A : Allocator > { Set { name : Name , combine : Algorithm , target : Target < A > , of : Vec < Node < A > , A > , } , Policy { name : Name , combine : Algorithm , target : Target < A > , rules : Vec < Rule < A > , A > , } , }
# [ read_as = "1c32574dfad4f95696cea1aa57afb2352261c3b81a58256f2f1ccba464e0b0a7" ] impl < A : Allocator > PartialEq for Node < A > as NodePartialEq {
    ghost use Rattle.std.specs.Cmp.{decided, on_equiv, partial_equiv_from_equiv};
    ghost use Rattle.policy_documents.specs.Equality.{same_node, same_node_decides};
    ghost use Rattle.policy_documents.specs.Views.{node_view};
    ghost eq = { λ a b. same_node (node_view a) (node_view b) };
    ghost laws = { partial_equiv_from_equiv
        (on_equiv node_view (decided same_node same_node_decides)) };
fn eq ( & self , other : & Self ) -> bool
        ensures tested { }
        ensures exact { } ;
}
# [ read_as = "307f029a82d617eca3bb90873ced9cddb001725e50f345cb77c47ba8791863f7" ] impl < A : Allocator > Eq for Node < A > as NodeEq {
    ghost use Rattle.std.specs.Cmp.{decided, on_equiv};
    ghost use Rattle.policy_documents.specs.Equality.{same_node, same_node_decides};
    ghost use Rattle.policy_documents.specs.Views.{node_view};
    ghost laws = { on_equiv node_view (decided same_node same_node_decides) };
}
