ghost use Rattle.std.specs.Prelude.{◌≡◌, IfSome, IsTrue, None, Some};
ghost use Rattle.std.specs.Arc.{arc_value};
ghost use Rattle.std.specs.List.{last_or};
ghost use Rattle.published_policies.specs.Explaining.{Explains};
use crate :: explaining :: { Explained , told } ;
use crate :: policies :: Policy ;
use crate :: seen_lists :: SeenList ;
use combining :: Question ;
use decision :: { Decider , InForce } ;
use std :: marker :: Model ;
use std :: sync :: Arc ;
# [ read_as = "0ed584c75a3cd1df988dcc4d430e152ea117b0bf69d6279ce293e8f97fb9f282" ] const ASKED_LIMIT : usize = 64 ;
# [ read_as = "f046cae2ecee86ac83da2da2e4358ba6f787d9f31a2c63c2a21b51a9d72c3b07" ] const KINDS_AT_ONCE : usize = 16 ;
# [ derive ( Drop ) ] pub ( crate ) struct ReadyPolicy { in_force : InForce , list : SeenList , asked : [ u64 ; 64 ] , count : usize , }
impl Model for ReadyPolicy {
    ghost use Rattle.std.specs.Prelude.{◌≡◌, None, Some};
    ghost use Rattle.std.specs.List.{last_or};
    ghost use Rattle.std.specs.Coded.{code_by, codes};
    ghost use Rattle.published_policies.specs.Lists.{SeenData};
    ghost use Rattle.published_policies.specs.Coding.{StoredSeen, stored_seen, restored_seen, restored_seen-stored_seen};
    ghost Value = { SeenData };
    ghost coded = { code_by StoredSeen (Prim.hlevel codes) stored_seen restored_seen
        restored_seen-stored_seen };
    ghost view = { λ r. r.list };
    ghost invariant = { λ r. last_or None r.list.list ≡ Some r.in_force };
}
impl ReadyPolicy {
fn new ( decider : Arc < Decider > , list : SeenList ) -> ReadyPolicy
        requires { last_or None list.list ≡ Some (arc_value decider) }
        ensures { result ≡ list } ;
fn is_of ( & self , list : & SeenList ) -> bool
        requires { list.now.book ≡ self.now.book }
        ensures { IsTrue result → list.now ≡ self.now } ;
fn notes ( & mut self , mark : u64 ) -> bool
        ensures { self.new ≡ self.old } ;
pub ( crate ) fn prepare ( & mut self , question : & Question )
        ensures { self.new ≡ self.old } ;
pub ( crate ) fn explain ( & self , list : & SeenList , question : & Question ) -> Option < Explained >
        requires { list.now.book ≡ self.now.book }
        ensures { IfSome result (Explains list.now.list question.now) } ;
}
fn mark_of ( question : & Question ) -> u64 ;
pub ( crate ) fn made_ready ( ready : Option < ReadyPolicy > , policy : & Policy ) -> Option < ReadyPolicy >
    requires { IfSome ready (λ before. before.book ≡ policy.now.book) }
    ensures { IfSome result (λ after. after ≡ policy.now) } ;
