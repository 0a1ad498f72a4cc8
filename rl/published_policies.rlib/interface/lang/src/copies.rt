use crate :: policies :: Policy ;
use crate :: seen_lists :: SeenList ;
use crossbeam_utils :: rule :: Protocol ;
pub struct CopyRule ;
# [ read_as = "93c047518c51e2d9b9adffa8ce9e662086d914537d407b75bdbde134d2e1e26b" ] impl Protocol < Policy , Option < SeenList >> for CopyRule as CopyRuleProtocolPolicyOptionSeenList {
    ghost use Rattle.std.specs.Prelude.{None};
    ghost use Rattle.published_policies.specs.Copies.{AllFit};
    ghost holds = { λ policy. AllFit policy };
    ghost first = { None };
}
