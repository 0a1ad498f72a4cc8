use crate :: policies :: Policy ;
use crate :: seen_lists :: SeenList ;
use atomic_table :: { Join , Split } ;
use crossbeam_utils :: rule :: { Outcome , Protocol } ;
pub struct CopyRule ;
# [ read_as = "93c047518c51e2d9b9adffa8ce9e662086d914537d407b75bdbde134d2e1e26b" ] impl Protocol < Policy , Option < SeenList >> for CopyRule as CopyRuleProtocolPolicyOptionSeenList {
    ghost use Rattle.std.specs.Prelude.{None};
    ghost use Rattle.published_policies.specs.Copies.{AllFit};
    ghost holds = { λ policy. AllFit policy };
    ghost first = { None };
}
pub struct Learn ;
# [ read_as = "bd617f7d131bbe6b2eb6906d2bef11356d22119d8469783a9699fa6a1365969c" ] impl Outcome < Policy , Option < SeenList >> for Learn as LearnOutcomePolicyOptionSeenList {
    ghost use Rattle.published_policies.specs.Copies.{Learns};
    ghost then = { λ old before shown new. Learns old shown new };
}
pub struct HandOn ;
# [ read_as = "e2d2f0f9ffec53ac579d8a46b0e6b9baf68c25afe51dfaeebe14adfb9dd96ad3" ] impl Split < Option < SeenList >> for HandOn as HandOnSplitOptionSeenList {
    ghost left = { λ known. known };
    ghost right = { λ known. known };
}
# [ read_as = "2b14d0e2a5b0ada02e4a65f13904edb4889932783c94bb377fc66f7990faefcd" ] impl Join < Option < SeenList >> for HandOn as HandOnJoinOptionSeenList {
    ghost use Rattle.std.specs.Prelude.{None};
    ghost both = { λ known told. told };
    ghost spent = { None };
}
