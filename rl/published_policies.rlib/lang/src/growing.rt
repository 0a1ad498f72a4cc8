use decision :: Decider ;
use logbook :: { Gain , Plain , Play , Rule } ;
use std :: sync :: Arc ;
pub struct ListRule ;
# [ read_as = "9f9dca055b67d29d18fa42c5868d9c46f074134f8beec58142204c4829186c79" ] impl Rule < Decider , u64 > for ListRule as ListRuleRuleDeciderU64 {
    ghost use Rattle.std.specs.Prelude.{[]};
    ghost use base.Fml.{ftrue};
    ghost use Rattle.published_policies.specs.Growing.{IsKept};
    ghost holds = { λ cells list. IsKept cells list };
    ghost first = { [] };
    ghost hinted = { λ n list. Unit {0} };
    ghost shows = { λ list. [] };
    ghost keeps = { λ names list. ftrue };
    ghost moves = { λ ask before after answer. Unit {0} };
}
pub struct NoGain ;
# [ read_as = "d9f439e8271ad80de28a111875117d0389134bfbda01410f55b1cd2eb8fdc839" ] impl Gain < Decider , u64 > for NoGain as NoGainGainDeciderU64 {
    ghost use base.Fml.{ftrue};
    ghost after = { λ names about answer. ftrue };
}
pub struct Add ;
# [ read_as = "e76d4f02303dd86fa607209a8640edd0f20f2fae571098a0462f6c5d675c38af" ] impl Play < Decider , u64 > for Add as AddPlayDeciderU64 {
    ghost use Rattle.published_policies.specs.Growing.{Adds};
    ghost then = { Adds };
}
# [ read_as = "a2e409e7d0a1c49169e04ff0175bcdf1bdef7b5531c1772edcbd36fda9a531f0" ] impl Plain < Arc < Decider > , Decider , u64 > for Add as AddPlainArcDeciderDeciderU64 {
    ghost use Rattle.std.specs.Prelude.{None};
    ghost use Rattle.std.specs.Arc.{arc_value};
    ghost ask = { λ decider. arc_value decider };
    ghost state = { λ decider. None };
}
