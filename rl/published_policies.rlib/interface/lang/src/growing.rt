use decision :: Decider ;
use logbook :: Rule ;
pub struct ListRule ;
# [ read_as = "9f9dca055b67d29d18fa42c5868d9c46f074134f8beec58142204c4829186c79" ] impl Rule < Decider , u64 > for ListRule as ListRuleRuleDeciderU64 {
    ghost use Rattle.std.specs.Prelude.{[]};
    ghost use base.Fml.{ftrue};
    ghost use Rattle.published_policies.specs.Growing.{IsKept};
    ghost holds = { λ cells list. IsKept cells list };
    ghost first = { [] };
    ghost hinted = { λ n list. Unit {0} };
    ghost shows = { λ list. [] };
    ghost keeps = { λ names list. ftrue };
    ghost moves = { λ ask before after answer. Unit {0} };
}
