ghost use Rattle.std.specs.Prelude.{◌≡◌};
ghost use Rattle.published_policies.specs.Explaining.{ExplainsBy, name_of_rule, rule_in};
use combining :: Question ;
use decision :: { Decider , Ruling } ;
use features :: Name ;
# [ derive ( Clone , Copy , Debug , PartialEq , Eq ) ] pub struct Explained { pub edition : u64 , pub ruling : Ruling , pub rule : Option < Name > , }
pub ( crate ) fn explain ( decider : & Decider , question : & Question ) -> Explained
    ensures { ExplainsBy decider.now question.now result } ;
pub ( crate ) fn told ( decider : & Decider , ruling : Ruling ) -> Explained
    ensures edition { result.edition ≡ decider.now.edition }
    ensures ruling { result.ruling ≡ ruling }
    ensures rule { result.rule ≡ name_of_rule decider.now (rule_in ruling) } ;
fn rule_in ( ruling : & Ruling ) -> Option < u32 >
    ensures { result ≡ rule_in ruling.now } ;
fn name_of_rule ( decider : & Decider , rule : Option < u32 > ) -> Option < Name >
    ensures { result ≡ name_of_rule decider.now rule } ;
