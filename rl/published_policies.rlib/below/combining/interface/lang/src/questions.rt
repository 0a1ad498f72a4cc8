use features :: Action ;
use features :: Name ;
use features :: Subject ;
use plane :: Shape ;
# [ derive ( Clone , Copy , Debug , PartialEq , Eq ) ] pub struct Question { pub subject : Subject , pub action : Action , pub owner : Name , pub class : Name , pub shape : Shape , }
