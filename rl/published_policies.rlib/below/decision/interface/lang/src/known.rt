use features :: Action ;
use features :: Name ;
# [ derive ( Clone , Copy , Debug ) ] pub ( crate ) struct Standpoint { pub office : Name , pub role : Name , pub action : Action , }
