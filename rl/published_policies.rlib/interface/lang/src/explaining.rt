use decision :: Ruling ;
use features :: Name ;
# [ derive ( Clone , Copy , Debug , PartialEq , Eq ) ] pub struct Explained { pub edition : u64 , pub ruling : Ruling , pub rule : Option < Name > , }
