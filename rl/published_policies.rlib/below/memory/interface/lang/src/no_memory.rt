use std :: fmt ;
# [ derive ( Debug , Drop , PartialEq , Eq ) ] pub struct NoMemory { seal : ( ) , }
# [ derive ( Debug , Drop ) ] pub struct NotStored < T > { pub value : T , pub cause : NoMemory , }
# [ read_as = "2c8dd62e377b8abc28e0b71b7f2e31f1faadde1b97794d76ee506479676d792f" ] impl < T : Drop > From < NotStored < T >> for NoMemory as NoMemoryFromNotStored {
fn from ( failed : NotStored < T > ) -> NoMemory ;
}
# [ read_as = "baa84c5a373ceaf6635678f9a9c35ee73a21d7138b65353298344ddc3b2e4468" ] impl fmt :: Display for NoMemory as NoMemoryDisplay {
    ghost use Rattle.std.specs.Prelude.{Some, codes};
    ghost output = { λ refused. Some (codes "out of memory") };
fn fmt < W : fmt :: Write > ( & self , f : & mut fmt :: Formatter < W > ) -> fmt :: Result ;
}
