use std :: error :: Error ;
use std :: fmt ;
# [ derive ( Clone , Copy , Debug , PartialEq , Eq ) ] pub enum ShapeFault { OutOfRange , SameEnds , TooManyPoints , TooFew , NotClosed , Repeated , Flat , NotConvex , TooManyCorners , }
# [ read_as = "098c0e9f8c49514500413d61fb38ff6fec149241002d2cbe596edf85e80d5b78" ] impl fmt :: Display for ShapeFault as ShapeFaultDisplay {
    ghost use Rattle.std.specs.Prelude.{Some};
    ghost use Rattle.plane.specs.FaultCodes.{code_of};
    ghost output = { λ fault. Some (code_of fault) };
fn fmt < W : fmt :: Write > ( & self , f : & mut fmt :: Formatter < W > ) -> fmt :: Result ;
}
# [ read_as = "a4a629ca15dba57e8fe1528f20b57d61cf51cfbef2a65a5e98b18838269f00dc" ] impl Error for ShapeFault as ShapeFaultError {
}
impl ShapeFault {
pub fn code ( self ) -> & 'static str
        ensures { } ;
}
