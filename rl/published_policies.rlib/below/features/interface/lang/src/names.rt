use std :: fmt ;
use std :: marker :: Model ;
# [ derive ( Clone , Copy ) ] pub struct Name { bytes : [ u8 ; 32 ] , len : u8 , }
# [ read_as = "0556a92b0dd040b3d4e9c7b3505a04478856ca9680792a7dbc570a8c561b4e93" ] impl Eq for Name as NameEq {
    ghost laws = { Prim.search (comparing, rules) };
}
# [ read_as = "5b3e0ed0b9d32e4779dd2c497eacb93c7f3c7273dd320b0fef3746ee1fab5167" ] impl fmt :: Display for Name as NameDisplay {
    ghost use Rattle.std.specs.Prelude.{Some};
    ghost output = { λ name. Some name };
fn fmt < W : fmt :: Write > ( & self , f : & mut fmt :: Formatter < W > ) -> fmt :: Result ;
}
# [ read_as = "7ed5e80b010a5d7b454a8431e0b8265cbbbadae0a7a11fe57916f3fe2e651bae" ] impl fmt :: Debug for Name as NameDebug {
fn fmt < W : fmt :: Write > ( & self , f : & mut fmt :: Formatter < W > ) -> fmt :: Result ;
}
# [ read_as = "f5f38730471446fc10caeeabaad956f7604f27188558d0c76dd51393e19825de" ] impl PartialEq for Name as NamePartialEq {
    ghost eq = { pointwise nat_eq };
    ghost laws = { Prim.search (comparing, rules) };
fn eq ( & self , other : & Self ) -> bool ;
}
impl Model for Name {
    ghost use Rattle.std.specs.Prelude.{List, ℕ, ◌++◌, length, take};
    ghost use Rattle.features.specs.Names.{HoldsName, padding, padded_again, length_again};
    ghost Value = { List ℕ };
    ghost view = { λ n. take n.len n.bytes };
    ghost invariant = { λ n. HoldsName n.bytes n.len };
    ghost inverse = { λ v. record { bytes = v ++ padding (length v); len = length v } };
    ghost inverse_ok = { λ n h i. record {
      bytes = padded_again n.bytes n.len h i;
      len = length_again n.bytes n.len h i;
    } };
}
impl Name {
pub fn as_bytes ( & self ) -> & [ u8 ]
        ensures value { }
        ensures name { }
        ensures fits { } ;
pub fn new ( text : & [ u8 ] ) -> Option < Name >
        ensures { } ;
}
