use features :: Name ;
use plane :: Shape ;
use std :: hash :: Hash ;
use std :: hash :: Hasher ;
# [ derive ( Clone , Copy , Debug , PartialEq , Eq ) ] pub struct Zone { pub name : Name , pub shape : Shape , }
# [ derive ( Clone , Copy , Debug ) ] pub struct ZoneName { pub name : Name , }
# [ read_as = "1ba3629374f96b5d646d26fae31ce994777a4f325572f90fa104d284ef613831" ] impl Hash for ZoneName as ZoneNameHash {
    ghost hash_input = { λ key. fed.slice fed.u8 key.name };
    ghost respects_eq = { Prim.search (hashing, rules) };
fn hash < H : Hasher > ( & self , state : & mut H ) ;
}
# [ read_as = "c72e0d6e907e6f7667e2c0ef5d8351954d6f305ffebc7e27a7e747ea186033b8" ] impl PartialEq for ZoneName as ZoneNamePartialEq {
    ghost eq = { λ a b. same_name a.name b.name };
    ghost laws = { Prim.search (comparing, rules) };
fn eq ( & self , other : & ZoneName ) -> bool ;
}
# [ read_as = "cf79b1c202d93c910f31d87b2168e004c9a0aebce664d87a99c0774297b2d96b" ] impl Eq for ZoneName as ZoneNameEq {
    ghost laws = { Prim.search (comparing, rules) };
}
