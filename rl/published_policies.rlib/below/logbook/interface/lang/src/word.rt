use crate :: tokens :: Gain ;
use crate :: tokens :: Offer ;
use crate :: tokens :: Pen ;
use crate :: tokens :: Rule ;
use crate :: tokens :: Seen ;
use std :: marker :: Move ;
use std :: marker :: Owns ;
use std :: marker :: PhantomData ;
pub trait Play < E , A > {
    ghost then: { Step E → View E A → ℕ → View E A → Type 0 };
}
pub struct Word < E , A , P : Rule < E , A >> { bits : u64 , marker : PhantomData < ( E , A , P ) > , }
impl < E , A , P : Rule < E , A >> Drop for Word < E , A , P > {
fn drop ( self ) ;
}
impl < E , A , P : Rule < E , A >> Move for Word < E , A , P > {
    ghost own_val = { λ w vs. fex ℕ (λ n. fsep (Fields.own_val (record { bits = n; marker = record {} }) vs) (inner E.row.coded.code P.hinted w n)) };
}
impl < E , A , P : Rule < E , A >> Owns for Word < E , A , P > {
    ghost Value = { Named };
    ghost coded = { named_coded };
    ghost shr_at = { λ w p κ. word_shares E.row.coded.code P.hinted w p κ };
}
impl < E , A , P : Rule < E , A >> Word < E , A , P > {
pub fn compare_exchange < M : Play < E , A > , G : Gain < E , A >> ( & self , old : u64 , new : u64 , seen : & mut Seen < E , A , P > , offer : & mut Offer < E , A , P , G > , pen : & mut Pen , ) -> u64
        requires { }
        ensures { } ;
pub fn compare_exchange_hint ( & self , old : u64 , new : u64 , seen : & Seen < E , A , P > ) -> u64
        requires { } ;
pub fn hint ( seen : & Seen < E , A , P > ) -> Word < E , A , P >
        requires { }
        ensures { } ;
pub fn load < M : Play < E , A > , G : Gain < E , A >> ( & self , seen : & mut Seen < E , A , P > , offer : & mut Offer < E , A , P , G > , ) -> u64
        requires { }
        ensures { } ;
pub fn load_hint ( & self , seen : & mut Seen < E , A , P > ) -> u64
        requires { }
        ensures { } ;
pub fn store ( & self , pen : & mut Pen , new : u64 )
        requires { }
        ensures { } ;
pub fn tracked ( bits : u64 , pen : & mut Pen ) -> Word < E , A , P >
        requires { }
        ensures { } ;
}
unsafe impl < E , A , P : Rule < E , A >> Send for Word < E , A , P > {
}
unsafe impl < E , A , P : Rule < E , A >> Sync for Word < E , A , P > {
}
