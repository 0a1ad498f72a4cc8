use std :: alloc :: AllocError ;
use std :: alloc :: Allocator ;
use std :: default :: Emptied ;
use std :: default :: MadeWith ;
use std :: fmt ;
use std :: hash :: BuildHasher ;
use std :: hash :: BuildHasherDefault ;
use std :: hash :: FoldHasher ;
use std :: hash :: Hash ;
use super :: Entry ;
use super :: IndexMap ;
use super :: IntoIter ;
use super :: Iter ;
use super :: OccupiedEntry ;
use super :: VacantEntry ;
# [ read_as = "04cb9ab1bd3bd132e2e4370f90431b33580e27968433532a8fed29c9b2afb824" ] impl < 'a , K : Eq + Hash + fmt :: Debug , V : fmt :: Debug , S : BuildHasher , A : Allocator > fmt :: Debug for OccupiedEntry < 'a , K , V , S , A > as OccupiedEntryDebug {
fn fmt < W : fmt :: Write > ( & self , f : & mut fmt :: Formatter < W > ) -> fmt :: Result ;
}
# [ read_as = "0680aeff42662eaf57f63d333a5651828258f5b938692f324afa2e2e4ae3e640" ] impl < K : Eq + Hash , V : Eq , S : BuildHasher , A : Allocator > Eq for IndexMap < K , V , S , A > as IndexMapEq {
    ghost laws = { let v = V.Eq.laws in Cmp.equiv (record { symm = hash_map_eq_symm K.eq V.eq v.symm; trans = hash_map_eq_trans K.eq V.eq K.Eq.laws (partial_equiv_from_equiv v).trans }) (hash_map_eq_refl K.eq V.eq v.refl) };
}
# [ read_as = "1b15a1ca40943e5f86832aa0b651e5c383b7ce9619f21c14c033c538bc0419d6" ] impl < K : Eq + Hash + Clone , V : Clone , S : BuildHasher + Clone , A : Allocator + Clone > Clone for IndexMap < K , V , S , A > as IndexMapClone {
    ghost is_clone = { λ m n. IsClone K.is_clone V.is_clone m n };
fn clone ( & self ) -> Result < IndexMap < K , V , S , A > , AllocError > ;
}
# [ read_as = "45f81a02937e99baffb623d5d6018eaaca504333aa51c498a41ab67b92f35f67" ] impl < K : Eq + Hash , V , S : BuildHasher + Default , A : Allocator + Copy > MadeWith < A > for IndexMap < K , V , S , A > as IndexMapMadeWith {
    ghost is_made_with = { λ m. IsEmpty m × IsUnique K.eq m };
fn made_with ( alloc : A ) -> Self ;
}
# [ read_as = "66af93e4ef24930b33ee08a646464e1c12a6e2e8dfb10cb9a9125f32d39b9aea" ] impl < K : Eq + Hash + Drop , V : Drop , S : BuildHasher + Drop , A : Allocator > IntoIterator for IndexMap < K , V , S , A > as IndexMapIntoIterator {
type Item = ( K , V ) ;
type IntoIter = IntoIter < K , V , A > ;
    ghost into_iter_gives = { λ m r. (r ≡ m.entries) × (index_map_len m < 2 ^ 63) × GivesInOrder (K × V) × ShowsValuesInOrder (λ (p : K × V). p) × IsUnique K.eq m × GivesInReverse (K × V) };
fn into_iter ( self ) -> IntoIter < K , V , A > ;
}
# [ read_as = "6fa8ced3a2c741ec133d30ca66f58e5ef82eafa521ed8be338818a46fc0c41a1" ] impl < 'a , K : Eq + Hash + Copy + 'a , V : Copy + 'a , S : BuildHasher , A : Allocator > Extend < ( & 'a K , & 'a V ) , > for IndexMap < K , V , S , A > as IndexMapExtendTuple2RefRef {
    ghost extend_gives = { λ m xs n. Extends K.eq m (map deref_pair xs) n };
fn extend < I : IntoIterator < Item = ( & 'a K , & 'a V ) >> ( & mut self , iter : I , ) -> Result < ( ) , AllocError > ;
}
# [ read_as = "77fcb226bcc93d907b4ad8327162822800e18b2db2fd95ca9939a7b339f94074" ] impl < K : Eq + Hash + Drop , V : Drop , S : BuildHasher + Default + Drop , A : Allocator + Copy , > FromIterator < ( K , V ) > for IndexMap < K , V , S , A > as IndexMapFromIteratorTuple2 {
type Alloc = A ;
    ghost from_iter_gives = { λ xs n. (n.entries ≡ insert_all K.eq [] xs) × IsFromIterResult K.eq xs n };
fn from_iter < I : IntoIterator < Item = ( K , V ) >> ( alloc : A , iter : I ) -> Result < Self , AllocError > ;
}
# [ read_as = "7e40c0097a04444d3835dce2a5dbca65d21517ad67226c9515193a69c6a8935b" ] impl < 'a , K : Eq + Hash + fmt :: Debug , V : fmt :: Debug , S : BuildHasher , A : Allocator > fmt :: Debug for Entry < 'a , K , V , S , A > as EntryDebug {
fn fmt < W : fmt :: Write > ( & self , f : & mut fmt :: Formatter < W > ) -> fmt :: Result ;
}
# [ read_as = "824ae652f2bdf27494e4c7e6cb77fd2cb015a9448096efba2ecec348b202678d" ] impl < 'a , K : Eq + Hash + fmt :: Debug , V , S : BuildHasher , A : Allocator > fmt :: Debug for VacantEntry < 'a , K , V , S , A > as VacantEntryDebug {
fn fmt < W : fmt :: Write > ( & self , f : & mut fmt :: Formatter < W > ) -> fmt :: Result ;
}
# [ read_as = "8e3e3ce356934a3b7424d0e3bc02016a711ab4e79bb88a506c4d9f8b5ae24db3" ] impl < K : Eq + Hash , V : PartialEq , S : BuildHasher , A : Allocator > PartialEq for IndexMap < K , V , S , A > as IndexMapPartialEq {
    ghost eq = { index_map_eq K.eq V.eq };
    ghost laws = { let v = V.laws in record { symm = hash_map_eq_symm K.eq V.eq v.symm; trans = hash_map_eq_trans K.eq V.eq K.Eq.laws v.trans } };
fn eq ( & self , other : & IndexMap < K , V , S , A > ) -> bool ;
}
# [ read_as = "b115c664eb4044bea2575b58696832636f36b2a3373b825e7d3c8f4bc47685a3" ] impl < 'a , K : Eq + Hash , V , S : BuildHasher , A : Allocator > IntoIterator for & 'a IndexMap < K , V , S , A > as RefIndexMapIntoIterator {
type Item = ( & 'a K , & 'a V ) ;
type IntoIter = Iter < 'a , K , V > ;
    ghost into_iter_gives = { λ m r. (r ≡ m.now.entries) × (index_map_len m.now < 2 ^ 63) × ShowsInOrder (deref_pair {K = K} {X = V}) × ShowsValuesInOrder (deref_pair {K = K} {X = V}) × IsUnique K.eq m.now };
fn into_iter ( self ) -> Iter < 'a , K , V > ;
}
# [ read_as = "b1bf0e677c4859cbe844009e595c56b96a269e4a6044899d6ac82d9ed11cf664" ] impl < K : Eq + Hash , V , S : BuildHasher + Clone , A : Allocator + Copy > Emptied for IndexMap < K , V , S , A > as IndexMapEmptied {
    ghost is_emptied = { λ m. IsEmpty m × IsUnique K.eq m };
fn emptied ( like : & Self ) -> Result < Self , AllocError > ;
}
# [ read_as = "bfa52e9760c30f6e2474fcdf83b7a83b62ac214d6dbeec48391d90ffd25d9fd0" ] impl < K : Eq + Hash + Drop , V : Drop , S : BuildHasher , A : Allocator > Extend < ( K , V ) > for IndexMap < K , V , S , A > as IndexMapExtendTuple2 {
    ghost extend_gives = { Extends K.eq };
fn extend < I : IntoIterator < Item = ( K , V ) >> ( & mut self , iter : I ) -> Result < ( ) , AllocError > ;
}
# [ read_as = "e1d08a0c034769f5b4bb295bb0afadd486a82d486971dd572801570e5e7a56e9" ] impl < K : Eq + Hash + fmt :: Debug , V : fmt :: Debug , S : BuildHasher , A : Allocator > fmt :: Debug for IndexMap < K , V , S , A > as IndexMapDebug {
fn fmt < W : fmt :: Write > ( & self , f : & mut fmt :: Formatter < W > ) -> fmt :: Result ;
}
impl < K : Eq + Hash + Drop , V : Drop , A : Allocator + Copy > IndexMap < K , V , BuildHasherDefault < FoldHasher > , A , > {
pub fn from_array < const N : usize > ( alloc : A , pairs : [ ( K , V ) ; N ] ) -> Result < Self , AllocError >
        ensures entries { }
        ensures inserts { } ;
}
