use std :: alloc :: AllocError ;
use std :: alloc :: Allocator ;
use std :: default :: Emptied ;
use std :: default :: MadeWith ;
use std :: fmt ;
use std :: hash :: BuildHasher ;
use std :: hash :: BuildHasherDefault ;
use std :: hash :: FoldHasher ;
use std :: hash :: Hash ;
use std :: ops :: BitAnd ;
use std :: ops :: BitOr ;
use std :: ops :: BitXor ;
use std :: ops :: Index ;
use std :: ops :: Sub ;
use super :: IndexSet ;
use super :: IntoIter ;
use super :: Iter ;
# [ read_as = "04e067207bb512a660668335c3b6d7118fe8bc6355137bc69ff5ba5122305c9e" ] impl < 'a , T : Eq + Hash + Copy + 'a , S : BuildHasher , A : Allocator > Extend < & 'a T > for IndexSet < T , S , A > as IndexSetExtendRef {
    ghost extend_gives = { λ s xs n. Extends T.eq s (map deref xs) n };
fn extend < I : IntoIterator < Item = & 'a T >> ( & mut self , iter : I ) -> Result < ( ) , AllocError > ;
}
# [ read_as = "1e13748dd06fc4f1487e474395dcd892a49b9374bc636559982640bcb4def9ef" ] impl < T : Eq + Hash + Drop , S : BuildHasher + Drop , A : Allocator > IntoIterator for IndexSet < T , S , A > as IndexSetIntoIterator {
type Item = T ;
type IntoIter = IntoIter < T , A > ;
    ghost into_iter_gives = { λ s r. (r ≡ s.keys) × (index_set_len s < 2 ^ 63) × GivesInOrder T × IsUnique T.eq s × GivesInReverse T };
fn into_iter ( self ) -> IntoIter < T , A > ;
}
# [ read_as = "26af39daea0b5c18ff97d61cd58d4b965d1df7616e1396c1d723b1b97912f69e" ] impl < T : Eq + Hash + fmt :: Debug , S : BuildHasher , A : Allocator > fmt :: Debug for IndexSet < T , S , A > as IndexSetDebug {
fn fmt < W : fmt :: Write > ( & self , f : & mut fmt :: Formatter < W > ) -> fmt :: Result ;
}
# [ read_as = "2852fd9d6c7aa369ce00cde076dc70fd6fcb7cc02661d8710e8424be243b8752" ] impl < 'a , 'b , T : Eq + Hash + Clone , S : BuildHasher + Default + Drop , A : Allocator + Copy > BitOr < & 'b IndexSet < T , S , A > , > for & 'a IndexSet < T , S , A > as RefIndexSetBitOr {
type Output = Result < IndexSet < T , S , A > , AllocError > ;
    ghost bitor_gives = { λ a b r. IfOk r (HoldsClonesOf T.eq T.is_clone (union T.eq a.now b.now)) };
fn bitor ( self , other : & 'b IndexSet < T , S , A > ) -> Result < IndexSet < T , S , A > , AllocError > ;
}
# [ read_as = "30fe3662cc2a1721a121ff2cc5296923ad35ef22600762e4c04f7cabf28632cd" ] impl < T : Eq + Hash , S : BuildHasher + Default , A : Allocator + Copy > MadeWith < A > for IndexSet < T , S , A > as IndexSetMadeWith {
    ghost is_made_with = { λ s. IsEmpty s × IsUnique T.eq s };
fn made_with ( alloc : A ) -> Self ;
}
# [ read_as = "3621ada6b0e9b3847d303207b334eb01a073b305ab7decc480132c9132b21edc" ] impl < 'a , 'b , T : Eq + Hash + Clone , S : BuildHasher + Default + Drop , A : Allocator + Copy > BitAnd < & 'b IndexSet < T , S , A > , > for & 'a IndexSet < T , S , A > as RefIndexSetBitAnd {
type Output = Result < IndexSet < T , S , A > , AllocError > ;
    ghost bitand_gives = { λ a b r. IfOk r (HoldsClonesOf T.eq T.is_clone (intersection T.eq a.now b.now)) };
fn bitand ( self , other : & 'b IndexSet < T , S , A > ) -> Result < IndexSet < T , S , A > , AllocError > ;
}
# [ read_as = "3bb43c5520f954a174561e2250ad713200905d95d8f5693d44172cf4c853a089" ] impl < 'a , T : Eq + Hash , S : BuildHasher , A : Allocator > IntoIterator for & 'a IndexSet < T , S , A > as RefIndexSetIntoIterator {
type Item = & 'a T ;
type IntoIter = Iter < 'a , T > ;
    ghost into_iter_gives = { λ s r. (r ≡ s.now.keys) × (index_set_len s.now < 2 ^ 63) × ShowsInOrder (deref {X = T}) × IsUnique T.eq s.now };
fn into_iter ( self ) -> Iter < 'a , T > ;
}
# [ read_as = "4496914b36d777d008b05e6890b9804382c7d880ab7c117a35f80991149f3a7b" ] impl < T : Eq + Hash , S : BuildHasher + Clone , A : Allocator + Copy > Emptied for IndexSet < T , S , A > as IndexSetEmptied {
    ghost is_emptied = { λ s. IsEmpty s × IsUnique T.eq s };
fn emptied ( like : & Self ) -> Result < Self , AllocError > ;
}
# [ read_as = "4ff66e5ee8579a5d8d764d22566988d801895601e5607dffdf00fd983ec59883" ] impl < T : Eq + Hash , S : BuildHasher , A : Allocator > PartialEq for IndexSet < T , S , A > as IndexSetPartialEq {
    ghost eq = { index_set_eq T.eq };
    ghost laws = { partial_equiv_from_equiv (hash_set_eq_equiv T.Eq.laws) };
fn eq ( & self , other : & Self ) -> bool ;
}
# [ read_as = "5710c530a4b0c194eb019b80076de1d4f6c32757c96b6ad13e19e2037e237dc4" ] impl < T : Eq + Hash , S : BuildHasher , A : Allocator > Eq for IndexSet < T , S , A > as IndexSetEq {
    ghost laws = { hash_set_eq_equiv T.Eq.laws };
}
# [ read_as = "5f399f9ad1eeea5c26ff59ba097c864f062bd697b77f1d32ee2e719c2a7dd31d" ] impl < 'a , 'b , T : Eq + Hash + Clone , S : BuildHasher + Default + Drop , A : Allocator + Copy > Sub < & 'b IndexSet < T , S , A > , > for & 'a IndexSet < T , S , A > as RefIndexSetSub {
type Output = Result < IndexSet < T , S , A > , AllocError > ;
    ghost sub_gives = { λ a b r. IfOk r (HoldsClonesOf T.eq T.is_clone (difference T.eq a.now b.now)) };
fn sub ( self , other : & 'b IndexSet < T , S , A > ) -> Result < IndexSet < T , S , A > , AllocError > ;
}
# [ read_as = "6238fa99d3243675f387d338e26402a96b0154aa21a9bd0b6603423eea7cf51d" ] impl < T : Eq + Hash + Drop , S : BuildHasher + Default + Drop , A : Allocator + Copy > FromIterator < T > for IndexSet < T , S , A > as IndexSetFromIterator {
type Alloc = A ;
    ghost from_iter_gives = { λ xs n. (n.keys ≡ insert_all T.eq [] xs) × IsFromIterResult T.eq xs n };
fn from_iter < I : IntoIterator < Item = T >> ( alloc : A , iter : I ) -> Result < Self , AllocError > ;
}
# [ read_as = "7f5c7b0c09c239a70dbe5055a86199a692183cfb11186cd2d4fa3c21cc771713" ] impl < T : Eq + Hash , S : BuildHasher , A : Allocator > Index < usize > for IndexSet < T , S , A > as IndexSetIndexUsize {
type Output = T ;
    ghost can_index = { λ s i. i < index_set_len s };
    ghost index_gives = { λ s i k. slice_get s.keys i ≡ Some k };
fn index ( & self , index : usize ) -> & T ;
}
# [ read_as = "8495b5d63b1f2b0c30643d84dc335d358286b8c8205a192ea5fd0759aa3bbdf8" ] impl < T : Eq + Hash + Clone , S : BuildHasher + Clone , A : Allocator + Clone > Clone for IndexSet < T , S , A > as IndexSetClone {
    ghost is_clone = { IsClone T.is_clone };
fn clone ( & self ) -> Result < Self , AllocError > ;
}
# [ read_as = "85ce05d91c388731890f1296ed8868c7fd9fcdb0360b30e93f93d1b115147054" ] impl < 'a , 'b , T : Eq + Hash + Clone , S : BuildHasher + Default + Drop , A : Allocator + Copy > BitXor < & 'b IndexSet < T , S , A > , > for & 'a IndexSet < T , S , A > as RefIndexSetBitXor {
type Output = Result < IndexSet < T , S , A > , AllocError > ;
    ghost bitxor_gives = { λ a b r. IfOk r (HoldsClonesOf T.eq T.is_clone (symmetric_difference T.eq a.now b.now)) };
fn bitxor ( self , other : & 'b IndexSet < T , S , A > ) -> Result < IndexSet < T , S , A > , AllocError > ;
}
# [ read_as = "9bc9c2f0f9ddc6605de474a970eacc05b70380b071bac165a9ff562f6a2ff91c" ] impl < T : Eq + Hash + Drop , S : BuildHasher , A : Allocator > Extend < T > for IndexSet < T , S , A > as IndexSetExtend {
    ghost extend_gives = { Extends T.eq };
fn extend < I : IntoIterator < Item = T >> ( & mut self , iter : I ) -> Result < ( ) , AllocError > ;
}
impl < T : Eq + Hash + Drop , A : Allocator + Copy > IndexSet < T , BuildHasherDefault < FoldHasher > , A > {
pub fn from_array < const N : usize > ( alloc : A , values : [ T ; N ] ) -> Result < Self , AllocError >
        ensures keys { }
        ensures inserts { } ;
}
