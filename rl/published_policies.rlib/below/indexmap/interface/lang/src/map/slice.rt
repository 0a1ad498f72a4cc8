use std :: alloc :: AllocError ;
use std :: cmp :: Ordering ;
use std :: fmt ;
use std :: marker :: Model ;
use std :: ops :: Index ;
use std :: ops :: RangeBounds ;
use super :: Iter ;
use super :: Keys ;
use super :: Values ;
# [ derive ( Drop ) ] pub struct Slice < 'a , K , V > { keys : & 'a [ K ] , vals : & 'a [ V ] , }
# [ read_as = "4244b98d1947e5b9af6824d8f22cb9c8530936f41c522d67ad78f31e6ccb3071" ] impl < 'a , K : Eq , V : Eq > Eq for Slice < 'a , K , V > as SliceEq {
    ghost laws = { lists_equiv (and_equiv (on_equiv (λ p. p.0) K.Eq.laws) (on_equiv (λ p. p.1) V.Eq.laws)) };
}
# [ read_as = "6bed034866b1630026a2a911fbeb4e45449ec69490953ca2f0682c733b095127" ] impl < 'a , K , V > IntoIterator for Slice < 'a , K , V > as SliceIntoIterator {
type Item = ( & 'a K , & 'a V ) ;
type IntoIter = Iter < 'a , K , V > ;
    ghost into_iter_gives = { λ s r. (r ≡ s) × ShowsInOrder (deref_pair {K = K} {X = V}) × ShowsValuesInOrder (deref_pair {K = K} {X = V}) };
fn into_iter ( self ) -> Iter < 'a , K , V > ;
}
# [ read_as = "8240907b8cb389e138bf182718b8490828892a22a726a64cdf30e3bb1d31ba27" ] impl < 'a , K , V > Index < usize > for Slice < 'a , K , V > as SliceIndexUsize {
type Output = V ;
    ghost can_index = { λ s i. i < length s };
    ghost index_gives = { λ s i v. slice_get (values_of s) i ≡ Some v };
fn index ( & self , index : usize ) -> & V ;
}
# [ read_as = "8efb44bdbfa83e09dee66b388d5d1340d6d7051233eb470258b491be09e93d24" ] impl < 'a , K , V > Default for Slice < 'a , K , V > as SliceDefault {
    ghost is_default = { λ s. s ≡ [] };
fn default ( ) -> Self ;
}
# [ read_as = "a4130951094b0662feeda346f3e09b320be4d78846e343678805d5e3973ab2fe" ] impl < 'a , K : PartialEq , V : PartialEq > PartialEq for Slice < 'a , K , V > as SlicePartialEq {
    ghost eq = { pointwise (λ p q. K.eq p.0 q.0 && V.eq p.1 q.1) };
    ghost laws = { lists_per (and_per (on_per (λ p. p.0) K.laws) (on_per (λ p. p.1) V.laws)) };
fn eq ( & self , other : & Self ) -> bool ;
}
# [ read_as = "aa59457d5c3377ea6061d7e9a213a4a810f22183e773346d98180468e330c826" ] impl < 'a , K : fmt :: Debug , V : fmt :: Debug > fmt :: Debug for Slice < 'a , K , V > as SliceDebug {
fn fmt < W : fmt :: Write > ( & self , f : & mut fmt :: Formatter < W > ) -> fmt :: Result ;
}
# [ read_as = "b674cf1e0bc2633fb047a5371c199feebdb4f098a48f867c9426fb3eb31f5e70" ] impl < 'a , 'b , K , V > IntoIterator for & 'b Slice < 'a , K , V > as RefSliceIntoIterator {
type Item = ( & 'a K , & 'a V ) ;
type IntoIter = Iter < 'a , K , V > ;
    ghost into_iter_gives = { λ s r. (r ≡ s.now) × ShowsInOrder (deref_pair {K = K} {X = V}) × ShowsValuesInOrder (deref_pair {K = K} {X = V}) };
fn into_iter ( self ) -> Iter < 'a , K , V > ;
}
# [ read_as = "e6255b135891993a0ec13f60608016b8d0295e9fb2b644f9b76b180a2c855b99" ] impl < 'a , K , V > Clone for Slice < 'a , K , V > as SliceClone {
    ghost is_clone = { λ s r. r ≡ s };
    ghost is_infallible = { λ _. Unit {0} };
fn clone ( & self ) -> Result < Self , AllocError > ;
}
impl < 'a , K , V > Model for Slice < 'a , K , V > {
    ghost use Rattle.std.specs.Prelude.{◌≡◌, List, length, zip};
    ghost Value = { List (K × V) };
    ghost view = { λ s. zip s.keys.now s.vals.now };
    ghost invariant = { λ s. length s.vals.now ≡ length s.keys.now };
}
impl < 'a , K , V > Slice < 'a , K , V > {
pub fn binary_search_by < F : FnMut ( & K , & V ) -> Ordering > ( & self , f : F ) -> Result < usize , usize >
        requires { }
        ensures bound { }
        ensures position { } ;
pub fn binary_search_by_key < B : Ord + Drop , F : Fn ( & K , & V ) -> B > ( & self , b : & B , f : F , ) -> Result < usize , usize >
        requires { }
        ensures bound { }
        ensures position { } ;
pub fn binary_search_keys ( & self , x : & K ) -> Result < usize , usize > where K : Ord ,
        ensures bound { }
        ensures ok { }
        ensures position { } ;
pub fn first ( & self ) -> Option < ( & 'a K , & 'a V ) >
        ensures entry { }
        ensures found { } ;
pub fn get_index ( & self , index : usize ) -> Option < ( & 'a K , & 'a V ) >
        ensures entry { }
        ensures found { } ;
pub fn get_range < R : RangeBounds < usize >> ( & self , range : R ) -> Option < Self >
        requires { }
        ensures found { }
        ensures entries { } ;
pub fn is_empty ( & self ) -> bool
        ensures { } ;
pub fn is_sorted ( & self ) -> bool where K : PartialOrd ,
        ensures { } ;
pub fn is_sorted_by < F : FnMut ( & K , & V , & K , & V ) -> bool > ( & self , compare : F ) -> bool
        requires { }
        ensures cases { } ;
pub fn iter ( & self ) -> Iter < 'a , K , V >
        ensures rest { }
        ensures len { }
        ensures runs { }
        ensures runs_back { }
        ensures values_run { } ;
pub fn keys ( & self ) -> Keys < 'a , K , V >
        ensures rest { }
        ensures len { }
        ensures runs { }
        ensures runs_back { } ;
pub fn last ( & self ) -> Option < ( & 'a K , & 'a V ) >
        ensures entry { }
        ensures found { } ;
pub fn len ( & self ) -> usize
        ensures { } ;
pub fn new ( ) -> Self
        ensures { } ;
pub fn partition_point < P : Fn ( & K , & V ) -> bool > ( & self , pred : P ) -> usize
        requires { }
        ensures bound { }
        ensures partitioned { } ;
pub fn split_at ( & self , index : usize ) -> ( Self , Self )
        requires { }
        ensures front { }
        ensures back { } ;
pub fn split_at_checked ( & self , index : usize ) -> Option < ( Self , Self ) >
        ensures found { }
        ensures front { }
        ensures back { } ;
pub fn split_first ( & self ) -> Option < ( ( & 'a K , & 'a V ) , Self ) >
        ensures found { }
        ensures parts { } ;
pub fn split_last ( & self ) -> Option < ( ( & 'a K , & 'a V ) , Self ) >
        ensures found { }
        ensures parts { } ;
pub fn values ( & self ) -> Values < 'a , K , V >
        ensures rest { }
        ensures len { }
        ensures runs { }
        ensures runs_back { } ;
}
