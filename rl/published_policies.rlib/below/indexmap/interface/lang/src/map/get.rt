use crate :: Equivalent ;
use std :: alloc :: Allocator ;
use std :: hash :: BuildHasher ;
use std :: hash :: Hash ;
use std :: ops :: Index ;
use std :: ops :: IndexMut ;
use std :: ops :: RangeBounds ;
use super :: IndexMap ;
use super :: Slice ;
# [ read_as = "539689877a9b609d2f5b57ad33de1009600504d61160960a41e73c6e90742896" ] impl < 'q , K : Eq + Hash , V , S : BuildHasher , A : Allocator > Index < & 'q K > for IndexMap < K , V , S , A > as IndexMapIndexRef {
type Output = V ;
    ghost can_index = { λ m k. ContainsKey K.eq m k.now };
    ghost index_gives = { λ m k v. get K.eq m k.now ≡ Some v };
fn index ( & self , key : & 'q K ) -> & V ;
}
# [ read_as = "a87c6abf78f18023153435d106aa25bf45904c20bf8a695cd14897b3427efd82" ] impl < 'q , B : Allocator , V , S : BuildHasher , A : Allocator > Index < & 'q str > for IndexMap < String < B > , V , S , A > as IndexMapStringIndexRefStr {
type Output = V ;
    ghost can_index = { λ m q. IsSome (get_by_text m q.now) };
    ghost index_gives = { λ m q v. get_by_text m q.now ≡ Some v };
fn index ( & self , key : & 'q str ) -> & V ;
}
# [ read_as = "ac92b923d29a9968c8db2cc2e868853f7a29f7398d2b8928844294d5c9b997c5" ] impl < K : Eq + Hash , V , S : BuildHasher , A : Allocator > IndexMut < usize > for IndexMap < K , V , S , A > as IndexMapIndexMutUsize {
fn index_mut ( & mut self , index : usize ) -> & mut V
        requires { }
        ensures* writes_back { }
        ensures value { } ;
}
# [ read_as = "dcf3bfcf7a0aaa78ae062ee145371fc35af95e2bbb9f87cd42b2d14ed5436f0e" ] impl < K : Eq + Hash , V , S : BuildHasher , A : Allocator > Index < usize > for IndexMap < K , V , S , A > as IndexMapIndexUsize {
type Output = V ;
    ghost can_index = { λ m i. i < index_map_len m };
    ghost index_gives = { λ m i v. slice_get (values m) i ≡ Some v };
fn index ( & self , index : usize ) -> & V ;
}
# [ read_as = "e2ab9e0a27312d1fa8c20e04b13fe15e6479df4c3856a11fd5837f11064f3132" ] impl < 'q , 'k , V , S : BuildHasher , A : Allocator > Index < & 'q str > for IndexMap < & 'k str , V , S , A > as IndexMapRefStrIndexRefStr {
type Output = V ;
    ghost can_index = { λ m q. IsSome (get_by (λ k. bytes_eq q.now k.now) m) };
    ghost index_gives = { λ m q v. get_by (λ k. bytes_eq q.now k.now) m ≡ Some v };
fn index ( & self , key : & 'q str ) -> & V ;
}
impl < K : Eq + Hash , V , S : BuildHasher , A : Allocator > IndexMap < K , V , S , A > {
# [ inline ( always ) ] pub fn contains_key < Q : Equivalent < K >> ( & self , key : Q ) -> bool
        ensures { } ;
pub fn first ( & self ) -> Option < ( & K , & V ) >
        ensures entry { }
        ensures found { } ;
pub fn first_mut ( & mut self ) -> Option < & mut V >
        ensures* writes_back { }
        ensures value { }
        ensures found { }
        ensures unique { } ;
# [ inline ( always ) ] pub fn get < Q : Equivalent < K >> ( & self , key : Q ) -> Option < & V >
        ensures value { }
        ensures member { } ;
# [ inline ( always ) ] pub fn get_full < Q : Equivalent < K >> ( & self , key : Q ) -> Option < ( usize , & K , & V ) >
        ensures index { }
        ensures key { }
        ensures value { }
        ensures entry { } ;
pub fn get_index ( & self , index : usize ) -> Option < ( & K , & V ) >
        ensures entry { }
        ensures found { }
        ensures value { } ;
pub fn get_index_mut ( & mut self , index : usize ) -> Option < & mut V >
        ensures* writes_back { }
        ensures value { }
        ensures found { }
        ensures unique { } ;
# [ inline ( always ) ] pub fn get_index_of < Q : Equivalent < K >> ( & self , key : Q ) -> Option < usize >
        ensures index { }
        ensures found { }
        ensures within { }
        ensures value { }
        ensures unique { } ;
# [ inline ( always ) ] pub fn get_key_value < Q : Equivalent < K >> ( & self , key : Q ) -> Option < ( & K , & V ) >
        ensures key { }
        ensures value { } ;
# [ inline ( always ) ] pub fn get_mut < Q : Equivalent < K >> ( & mut self , key : Q ) -> Option < & mut V >
        ensures* writes_back { }
        ensures value { }
        ensures member { }
        ensures unique { } ;
pub fn get_range < R : RangeBounds < usize >> ( & self , range : R ) -> Option < Slice < '_ , K , V >>
        requires { }
        ensures found { }
        ensures entries { } ;
pub fn last ( & self ) -> Option < ( & K , & V ) >
        ensures entry { }
        ensures found { } ;
pub fn last_mut ( & mut self ) -> Option < & mut V >
        ensures* writes_back { }
        ensures value { }
        ensures found { }
        ensures unique { } ;
}
