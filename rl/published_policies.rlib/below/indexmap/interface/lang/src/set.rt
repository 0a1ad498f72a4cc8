pub use iter :: IntoIter ;
pub use iter :: Iter ;
use crate :: Equivalent ;
use crate :: IndexMap ;
use std :: alloc :: AllocError ;
use std :: alloc :: Allocator ;
use std :: alloc :: Global ;
use std :: hash :: BuildHasher ;
use std :: hash :: BuildHasherDefault ;
use std :: hash :: FoldHasher ;
use std :: hash :: Hash ;
use std :: marker :: Model ;
use std :: ops :: RangeBounds ;
# [ derive ( Drop ) ] pub struct IndexSet < T : Eq + Hash , S : BuildHasher = BuildHasherDefault < FoldHasher > , A : Allocator = Global , > { map : IndexMap < T , ( ) , S , A > , }
mod algebra ;
mod drain ;
mod insert ;
mod iter ;
mod remove ;
mod sort ;
mod traits ;
impl < T : Eq + Hash , A : Allocator + Copy > IndexSet < T , BuildHasherDefault < FoldHasher > , A > {
pub fn new ( alloc : A ) -> Self
        ensures empty { }
        ensures len { }
        ensures unique { } ;
pub fn with_capacity ( alloc : A , n : usize ) -> Result < Self , AllocError >
        ensures empty { }
        ensures len { }
        ensures spare { }
        ensures unique { }
        ensures succeeds { } ;
}
impl < T : Eq + Hash , S : BuildHasher , A : Allocator + Copy > IndexSet < T , S , A > {
pub fn split_off ( & mut self , at : usize ) -> Result < Self , AllocError > where S : Clone ,
        requires { }
        ensures kept { }
        ensures tail { }
        ensures tail_hasher { }
        ensures tail_unique { }
        ensures err { }
        ensures room { }
        ensures capacity { }
        ensures unique { } ;
pub fn with_capacity_and_hasher ( alloc : A , n : usize , hash_builder : S ) -> Result < Self , AllocError > where S : Drop ,
        ensures empty { }
        ensures len { }
        ensures spare { }
        ensures hasher { }
        ensures unique { }
        ensures succeeds { } ;
pub fn with_hasher ( alloc : A , hash_builder : S ) -> Self
        ensures empty { }
        ensures len { }
        ensures hasher { }
        ensures unique { } ;
}
impl < T : Eq + Hash , S : BuildHasher , A : Allocator > IndexSet < T , S , A > {
pub fn allocator ( & self ) -> & A ;
pub fn append < S2 : BuildHasher > ( & mut self , other : & mut IndexSet < T , S2 , A > , ) -> Result < ( ) , AllocError > where T : Drop ,
        ensures keys { }
        ensures inserts { }
        ensures emptied { }
        ensures err { }
        ensures other_err { }
        ensures succeeds { }
        ensures hasher { }
        ensures room { }
        ensures other_room { }
        ensures other_capacity { } ;
pub fn as_slice ( & self ) -> & [ T ]
        ensures keys { }
        ensures unique { } ;
pub fn capacity ( & self ) -> usize
        ensures { } ;
pub fn clear ( & mut self ) where T : Drop ,
        ensures empty { }
        ensures len { }
        ensures capacity { }
        ensures hasher { }
        ensures unique { } ;
pub fn contains < Q : Equivalent < T >> ( & self , value : Q ) -> bool
        ensures { } ;
pub fn destroy_empty ( self ) where S : Drop ,
        requires { } ;
pub fn first ( & self ) -> Option < & T >
        ensures key { }
        ensures found { } ;
pub fn get < Q : Equivalent < T >> ( & self , value : Q ) -> Option < & T >
        ensures key { }
        ensures found { } ;
pub fn get_full < Q : Equivalent < T >> ( & self , value : Q ) -> Option < ( usize , & T ) >
        ensures index { }
        ensures key { }
        ensures found { }
        ensures stored { } ;
pub fn get_index ( & self , index : usize ) -> Option < & T >
        ensures key { }
        ensures found { } ;
pub fn get_index_of < Q : Equivalent < T >> ( & self , value : Q ) -> Option < usize >
        ensures index { }
        ensures found { }
        ensures within { } ;
pub fn get_range < R : RangeBounds < usize >> ( & self , range : R ) -> Option < & [ T ] >
        requires { }
        ensures found { }
        ensures keys { } ;
pub fn hasher ( & self ) -> & S
        ensures { } ;
pub fn is_empty ( & self ) -> bool
        ensures { } ;
pub fn iter ( & self ) -> Iter < '_ , T >
        ensures rest { }
        ensures len { }
        ensures runs { }
        ensures runs_back { }
        ensures unique { }
        ensures fits { } ;
pub fn last ( & self ) -> Option < & T >
        ensures key { }
        ensures found { } ;
pub fn len ( & self ) -> usize
        ensures len { }
        ensures small { }
        ensures unique { } ;
pub fn reserve ( & mut self , additional : usize ) -> Result < ( ) , AllocError >
        ensures keys { }
        ensures ok { }
        ensures succeeds { }
        ensures room { }
        ensures unique { } ;
pub fn reserve_exact ( & mut self , additional : usize ) -> Result < ( ) , AllocError >
        ensures keys { }
        ensures ok { }
        ensures succeeds { }
        ensures room { } ;
pub fn shrink_to ( & mut self , min_capacity : usize )
        ensures keys { }
        ensures lower_bound { }
        ensures hasher { } ;
pub fn shrink_to_fit ( & mut self )
        ensures keys { }
        ensures hasher { } ;
pub fn truncate ( & mut self , len : usize ) where T : Drop ,
        ensures keys { }
        ensures len { }
        ensures room { }
        ensures capacity { }
        ensures unique { } ;
}
impl < T : Eq + Hash , S : BuildHasher , A : Allocator > Model for IndexSet < T , S , A > {
    ghost use Rattle.indexmap.specs.IndexSet.{IndexSet as Keys};
    ghost use Rattle.indexmap.specs.Layout.{key_set, hash_set_code};
    ghost Value = { Keys T S };
    ghost coded = { hash_set_code T.code S.code };
    ghost view = { λ s. key_set s.map };
}
