use std :: alloc :: AllocError ;
use std :: alloc :: AllocFailed ;
use std :: alloc :: Allocator ;
use std :: cmp :: Ordering ;
use std :: hash :: BuildHasher ;
use std :: hash :: Hash ;
use super :: IndexMap ;
use super :: IntoIter ;
impl < K : Eq + Hash , V , S : BuildHasher , A : Allocator + Copy > IndexMap < K , V , S , A > {
pub fn sort_by < F : Fn ( & K , & V , & K , & V ) -> Ordering > ( & mut self , cmp : F ) -> Result < ( ) , AllocError >
        requires { }
        ensures sorted { }
        ensures stable { }
        ensures reordered { }
        ensures err { }
        ensures room { }
        ensures unique { } ;
pub fn sort_by_key < T : Ord + Drop , F : Fn ( & K , & V ) -> T > ( & mut self , sort_key : F , ) -> Result < ( ) , AllocError >
        requires { }
        ensures sorted { }
        ensures stable { }
        ensures reordered { }
        ensures err { }
        ensures room { }
        ensures unique { } ;
pub fn sort_keys ( & mut self ) -> Result < ( ) , AllocError > where K : Ord ,
        ensures sorted { }
        ensures reordered { }
        ensures err { }
        ensures room { }
        ensures unique { } ;
pub fn sort_unstable_by < F : Fn ( & K , & V , & K , & V ) -> Ordering > ( & mut self , cmp : F , ) -> Result < ( ) , AllocError >
        requires { }
        ensures sorted { }
        ensures reordered { }
        ensures err { }
        ensures room { }
        ensures unique { } ;
pub fn sort_unstable_by_key < T : Ord + Drop , F : Fn ( & K , & V ) -> T > ( & mut self , sort_key : F , ) -> Result < ( ) , AllocError >
        requires { }
        ensures sorted { }
        ensures reordered { }
        ensures err { }
        ensures room { }
        ensures unique { } ;
pub fn sort_unstable_keys ( & mut self ) -> Result < ( ) , AllocError > where K : Ord ,
        ensures sorted { }
        ensures reordered { }
        ensures err { }
        ensures room { }
        ensures unique { } ;
pub fn sorted_by < F : Fn ( & K , & V , & K , & V ) -> Ordering > ( self , cmp : F , ) -> Result < IntoIter < K , V , A > , AllocFailed < Self >> where S : Drop ,
        requires { }
        ensures permutation { }
        ensures sorted { }
        ensures stable { }
        ensures runs { }
        ensures runs_back { }
        ensures value_returned { } ;
pub fn sorted_unstable_by < F : Fn ( & K , & V , & K , & V ) -> Ordering > ( self , cmp : F , ) -> Result < IntoIter < K , V , A > , AllocFailed < Self >> where S : Drop ,
        requires { }
        ensures permutation { }
        ensures sorted { }
        ensures runs { }
        ensures runs_back { }
        ensures value_returned { } ;
}
impl < K : Eq + Hash , V , S : BuildHasher , A : Allocator > IndexMap < K , V , S , A > {
pub fn binary_search_by < F : FnMut ( & K , & V ) -> Ordering > ( & self , f : F ) -> Result < usize , usize >
        requires { }
        ensures bound { }
        ensures position { } ;
pub fn binary_search_by_key < B : Ord + Drop , F : Fn ( & K , & V ) -> B > ( & self , b : & B , f : F , ) -> Result < usize , usize >
        requires { }
        ensures bound { }
        ensures position { } ;
pub fn binary_search_keys ( & self , x : & K ) -> Result < usize , usize > where K : Ord ,
        ensures bound { }
        ensures ok { }
        ensures position { } ;
pub fn is_sorted ( & self ) -> bool where K : PartialOrd ,
        ensures { } ;
pub fn is_sorted_by < F : FnMut ( & K , & V , & K , & V ) -> bool > ( & self , compare : F ) -> bool
        requires { }
        ensures cases { } ;
pub fn partition_point < P : Fn ( & K , & V ) -> bool > ( & self , pred : P ) -> usize
        requires { }
        ensures bound { }
        ensures partitioned { } ;
}
