use std :: alloc :: AllocError ;
use std :: alloc :: AllocFailed ;
use std :: alloc :: Allocator ;
use std :: cmp :: Ordering ;
use std :: hash :: BuildHasher ;
use std :: hash :: Hash ;
use super :: IndexSet ;
use super :: IntoIter ;
impl < T : Eq + Hash , S : BuildHasher , A : Allocator + Copy > IndexSet < T , S , A > {
pub fn sort ( & mut self ) -> Result < ( ) , AllocError > where T : Ord ,
        ensures sorted { }
        ensures reordered { }
        ensures err { }
        ensures room { }
        ensures unique { } ;
pub fn sort_by < F : Fn ( & T , & T ) -> Ordering > ( & mut self , cmp : F ) -> Result < ( ) , AllocError >
        requires { }
        ensures sorted { }
        ensures stable { }
        ensures reordered { }
        ensures err { }
        ensures room { }
        ensures unique { } ;
pub fn sort_by_key < K : Ord + Drop , F : Fn ( & T ) -> K > ( & mut self , sort_key : F , ) -> Result < ( ) , AllocError >
        requires { }
        ensures sorted { }
        ensures stable { }
        ensures reordered { }
        ensures err { }
        ensures room { }
        ensures unique { } ;
pub fn sort_unstable ( & mut self ) -> Result < ( ) , AllocError > where T : Ord ,
        ensures sorted { }
        ensures reordered { }
        ensures err { }
        ensures room { }
        ensures unique { } ;
pub fn sort_unstable_by < F : Fn ( & T , & T ) -> Ordering > ( & mut self , cmp : F ) -> Result < ( ) , AllocError >
        requires { }
        ensures sorted { }
        ensures reordered { }
        ensures err { }
        ensures room { }
        ensures unique { } ;
pub fn sort_unstable_by_key < K : Ord + Drop , F : Fn ( & T ) -> K > ( & mut self , sort_key : F , ) -> Result < ( ) , AllocError >
        requires { }
        ensures sorted { }
        ensures reordered { }
        ensures err { }
        ensures room { }
        ensures unique { } ;
pub fn sorted_by < F : Fn ( & T , & T ) -> Ordering > ( self , cmp : F , ) -> Result < IntoIter < T , A > , AllocFailed < Self >> where S : Drop ,
        requires { }
        ensures permutation { }
        ensures sorted { }
        ensures stable { }
        ensures runs { }
        ensures runs_back { }
        ensures value_returned { } ;
pub fn sorted_unstable_by < F : Fn ( & T , & T ) -> Ordering > ( self , cmp : F , ) -> Result < IntoIter < T , A > , AllocFailed < Self >> where S : Drop ,
        requires { }
        ensures permutation { }
        ensures sorted { }
        ensures runs { }
        ensures runs_back { }
        ensures value_returned { } ;
}
impl < T : Eq + Hash , S : BuildHasher , A : Allocator > IndexSet < T , S , A > {
pub fn binary_search ( & self , x : & T ) -> Result < usize , usize > where T : Ord ,
        ensures bound { }
        ensures ok { }
        ensures position { } ;
pub fn binary_search_by < F : FnMut ( & T ) -> Ordering > ( & self , f : F ) -> Result < usize , usize >
        requires { }
        ensures bound { }
        ensures position { } ;
pub fn binary_search_by_key < B : Ord , F : FnMut ( & T ) -> B > ( & self , b : & B , f : F , ) -> Result < usize , usize > where B : Drop ,
        requires { }
        ensures bound { }
        ensures position { } ;
pub fn is_sorted ( & self ) -> bool where T : PartialOrd ,
        ensures { } ;
pub fn is_sorted_by < F : FnMut ( & T , & T ) -> bool > ( & self , cmp : F ) -> bool
        requires { }
        ensures { } ;
pub fn is_sorted_by_key < K : PartialOrd + Drop , F : Fn ( & T ) -> K > ( & self , f : F ) -> bool
        requires { }
        ensures { } ;
pub fn partition_point < P : FnMut ( & T ) -> bool > ( & self , pred : P ) -> usize
        requires { }
        ensures bound { }
        ensures partitioned { } ;
}
