use std :: alloc :: AllocFailed ;
use std :: alloc :: Allocator ;
use std :: cmp :: Ordering ;
use std :: hash :: BuildHasher ;
use std :: hash :: Hash ;
use super :: IndexMap ;
impl < K : Eq + Hash + Drop , V , S : BuildHasher , A : Allocator > IndexMap < K , V , S , A > {
# [ inline ( always ) ] pub fn insert ( & mut self , key : K , value : V ) -> Result < Option < V > , AllocFailed < ( K , V ) >>
        ensures old { }
        ensures updates { }
        ensures entries { }
        ensures len { }
        ensures value_returned { }
        ensures err { }
        ensures absent { }
        ensures succeeds { }
        ensures spare { }
        ensures hasher { }
        ensures unique { } ;
pub fn insert_before ( & mut self , index : usize , key : K , value : V , ) -> Result < ( usize , Option < V > ) , AllocFailed < ( K , V ) >>
        requires { }
        ensures old { }
        ensures updates { }
        ensures entries { }
        ensures len { }
        ensures index { }
        ensures value_returned { }
        ensures err { }
        ensures absent { }
        ensures succeeds { }
        ensures spare { }
        ensures hasher { }
        ensures unique { } ;
# [ inline ( always ) ] pub fn insert_full ( & mut self , key : K , value : V , ) -> Result < ( usize , Option < V > ) , AllocFailed < ( K , V ) >>
        ensures index { }
        ensures within { }
        ensures old { }
        ensures updates { }
        ensures entries { }
        ensures len { }
        ensures value_returned { }
        ensures err { }
        ensures absent { }
        ensures succeeds { }
        ensures spare { }
        ensures hasher { }
        ensures unique { } ;
pub fn insert_sorted ( & mut self , key : K , value : V , ) -> Result < ( usize , Option < V > ) , AllocFailed < ( K , V ) >> where K : Ord ,
        ensures old { }
        ensures updates { }
        ensures entries { }
        ensures index { }
        ensures sorted { }
        ensures len { }
        ensures value_returned { }
        ensures err { }
        ensures absent { }
        ensures succeeds { }
        ensures spare { }
        ensures hasher { }
        ensures unique { } ;
pub fn insert_sorted_by < F : Fn ( & K , & V , & K , & V ) -> Ordering > ( & mut self , key : K , value : V , cmp : F , ) -> Result < ( usize , Option < V > ) , AllocFailed < ( K , V ) >>
        requires { }
        ensures old { }
        ensures updates { }
        ensures entries { }
        ensures index { }
        ensures len { }
        ensures value_returned { }
        ensures err { }
        ensures absent { }
        ensures succeeds { }
        ensures spare { }
        ensures hasher { }
        ensures unique { } ;
pub fn insert_sorted_by_key < B : Ord + Drop , F : Fn ( & K , & V ) -> B > ( & mut self , key : K , value : V , sort_key : F , ) -> Result < ( usize , Option < V > ) , AllocFailed < ( K , V ) >>
        requires { }
        ensures old { }
        ensures updates { }
        ensures entries { }
        ensures index { }
        ensures len { }
        ensures value_returned { }
        ensures err { }
        ensures absent { }
        ensures succeeds { }
        ensures spare { }
        ensures hasher { }
        ensures unique { } ;
pub fn shift_insert ( & mut self , index : usize , key : K , value : V , ) -> Result < Option < V > , AllocFailed < ( K , V ) >>
        requires in_bounds { }
        requires below_len { }
        ensures old { }
        ensures updates { }
        ensures entries { }
        ensures len { }
        ensures value_returned { }
        ensures err { }
        ensures absent { }
        ensures succeeds { }
        ensures spare { }
        ensures hasher { }
        ensures unique { } ;
}
