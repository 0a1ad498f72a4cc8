use crate :: IndexMap ;
use std :: alloc :: AllocFailed ;
use std :: alloc :: Allocator ;
use std :: default :: MadeWith ;
use std :: hash :: BuildHasher ;
use std :: hash :: Hash ;
use super :: Entry ;
use super :: IndexedEntry ;
use super :: OccupiedEntry ;
impl < 'a , K : Eq + Hash , V , S : BuildHasher , A : Allocator > Entry < 'a , K , V , S , A > {
pub fn and_modify < F : FnOnce ( & mut V ) > ( self , f : F ) -> Entry < 'a , K , V , S , A >
        requires { }
        ensures same_map { }
        ensures same_key { }
        ensures same_writes { }
        ensures same_index { }
        ensures same_swap_removal { }
        ensures same_shift_removal { }
        ensures update { } ;
pub fn index ( & self ) -> usize
        ensures { } ;
pub fn insert_entry ( self , value : V ) -> OccupiedEntry < 'a , K , V , S , A > where V : Drop ,
        ensures { } ;
pub fn key ( & self ) -> & K
        ensures { } ;
pub fn or_default ( self ) -> & 'a mut V where V : MadeWith < A > , A : Copy ,
        ensures* writes_back { }
        ensures value { } ;
pub fn or_insert ( self , default : V ) -> & 'a mut V where V : Drop ,
        ensures* writes_back { }
        ensures value { } ;
pub fn or_insert_with < F : FnOnce ( ) -> V > ( self , default : F ) -> & 'a mut V
        requires { }
        ensures* writes_back { }
        ensures value { } ;
pub fn or_insert_with_key < F : FnOnce ( & K ) -> V > ( self , default : F ) -> & 'a mut V
        requires { }
        ensures* writes_back { }
        ensures value { } ;
pub fn or_try_insert_with < E , F : FnOnce ( ) -> Result < V , E >> ( self , default : F , ) -> Result < & 'a mut V , E > where K : Drop ,
        requires { }
        ensures* writes_back { }
        ensures value { }
        ensures absent { }
        ensures err { } ;
}
impl < K : Eq + Hash , V , S : BuildHasher , A : Allocator > IndexMap < K , V , S , A > {
# [ inline ( always ) ] pub fn entry ( & mut self , key : K ) -> Result < Entry < '_ , K , V , S , A > , AllocFailed < K >> where K : Drop ,
        ensures key { }
        ensures same_key { }
        ensures value { }
        ensures index { }
        ensures found { }
        ensures same_map { }
        ensures unchanged { }
        ensures update { }
        ensures len { }
        ensures room { }
        ensures room_after_write { }
        ensures swap_removal { }
        ensures shift_removal { }
        ensures* unchanged_at_err { }
        ensures value_returned { }
        ensures absent { }
        ensures succeeds { }
        ensures unique { } ;
pub fn first_entry ( & mut self ) -> Option < IndexedEntry < '_ , K , V , S , A >>
        ensures found { }
        ensures entry { }
        ensures same_map { }
        ensures* unchanged_at_none { } ;
pub fn get_index_entry ( & mut self , index : usize ) -> Option < IndexedEntry < '_ , K , V , S , A >>
        ensures found { }
        ensures entry { }
        ensures same_map { }
        ensures* unchanged_at_none { } ;
pub fn last_entry ( & mut self ) -> Option < IndexedEntry < '_ , K , V , S , A >>
        ensures found { }
        ensures entry { }
        ensures same_map { }
        ensures* unchanged_at_none { } ;
}
