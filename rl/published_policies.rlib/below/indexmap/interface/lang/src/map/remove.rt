use crate :: Equivalent ;
use std :: alloc :: Allocator ;
use std :: hash :: BuildHasher ;
use std :: hash :: Hash ;
use super :: IndexMap ;
impl < K : Eq + Hash , V , S : BuildHasher , A : Allocator > IndexMap < K , V , S , A > {
pub fn move_index ( & mut self , from : usize , to : usize )
        requires from_in_bounds { }
        requires to_in_bounds { }
        ensures entries { }
        ensures reordered { }
        ensures room { }
        ensures same_room { }
        ensures unique { } ;
pub fn pop ( & mut self ) -> Option < ( K , V ) >
        ensures entries { }
        ensures found { }
        ensures updates { }
        ensures len { }
        ensures room { }
        ensures unique { } ;
pub fn pop_if < F : FnOnce ( & K , & mut V ) -> bool > ( & mut self , predicate : F ) -> Option < ( K , V ) >
        requires { }
        ensures popped { }
        ensures room { }
        ensures unique { } ;
pub fn retain < F : FnMut ( & K , & mut V ) -> bool > ( & mut self , keep : F ) where K : Drop , V : Drop ,
        requires { }
        ensures bound { }
        ensures filtered { }
        ensures room { }
        ensures unique { } ;
pub fn reverse ( & mut self )
        ensures entries { }
        ensures reordered { }
        ensures room { }
        ensures unique { } ;
# [ inline ( always ) ] pub fn shift_remove < Q : Equivalent < K >> ( & mut self , key : Q ) -> Option < V > where K : Drop ,
        ensures value { }
        ensures updates { }
        ensures entries { }
        ensures unchanged { }
        ensures len { }
        ensures room { }
        ensures unique { } ;
# [ inline ( always ) ] pub fn shift_remove_entry < Q : Equivalent < K >> ( & mut self , key : Q ) -> Option < ( K , V ) >
        ensures key { }
        ensures value { }
        ensures updates { }
        ensures entries { }
        ensures unchanged { }
        ensures len { }
        ensures room { }
        ensures unique { } ;
# [ inline ( always ) ] pub fn shift_remove_full < Q : Equivalent < K >> ( & mut self , key : Q ) -> Option < ( usize , K , V ) >
        ensures index { }
        ensures key { }
        ensures value { }
        ensures updates { }
        ensures entries { }
        ensures unchanged { }
        ensures len { }
        ensures room { }
        ensures unique { } ;
pub fn shift_remove_index ( & mut self , index : usize ) -> Option < ( K , V ) >
        ensures entry { }
        ensures entries { }
        ensures updates { }
        ensures unchanged { }
        ensures len { }
        ensures room { }
        ensures unique { } ;
pub fn swap_indices ( & mut self , a : usize , b : usize )
        requires a_in_bounds { }
        requires b_in_bounds { }
        ensures entries { }
        ensures reordered { }
        ensures room { }
        ensures unique { } ;
# [ inline ( always ) ] pub fn swap_remove < Q : Equivalent < K >> ( & mut self , key : Q ) -> Option < V > where K : Drop ,
        ensures value { }
        ensures updates { }
        ensures entries { }
        ensures unchanged { }
        ensures len { }
        ensures room { }
        ensures unique { } ;
# [ inline ( always ) ] pub fn swap_remove_entry < Q : Equivalent < K >> ( & mut self , key : Q ) -> Option < ( K , V ) >
        ensures key { }
        ensures value { }
        ensures updates { }
        ensures entries { }
        ensures unchanged { }
        ensures len { }
        ensures room { }
        ensures unique { } ;
# [ inline ( always ) ] pub fn swap_remove_full < Q : Equivalent < K >> ( & mut self , key : Q ) -> Option < ( usize , K , V ) >
        ensures index { }
        ensures key { }
        ensures value { }
        ensures updates { }
        ensures entries { }
        ensures unchanged { }
        ensures len { }
        ensures room { }
        ensures unique { } ;
pub fn swap_remove_index ( & mut self , index : usize ) -> Option < ( K , V ) >
        ensures entry { }
        ensures entries { }
        ensures updates { }
        ensures unchanged { }
        ensures len { }
        ensures room { }
        ensures unique { } ;
}
