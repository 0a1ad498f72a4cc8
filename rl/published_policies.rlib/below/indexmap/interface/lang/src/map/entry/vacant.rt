use std :: alloc :: Allocator ;
use std :: hash :: BuildHasher ;
use std :: hash :: Hash ;
use super :: OccupiedEntry ;
use super :: VacantEntry ;
impl < 'a , K : Eq + Hash , V , S : BuildHasher , A : Allocator > VacantEntry < 'a , K , V , S , A > {
pub fn index ( & self ) -> usize
        ensures { } ;
pub fn insert ( self , value : V ) -> & 'a mut V
        ensures* writes_back { }
        ensures value { } ;
pub fn insert_entry ( self , value : V ) -> OccupiedEntry < 'a , K , V , S , A >
        ensures { } ;
pub fn into_key ( self ) -> K
        ensures key { }
        ensures unchanged { } ;
pub fn key ( & self ) -> & K
        ensures { } ;
pub fn shift_insert ( self , index : usize , value : V ) -> & 'a mut V
        requires { }
        ensures* writes_back { }
        ensures value { }
        ensures inserted { } ;
pub fn sorted_index ( & self ) -> usize where K : Ord ,
        ensures { } ;
}
