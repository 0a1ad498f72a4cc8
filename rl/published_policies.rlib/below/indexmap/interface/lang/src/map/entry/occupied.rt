use std :: alloc :: Allocator ;
use std :: hash :: BuildHasher ;
use std :: hash :: Hash ;
use super :: OccupiedEntry ;
impl < 'a , K : Eq + Hash , V , S : BuildHasher , A : Allocator > OccupiedEntry < 'a , K , V , S , A > {
pub fn get ( & self ) -> & V
        ensures { } ;
pub fn get_mut ( & mut self ) -> & mut V
        ensures* writes_back { }
        ensures value { }
        ensures written { } ;
pub fn index ( & self ) -> usize
        ensures { } ;
pub fn insert ( & mut self , value : V ) -> V
        ensures old { }
        ensures written { } ;
pub fn into_mut ( self ) -> & 'a mut V
        ensures* writes_back { }
        ensures value { } ;
pub fn key ( & self ) -> & K
        ensures { } ;
pub fn move_index ( self , to : usize )
        requires { }
        ensures entries { }
        ensures reordered { }
        ensures room { } ;
pub fn shift_remove ( self ) -> V where K : Drop ,
        ensures value { }
        ensures removed { }
        ensures room { } ;
pub fn shift_remove_entry ( self ) -> ( K , V )
        ensures key { }
        ensures value { }
        ensures removed { }
        ensures room { } ;
pub fn swap_indices ( self , other : usize )
        requires { }
        ensures entries { }
        ensures reordered { }
        ensures room { } ;
pub fn swap_remove ( self ) -> V where K : Drop ,
        ensures value { }
        ensures removed { }
        ensures room { } ;
pub fn swap_remove_entry ( self ) -> ( K , V )
        ensures key { }
        ensures value { }
        ensures removed { }
        ensures room { } ;
}
