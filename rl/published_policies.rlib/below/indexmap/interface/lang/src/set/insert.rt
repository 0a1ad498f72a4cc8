use std :: alloc :: AllocFailed ;
use std :: alloc :: Allocator ;
use std :: hash :: BuildHasher ;
use std :: hash :: Hash ;
use super :: IndexSet ;
impl < T : Eq + Hash + Drop , S : BuildHasher , A : Allocator > IndexSet < T , S , A > {
# [ inline ( always ) ] pub fn insert ( & mut self , value : T ) -> Result < bool , AllocFailed < T >>
        ensures added { }
        ensures updates { }
        ensures keys { }
        ensures len { }
        ensures value_returned { }
        ensures err { }
        ensures absent { }
        ensures succeeds { }
        ensures spare { }
        ensures hasher { }
        ensures unique { } ;
pub fn insert_before ( & mut self , index : usize , value : T ) -> Result < ( usize , bool ) , AllocFailed < T >>
        requires { }
        ensures added { }
        ensures updates { }
        ensures keys { }
        ensures len { }
        ensures index { }
        ensures value_returned { }
        ensures err { }
        ensures absent { }
        ensures succeeds { }
        ensures spare { }
        ensures hasher { }
        ensures unique { } ;
# [ inline ( always ) ] pub fn insert_full ( & mut self , value : T ) -> Result < ( usize , bool ) , AllocFailed < T >>
        ensures added { }
        ensures updates { }
        ensures keys { }
        ensures len { }
        ensures index { }
        ensures within { }
        ensures stored { }
        ensures value_returned { }
        ensures err { }
        ensures absent { }
        ensures succeeds { }
        ensures spare { }
        ensures hasher { }
        ensures unique { } ;
pub fn insert_sorted ( & mut self , value : T ) -> Result < ( usize , bool ) , AllocFailed < T >> where T : Ord ,
        ensures added { }
        ensures updates { }
        ensures keys { }
        ensures index { }
        ensures sorted { }
        ensures len { }
        ensures value_returned { }
        ensures err { }
        ensures absent { }
        ensures succeeds { }
        ensures spare { }
        ensures hasher { }
        ensures unique { } ;
pub fn insert_sorted_by_key < B : Ord + Drop , F : Fn ( & T ) -> B > ( & mut self , value : T , sort_key : F , ) -> Result < ( usize , bool ) , AllocFailed < T >>
        requires { }
        ensures added { }
        ensures updates { }
        ensures keys { }
        ensures index { }
        ensures len { }
        ensures value_returned { }
        ensures err { }
        ensures absent { }
        ensures succeeds { }
        ensures spare { }
        ensures hasher { }
        ensures unique { } ;
pub fn replace ( & mut self , value : T ) -> Result < Option < T > , AllocFailed < T >>
        ensures old { }
        ensures updates { }
        ensures keys { }
        ensures len { }
        ensures value_returned { }
        ensures err { }
        ensures absent { }
        ensures succeeds { }
        ensures spare { }
        ensures hasher { }
        ensures unique { } ;
pub fn replace_full ( & mut self , value : T ) -> Result < ( usize , Option < T > ) , AllocFailed < T >>
        ensures index { }
        ensures old { }
        ensures updates { }
        ensures keys { }
        ensures len { }
        ensures value_returned { }
        ensures err { }
        ensures absent { }
        ensures succeeds { }
        ensures spare { }
        ensures hasher { }
        ensures unique { } ;
pub fn shift_insert ( & mut self , index : usize , value : T ) -> Result < bool , AllocFailed < T >>
        requires in_bounds { }
        requires below_len { }
        ensures added { }
        ensures updates { }
        ensures keys { }
        ensures len { }
        ensures value_returned { }
        ensures err { }
        ensures absent { }
        ensures succeeds { }
        ensures spare { }
        ensures hasher { }
        ensures unique { } ;
}
