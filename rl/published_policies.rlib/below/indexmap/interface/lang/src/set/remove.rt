use crate :: Equivalent ;
use std :: alloc :: Allocator ;
use std :: hash :: BuildHasher ;
use std :: hash :: Hash ;
use super :: IndexSet ;
impl < T : Eq + Hash , S : BuildHasher , A : Allocator > IndexSet < T , S , A > {
pub fn move_index ( & mut self , from : usize , to : usize )
        requires from_in_bounds { }
        requires to_in_bounds { }
        ensures keys { }
        ensures reordered { }
        ensures room { }
        ensures unique { } ;
pub fn pop ( & mut self ) -> Option < T >
        ensures keys { }
        ensures found { }
        ensures updates { }
        ensures len { }
        ensures room { }
        ensures unique { } ;
pub fn pop_if < F : FnOnce ( & T ) -> bool > ( & mut self , predicate : F ) -> Option < T >
        requires { }
        ensures popped { }
        ensures room { }
        ensures unique { } ;
pub fn retain < F : FnMut ( & T ) -> bool > ( & mut self , keep : F ) where T : Drop ,
        requires { }
        ensures bound { }
        ensures filtered { }
        ensures room { }
        ensures unique { } ;
pub fn reverse ( & mut self )
        ensures keys { }
        ensures reordered { }
        ensures room { }
        ensures unique { } ;
pub fn shift_remove < Q : Equivalent < T >> ( & mut self , value : Q ) -> bool where T : Drop ,
        ensures found { }
        ensures updates { }
        ensures keys { }
        ensures unchanged { }
        ensures len { }
        ensures room { }
        ensures unique { } ;
pub fn shift_remove_full < Q : Equivalent < T >> ( & mut self , value : Q ) -> Option < ( usize , T ) >
        ensures index { }
        ensures key { }
        ensures found { }
        ensures updates { }
        ensures keys { }
        ensures unchanged { }
        ensures len { }
        ensures room { }
        ensures unique { } ;
pub fn shift_remove_index ( & mut self , index : usize ) -> Option < T >
        ensures key { }
        ensures keys { }
        ensures updates { }
        ensures unchanged { }
        ensures len { }
        ensures room { }
        ensures unique { } ;
pub fn shift_take < Q : Equivalent < T >> ( & mut self , value : Q ) -> Option < T >
        ensures key { }
        ensures found { }
        ensures updates { }
        ensures keys { }
        ensures unchanged { }
        ensures len { }
        ensures room { }
        ensures unique { } ;
pub fn swap_indices ( & mut self , a : usize , b : usize )
        requires a_in_bounds { }
        requires b_in_bounds { }
        ensures keys { }
        ensures reordered { }
        ensures room { }
        ensures unique { } ;
pub fn swap_remove < Q : Equivalent < T >> ( & mut self , value : Q ) -> bool where T : Drop ,
        ensures found { }
        ensures updates { }
        ensures keys { }
        ensures unchanged { }
        ensures len { }
        ensures room { }
        ensures unique { } ;
pub fn swap_remove_full < Q : Equivalent < T >> ( & mut self , value : Q ) -> Option < ( usize , T ) >
        ensures index { }
        ensures key { }
        ensures found { }
        ensures updates { }
        ensures keys { }
        ensures unchanged { }
        ensures len { }
        ensures room { }
        ensures unique { } ;
pub fn swap_remove_index ( & mut self , index : usize ) -> Option < T >
        ensures key { }
        ensures keys { }
        ensures updates { }
        ensures unchanged { }
        ensures len { }
        ensures room { }
        ensures unique { } ;
pub fn swap_take < Q : Equivalent < T >> ( & mut self , value : Q ) -> Option < T >
        ensures key { }
        ensures found { }
        ensures updates { }
        ensures keys { }
        ensures unchanged { }
        ensures len { }
        ensures room { }
        ensures unique { } ;
}
