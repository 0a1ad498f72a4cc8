use atomic_table :: Join ;
use crate :: board :: Place ;
use crossbeam_utils :: rule :: Outcome ;
use crossbeam_utils :: rule :: Protocol ;
use std :: alloc :: AllocError ;
use std :: alloc :: Allocator ;
use super :: Factory ;
use super :: Reader ;
use super :: Reading ;
impl < T : Drop , V , P : Protocol < T , V > , A : Allocator > Factory < T , V , P , A > {
pub fn another ( & self ) -> Result < Factory < T , V , P , A > , AllocError >
        ensures { } ;
pub fn reader ( & self ) -> Result < Reader < T , V , P , A > , AllocError >
        requires { }
        ensures view { }
        ensures table { } ;
pub fn was_dropped ( & self ) -> bool ;
}
impl < T : Drop , V , P : Protocol < T , V > , A : Allocator > Reader < T , V , P , A > {
pub fn enter_as < M : Outcome < T , V >> ( self ) -> Result < Reading < T , V , P , A > , Reader < T , V , P , A >>
        requires { }
        ensures { } ;
pub fn factory ( & self ) -> & Factory < T , V , P , A > ;
pub fn learn < M : Join < V >> ( & mut self , note : Place < T , V > )
        requires own { }
        requires rule { }
        ensures { } ;
}
impl < T : Drop , V , P : Protocol < T , V > , A : Allocator > Reading < T , V , P , A > {
pub fn get ( & self ) -> & T
        ensures { } ;
pub fn leave ( self ) -> Reader < T , V , P , A >
        ensures { } ;
}
