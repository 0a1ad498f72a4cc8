use atomic_table :: Split ;
use crate :: board :: Place ;
use crossbeam_utils :: rule :: Outcome ;
use crossbeam_utils :: rule :: Protocol ;
use std :: alloc :: AllocError ;
use std :: alloc :: Allocator ;
use std :: sync :: Wait ;
use super :: Desk ;
use super :: Open ;
impl < T : Drop , V , P : Protocol < T , V > , A : Allocator > Desk < T , V , P , A > {
pub fn open < R : Wait > ( self , rt : & R ) -> ( Open < T , V , P , A > , Box < T , A > )
        ensures values { }
        ensures seat { } ;
pub fn tell < M : Split < V >> ( & mut self ) -> Place < T , V >
        requires { }
        ensures kept { }
        ensures given { } ;
}
impl < T : Drop , V , P : Protocol < T , V > , A : Allocator > Open < T , V , P , A > {
pub fn close < R : Wait > ( self , rt : & R ) -> Box < T , A >
        ensures { } ;
pub fn new ( alloc : A , first : T , readers : usize ) -> Result < Open < T , V , P , A > , AllocError > where A : Clone ,
        requires { }
        ensures { } ;
pub fn shelve ( self , spare : Box < T , A > ) -> Desk < T , V , P , A >
        ensures { } ;
pub fn show_as < M : Outcome < T , V >> ( self , next : Box < T , A > ) -> Desk < T , V , P , A >
        requires { }
        ensures values { }
        ensures rule { } ;
}
