use atomic_table :: Split ;
use crate :: Absorb ;
use crate :: board :: Place ;
use crate :: reader :: Factory ;
use crossbeam_utils :: rule :: Outcome ;
use crossbeam_utils :: rule :: Protocol ;
use std :: alloc :: AllocError ;
use std :: alloc :: Allocator ;
use std :: sync :: Wait ;
use super :: Writer ;
impl < T : Absorb < O > + Drop , O : Drop , V , P : Protocol < T , V > , A : Allocator > Writer < T , O , V , P , A > {
pub fn append ( & mut self , op : O ) -> Result < ( ) , O >
        ensures desk { }
        ensures pending { } ;
pub fn factory ( & self ) -> & Factory < T , V , P , A >
        ensures { } ;
pub fn has_pending_operations ( & self ) -> bool
        ensures { } ;
pub fn new ( alloc : A , first : T , second : T , readers : usize , ) -> Result < Writer < T , O , V , P , A > , AllocError > where A : Clone ,
        requires readers { }
        requires alike { }
        requires rule { }
        ensures { } ;
pub fn publish_as < M : Outcome < T , V > , R : Wait > ( self , rt : & R , ) -> ( Writer < T , O , V , P , A > , Result < ( ) , AllocError > )
        requires { }
        ensures seat { }
        ensures succeeds { }
        ensures values { }
        ensures rule { } ;
pub fn published ( & self ) -> & T
        ensures { } ;
pub fn take < R : Wait > ( self , rt : & R ) -> Box < T , A >
        ensures { } ;
pub fn tell < M : Split < V >> ( & mut self ) -> Place < T , V >
        requires { }
        ensures kept { }
        ensures given { } ;
}
