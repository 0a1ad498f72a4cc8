use std :: alloc :: AllocError ;
pub trait Absorb < O : Drop > {
type State ;
    ghost state: { Self → Self.State };
    ghost applied: { Self.State → O → Self.State };
    ghost never_fails: { Type 0 } = { ⊥ };
fn absorb_first ( & mut self , operation : & O , other : & Self ) -> Result < ( ) , AllocError >
        ensures absorbed { }
        ensures succeeds { } ;
fn absorb_second ( & mut self , operation : O , other : & Self ) -> Result < ( ) , O >
        ensures absorbed { }
        ensures succeeds { } { }
}
mod board ;
mod desk ;
mod part ;
pub mod reader ;
pub mod writer ;
