use crate :: Absorb ;
use crate :: desk :: Desk ;
use crossbeam_utils :: rule :: Protocol ;
use std :: alloc :: Allocator ;
use std :: alloc :: Global ;
use std :: collections :: VecDeque ;
pub struct Writer < T : Absorb < O > + Drop , O : Drop , V , P : Protocol < T , V > , A : Allocator = Global > { pub desk : Desk < T , V , P , A > , log : VecDeque < O , A > , behind : usize , ahead : usize ,
    ghost in_step: { ∥ InStep T.applied (T.state desk.shown.value) (T.state desk.spare.value) log.items behind ahead ∥₁ } , }
mod steps ;
