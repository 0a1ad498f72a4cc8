use std :: alloc :: Allocator ;
use std :: marker :: Model ;
pub struct Deed < T , A : Allocator > { ptr : * mut T , alloc : A ,
    pub ghost value: { T } ,
    pub ghost round: { ℕ } , }
# [ derive ( Drop ) ] pub struct Part < T > { ptr : * const T ,
    pub ghost value: { T } ,
    pub ghost round: { ℕ } ,
    pub ghost count: { ℕ } , }
impl < T , A : Allocator > Model for Deed < T , A > {
    ghost also_owns = { λ d. deed_owns (A.dealloc_token d.alloc) T.row d.ptr d.value d.round };
}
impl < T > Model for Part < T > {
    ghost also_owns = { λ p. part_owns T.row p.ptr p.value p.round p.count };
    ghost also_shares = { λ p _ κ. part_shares T.row p.ptr p.value p.round κ };
}
impl < T > Part < T > {
pub fn get ( & self ) -> & T
        ensures { } ;
pub fn join ( & mut self , other : Part < T > )
        requires { }
        ensures { } ;
pub fn split_one ( & mut self ) -> Part < T >
        requires { }
        ensures { } ;
}
unsafe impl < T : Send , A : Allocator + Send > Send for Deed < T , A > {
}
unsafe impl < T : Sync > Send for Part < T > {
}
unsafe impl < T : Sync > Sync for Part < T > {
}
