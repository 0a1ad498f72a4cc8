use std :: alloc :: Allocator ;
use std :: hash :: BuildHasher ;
use std :: hash :: Hash ;
use super :: IndexMap ;
impl < K : Eq + Hash , V , S : BuildHasher , A : Allocator > IndexMap < K , V , S , A > {
pub fn pair_mut ( & mut self , i : usize ) -> ( & K , & mut V )
        requires { }
        ensures* writes_back { }
        ensures value { }
        ensures unique { } ;
}
