use std :: alloc :: Allocator ;
use std :: alloc :: Global ;
use std :: hash :: BuildHasher ;
use std :: hash :: BuildHasherDefault ;
use std :: hash :: FoldHasher ;
use std :: hash :: Hash ;
use std :: iter :: FusedIterator ;
use std :: ops :: RangeBounds ;
use super :: IndexMap ;
pub struct Drain < 'a , K : Eq + Hash , V , S : BuildHasher = BuildHasherDefault < FoldHasher > , A : Allocator = Global , > { map : & 'a mut IndexMap < K , V , S , A > , keep : usize , reversed : bool , frees : bool , was : usize , }
# [ read_as = "5861bb508d78a7aeadd21ca4b7672da18b0bd4a40059374a61a3b1e4bf7ae0f9" ] impl < 'a , K : Eq + Hash + Drop , V : Drop , S : BuildHasher , A : Allocator > DoubleEndedIterator for Drain < 'a , K , V , S , A > as DrainDoubleEndedIterator {
    ghost next_back_gives = { DrainStepsBack };
fn next_back ( & mut self ) -> Option < ( K , V ) > ;
}
# [ read_as = "ad59d610eb0f7431e28c8f49aa3203d8e1ffd81d8c40dfb4ebf86f59a00ae3cc" ] impl < 'a , K : Eq + Hash + Drop , V : Drop , S : BuildHasher , A : Allocator > Iterator for Drain < 'a , K , V , S , A > as DrainIterator {
type Item = ( K , V ) ;
    ghost next_gives = { DrainSteps };
    ghost remaining = { λ s. at_most (length (drain_rest s)) };
fn next ( & mut self ) -> Option < ( K , V ) > ;
fn size_hint ( & self ) -> ( usize , Option < usize > ) ;
}
# [ read_as = "c625ee3f7d64f77fd7f95cb4ce0f8c2a69e7868f08b76b4a4939082f3483e8a6" ] impl < 'a , K : Eq + Hash + Drop , V : Drop , S : BuildHasher , A : Allocator > ExactSizeIterator for Drain < 'a , K , V , S , A > as DrainExactSizeIterator {
fn len ( & self ) -> usize ;
}
# [ read_as = "e646cb6a82da05b3ac3f7495c6665b60fd5314f36ca259f16397ee4742f23785" ] impl < 'a , K : Eq + Hash + Drop , V : Drop , S : BuildHasher , A : Allocator > FusedIterator for Drain < 'a , K , V , S , A > as DrainFusedIterator {
}
impl < 'a , K : Eq + Hash + Drop , V : Drop , S : BuildHasher , A : Allocator > Drop for Drain < 'a , K , V , S , A > {
fn drop ( self )
        ensures kept { }
        ensures room { }
        ensures capacity { }
        ensures unique { } ;
}
impl < K : Eq + Hash + Drop , V : Drop , S : BuildHasher , A : Allocator > IndexMap < K , V , S , A > {
pub fn drain < R : RangeBounds < usize >> ( & mut self , range : R ) -> Drain < '_ , K , V , S , A >
        requires known { }
        requires start_le_end { }
        requires in_bounds { }
        ensures rest { }
        ensures fits { }
        ensures runs { }
        ensures runs_back { }
        ensures same_reference { }
        ensures kept { }
        ensures room { }
        ensures capacity { }
        ensures stays { } ;
}
