use std :: alloc :: Allocator ;
use std :: alloc :: Global ;
use std :: hash :: BuildHasher ;
use std :: hash :: BuildHasherDefault ;
use std :: hash :: FoldHasher ;
use std :: hash :: Hash ;
use std :: iter :: FusedIterator ;
use std :: ops :: RangeBounds ;
use super :: IndexSet ;
pub struct Drain < 'a , T : Eq + Hash , S : BuildHasher = BuildHasherDefault < FoldHasher > , A : Allocator = Global , > { set : & 'a mut IndexSet < T , S , A > , keep : usize , reversed : bool , frees : bool , was : usize , }
# [ read_as = "4132258f86e28c96127330d47d188a346276b66a5211cfabedeb5d337b9160a1" ] impl < 'a , T : Eq + Hash + Drop , S : BuildHasher , A : Allocator > DoubleEndedIterator for Drain < 'a , T , S , A > as DrainDoubleEndedIterator {
    ghost next_back_gives = { DrainStepsBack };
fn next_back ( & mut self ) -> Option < T > ;
}
# [ read_as = "6eac6ffb5e22d55f78b5728588dd2fdd35e9119c6de1bb1cc956b82240339ae9" ] impl < 'a , T : Eq + Hash + Drop , S : BuildHasher , A : Allocator > ExactSizeIterator for Drain < 'a , T , S , A > as DrainExactSizeIterator {
fn len ( & self ) -> usize ;
}
# [ read_as = "9e7414b17708fd116a51fec34e0f35d3529e585da6a05e573558eee6e07145a9" ] impl < 'a , T : Eq + Hash + Drop , S : BuildHasher , A : Allocator > Iterator for Drain < 'a , T , S , A > as DrainIterator {
type Item = T ;
    ghost next_gives = { DrainSteps };
    ghost remaining = { λ s. at_most (length (drain_rest s)) };
fn next ( & mut self ) -> Option < T > ;
fn size_hint ( & self ) -> ( usize , Option < usize > ) ;
}
# [ read_as = "f3f8a59342b66f92165a251595af27bcd4be564b64313dc85879ce9f5efd1bd8" ] impl < 'a , T : Eq + Hash + Drop , S : BuildHasher , A : Allocator > FusedIterator for Drain < 'a , T , S , A > as DrainFusedIterator {
}
impl < 'a , T : Eq + Hash + Drop , S : BuildHasher , A : Allocator > Drop for Drain < 'a , T , S , A > {
fn drop ( self )
        ensures kept { }
        ensures room { }
        ensures capacity { }
        ensures unique { } ;
}
impl < T : Eq + Hash + Drop , S : BuildHasher , A : Allocator > IndexSet < T , S , A > {
pub fn drain < R : RangeBounds < usize >> ( & mut self , range : R ) -> Drain < '_ , T , S , A >
        requires known { }
        requires start_le_end { }
        requires in_bounds { }
        ensures rest { }
        ensures fits { }
        ensures runs { }
        ensures runs_back { }
        ensures same_reference { }
        ensures kept { }
        ensures room { }
        ensures capacity { }
        ensures stays { } ;
}
