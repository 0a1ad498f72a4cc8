use std :: alloc :: Allocator ;
use std :: fmt ;
use std :: hash :: BuildHasher ;
use std :: hash :: Hash ;
use std :: iter :: FusedIterator ;
use std :: slice ;
use super :: IndexMap ;
# [ derive ( Drop ) ] pub struct IterMut < 'a , K , V > { keys : slice :: Iter < 'a , K > , vals : slice :: IterMut < 'a , V > , }
# [ derive ( Drop ) ] pub struct ValuesMut < 'a , K , V > { inner : slice :: IterMut < 'a , V > , marker : & 'a [ K ] , }
# [ read_as = "013d521c5c7506239e5c7463403652998317659d2da9ecac1b44219dc11fd4d5" ] impl < 'a , K , V > ExactSizeIterator for ValuesMut < 'a , K , V > as ValuesMutExactSizeIterator {
fn len ( & self ) -> usize ;
}
# [ read_as = "046caab28742787b41c92f83c5ad352fe98b922b5dfe7494806c4efca02a7e56" ] impl < 'a , K , V > Iterator for IterMut < 'a , K , V > as IterMutIterator {
type Item = ( & 'a K , & 'a mut V ) ;
    ghost can_next = { IterMutCanStep };
    ghost next_gives = { LendsFirst iter_mut_rest };
    ghost remaining = { λ s. at_most (length (iter_mut_rest s)) };
fn next ( & mut self ) -> Option < ( & 'a K , & 'a mut V ) > ;
fn size_hint ( & self ) -> ( usize , Option < usize > ) ;
}
# [ read_as = "0c5792d53839966437427c5a7d453f4b48ddb8003765fe4345ae2ad2d695bd40" ] impl < 'a , K : fmt :: Debug , V : fmt :: Debug > fmt :: Debug for IterMut < 'a , K , V > as IterMutDebug {
fn fmt < W : fmt :: Write > ( & self , f : & mut fmt :: Formatter < W > ) -> fmt :: Result ;
}
# [ read_as = "2b04cb1953011f7f81e999dd9ba61a24df4925b65f960ae3b753145ef1b0ece6" ] impl < 'a , K , V > DoubleEndedIterator for IterMut < 'a , K , V > as IterMutDoubleEndedIterator {
    ghost can_next_back = { IterMutCanStep };
    ghost next_back_gives = { LendsLast iter_mut_rest };
fn next_back ( & mut self ) -> Option < ( & 'a K , & 'a mut V ) > ;
}
# [ read_as = "3634367f9b5b110f646864ca096fed5c50979e0c431eb9ff5b7d370bfd84dd03" ] impl < 'a , K , V > DoubleEndedIterator for ValuesMut < 'a , K , V > as ValuesMutDoubleEndedIterator {
    ghost next_back_gives = { values_mut_steps_back };
fn next_back ( & mut self ) -> Option < & 'a mut V > ;
}
# [ read_as = "80ec8f427551d07e8bb2fcdc89335516c9b5f41a873f1c4ef32c5d58c12179db" ] impl < 'a , K , V : fmt :: Debug > fmt :: Debug for ValuesMut < 'a , K , V > as ValuesMutDebug {
fn fmt < W : fmt :: Write > ( & self , f : & mut fmt :: Formatter < W > ) -> fmt :: Result ;
}
# [ read_as = "90b7a76f5201ea46c81573f07233d6a27ce8077f6a6d84c9016e37131425dbf2" ] impl < 'a , K , V > FusedIterator for ValuesMut < 'a , K , V > as ValuesMutFusedIterator {
}
# [ read_as = "947337047eae7d1a6b8d3c3184a64c79b5f5f7a5f859d1bafa9637dc6f0eb1a0" ] impl < 'a , K : Eq + Hash , V , S : BuildHasher , A : Allocator > IntoIterator for & 'a mut IndexMap < K , V , S , A > as RefMutIndexMapIntoIterator {
type Item = ( & 'a K , & 'a mut V ) ;
type IntoIter = IterMut < 'a , K , V > ;
    ghost into_iter_gives = { λ m r. (iter_mut_rest r ≡ m.now.entries) × IterMutCanStep r × (index_map_len m.now < 2 ^ 63) × IsUnique K.eq m.now };
fn into_iter ( self ) -> IterMut < 'a , K , V >
        ensures* writes_back { }
        ensures keeps { }
        ensures into_iter_gives { }
        ensures values_run { } ;
}
# [ read_as = "ba83acb1b3d7d3cdcc1edd5bc77ac19ff12aeed2414363f7469c9f73c440bf2d" ] impl < 'a , K , V > ExactSizeIterator for IterMut < 'a , K , V > as IterMutExactSizeIterator {
fn len ( & self ) -> usize ;
}
# [ read_as = "d88dd717c12299759adc8a6c7ee6f6f1bac5be47b9f40c6af2978f3422efe7b3" ] impl < 'a , K , V > Iterator for ValuesMut < 'a , K , V > as ValuesMutIterator {
type Item = & 'a mut V ;
    ghost next_gives = { values_mut_steps };
    ghost remaining = { λ s. at_most (length (values_mut_rest s)) };
fn next ( & mut self ) -> Option < & 'a mut V > ;
fn size_hint ( & self ) -> ( usize , Option < usize > ) ;
}
# [ read_as = "e0f34de8ef2a7bc78160147b124391a31326c02cdb0959789c67e89d64d96b18" ] impl < 'a , K , V > FusedIterator for IterMut < 'a , K , V > as IterMutFusedIterator {
}
impl < K : Eq + Hash , V , S : BuildHasher , A : Allocator > IndexMap < K , V , S , A > {
pub fn iter_mut ( & mut self ) -> IterMut < '_ , K , V >
        ensures* writes_back { }
        ensures keeps { }
        ensures ready { }
        ensures rest { }
        ensures len { }
        ensures values_run { }
        ensures unique { }
        ensures fits { } ;
pub fn values_mut ( & mut self ) -> ValuesMut < '_ , K , V >
        ensures* writes_back { }
        ensures keeps { }
        ensures rest { }
        ensures len { }
        ensures runs { }
        ensures unique { }
        ensures fits { } ;
}
