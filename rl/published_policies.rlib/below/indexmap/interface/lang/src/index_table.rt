use group :: Group ;
use std :: alloc :: AllocError ;
use std :: alloc :: Allocator ;
use std :: marker :: Model ;
# [ derive ( Clone , Copy ) ] pub struct Bucket { pub ( crate ) hash : u32 , pub ( crate ) slot : u32 , }
# [ derive ( Drop ) ] pub struct IndexTable < A : Allocator > { groups : Vec < Group , A > , buckets : Vec < Bucket , A > , growth_left : usize , }
pub ( crate ) mod group ;
# [ read_as = "fff5a2b55307e3cd79a8796ef459ae9904ea4541295dcf1b381bbad9d57504b9" ] impl < A : Allocator + Clone > Clone for IndexTable < A > as IndexTableClone {
    ghost is_clone = { λ t u. u ≡ t };
fn clone ( & self ) -> Result < IndexTable < A > , AllocError > ;
}
impl < A : Allocator > Model for IndexTable < A > {
    ghost use Rattle.std.specs.Prelude.{ℕ, List, vec_capacity};
    ghost Value = { List ℕ × ℕ };
    ghost use Rattle.indexmap.specs.IndexTable.Invariant.{bucket_hashes, IsValidTable};
    ghost view = { λ t. (bucket_hashes t.buckets.items, t.growth_left) };
    ghost invariant = { λ t. IsValidTable t.groups.items t.buckets.items (vec_capacity t.buckets) t.growth_left };
}
