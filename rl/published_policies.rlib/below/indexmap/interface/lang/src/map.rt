pub use entry :: Entry ;
pub use entry :: OccupiedEntry ;
pub use entry :: VacantEntry ;
pub use iter :: IntoIter ;
pub use iter :: IntoKeys ;
pub use iter :: IntoValues ;
pub use iter :: Iter ;
pub use iter :: Keys ;
pub use iter :: Values ;
pub use slice :: Slice ;
use crate :: columns :: Columns ;
use crate :: index_table :: IndexTable ;
use std :: alloc :: AllocError ;
use std :: alloc :: Allocator ;
use std :: alloc :: Global ;
use std :: hash :: BuildHasher ;
use std :: hash :: BuildHasherDefault ;
use std :: hash :: FoldHasher ;
use std :: hash :: Hash ;
use std :: marker :: Model ;
# [ derive ( Drop ) ] pub struct IndexMap < K : Eq + Hash , V , S : BuildHasher = BuildHasherDefault < FoldHasher > , A : Allocator = Global , > { columns : Columns < K , V , A > , table : IndexTable < A > , hash_builder : S , }
mod drain ;
mod entry ;
mod get ;
mod inner ;
mod insert ;
mod iter ;
mod iter_mut ;
mod remove ;
mod slice ;
mod sort ;
mod traits ;
impl < K : Eq + Hash , V , A : Allocator + Copy > IndexMap < K , V , BuildHasherDefault < FoldHasher > , A > {
pub fn new ( alloc : A ) -> Self
        ensures empty { }
        ensures len { }
        ensures unique { } ;
pub fn with_capacity ( alloc : A , n : usize ) -> Result < Self , AllocError >
        ensures empty { }
        ensures len { }
        ensures spare { }
        ensures unique { }
        ensures succeeds { } ;
}
impl < K : Eq + Hash , V , S : BuildHasher , A : Allocator + Copy > IndexMap < K , V , S , A > {
pub fn split_off ( & mut self , at : usize ) -> Result < Self , AllocError > where S : Clone ,
        requires { }
        ensures kept { }
        ensures tail { }
        ensures tail_hasher { }
        ensures tail_unique { }
        ensures err { }
        ensures room { }
        ensures capacity { }
        ensures unique { } ;
pub fn with_capacity_and_hasher ( alloc : A , n : usize , hash_builder : S ) -> Result < Self , AllocError > where S : Drop ,
        ensures empty { }
        ensures len { }
        ensures spare { }
        ensures hasher { }
        ensures unique { }
        ensures succeeds { } ;
pub fn with_hasher ( alloc : A , hash_builder : S ) -> Self
        ensures empty { }
        ensures len { }
        ensures hasher { }
        ensures unique { } ;
}
impl < K : Eq + Hash , V , S : BuildHasher , A : Allocator > IndexMap < K , V , S , A > {
pub fn allocator ( & self ) -> & A ;
pub fn append < S2 : BuildHasher > ( & mut self , other : & mut IndexMap < K , V , S2 , A > , ) -> Result < ( ) , AllocError > where K : Drop , V : Drop ,
        ensures entries { }
        ensures inserts { }
        ensures emptied { }
        ensures err { }
        ensures other_err { }
        ensures succeeds { }
        ensures hasher { }
        ensures room { }
        ensures other_room { }
        ensures other_capacity { } ;
pub fn as_slice ( & self ) -> Slice < '_ , K , V >
        ensures entries { }
        ensures unique { }
        ensures fits { } ;
pub fn capacity ( & self ) -> usize
        ensures { } ;
pub fn clear ( & mut self ) where K : Drop , V : Drop ,
        ensures empty { }
        ensures len { }
        ensures capacity { }
        ensures hasher { }
        ensures unique { } ;
pub fn destroy_empty ( self ) where S : Drop ,
        requires { } ;
pub fn hasher ( & self ) -> & S
        ensures { } ;
pub fn into_keys ( self ) -> IntoKeys < K , V , A > where S : Drop ,
        ensures rest { }
        ensures len { }
        ensures runs { }
        ensures runs_back { }
        ensures unique { }
        ensures fits { } ;
pub fn into_values ( self ) -> IntoValues < K , V , A > where S : Drop ,
        ensures rest { }
        ensures len { }
        ensures runs { }
        ensures runs_back { }
        ensures fits { } ;
pub fn is_empty ( & self ) -> bool
        ensures { } ;
pub fn iter ( & self ) -> Iter < '_ , K , V >
        ensures rest { }
        ensures len { }
        ensures runs { }
        ensures runs_back { }
        ensures values_run { }
        ensures unique { }
        ensures fits { } ;
pub fn keys ( & self ) -> Keys < '_ , K , V >
        ensures rest { }
        ensures len { }
        ensures runs { }
        ensures runs_back { }
        ensures unique { }
        ensures fits { } ;
pub fn len ( & self ) -> usize
        ensures len { }
        ensures small { }
        ensures unique { } ;
pub fn reserve ( & mut self , additional : usize ) -> Result < ( ) , AllocError >
        ensures entries { }
        ensures ok { }
        ensures succeeds { }
        ensures room { }
        ensures unique { } ;
pub fn reserve_exact ( & mut self , additional : usize ) -> Result < ( ) , AllocError >
        ensures entries { }
        ensures ok { }
        ensures succeeds { }
        ensures room { } ;
pub fn shrink_to ( & mut self , min_capacity : usize )
        ensures entries { }
        ensures lower_bound { }
        ensures hasher { } ;
pub fn shrink_to_fit ( & mut self )
        ensures entries { }
        ensures hasher { } ;
pub fn truncate ( & mut self , len : usize ) where K : Drop , V : Drop ,
        ensures entries { }
        ensures len { }
        ensures room { }
        ensures capacity { }
        ensures unique { } ;
pub fn values ( & self ) -> Values < '_ , K , V >
        ensures rest { }
        ensures len { }
        ensures runs { }
        ensures runs_back { }
        ensures fits { } ;
}
impl < K : Eq + Hash , V , S : BuildHasher , A : Allocator > Model for IndexMap < K , V , S , A > {
    ghost use Rattle.std.specs.Prelude.{◌-◌, min, length};
    ghost use Rattle.indexmap.specs.IndexMap.{IndexMap as Entries};
    ghost use Rattle.indexmap.specs.IndexTable.{hashes, growth_left};
    ghost use Rattle.indexmap.specs.Layout.{hash_map, hash_map_code, table_hash, IsHashed};
    ghost Value = { Entries K V S };
    ghost coded = { hash_map_code K.code V.code S.code };
    ghost view = { λ m. hash_map m.columns.entries m.hash_builder (min (growth_left m.table) (m.columns.capacity - length m.columns.entries)) };
    ghost invariant = { λ m. IsHashed K.eq (λ k. table_hash S.BuildHasher S.Hasher.Hasher m.hash_builder (K.hash_input k)) (hashes m.table) m.columns.entries };
}
