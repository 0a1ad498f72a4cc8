use std :: alloc :: Allocator ;
use std :: alloc :: Global ;
use std :: hash :: BuildHasher ;
use std :: hash :: BuildHasherDefault ;
use std :: hash :: FoldHasher ;
use std :: hash :: Hash ;
use super :: IndexMap ;
# [ derive ( Drop ) ] pub enum Entry < 'a , K : Eq + Hash , V , S : BuildHasher = BuildHasherDefault < FoldHasher > , A : Allocator = Global , > { Occupied ( OccupiedEntry < 'a , K , V , S , A > ) , Vacant ( VacantEntry < 'a , K , V , S , A > ) , }
pub type IndexedEntry < 'a , K , V , S = BuildHasherDefault < FoldHasher > , A = Global > = OccupiedEntry < 'a , K , V , S , A , > ;
# [ derive ( Drop ) ] pub struct OccupiedEntry < 'a , K : Eq + Hash , V , S : BuildHasher = BuildHasherDefault < FoldHasher > , A : Allocator = Global , > { map : & 'a mut IndexMap < K , V , S , A > , index : usize ,
    ghost within: { index < index_map_len map.now } , }
# [ derive ( Drop ) ] pub struct VacantEntry < 'a , K : Eq + Hash , V , S : BuildHasher = BuildHasherDefault < FoldHasher > , A : Allocator = Global , > { map : & 'a mut IndexMap < K , V , S , A > , key : K , hash : u32 ,
    ghost hashed: { hash ≡ table_hash S.BuildHasher S.Hasher.Hasher (hasher_of map.now) (K.hash_input key) } ,
    ghost absent: { is_some (get K.eq map.now key) ≡ false } ,
    ghost reserved: { 0 < spare map.now } , }
mod methods ;
mod occupied ;
mod vacant ;
