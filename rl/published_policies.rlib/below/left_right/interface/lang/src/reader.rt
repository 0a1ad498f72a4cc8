use crate :: board :: Board ;
use crate :: board :: Place ;
use crate :: part :: Part ;
use crossbeam_utils :: rule :: Protocol ;
use std :: alloc :: Allocator ;
use std :: alloc :: Global ;
use std :: sync :: Arc ;
# [ derive ( Drop ) ] pub struct Factory < T : Drop , V , P : Protocol < T , V > , A : Allocator = Global > { pub ( crate ) board : Arc < Board < T , V , P , A > , A > ,
    ghost sized: { IsSized (arc_value board).shared.table_id } , }
pub struct Reader < T : Drop , V , P : Protocol < T , V > , A : Allocator = Global > { from : Factory < T , V , P , A > , pub place : Place < T , V > , index : usize ,
    ghost seated: { place.table_id ≡ (arc_value from.board).shared.table_id } ,
    ghost inside: { 8 * index + 8 ≤ place.table_id.slots } ,
    ghost out: { place ≡ posed place (Out index) [] } , }
pub struct Reading < T : Drop , V , P : Protocol < T , V > , A : Allocator = Global > { from : Factory < T , V , P , A > , pub place : Place < T , V > , index : usize , side : usize , pub part : Part < T > ,
    ghost seated: { place.table_id ≡ (arc_value from.board).shared.table_id } ,
    ghost inside: { (8 * index + 8 ≤ place.table_id.slots) × (side ≤ 1) } ,
    ghost holds: { place ≡ posed place (Holds index side part) ((8 * index + side, None) ∷ []) } , }
mod steps ;
impl < T : Drop , V , P : Protocol < T , V > , A : Allocator > Drop for Reader < T , V , P , A > {
fn drop ( self ) ;
}
