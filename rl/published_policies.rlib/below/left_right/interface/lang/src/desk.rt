use crate :: board :: Place ;
use crate :: part :: Deed ;
use crate :: part :: Part ;
use crate :: reader :: Factory ;
use crossbeam_utils :: rule :: Protocol ;
use std :: alloc :: Allocator ;
pub struct Desk < T : Drop , V , P : Protocol < T , V > , A : Allocator > { pub from : Factory < T , V , P , A > , pub place : Place < T , V > , side : usize , left : usize , last : Vec < u64 , A > , deed : Deed < T , A > , pub shown : Part < T > , spare_deed : Deed < T , A > , pub spare : Part < T > ,
    ghost seated: { place.table_id ≡ (arc_value from.board).shared.table_id } ,
    ghost sized: { (8 * length last.items ≡ place.table_id.slots) × (0 < length last.items) × (side < 2) × (left ≤ length last.items) } ,
    ghost whole: { (shown.round ≡ deed.round) × (shown.value ≡ deed.value) × (shown.count + length last.items ≡ 2 ^ 63) } ,
    ghost spare_whole: { (spare.round ≡ spare_deed.round) × (spare.value ≡ spare_deed.value) × (spare.count + left ≡ 2 ^ 63) } ,
    ghost planned: { place ≡ posed place (Writer (resting side left shown (plan_of place shown))) [] } ,
    ghost lent: { 0 < left → ((plan_of place shown).last ≡ last.items) × ((plan_of place shown).spare ≡ unit spare) } , }
pub struct Open < T : Drop , V , P : Protocol < T , V > , A : Allocator > { pub from : Factory < T , V , P , A > , pub place : Place < T , V > , side : usize , last : Vec < u64 , A > , deed : Deed < T , A > , pub shown : Part < T > ,
    ghost seated: { place.table_id ≡ (arc_value from.board).shared.table_id } ,
    ghost sized: { (8 * length last.items ≡ place.table_id.slots) × (0 < length last.items) × (side < 2) } ,
    ghost whole: { (shown.round ≡ deed.round) × (shown.value ≡ deed.value) × (shown.count + length last.items ≡ 2 ^ 63) } ,
    ghost planned: { place ≡ posed place (Writer (resting side 0 shown (plan_of place shown))) [] } , }
mod steps ;
