use std :: alloc :: Allocator ;
use std :: borrow :: CowSlice ;
use std :: borrow :: CowStr ;
use std :: boxed :: BoxedSlice ;
use std :: boxed :: BoxedStr ;
use std :: hash :: Hash ;
use std :: rc :: RcStr ;
pub trait Equivalent < K : Eq + Hash > : Copy + Hash {
    ghost equivalent: { Self → K → Bool };
fn equivalent ( & self , key : & K ) -> bool
        ensures { } ;
    ghost respects_hash: { (q : Self) (k : K) → IsTrue (equivalent q k) → Self.hash_input q ≡ K.hash_input k };
    ghost respects_eq: { (q : Self) (x y : K) → IsTrue (equivalent q x) → equivalent q y ≡ K.eq x y };
}
# [ read_as = "13d68035631d9946072a31408c8692202d3ae1ef8daf81654b768c3849f53603" ] impl < A : Allocator > Equivalent < String < A >> for & str as RefStrEquivalentString {
    ghost equivalent = { λ q k. bytes_eq q.now (string_bytes k) };
    ghost respects_hash = { λ q k h. ap fed.str ((bytes_decides q.now (string_bytes k)).0 h) };
    ghost respects_eq = { λ q x y. nat_list_eq_equiv.congr q.now (string_bytes x) (string_bytes y) };
fn equivalent ( & self , key : & String < A > ) -> bool ;
}
# [ read_as = "3e9ba65a5729419625238a7d5eaccaaed261211bf693ba313ba488fd60981a51" ] impl < 'b , A : Allocator > Equivalent < CowStr < 'b , A >> for & str as RefStrEquivalentCowStr {
    ghost equivalent = { λ q k. bytes_eq q.now (cow_str_bytes k) };
    ghost respects_hash = { λ q k h. ap fed.str ((bytes_decides q.now (cow_str_bytes k)).0 h) };
    ghost respects_eq = { λ q x y. nat_list_eq_equiv.congr q.now (cow_str_bytes x) (cow_str_bytes y) };
fn equivalent ( & self , key : & CowStr < 'b , A > ) -> bool ;
}
# [ read_as = "542e153f6774217c71407a46168d9ef42e80fc41b6fc086136319157abe04847" ] impl < 'b , T : Eq + Hash , B : Allocator > Equivalent < CowSlice < 'b , T , B >> for & [ T ] as RefSliceEquivalentCowSlice {
    ghost equivalent = { λ q k. pointwise T.eq q.now (cow_slice_items k) };
    ghost respects_hash = { λ q k. (items_Alike (record { fed = T.respects_eq })).fed q.now (cow_slice_items k) };
    ghost respects_eq = { λ q x y. (lists_equiv T.Eq.laws).congr q.now (cow_slice_items x) (cow_slice_items y) };
fn equivalent ( & self , key : & CowSlice < 'b , T , B > ) -> bool ;
}
# [ read_as = "5c344ac207c74fa3905c9705188a3de42b277fc7390ab7f76ec7567b9a96cb80" ] impl < 'b > Equivalent < & 'b str > for & str as RefStrEquivalent {
    ghost equivalent = { λ q k. bytes_eq q.now k.now };
    ghost respects_hash = { λ q k h. ap fed.str ((bytes_decides q.now k.now).0 h) };
    ghost respects_eq = { λ q x y. nat_list_eq_equiv.congr q.now x.now y.now };
fn equivalent ( & self , key : && 'b str ) -> bool ;
}
# [ read_as = "5eace08c153c11b8a5122383b29e25ab0b5f2b5e91ecd0f13d1e4ddbdc4d4fd1" ] impl < A : Allocator > Equivalent < BoxedStr < A >> for & str as RefStrEquivalentBoxedStr {
    ghost equivalent = { λ q k. bytes_eq q.now (boxed_str_bytes k) };
    ghost respects_hash = { λ q k h. ap fed.str ((bytes_decides q.now (boxed_str_bytes k)).0 h) };
    ghost respects_eq = { λ q x y. nat_list_eq_equiv.congr q.now (boxed_str_bytes x) (boxed_str_bytes y) };
fn equivalent ( & self , key : & BoxedStr < A > ) -> bool ;
}
# [ read_as = "64cb313d2f7eda98020f168a926e57c4b5a80e0949d33b18ef6cb1a5324ab5de" ] impl < K : Eq + Hash > Equivalent < K > for & K as RefEquivalent {
    ghost equivalent = { λ q. K.eq q.now };
    ghost respects_hash = { λ q. K.respects_eq q.now };
    ghost respects_eq = { λ q. K.Eq.laws.congr q.now };
fn equivalent ( & self , key : & K ) -> bool ;
}
# [ read_as = "8c8452cf7bfffd3448d0071a7829a0a1528f79159516057080ec30b9431b370a" ] impl < 'b , T : Eq + Hash > Equivalent < & 'b [ T ] > for & [ T ] as RefSliceEquivalent {
    ghost equivalent = { λ q k. pointwise T.eq q.now k.now };
    ghost respects_hash = { λ q k. (items_Alike (record { fed = T.respects_eq })).fed q.now k.now };
    ghost respects_eq = { λ q x y. (lists_equiv T.Eq.laws).congr q.now x.now y.now };
fn equivalent ( & self , key : && 'b [ T ] ) -> bool ;
}
# [ read_as = "a16ed6e11cae2f42163d7e8ba78b1e1e85bb2563c99d3fa49fe04530a45a21da" ] impl < T : Eq + Hash , B : Allocator > Equivalent < BoxedSlice < T , B >> for & [ T ] as RefSliceEquivalentBoxedSlice {
    ghost equivalent = { λ q k. pointwise T.eq q.now (boxed_slice_items k) };
    ghost respects_hash = { λ q k. (items_Alike (record { fed = T.respects_eq })).fed q.now (boxed_slice_items k) };
    ghost respects_eq = { λ q x y. (lists_equiv T.Eq.laws).congr q.now (boxed_slice_items x) (boxed_slice_items y) };
fn equivalent ( & self , key : & BoxedSlice < T , B > ) -> bool ;
}
# [ read_as = "c8a2ee87d9031c4cc29e21822a27585991b75822d3803748754d725181a6dd5a" ] impl < T : Eq + Hash , B : Allocator > Equivalent < Vec < T , B >> for & [ T ] as RefSliceEquivalentVec {
    ghost equivalent = { λ q k. pointwise T.eq q.now k.items };
    ghost respects_hash = { λ q k. (items_Alike (record { fed = T.respects_eq })).fed q.now k.items };
    ghost respects_eq = { λ q x y. (lists_equiv T.Eq.laws).congr q.now x.items y.items };
fn equivalent ( & self , key : & Vec < T , B > ) -> bool ;
}
# [ read_as = "d3c9be989ad5cb2a95056cafadbd260fcbc2314ebd10ac8270e859bf356f40de" ] impl < A : Allocator > Equivalent < RcStr < A >> for & str as RefStrEquivalentRcStr {
    ghost equivalent = { λ q k. bytes_eq q.now (rc_str_bytes k) };
    ghost respects_hash = { λ q k h. ap fed.str ((bytes_decides q.now (rc_str_bytes k)).0 h) };
    ghost respects_eq = { λ q x y. nat_list_eq_equiv.congr q.now (rc_str_bytes x) (rc_str_bytes y) };
fn equivalent ( & self , key : & RcStr < A > ) -> bool ;
}
