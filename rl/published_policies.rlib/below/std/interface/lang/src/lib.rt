pub use core :: slice ;
pub mod alloc {
pub use core :: alloc :: AllocError ;
pub use core :: alloc :: Allocator ;
pub use std_alloc :: room :: AllocFailed ;
pub use std_heap :: Global ;
}
pub mod borrow {
pub type CowSlice < 'a , T , A = std_heap :: Global > = std_alloc :: borrow :: CowSlice < 'a , T , A > ;
pub type CowStr < 'a , A = std_heap :: Global > = std_alloc :: borrow :: CowStr < 'a , A > ;
}
pub mod boxed {
pub type Box < T , A = std_heap :: Global > = std_alloc :: boxed :: Box < T , A > ;
pub type BoxedSlice < T , A = std_heap :: Global > = std_alloc :: boxed :: BoxedSlice < T , A > ;
pub type BoxedStr < A = std_heap :: Global > = std_alloc :: boxed :: BoxedStr < A > ;
}
pub ( crate ) mod cased ;
pub mod cmp {
pub use core :: cmp :: Ordering ;
}
pub mod collections {
pub type VecDeque < T , A = std_heap :: Global > = std_alloc :: collections :: VecDeque < T , A > ;
}
pub mod default {
pub use core :: default :: Emptied ;
pub use core :: default :: MadeWith ;
}
pub ( crate ) mod dyn_box ;
pub mod error ;
pub mod f32 ;
pub mod f64 ;
pub ( crate ) mod fd ;
pub mod ffi ;
pub mod fmt {
pub use core :: fmt :: Debug ;
pub use core :: fmt :: Display ;
pub use core :: fmt :: Formatter ;
pub use core :: fmt :: Result ;
pub use core :: fmt :: Write ;
}
pub mod fs ;
pub ( crate ) mod given ;
pub mod hash {
pub use core :: hash :: BuildHasher ;
pub use core :: hash :: BuildHasherDefault ;
pub use core :: hash :: FoldHasher ;
pub use core :: hash :: Hash ;
pub use core :: hash :: Hasher ;
}
pub mod io ;
pub mod iter {
pub use core :: iter :: FusedIterator ;
}
mod macros ;
pub mod marker {
pub use core :: marker :: Brand ;
pub use core :: marker :: Model ;
pub use core :: marker :: Move ;
pub use core :: marker :: Owns ;
pub use core :: marker :: PhantomData ;
}
pub mod net ;
pub mod ops {
pub use core :: ops :: BitAnd ;
pub use core :: ops :: BitOr ;
pub use core :: ops :: BitXor ;
pub use core :: ops :: Index ;
pub use core :: ops :: IndexMut ;
pub use core :: ops :: RangeBounds ;
pub use core :: ops :: Sub ;
}
pub ( crate ) mod owned ;
pub mod path ;
pub mod prelude ;
pub mod process ;
pub mod rc {
pub type RcStr < A = std_heap :: Global > = std_alloc :: rc :: RcStr < A > ;
}
pub ( crate ) mod replaced ;
pub ( crate ) mod rows ;
pub ( crate ) mod slices ;
pub mod snapshot {
pub use core :: snapshot :: Snapshot ;
}
pub mod string {
pub type String < A = std_heap :: Global > = std_alloc :: string :: String < A > ;
}
pub mod sync {
pub use core :: sync :: Wait ;
pub type Arc < T , A = std_heap :: Global > = std_alloc :: arc :: Arc < T , A > ;
}
pub mod test ;
pub mod time ;
pub mod vec {
pub type IntoIter < T , A = std_heap :: Global > = std_alloc :: vec :: IntoIter < T , A > ;
pub type Vec < T , A = std_heap :: Global > = std_alloc :: vec :: Vec < T , A > ;
}
