use crate :: map ;
use std :: alloc :: Global ;
pub type IntoIter < T , A = Global > = map :: IntoKeys < T , ( ) , A > ;
pub type Iter < 'a , T > = map :: Keys < 'a , T , ( ) > ;
