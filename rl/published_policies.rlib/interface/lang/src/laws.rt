use crate :: editions :: Edition ;
use crate :: explaining :: Explained ;
use crate :: lists :: ListName ;
use crate :: views :: View ;
use combining :: Question ;
pub fn caught_up_then_explained < L : ListName > ( view : & mut View < L > , edition : Edition < L > , question : & Question , ) -> Option < Explained >
    ensures told { }
    ensures ruling { }
    ensures later { } ;
