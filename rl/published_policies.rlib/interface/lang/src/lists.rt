use crate :: growing :: ListRule ;
use decision :: Decider ;
use logbook :: Seen ;
use logbook :: Word ;
use std :: marker :: Brand ;
use std :: marker :: Model ;
pub trait ListName {
    ghost use Rattle.logbook.specs.Pages.{Book};
    ghost book: { Book };
}
# [ read_as = "bde6b3b2bfd8eb61b53adfcfa2893da63202d328de78c3295f938ac355709c0a" ] impl ListName for Brand as BrandListName {
    ghost book = { record { number = 0; log_name = 0; cells_name = 0 } };
}
# [ derive ( Drop ) ] pub struct EmptyList { pub ( crate ) word : Word < Decider , u64 , ListRule > , pub ( crate ) seen : Seen < Decider , u64 , ListRule > , }
impl Model for EmptyList {
    ghost use Rattle.std.specs.Prelude.{◌≡◌, []};
    ghost use Rattle.logbook.specs.Pages.{Book, book_coded};
    ghost use Rattle.published_policies.specs.Growing.{length_word};
    ghost Value = { Book };
    ghost coded = { book_coded };
    ghost view = { λ e. e.seen.book };
    ghost invariant = { λ e. (e.seen.log ≡ []) × (e.word ≡ length_word e.seen.book) };
}
impl EmptyList {
pub fn new ( ) -> EmptyList ;
}
