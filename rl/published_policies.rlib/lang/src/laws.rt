ghost use Rattle.std.specs.Prelude.{◌≤◌, IfSome};
ghost use mathlib.Core.List.{IsPrefix};
ghost use Rattle.published_policies.specs.Explaining.{Explains};
ghost use Rattle.published_policies.specs.Lists.{last_edition};
use crate :: editions :: Edition ;
use crate :: explaining :: Explained ;
use crate :: lists :: ListName ;
use crate :: views :: View ;
use combining :: Question ;
pub fn caught_up_then_explained < L : ListName > ( view : & mut View < L > , edition : Edition < L > , question : & Question , ) -> Option < Explained >
    ensures told { IfSome result (λ _. IsPrefix edition view.new) }
    ensures ruling { IfSome result (Explains view.new question.now) }
    ensures later { IfSome result (λ explained. last_edition edition ≤ explained.edition) } ;
