ghost use Rattle.std.specs.Prelude.{◌≡◌, ◌⊎◌, ◌≤◌, ◌++◌, ◌∷◌, [], length, IsTrue};
ghost use Rattle.std.specs.Bool.{MatchBool};
ghost use Rattle.std.specs.Arc.{arc_value};
ghost use mathlib.Core.List.{IsPrefix};
ghost use Rattle.published_policies.specs.Lists.{AreEditions, IsNextEdition, last_edition, seen_in};
ghost use Rattle.published_policies.specs.Growing.{length_word};
use crate :: growing :: { Add , ListRule , NoGain } ;
use decision :: Decider ;
use logbook :: { Offer , Seen , Word } ;
use std :: marker :: Model ;
use std :: sync :: Arc ;
# [ derive ( Drop ) ] pub struct SeenList { len : u64 , edition : u64 , seen : Seen < Decider , u64 , ListRule > , }
impl Model for SeenList {
    ghost use Rattle.std.specs.Prelude.{◌≡◌, length};
    ghost use Rattle.std.specs.Coded.{code_by, codes};
    ghost use Rattle.published_policies.specs.Lists.{AreEditions, SeenData, last_edition, seen_in};
    ghost use Rattle.published_policies.specs.Coding.{StoredSeen, stored_seen, restored_seen, restored_seen-stored_seen};
    ghost Value = { SeenData };
    ghost coded = { code_by StoredSeen (Prim.hlevel codes) stored_seen restored_seen
        restored_seen-stored_seen };
    ghost view = { λ s. seen_in s.seen.book s.seen.log };
    ghost invariant = { λ s. (s.len ≡ length s.seen.log) × (s.edition ≡ last_edition s.seen.log)
        × AreEditions s.seen.log };
}
impl SeenList {
pub ( crate ) fn nothing ( seen : Seen < Decider , u64 , ListRule > ) -> SeenList
        requires { seen.log ≡ [] }
        ensures { result ≡ seen_in seen.book [] } ;
pub ( crate ) fn edition ( & self ) -> u64
        ensures value { result ≡ last_edition self.now.list }
        ensures editions { AreEditions self.now.list } ;
pub ( crate ) fn again ( & self ) -> SeenList
        ensures { result ≡ self.now } ;
fn begins ( & self , other : & SeenList )
        requires { other.now.book ≡ self.now.book }
        ensures { length self.now.list ≤ length other.now.list
            → IsPrefix self.now.list other.now.list } ;
pub ( crate ) fn is_same ( & self , other : & SeenList ) -> bool
        requires { other.now.book ≡ self.now.book }
        ensures { IsTrue result → other.now ≡ self.now } ;
pub ( crate ) fn longer ( & self , other : & SeenList ) -> SeenList
        requires { other.now.book ≡ self.now.book }
        ensures book { result.book ≡ self.now.book }
        ensures this { IsPrefix self.now.list result.list }
        ensures that { IsPrefix other.now.list result.list }
        ensures one { (result ≡ self.now) ⊎ (result ≡ other.now) } ;
pub ( crate ) fn advance ( & mut self , to : & SeenList ) -> bool
        requires { to.now.book ≡ self.old.book }
        ensures { MatchBool result
            ((self.new ≡ to.now) × IsPrefix self.old.list self.new.list)
            (self.new ≡ self.old) } ;
pub ( crate ) fn add ( & mut self , word : & Word < Decider , u64 , ListRule > , decider : & Arc < Decider > , ) -> bool
        requires word { word.now ≡ length_word self.old.book }
        requires next { IsNextEdition self.old.list (arc_value decider.now).edition }
        ensures { MatchBool result
            (self.new ≡ seen_in self.old.book (self.old.list ++ arc_value decider.now ∷ []))
            (self.new ≡ self.old) } ;
}
