use crate :: growing :: ListRule ;
use decision :: Decider ;
use logbook :: Seen ;
use std :: marker :: Model ;
# [ derive ( Drop ) ] pub struct SeenList { len : u64 , edition : u64 , seen : Seen < Decider , u64 , ListRule > , }
impl Model for SeenList {
    ghost use Rattle.std.specs.Prelude.{◌≡◌, length};
    ghost use Rattle.std.specs.Coded.{code_by, codes};
    ghost use Rattle.published_policies.specs.Lists.{AreEditions, SeenData, last_edition, seen_in};
    ghost use Rattle.published_policies.specs.Coding.{StoredSeen, stored_seen, restored_seen, restored_seen-stored_seen};
    ghost Value = { SeenData };
    ghost coded = { code_by StoredSeen (Prim.hlevel codes) stored_seen restored_seen
        restored_seen-stored_seen };
    ghost view = { λ s. seen_in s.seen.book s.seen.log };
    ghost invariant = { λ s. (s.len ≡ length s.seen.log) × (s.edition ≡ last_edition s.seen.log)
        × AreEditions s.seen.log };
}
