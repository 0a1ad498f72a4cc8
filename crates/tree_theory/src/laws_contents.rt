//! The theorem on the tree's contents. The function does nothing; its contract states the theorem.

ghost use Rattle.node_arena.specs.declared.handle.Handle.{Handle};
ghost use Rattle.std.specs.Prelude.{◌↔◌, ℕ, List, [], ◌∷◌, ◌++◌, Contains, IsPermutation};
ghost use Rattle.tree_theory.specs.Changes.{IsOpened, IsClosed, IsVisited, IsVisitedGone, IsPlaced, IsJoined, IsEnlarged, IsSplit, IsGrown, IsInstalled, IsCleaned, IsRetired, IsFreed, IsStarted};
ghost use Rattle.tree_theory.specs.Contents.{InContents, IsContents, LosesPairs};
ghost use Rattle.tree_theory.specs.Invariant.{Shape};
ghost use Rattle.tree_theory.specs.Nodes.{Tree};

use crate::key_class::KeyClass;

/// A tree's contents are one list, in any order, of exactly the pairs that its nodes have. A
/// placing adds its pair once. A cleaning removes pairs that are not in `kept`, and no others. The
/// other steps keep the contents.
pub fn steps_and_contents<C: KeyClass>()
    ensures unique { (t : Tree C.class) (xs ys : List (ℕ × C.Item)) → IsContents t xs
        → IsContents t ys → IsPermutation xs ys }
    ensures of_nodes { (t : Tree C.class) (xs : List (ℕ × C.Item)) → IsContents t xs
        → (pair : ℕ × C.Item) → (Contains xs pair ↔ InContents t pair) }
    ensures opened { (t u : Tree C.class) (query : C.Query) (xs : List (ℕ × C.Item))
        → IsOpened t u query → IsContents t xs → IsContents u xs }
    ensures closed { (t u : Tree C.class) (s : ℕ) (xs : List (ℕ × C.Item)) → IsClosed t u s
        → IsContents t xs → IsContents u xs }
    ensures visited { (t u : Tree C.class) (s : ℕ) (x : Handle) (memo : ℕ) (xs : List (ℕ × C.Item))
        → IsVisited t u s x memo → IsContents t xs → IsContents u xs }
    ensures visited_gone { (t u : Tree C.class) (s : ℕ) (x : Handle) (memo : ℕ)
        (xs : List (ℕ × C.Item)) → IsVisitedGone t u s x memo → IsContents t xs → IsContents u xs }
    ensures placed { (t u : Tree C.class) (h : Handle) (pair : ℕ × C.Item) (xs : List (ℕ × C.Item))
        → IsPlaced t u h pair → IsContents t xs → IsContents u (xs ++ pair ∷ []) }
    ensures joined { (t u : Tree C.class) (h : Handle) (xs : List (ℕ × C.Item)) → IsJoined t u h
        → IsContents t xs → IsContents u xs }
    ensures enlarged { (t u : Tree C.class) (p : Handle) (key : C.Key) (xs : List (ℕ × C.Item))
        → IsEnlarged t u p key → IsContents t xs → IsContents u xs }
    ensures split { (t u : Tree C.class) (h r : Handle) (xs : List (ℕ × C.Item)) → IsSplit t u h r
        → IsContents t xs → IsContents u xs }
    ensures grown { (t u : Tree C.class) (a b : Handle) (xs : List (ℕ × C.Item)) → IsGrown t u a b
        → IsContents t xs → IsContents u xs }
    ensures installed { (t u : Tree C.class) (p l r : Handle) (xs : List (ℕ × C.Item))
        → IsInstalled t u p l r → IsContents t xs → IsContents u xs }
    ensures cleaned { (t u : Tree C.class) (kept : List (ℕ × C.Item)) (h : Handle)
        (before : List (ℕ × C.Item)) → Shape t → IsCleaned t u (Contains kept) h
        → IsContents t before → (after : List (ℕ × C.Item)) × IsContents u after × LosesPairs
        (Contains kept) before after }
    ensures retired { (t u : Tree C.class) (l p : Handle) (xs : List (ℕ × C.Item))
        → IsRetired t u l p → IsContents t xs → IsContents u xs }
    ensures freed { (t u : Tree C.class) (h : Handle) (xs : List (ℕ × C.Item)) → Shape t
        → IsFreed t u h → IsContents t xs → IsContents u xs }
    ensures started { (u : Tree C.class) → IsStarted u → IsContents u [] }
{}
