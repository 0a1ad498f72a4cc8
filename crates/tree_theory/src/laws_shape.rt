//! The theorem on the tree's shape. The function does nothing; its contract states the theorem.

ghost use Rattle.node_arena.specs.declared.handle.Handle.{Handle};
ghost use Rattle.std.specs.Prelude.{ℕ, List, Contains};
ghost use Rattle.tree_theory.specs.Changes.{IsOpened, IsClosed, IsVisited, IsVisitedGone, IsPlaced, IsJoined, IsEnlarged, IsSplit, IsGrown, IsInstalled, IsCleaned, IsRetired, IsFreed, IsStarted};
ghost use Rattle.tree_theory.specs.Invariant.{Shape};
ghost use Rattle.tree_theory.specs.Nodes.{Tree};

use crate::key_class::KeyClass;

/// Each step keeps the clauses on places, sizes, levels and covering keys, and the first tree meets
/// them. Of a cleaning, `kept` has the pairs that the leaf keeps.
pub fn steps_keep_the_shape<C: KeyClass>()
    ensures opened { (t u : Tree C.class) (query : C.Query) → Shape t → IsOpened t u query
        → Shape u }
    ensures closed { (t u : Tree C.class) (s : ℕ) → Shape t → IsClosed t u s → Shape u }
    ensures visited { (t u : Tree C.class) (s : ℕ) (x : Handle) (memo : ℕ) → Shape t
        → IsVisited t u s x memo → Shape u }
    ensures visited_gone { (t u : Tree C.class) (s : ℕ) (x : Handle) (memo : ℕ) → Shape t
        → IsVisitedGone t u s x memo → Shape u }
    ensures placed { (t u : Tree C.class) (h : Handle) (pair : ℕ × C.Item) → Shape t
        → IsPlaced t u h pair → Shape u }
    ensures joined { (t u : Tree C.class) (h : Handle) → Shape t → IsJoined t u h → Shape u }
    ensures enlarged { (t u : Tree C.class) (p : Handle) (key : C.Key) → Shape t
        → IsEnlarged t u p key → Shape u }
    ensures split { (t u : Tree C.class) (h r : Handle) → Shape t → IsSplit t u h r → Shape u }
    ensures grown { (t u : Tree C.class) (a b : Handle) → Shape t → IsGrown t u a b → Shape u }
    ensures installed { (t u : Tree C.class) (p l r : Handle) → Shape t → IsInstalled t u p l r
        → Shape u }
    ensures cleaned { (t u : Tree C.class) (kept : List (ℕ × C.Item)) (h : Handle) → Shape t
        → IsCleaned t u (Contains kept) h → Shape u }
    ensures retired { (t u : Tree C.class) (l p : Handle) → Shape t → IsRetired t u l p → Shape u }
    ensures freed { (t u : Tree C.class) (h : Handle) → Shape t → IsFreed t u h → Shape u }
    ensures started { (u : Tree C.class) → IsStarted u → Shape u }
{}
