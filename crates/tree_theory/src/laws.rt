//! The theorems on searches. The functions do nothing; their contracts state the theorems.

ghost use Rattle.node_arena.specs.declared.handle.Handle.{Handle};
ghost use Rattle.std.specs.Prelude.{◌≡◌, ℕ, List, Contains};
ghost use Rattle.tree_theory.specs.Changes.{IsOpened, IsClosed, IsVisited, IsVisitedGone, IsPlaced, IsJoined, IsEnlarged, IsSplit, IsGrown, IsInstalled, IsCleaned, IsRetired, IsFreed, IsStarted};
ghost use Rattle.tree_theory.specs.Invariant.{Invariant, Shape, Searches};
ghost use Rattle.tree_theory.specs.Nodes.{Tree};
ghost use Rattle.tree_theory.specs.Promises.{MissesNothing, PlacesBehindNone};
ghost use Rattle.tree_theory.specs.Runs.{IsStep, IsReached};

use crate::key_class::KeyClass;

/// In every tree that meets the invariant, a search with an empty stack has found every pair that
/// it looks for, and no step places a pair that it looks for.
pub fn ready_searches_miss_nothing<C: KeyClass>()
    ensures complete { (t : Tree C.class) → Invariant t → MissesNothing t }
    ensures none_placed { (t : Tree C.class) → Invariant t → PlacesBehindNone t }
{}

/// The first tree meets the invariant, and each step keeps it.
pub fn steps_keep_the_invariant<C: KeyClass>()
    ensures started { (t : Tree C.class) → IsStarted t → Invariant t }
    ensures steps { (t u : Tree C.class) → Invariant t → IsStep t u → Invariant u }
{}

/// After any steps from a first tree, in any order, the tree meets the invariant, a search with an
/// empty stack has found every pair that it looks for, and no step places a pair that it looks for.
pub fn runs_miss_nothing<C: KeyClass>()
    ensures invariant { (t : Tree C.class) → IsReached t → Invariant t }
    ensures complete { (t : Tree C.class) → IsReached t → MissesNothing t }
    ensures none_placed { (t : Tree C.class) → IsReached t → PlacesBehindNone t }
{}

/// Each step keeps the clauses on searches, and the first tree meets them: what each running search
/// has seen or will come to. Of a cleaning, `kept` has the pairs that the leaf keeps.
pub fn steps_keep_the_searches<C: KeyClass>()
    ensures opened { (t u : Tree C.class) (query : C.Query) → Shape t → Searches t
        → IsOpened t u query → Searches u }
    ensures closed { (t u : Tree C.class) (s : ℕ) → Shape t → Searches t → IsClosed t u s
        → Searches u }
    ensures visited { (t u : Tree C.class) (s : ℕ) (x : Handle) (memo : ℕ) → Shape t → Searches t
        → IsVisited t u s x memo → Searches u }
    ensures visited_gone { (t u : Tree C.class) (s : ℕ) (x : Handle) (memo : ℕ) → Shape t
        → Searches t → IsVisitedGone t u s x memo → Searches u }
    ensures placed { (t u : Tree C.class) (h : Handle) (pair : ℕ × C.Item) → Shape t → Searches t
        → IsPlaced t u h pair → Searches u }
    ensures joined { (t u : Tree C.class) (h : Handle) → Shape t → Searches t → IsJoined t u h
        → Searches u }
    ensures enlarged { (t u : Tree C.class) (p : Handle) (key : C.Key) → Shape t → Searches t
        → IsEnlarged t u p key → Searches u }
    ensures split { (t u : Tree C.class) (h r : Handle) → Shape t → Searches t → IsSplit t u h r
        → Searches u }
    ensures grown { (t u : Tree C.class) (a b : Handle) → Shape t → Searches t → IsGrown t u a b
        → Searches u }
    ensures installed { (t u : Tree C.class) (p l r : Handle) → Shape t → Searches t
        → IsInstalled t u p l r → Searches u }
    ensures cleaned { (t u : Tree C.class) (kept : List (ℕ × C.Item)) (h : Handle) → Shape t
        → Searches t → IsCleaned t u (Contains kept) h → Searches u }
    ensures retired { (t u : Tree C.class) (l p : Handle) → Shape t → Searches t → IsRetired t u l p
        → Searches u }
    ensures freed { (t u : Tree C.class) (h : Handle) → Shape t → Searches t → IsFreed t u h
        → Searches u }
    ensures started { (u : Tree C.class) → IsStarted u → Searches u }
{}
