//! Laws that follow from the definitions alone. The function does nothing; its contract states the
//! law.

ghost use Rattle.node_arena.specs.declared.handle.Handle.{Handle};
ghost use Rattle.search_tree.specs.Answering.{HasEnds, AnswersAlike};
ghost use Rattle.search_tree.specs.Cases.{TakesStep};
ghost use Rattle.search_tree.specs.Trees.{PlainTree};
ghost use Rattle.tree_answers.specs.declared.answers.Step.{Step};
ghost use Rattle.tree_answers.specs.declared.fault.TreeFault.{TreeFault};
ghost use Rattle.std.specs.Prelude.{ℕ, Result};

use tree_theory::KeyClass;

/// A step of a walk has one result, unless an allocation is refused: at most one of the cases of a
/// walk holds for a tree, a node and an item. (Of entries with equal penalties, the walk may
/// descend by any.)
pub fn steps_answer_alike<C: KeyClass>()
    ensures { (t u v : PlainTree C.Key C.Query C.Item) (at one other : Handle) (pair : ℕ × C.Item)
        (a b : Result Step TreeFault) → HasEnds u → HasEnds v
        → TakesStep C.class t u at one C.growth C.second_growth C.picks pair a
        → TakesStep C.class t v at other C.growth C.second_growth C.picks pair b
        → AnswersAlike a b }
{}
