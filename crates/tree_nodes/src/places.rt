//! A node's parent, and its index there.

ghost use Rattle.std.specs.Prelude.{◌≡◌, ℕ, Some, IfSome, IfNone, slice_get};
ghost use Rattle.node_arena.specs.declared.handle.Handle.{Handle};

use node_arena::Handle;
use tree_theory::Position;

/// The parent of a linked node that is marked if `wanted`, and else not; `None` for any other
/// place.
pub fn parent_of(place: Position, wanted: bool) -> Option<Handle>
    ensures some { IfSome result (λ parent. place ≡ Position.Linked parent wanted) }
    ensures none { IfNone result ((parent : Handle) → place ≡ Position.Linked parent wanted → ⊥) }
{
    match place {
        Position::Linked { parent, marked } if marked == wanted => Some(parent),
        _ => None,
    }
}

/// The index of a child among others; `None` where it is not among them.
pub fn place_among(children: &[Handle], child: Handle) -> Option<usize>
    ensures some { IfSome result (λ place. slice_get children.now place ≡ Some child) }
    ensures none { IfNone result ((place : ℕ) → slice_get children.now place ≡ Some child → ⊥) }
{
    for (place, other) in children.iter().enumerate() {
        if *other == child {
            return Some(place);
        }
    }
    None
}
