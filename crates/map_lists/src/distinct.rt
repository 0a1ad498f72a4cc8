//! Whether the changes of a list are each of another feature.

ghost use Rattle.std.specs.Prelude.{◌≡◌, []};
ghost use Rattle.plain_world.specs.Staging.{names};
ghost use Rattle.map_lists.specs.Reading.{again_from};

use features::Change;

/// Whether a change of the list names this feature.
fn is_named(changes: &[Change], id: u64) -> bool
    ensures { result ≡ names id changes.now }
{
    changes.iter().any(|change| change.id() == id)
}

/// The index of the first change that is of a feature that a change before it names.
pub(crate) fn first_again(changes: &[Change]) -> Option<usize>
    ensures { result ≡ again_from [] 0 changes.now }
{
    for (index, change) in changes.iter().enumerate() {
        if is_named(&changes[..index], change.id()) {
            return Some(index);
        }
    }
    None
}
