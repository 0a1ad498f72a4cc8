//! The actions that words name.

ghost use Rattle.std.specs.Prelude.{◌≡◌};
ghost use Rattle.session_lines.specs.Actions.{action_of};

use features::Action;

/// The action that a word names.
pub(crate) fn action_named(word: &[u8]) -> Option<Action>
    ensures { result ≡ action_of word.now }
{
    if word == b"read".as_slice() {
        Some(Action::Read)
    } else if word == b"add".as_slice() {
        Some(Action::Add)
    } else if word == b"reshape".as_slice() {
        Some(Action::Reshape)
    } else if word == b"delete".as_slice() {
        Some(Action::Delete)
    } else {
        None
    }
}
