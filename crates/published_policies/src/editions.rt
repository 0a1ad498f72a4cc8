//! Editions: lists that were published.

ghost use Rattle.std.specs.Prelude.{◌≡◌, ◌<◌, length};
ghost use Rattle.published_policies.specs.Lists.{IsPublished, last_edition};

use crate::lists::ListName;
use crate::seen_lists::SeenList;
use std::marker::{Model, PhantomData};

/// A published list, returned to whoever put its last policy in force. A view that is told of it
/// (`View::catch_up`) explains by that policy or a later one. At run time it is a number. Contracts see
/// the list.
#[derive(Drop)]
pub struct Edition<L: ListName> {
    pub(crate) list: SeenList,
    name: PhantomData<L>,
}

impl<L: ListName> Model for Edition<L> {
    ghost use Rattle.std.specs.Prelude.{◌≡◌, ◌<◌, List, length};
    ghost use Rattle.std.specs.Coded.{code_by, codes};
    ghost use Rattle.decision.specs.Deciders.{DeciderData};
    ghost use Rattle.published_policies.specs.Coding.{StoredList, stored_list, restored_list, restored_list-stored_list};

    ghost Value = { List DeciderData };

    ghost coded = { code_by StoredList (Prim.hlevel codes) stored_list restored_list
        restored_list-stored_list };

    ghost view = { λ e. e.list.list };

    ghost invariant = { λ e. (e.list.book ≡ L.book) × (0 < length e.list.list) };
}

impl<L: ListName> Edition<L> {
    pub(crate) fn of(list: SeenList) -> Edition<L>
        requires book { list.book ≡ L.book }
        requires not_empty { 0 < length list.list }
        ensures { result ≡ list.list }
    {
        Edition {
            list,
            name: PhantomData,
        }
    }

    /// The edition of the list's last policy.
    pub fn number(&self) -> u64
        ensures last { result ≡ last_edition self.now }
        ensures published { IsPublished self.now }
    {
        self.list.edition()
    }
}
