//! The publisher, for a place from which it cannot be moved, such as behind a lock.

ghost use Rattle.std.specs.Prelude.{◌≡◌, ◌<◌, ◌+◌, ◌^◌, ◌++◌, ◌∷◌, [], length, IfOk, IfSome, IsSome, None, Some};
ghost use Rattle.std.specs.Arc.{arc_value};
ghost use Rattle.published_policies.specs.Lists.{IsPublished, last_edition};

use crate::editions::Edition;
use crate::lists::{EmptyList, ListName};
use crate::views::View;
use crate::writers::ListWriter;
use decision::Decider;
use std::alloc::Global;
use std::marker::Model;
use std::mem;
use std::sync::{Arc, Wait};

/// No list was opened, since an allocation was refused. Only this crate makes one, and only then.
#[derive(Debug, Drop, PartialEq, Eq)]
pub struct NoMemoryForPolicies {
    seal: (),
}

impl NoMemoryForPolicies {
    /// Called only after a refused allocation.
    fn seen() -> Self {
        NoMemoryForPolicies { seal: () }
    }
}

/// The publisher of a list, with the handle by which it waits. Whoever puts policies in force keeps
/// it, behind the same lock. Dropping it waits for the views that are reading just then; afterwards
/// views have nothing to read. Contracts see the published list, from the policy that it was opened
/// with to the one that was published last.
pub struct Publisher<L: ListName, R: Wait + Drop> {
    writer: Option<ListWriter<L>>,
    rt: R,
}

impl<L: ListName, R: Wait + Drop> Model for Publisher<L, R> {
    ghost use Rattle.std.specs.Prelude.{List, [], IsSome};
    ghost use Rattle.std.specs.Option.{unwrap_or};
    ghost use Rattle.std.specs.Coded.{code_by, codes};
    ghost use Rattle.decision.specs.Deciders.{DeciderData};
    ghost use Rattle.published_policies.specs.Coding.{StoredList, stored_list, restored_list, restored_list-stored_list};

    ghost Value = { List DeciderData };

    ghost coded = { code_by StoredList (Prim.hlevel codes) stored_list restored_list
        restored_list-stored_list };

    ghost view = { λ p. unwrap_or p.writer [] };

    ghost invariant = { λ p. IsSome p.writer };
}

/// Takes the writer out of its place.
fn taken<L: ListName>(place: &mut Option<ListWriter<L>>) -> ListWriter<L>
    requires { IsSome place.old }
    ensures taken { place.old ≡ Some result }
    ensures empty { place.new ≡ None }
{
    place.take().unwrap()
}

/// Puts the writer back.
fn put_back<L: ListName>(place: &mut Option<ListWriter<L>>, writer: ListWriter<L>)
    requires { place.old ≡ None }
    ensures { place.new ≡ Some writer }
{
    match mem::replace(place, Some(writer)) {
        None => {}
        Some(_writer) => unreachable!(),
    }
}

impl<L: ListName, R: Wait + Drop> Publisher<L, R> {
    /// Publishes a list of one policy, for at most `views` views at a time. Its edition may be any
    /// but 0. The only error is out of memory.
    pub fn open(
        rt: R,
        heap: Global,
        list: EmptyList,
        first: Arc<Decider>,
        views: usize,
    ) -> Result<Publisher<L, R>, NoMemoryForPolicies>
        requires list { list ≡ L.book }
        requires first { 0 < (arc_value first).edition }
        requires views { (0 < views) × (views < 2 ^ 32) }
        ensures { IfOk result (λ publisher. publisher ≡ arc_value first ∷ []) }
    {
        match ListWriter::open(&rt, heap, list, first, views) {
            Ok(writer) => Ok(Publisher {
                writer: Some(writer),
                rt,
            }),
            Err(_) => Err(NoMemoryForPolicies::seen()),
        }
    }

    /// Publishes a policy of the next edition, and returns the list that ends with it. Waits for
    /// views that still read the policy before the last. Takes no memory.
    pub fn publish(&mut self, decider: Arc<Decider>) -> Edition<L>
        requires { (arc_value decider).edition ≡ last_edition self.old + 1 }
        ensures list { self.new ≡ self.old ++ arc_value decider ∷ [] }
        ensures edition { result ≡ self.old ++ arc_value decider ∷ [] }
    {
        let writer = taken(&mut self.writer);
        let (writer, edition) = writer.publish(&self.rt, decider);
        put_back(&mut self.writer, writer);
        edition
    }

    /// The edition of the policy that was published last.
    pub fn edition(&self) -> u64
        ensures last { result ≡ last_edition self.now }
        ensures published { IsPublished self.now }
    {
        match &self.writer {
            Some(writer) => writer.edition(),
            None => unreachable!(),
        }
    }

    /// A view of the list; `None` where there are as many views as there can be.
    pub fn view(&mut self) -> Option<View<L>>
        ensures list { IfSome result (λ view. view ≡ self.old) }
        ensures same { self.new ≡ self.old }
    {
        let mut writer = taken(&mut self.writer);
        let view = writer.view();
        put_back(&mut self.writer, writer);
        view
    }
}

impl<L: ListName, R: Wait + Drop> Drop for Publisher<L, R> {
    fn drop(self) {
        let Publisher { writer, rt } = self;
        match writer {
            Some(writer) => writer.end(&rt),
            None => {}
        }
    }
}
