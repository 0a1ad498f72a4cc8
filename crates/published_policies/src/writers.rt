//! The writer of a published list.

ghost use Rattle.std.specs.Prelude.{◌≡◌, ◌<◌, ◌+◌, ◌^◌, ◌++◌, ◌∷◌, [], length, drop, IfOk, IfSome, Option, Some};
ghost use Rattle.std.specs.Arc.{arc_value};
ghost use mathlib.Core.List.{IsPrefix};
ghost use Rattle.left_right.specs.Sides.{view as known_by};
ghost use Rattle.published_policies.specs.Growing.{length_word};
ghost use Rattle.published_policies.specs.Lists.{IsNextEdition, IsPublished, SeenData, last_edition, seen_in};

use crate::copies::{CopyRule, HandOn, Learn};
use crate::editions::Edition;
use crate::growing::ListRule;
use crate::lists::{EmptyList, ListName};
use crate::policies::Policy;
use crate::seen_lists::SeenList;
use crate::views::View;
use decision::Decider;
use left_right::writer::Writer;
use logbook::Word;
use std::alloc::{AllocError, Global};
use std::marker::{Model, PhantomData};
use std::sync::{Arc, Wait};

/// The writer of both copies. A policy that it has taken and not shown yet is pending.
type CopyWriter = Writer<Policy, Policy, Option<SeenList>, CopyRule>;

/// The writer of a published list. Contracts see the list. It is not `Drop`, since its end waits:
/// `end` ends it.
pub(crate) struct ListWriter<L: ListName> {
    copies: CopyWriter,
    /// How many policies the list has.
    word: Word<Decider, u64, ListRule>,
    name: PhantomData<L>,
}

impl<L: ListName> Model for ListWriter<L> {
    ghost use Rattle.std.specs.Prelude.{◌≡◌, ◌<◌, List, [], length, drop, Option, Some};
    ghost use Rattle.std.specs.Coded.{code_by, codes};
    ghost use Rattle.left_right.specs.Sides.{view as known_by};
    ghost use Rattle.decision.specs.Deciders.{DeciderData};
    ghost use Rattle.published_policies.specs.Coding.{StoredList, stored_list, restored_list, restored_list-stored_list};
    ghost use Rattle.published_policies.specs.Growing.{length_word};
    ghost use Rattle.published_policies.specs.Lists.{SeenData};

    ghost Value = { List DeciderData };

    ghost coded = { code_by StoredList (Prim.hlevel codes) stored_list restored_list
        restored_list-stored_list };

    ghost view = { λ w. w.copies.desk.shown.value.list };

    ghost invariant = { λ w. (w.copies.desk.shown.value.book ≡ L.book)
        × (w.word ≡ length_word L.book)
        × (drop w.copies.behind w.copies.log.items ≡ [])
        × (known_by {V = Option SeenData} w.copies.desk.place ≡ Some w.copies.desk.shown.value) };
}

/// The list with one more policy. Nobody else adds to it, so the first try succeeds; otherwise this
/// would not return.
fn grown<R: Wait>(
    rt: &R,
    list: &SeenList,
    word: &Word<Decider, u64, ListRule>,
    decider: &Arc<Decider>,
) -> SeenList
    requires word { word.now ≡ length_word list.now.book }
    requires next { IsNextEdition list.now.list (arc_value decider.now).edition }
    ensures { result ≡ seen_in list.now.book (list.now.list ++ arc_value decider.now ∷ []) }
{
    for _ in rt.forever() {
        let mut list = list.again();
        if list.add(word, decider) {
            return list;
        }
    }
    unreachable!()
}

/// The writer once a policy is pending. It tries again where memory for that is refused;
/// `ListWriter::open` has taken that memory.
fn appended<R: Wait>(rt: &R, copies: CopyWriter, policy: Policy) -> CopyWriter
    requires { drop copies.behind copies.log.items ≡ [] }
    ensures desk { result.desk ≡ copies.desk }
    ensures pending { drop result.behind result.log.items ≡ policy ∷ [] }
{
    let mut copies = copies;
    let mut policy = policy;
    for _ in rt.forever() {
        match copies.append(policy) {
            Ok(()) => return copies,
            Err(back) => policy = back,
        }
    }
    unreachable!()
}

/// The writer once it has shown the one policy that was pending, with which this list ends.
fn shown<R: Wait>(rt: &R, copies: CopyWriter, list: &SeenList) -> CopyWriter
    requires pending { drop copies.behind copies.log.items ≡ list.now ∷ [] }
    requires book { list.now.book ≡ copies.desk.shown.value.book }
    requires longer { IsPrefix copies.desk.shown.value.list list.now.list }
    ensures shown { result.desk.shown.value ≡ list.now }
    ensures pending { drop result.behind result.log.items ≡ [] }
    ensures known { known_by {V = Option SeenData} result.desk.place ≡ Some list.now }
{
    let mut copies = copies;
    for _ in rt.forever() {
        let (writer, done) = copies.publish_as::<Learn, R>(rt);
        match done {
            Ok(()) => return writer,
            Err(_) => copies = writer,
        }
    }
    unreachable!()
}

impl<L: ListName> ListWriter<L> {
    /// Publishes a list of one policy, for at most `views` views at a time. The only error is out
    /// of memory. The policy is published twice, so that the memory for what is pending is there
    /// from then on.
    #[tactic(auto, using(crate::proofs::ListLemmas::first_edition))]
    pub fn open<R: Wait>(
        rt: &R,
        heap: Global,
        list: EmptyList,
        first: Arc<Decider>,
        views: usize,
    ) -> Result<ListWriter<L>, AllocError>
        requires list { list ≡ L.book }
        requires first { 0 < (arc_value first).edition }
        requires views { (0 < views) × (views < 2 ^ 32) }
        ensures { IfOk result (λ writer. writer ≡ arc_value first ∷ []) }
    {
        let EmptyList { word, seen } = list;
        let list = grown(rt, &SeenList::nothing(seen), &word, &first);
        let policy = Policy::new(first, list.again());
        let (Ok(spare), Ok(next)) = (policy.again(), policy.again()) else {
            return Err(AllocError);
        };
        let mut copies: CopyWriter = Writer::new(heap, policy, spare, views)?;
        match copies.append(next) {
            Ok(()) => Ok(ListWriter {
                copies: shown(rt, copies, &list),
                word,
                name: PhantomData,
            }),
            Err(_) => {
                copies.take(rt);
                Err(AllocError)
            }
        }
    }

    /// Publishes a policy of the next edition.
    #[tactic(auto, using(crate::proofs::ListLemmas::next_edition))]
    pub fn publish<R: Wait>(self, rt: &R, decider: Arc<Decider>) -> (ListWriter<L>, Edition<L>)
        requires { (arc_value decider).edition ≡ last_edition self + 1 }
        ensures list { result.0 ≡ self ++ arc_value decider ∷ [] }
        ensures edition { result.1 ≡ self ++ arc_value decider ∷ [] }
    {
        let ListWriter { copies, word, name } = self;
        let before = copies.published().list();
        let list = grown(rt, &before, &word, &decider);
        let policy = Policy::new(decider, list.again());
        let copies = shown(rt, appended(rt, copies, policy), &list);
        (ListWriter { copies, word, name }, Edition::of(list))
    }

    /// The edition of the policy that was published last.
    pub fn edition(&self) -> u64
        ensures last { result ≡ last_edition self.now }
        ensures published { IsPublished self.now }
    {
        self.copies.published().list().edition()
    }

    /// A view that knows the list; `None` where each place for a view is in use.
    pub fn view(&mut self) -> Option<View<L>>
        ensures list { IfSome result (λ view. view ≡ self.old) }
        ensures same { self.new ≡ self.old }
    {
        let mut reader = self.copies.factory().reader().ok()?;
        let list = self.copies.published().list();
        reader.learn::<HandOn>(self.copies.tell::<HandOn>());
        Some(View::over(reader, list))
    }

    /// Waits for the views that are reading just then, and ends.
    pub fn end<R: Wait>(self, rt: &R) {
        let ListWriter {
            copies,
            word: _word,
            name: _,
        } = self;
        copies.take(rt);
    }
}
