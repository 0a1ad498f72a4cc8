//! Views, the readers of published policies.

ghost use Rattle.std.specs.Prelude.{◌≡◌, ◌⊎◌, ◌<◌, length, IfSome, IfNone, Option};
ghost use mathlib.Core.List.{IsPrefix};
ghost use Rattle.left_right.specs.Sides.{view as known_by};
ghost use Rattle.published_policies.specs.Copies.{KnowsOf};
ghost use Rattle.published_policies.specs.Explaining.{Explains};
ghost use Rattle.published_policies.specs.Lists.{IsPublished, SeenData, last_edition};

use crate::copies::{CopyRule, Learn};
use crate::editions::Edition;
use crate::explaining::Explained;
use crate::lists::ListName;
use crate::policies::Policy;
use crate::ready::{ReadyPolicy, made_ready};
use crate::seen_lists::SeenList;
use combining::Question;
use left_right::reader::Reader;
use std::marker::{Model, PhantomData};

/// A reader of the copy that is shown.
pub(crate) type CopyReader = Reader<Policy, Option<SeenList>, CopyRule>;

/// A reader of the published policies, for one thread. It asks how the last policy rules, without a
/// lock, without waiting and without memory; what it is prepared for is kept in memory. Contracts see the list as far as the view has read it
/// or was told of it.
#[derive(Drop)]
pub struct View<L: ListName> {
    reader: Option<CopyReader>,
    list: SeenList,
    /// The policy that was prepared for last.
    ready: Option<ReadyPolicy>,
    name: PhantomData<L>,
}

impl<L: ListName> Model for View<L> {
    ghost use Rattle.std.specs.Prelude.{◌≡◌, ◌<◌, List, length, Option, IsSome, IfSome};
    ghost use Rattle.std.specs.Coded.{code_by, codes};
    ghost use Rattle.left_right.specs.Sides.{view as known_by};
    ghost use Rattle.decision.specs.Deciders.{DeciderData};
    ghost use Rattle.published_policies.specs.Coding.{StoredList, stored_list, restored_list, restored_list-stored_list};
    ghost use Rattle.published_policies.specs.Copies.{KnowsOf};
    ghost use Rattle.published_policies.specs.Lists.{SeenData};

    ghost Value = { List DeciderData };

    ghost coded = { code_by StoredList (Prim.hlevel codes) stored_list restored_list
        restored_list-stored_list };

    ghost view = { λ v. v.list.list };

    ghost invariant = { λ v. IsSome v.reader
        × IfSome v.reader (λ reader. KnowsOf L.book (known_by {V = Option SeenData} reader.place))
        × (v.list.book ≡ L.book)
        × IfSome v.ready (λ ready. ready.book ≡ L.book)
        × (0 < length v.list.list) };
}

/// The ruling on a question of the policy with which this list ends, by what was prepared for it if
/// that is of this policy.
fn explained_by(
    ready: &Option<ReadyPolicy>,
    policy: &Policy,
    list: &SeenList,
    question: &Question,
) -> Explained
    requires same { list.now ≡ policy.now }
    requires book { IfSome ready.now (λ ready. ready.book ≡ list.now.book) }
    ensures { Explains list.now.list question.now result }
{
    if let Some(ready) = ready {
        if let Some(explained) = ready.explain(list, question) {
            return explained;
        }
    }
    policy.explain(question)
}

impl<L: ListName> View<L> {
    pub(crate) fn over(reader: CopyReader, list: SeenList) -> View<L>
        requires knows { KnowsOf L.book (known_by {V = Option SeenData} reader.place) }
        requires book { list.book ≡ L.book }
        requires not_empty { 0 < length list.list }
        ensures { result ≡ list.list }
    {
        View {
            reader: Some(reader),
            list,
            ready: None,
            name: PhantomData,
        }
    }

    /// The edition of the last policy that the view has read or was told of.
    pub fn edition(&self) -> u64
        ensures last { result ≡ last_edition self.now }
        ensures published { IsPublished self.now }
    {
        self.list.edition()
    }

    /// The ruling of the policy that was published last, with its edition and its rule. `None`
    /// where there is nothing to read: the publisher is gone.
    pub fn explain(&mut self, question: &Question) -> Option<Explained>
        ensures later { IfSome result (λ _. IsPrefix self.old self.new) }
        ensures ruling { IfSome result (Explains self.new question.now) }
        ensures edition { IfSome result (λ explained. explained.edition ≡ last_edition self.new) }
        ensures published { IfSome result (λ _. IsPublished self.new) }
        ensures none { IfNone result (self.new ≡ self.old) }
    {
        let reader = self.reader.take().unwrap();
        match reader.enter_as::<Learn>() {
            Err(reader) => {
                self.reader = Some(reader);
                None
            }
            Ok(reading) => {
                let policy = reading.get();
                let list = policy.list();
                let explained = explained_by(&self.ready, policy, &list, question);
                self.reader = Some(reading.leave());
                // What is read is never older than what the view was told of, but no contract of
                // the copies says so.
                if self.list.advance(&list) {
                    Some(explained)
                } else {
                    None
                }
            }
        }
    }

    /// Keeps what is left of the policy that was published last, once all but a feature's shape is
    /// known, for what the question's subject asks about such features: `explain` then answers
    /// sooner. Takes memory for it, and keeps nothing where there is none.
    pub fn prepare(&mut self, question: &Question)
        ensures { self.new ≡ self.old }
    {
        let reading = match self.reader.take().unwrap().enter_as::<Learn>() {
            Ok(reading) => reading,
            Err(reader) => {
                self.reader = Some(reader);
                return;
            }
        };
        let mut ready = made_ready(self.ready.take(), reading.get());
        self.reader = Some(reading.leave());
        if let Some(ready) = &mut ready {
            ready.prepare(question);
        }
        self.ready = ready;
    }

    /// Takes in an edition: from now on the view explains by its policy, or by a later one.
    pub fn catch_up(&mut self, edition: Edition<L>)
        ensures before { IsPrefix self.old self.new }
        ensures edition { IsPrefix edition self.new }
        ensures longer { (self.new ≡ self.old) ⊎ (self.new ≡ edition) }
    {
        self.list = self.list.longer(&edition.list);
    }
}
