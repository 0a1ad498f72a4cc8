//! A steward publishes policies, and views explain by them.

ghost use Rattle.std.specs.Prelude.{◌≡◌};
ghost use Rattle.published_policies.specs.Lists.{last_edition};

use crate::policies::{is_right, policy, question};
use combining::Question;
use published_policies::{EmptyList, ListName, Publisher, View};
use std::alloc::{AllocError, Global};
use std::marker::Brand;
use std::process::Abort;
use std::sync::Wait;
use std::test::*;
use std::thread;
use std::thread::{Threads, join};

/// How many policies are published, the one that opens the list included.
const POLICIES: u64 = 1_000;

/// How many views explain, each in a thread of its own.
const VIEWS: usize = 4;

/// How often a view explains at most, so that the test ends.
const ROUNDS: u64 = 20_000_000;

/// The result of a view that explains until it has read the last policy.
#[derive(Debug, PartialEq, Eq, Drop)]
enum Watched {
    /// Each explanation was that of its edition's policy, and no edition was below the one before.
    Well,
    /// An edition was below the one before.
    WentBack,
    /// An explanation was not that of its edition's policy.
    RuledWrongly,
    /// There was nothing to read.
    NothingToRead,
    /// The last policy was not read within `ROUNDS` explanations.
    TooLong,
}

/// Explains until the last policy is read, at most `ROUNDS` times, every other time prepared.
fn watch<L: ListName>(mut view: View<L>, question: &Question) -> Watched {
    let mut edition = view.edition();
    for round in 0..ROUNDS {
        if round % 2 == 0 {
            view.prepare(question);
        }
        let Some(explained) = view.explain(question) else {
            return Watched::NothingToRead;
        };
        if explained.edition < edition {
            return Watched::WentBack;
        }
        if !is_right(&explained) {
            return Watched::RuledWrongly;
        }
        edition = explained.edition;
        if edition == POLICIES {
            return Watched::Well;
        }
    }
    Watched::TooLong
}

/// Publishes the second policy and those after it, up to the last.
fn publish_all<L: ListName, R: Wait + Drop>(
    rt: &impl Abort,
    heap: Global,
    mut publisher: Publisher<L, R>,
) -> Publisher<L, R>
    requires { last_edition publisher ≡ 1 }
{
    for edition in 1..POLICIES {
        let told = publisher.publish(policy(rt, heap, edition + 1));
        assert_eq!(rt; told.number(), edition + 1);
    }
    publisher
}

/// `VIEWS` views of the list.
fn views_of<L: ListName, W: Wait + Drop>(
    rt: &impl Abort,
    heap: Global,
    publisher: &mut Publisher<L, W>,
) -> Vec<View<L>>
    ensures { publisher.new ≡ publisher.old }
{
    let mut views = Vec::new(heap);
    for _ in 0..VIEWS {
        let view = publisher.view().expect(rt, "a place for a view");
        views.push(view).expect(rt, "memory");
    }
    views
}

/// Explains by each view, in a thread of its own, until the last policy is read.
fn watch_all<L: ListName + Send, R: Threads + Abort + Sync>(
    rt: &R,
    views: Vec<View<L>>,
) -> Result<Vec<Watched>, AllocError> {
    let question = question(rt);
    thread::map_vec(rt, views, &|view| watch(view, &question))
}

/// One thread publishes while others explain, one for each view.
fn publish_beside<L: ListName + Send + Sync, R: Threads + Abort + Sync, W: Wait + Drop + Send>(
    rt: &R,
    heap: Global,
    publisher: Publisher<L, W>,
    views: Vec<View<L>>,
) -> Result<Vec<Watched>, AllocError>
    requires { last_edition publisher ≡ 1 }
{
    let (watched, publisher) = join(
        rt,
        move || watch_all(rt, views),
        move || -> Publisher<L, W>
            requires { last_edition publisher ≡ 1 }
        { publish_all(rt, heap, publisher) },
    );
    drop(publisher);
    watched
}

fn published_beside_views<
    L: ListName + Send + Sync,
    R: Threads + Abort + Sync,
    W: Wait + Drop + Send,
>(rt: &R, own: W, heap: Global, list: EmptyList) -> Result<(), Fail>
    requires { list ≡ L.book }
{
    let first = policy(rt, heap, 1);
    let Ok(mut publisher) = Publisher::<L, W>::open(own, heap, list, first, VIEWS) else {
        panic!(rt; "opened")
    };
    let views = views_of(rt, heap, &mut publisher);
    let watched = publish_beside(rt, heap, publisher, views)?;
    assert_eq!(rt; watched.len(), VIEWS);
    assert!(rt;
        watched.iter().all(|outcome| *outcome == Watched::Well),
        "{watched:?}"
    );
    Ok(())
}

#[test]
fn editions_never_go_back(rt: HostRuntime) -> Result<(), Fail> {
    published_beside_views::<Brand, _, _>(&rt, rt, rt.alloc(), EmptyList::new())
}
