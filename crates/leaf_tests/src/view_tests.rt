//! Views of a list, on one thread: what they are told, how many there can be, and when there is
//! nothing to read.

ghost use Rattle.std.specs.Prelude.{◌≡◌, ◌<◌};
ghost use Rattle.published_policies.specs.Lists.{last_edition};

use crate::policies::{is_right, policy, question};
use combining::Question;
use published_policies::{EmptyList, ListName, Publisher, View};
use std::alloc::Global;
use std::marker::Brand;
use std::process::Abort;
use std::sync::Wait;
use std::test::*;

fn opened<L: ListName, W: Wait + Drop>(
    rt: &impl Abort,
    own: W,
    heap: Global,
    list: EmptyList,
) -> Publisher<L, W>
    requires { list ≡ L.book }
    ensures { last_edition result ≡ 1 }
{
    let Ok(publisher) = Publisher::open(own, heap, list, policy(rt, heap, 1), 2) else {
        panic!(rt; "not opened")
    };
    publisher
}

/// A new view of the list, which knows the policies up to this edition.
fn view_of<L: ListName, W: Wait + Drop>(
    rt: &impl Abort,
    publisher: &mut Publisher<L, W>,
    edition: u64,
) -> View<L>
    ensures { publisher.new ≡ publisher.old }
{
    let view = publisher.view().expect(rt, "a place for a view");
    assert_eq!(rt; view.edition(), edition);
    view
}

/// Asserts that the view explains by the policy of this edition.
fn assert_explains<L: ListName>(
    rt: &impl Abort,
    view: &mut View<L>,
    question: &Question,
    edition: u64,
) {
    let explained = view.explain(question).expect(rt, "something to read");
    assert!(rt; is_right(&explained), "{explained:?}");
    assert_eq!(rt; explained.edition, edition);
    assert_eq!(rt; view.edition(), edition);
}

/// A view that is told of an edition knows it at once; one that is not told knows it when it has
/// read it.
fn told_and_not_told<L: ListName, W: Wait + Drop>(
    rt: &impl Abort,
    own: W,
    heap: Global,
    list: EmptyList,
)
    requires { list ≡ L.book }
{
    let mut publisher = opened::<L, W>(rt, own, heap, list);
    let mut told = view_of(rt, &mut publisher, 1);
    let mut other = view_of(rt, &mut publisher, 1);
    let question = question(rt);
    assert_explains(rt, &mut told, &question, 1);
    let edition = publisher.publish(policy(rt, heap, 2));
    assert_eq!(rt; edition.number(), 2);
    told.catch_up(edition);
    assert_eq!(rt; told.edition(), 2);
    assert_eq!(rt; other.edition(), 1);
    assert_explains(rt, &mut told, &question, 2);
    assert_explains(rt, &mut other, &question, 2);
    drop(publisher);
}

#[test]
fn told_views_know_the_edition(rt: HostRuntime) -> Result<(), Fail> {
    told_and_not_told::<Brand, _>(&rt, rt, rt.alloc(), EmptyList::new());
    Ok(())
}

/// There are at most as many views at a time as were asked for. Once the publisher is dropped, they
/// have nothing to read.
fn places_and_end<L: ListName, W: Wait + Drop>(
    rt: &impl Abort,
    own: W,
    heap: Global,
    list: EmptyList,
)
    requires { list ≡ L.book }
{
    let mut publisher = opened::<L, W>(rt, own, heap, list);
    let mut one = view_of(rt, &mut publisher, 1);
    let two = view_of(rt, &mut publisher, 1);
    assert!(rt; publisher.view().is_none());
    drop(two);
    let _again = view_of(rt, &mut publisher, 1);
    drop(publisher);
    assert!(rt; one.explain(&question(rt)).is_none());
    assert_eq!(rt; one.edition(), 1);
}

#[test]
fn views_have_places_and_an_end(rt: HostRuntime) -> Result<(), Fail> {
    places_and_end::<Brand, _>(&rt, rt, rt.alloc(), EmptyList::new());
    Ok(())
}

/// Views are given at any time, up to as many as were asked for, and each knows all that is
/// published.
fn views_between_policies<L: ListName, W: Wait + Drop>(
    rt: &impl Abort,
    own: W,
    heap: Global,
    list: EmptyList,
)
    requires { list ≡ L.book }
{
    let Ok(mut publisher) = Publisher::<L, W>::open(own, heap, list, policy(rt, heap, 1), 64) else {
        panic!(rt; "not opened")
    };
    let mut views = Vec::new(heap);
    for edition in 1..5 {
        for _ in 0..16 {
            let view = view_of(rt, &mut publisher, edition);
            views.push(view).expect(rt, "memory");
        }
        let _edition = publisher.publish(policy(rt, heap, edition + 1));
    }
    assert!(rt; publisher.view().is_none());
    let question = question(rt);
    for view in &mut views {
        assert_explains(rt, view, &question, 5);
    }
    drop(publisher);
}

#[test]
fn sixty_four_views_between_policies(rt: HostRuntime) -> Result<(), Fail> {
    views_between_policies::<Brand, _>(&rt, rt, rt.alloc(), EmptyList::new());
    Ok(())
}

/// A list that begins at an edition goes on from there, and views know its editions.
fn begun_at<L: ListName, W: Wait + Drop>(
    rt: &impl Abort,
    own: W,
    heap: Global,
    list: EmptyList,
    first: u64,
)
    requires list { list ≡ L.book }
    requires first { 0 < first }
    requires next { first < u64.MAX }
{
    let Ok(mut publisher) = Publisher::<L, W>::open(own, heap, list, policy(rt, heap, first), 2)
    else {
        panic!(rt; "not opened")
    };
    let question = question(rt);
    let mut told = view_of(rt, &mut publisher, first);
    let mut other = view_of(rt, &mut publisher, first);
    assert_explains(rt, &mut told, &question, first);
    let edition = publisher.publish(policy(rt, heap, first + 1));
    assert_eq!(rt; edition.number(), first + 1);
    told.catch_up(edition);
    assert_eq!(rt; told.edition(), first + 1);
    assert_eq!(rt; other.edition(), first);
    assert_explains(rt, &mut told, &question, first + 1);
    assert_explains(rt, &mut other, &question, first + 1);
    drop(publisher);
}

#[test]
fn lists_begin_at_any_edition(rt: HostRuntime) -> Result<(), Fail> {
    for first in [1, 2, 7, 1 << 40, u64::MAX - 1] {
        begun_at::<Brand, _>(&rt, rt, rt.alloc(), EmptyList::new(), first);
    }
    Ok(())
}
