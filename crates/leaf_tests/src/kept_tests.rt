//! Lists of changes that are kept in the room of their shapes' corners.
use features::{Change, Name};
use kept_shapes::ChangeList;
use plane::{Point, Shape, corners};
use refusing::Refusing;
use std::alloc::{AllocError, Global};
use std::process::Abort;
use std::test::Fail;

/// A shape of so many corners: the points `x, x * x`.
pub(crate) fn shape_of(rt: &impl Abort, heap: Global, count: i32) -> Shape {
    let mut listed = Vec::new(heap);
    for x in 0..count {
        let corner = Point {
            x,
            y: x.saturating_mul(x),
        };
        assert!(rt; listed.push(corner).is_ok());
    }
    let shape = match count {
        1 => Shape::point(listed[0]),
        2 => Shape::segment(listed[0], listed[1]),
        _ => {
            assert!(rt; listed.push(Point { x: 0, y: 0 }).is_ok());
            Shape::polygon(listed.as_slice())
        }
    };
    assert!(rt; shape.is_ok());
    shape.unwrap()
}

/// Three changes: an addition and a reshape, to shapes of so many corners, and a deletion.
fn three(rt: &impl Abort, heap: Global, added: i32, reshaped: i32) -> [Change; 3] {
    let class = Name::new(b"mast");
    assert!(rt; class.is_some());
    [
        Change::Add {
            id: 7,
            class: class.unwrap(),
            shape: shape_of(rt, heap, added),
        },
        Change::Reshape {
            id: 9,
            version: 3,
            shape: shape_of(rt, heap, reshaped),
        },
        Change::Delete { id: 4, version: 2 },
    ]
}

/// A list gives its changes back, one by one and all at once.
#[test]
fn lists_are_kept(rt: HostRuntime) -> Result<(), Fail> {
    let heap = rt.alloc();
    for count in 1..17 {
        let changes = three(&rt, heap, count, 17_i32.saturating_sub(count));
        let list = ChangeList::new(heap, &changes);
        assert!(rt; list.is_ok());
        let list = list.unwrap();
        assert_eq!(rt; list.len(), 3);
        for (at, change) in changes.iter().enumerate() {
            assert!(rt; list.get(at) == Some(*change), "{count}: {at}");
        }
        assert!(rt; list.get(3).is_none());
        let copied = list.copied(heap);
        assert!(rt; copied.is_ok_and(|copied| copied.as_slice() == changes.as_slice()));
    }
    Ok(())
}

/// Lists are the same where their changes are.
#[test]
fn lists_are_compared(rt: HostRuntime) -> Result<(), Fail> {
    let heap = rt.alloc();
    let of = |added, reshaped| ChangeList::new(heap, &three(&rt, heap, added, reshaped));
    for (one, other, same) in [
        (of(2, 5), of(2, 5), true),
        (of(2, 5), of(1, 5), false),
        (of(2, 5), of(2, 6), false),
        (of(2, 5), ChangeList::new(heap, &[]), false),
    ] {
        assert!(rt; one.is_ok() && other.is_ok());
        assert_eq!(rt; one.unwrap().is_same(&other.unwrap()), same);
    }
    Ok(())
}

/// The corners of a shape are that shape.
#[test]
fn shapes_of_corners(rt: HostRuntime) -> Result<(), Fail> {
    for count in 1..17 {
        let shape = shape_of(&rt, rt.alloc(), count);
        assert!(rt; Shape::of_corners(corners(&shape)) == shape, "{count}");
    }
    Ok(())
}

/// Each allocation of a list is refused in turn: its room, and the corners of the polygon.
#[test]
fn lists_refused(rt: HostRuntime) -> Result<(), Fail> {
    let memory = Refusing::new(rt.alloc(), 0);
    let changes = three(&rt, rt.alloc(), 2, 5);
    for at in 1..3 {
        memory.refuse(at);
        assert!(rt; ChangeList::new(&memory, &changes).is_err() && memory.has_refused());
    }
    memory.refuse(3);
    assert!(rt; ChangeList::new(&memory, &changes).is_ok() && !memory.has_refused());
    Ok(())
}
