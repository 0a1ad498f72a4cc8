//! Which answers stay kept.
use features::{Feature, Name};
use map_asks::Layer;
use map_sessions::{KEPT_LIMIT, KEPT_ROWS_LIMIT, Kept};
use plane::{Point, Shape};
use std::process::Abort;
use std::test::Fail;

fn mast(rt: &impl Abort, id: u64) -> Feature {
    Feature {
        id,
        version: 1,
        office: Name::new(b"north").expect(rt, "a name"),
        class: Name::new(b"mast").expect(rt, "a name"),
        shape: Shape::point(Point { x: 1, y: 2 }).expect(rt, "a shape"),
    }
}

/// The oldest answers go where there are too many; numbers are not given twice.
#[test]
fn oldest_answers_go(rt: HostRuntime) -> Result<(), Fail> {
    let ines = Name::new(b"ines").ok_or("a name")?;
    let mut kept = Kept::new(rt.alloc());
    for _ in 0..KEPT_LIMIT + 4 {
        kept.keep(Layer::All, ines, vec![in rt.alloc(); mast(&rt, 1)]?)?;
    }
    assert_eq!(rt; kept.next_number(), KEPT_LIMIT as u64 + 5);
    for number in 0..=4u64 {
        assert!(rt; kept.rows(number, &Layer::All, &ines).is_none());
    }
    for number in 5..=KEPT_LIMIT as u64 + 4 {
        assert!(rt; kept.rows(number, &Layer::All, &ines).is_some());
    }
    Ok(())
}

/// Rows of another collection are not those that are asked for.
#[test]
fn each_collection_has_its_own(rt: HostRuntime) -> Result<(), Fail> {
    let mast_layer = Layer::Class(Name::new(b"mast").ok_or("a name")?);
    let road_layer = Layer::Class(Name::new(b"road").ok_or("a name")?);
    let ines = Name::new(b"ines").ok_or("a name")?;
    let mut kept = Kept::new(rt.alloc());
    kept.keep(mast_layer, ines, vec![in rt.alloc(); mast(&rt, 7)]?)?;
    assert!(rt; kept.rows(1, &mast_layer, &ines).is_some());
    assert!(rt; kept.rows(1, &road_layer, &ines).is_none());
    assert!(rt; kept.rows(1, &Layer::All, &ines).is_none());
    Ok(())
}

/// Rows that were found for somebody else are not those that are asked for.
#[test]
fn each_asker_has_their_own(rt: HostRuntime) -> Result<(), Fail> {
    let ines = Name::new(b"ines").ok_or("a name")?;
    let omar = Name::new(b"omar").ok_or("a name")?;
    let mut kept = Kept::new(rt.alloc());
    kept.keep(Layer::All, ines, vec![in rt.alloc(); mast(&rt, 7)]?)?;
    assert!(rt; kept.rows(1, &Layer::All, &ines).is_some());
    assert!(rt; kept.rows(1, &Layer::All, &omar).is_none());
    Ok(())
}

/// A long answer drives the others out, and is kept however long it is.
#[test]
fn long_answers_are_kept_alone(rt: HostRuntime) -> Result<(), Fail> {
    let ines = Name::new(b"ines").ok_or("a name")?;
    let mut kept = Kept::new(rt.alloc());
    kept.keep(Layer::All, ines, vec![in rt.alloc(); mast(&rt, 1)]?)?;
    kept.keep(
        Layer::All,
        ines,
        vec![in rt.alloc(); mast(&rt, 1); KEPT_ROWS_LIMIT - 1]?,
    )?;
    assert!(rt; kept.rows(1, &Layer::All, &ines).is_some());
    kept.keep(Layer::All, ines, vec![in rt.alloc(); mast(&rt, 2); 2]?)?;
    assert!(rt; kept.rows(1, &Layer::All, &ines).is_none());
    assert!(rt; kept.rows(2, &Layer::All, &ines).is_none());
    assert!(rt; kept.rows(3, &Layer::All, &ines).is_some());
    kept.keep(
        Layer::All,
        ines,
        vec![in rt.alloc(); mast(&rt, 1); KEPT_ROWS_LIMIT + 1]?,
    )?;
    assert!(rt; kept.rows(3, &Layer::All, &ines).is_none());
    assert!(rt; kept.rows(4, &Layer::All, &ines).is_some());
    Ok(())
}
