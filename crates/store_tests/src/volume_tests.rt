//! Volumes over a store in memory.
use crate::parts::{
    Dice, OPEN, SHUT, TABLES, decider, editor, memory_store, name, new_volume, new_volume_at, point,
};
use audit_trail::{Deed, Record};
use features::{Change, Feature};
use kept_shapes::ChangeList;
use sqlite_trees::memory::MemStore;
use std::alloc::{AllocError, Global};
use std::process::Abort;
use std::sync::Arc;
use std::test::Fail;
use volumes::{Tables, Volume, VolumeFault};

/// The ids at the ends of SQLite's signed integers.
const ENDS: [u64; 4] = [
    0,
    9_223_372_036_854_775_807,
    9_223_372_036_854_775_808,
    18_446_744_073_709_551_615,
];

type Records = Vec<Arc<Record<Global>, Global>>;

/// The changes as a record keeps them.
fn kept(rt: &impl Abort, heap: Global, changes: &[Change]) -> ChangeList<Global> {
    let list = ChangeList::new(heap, changes);
    assert!(rt; list.is_ok());
    list.unwrap()
}

/// A group of one list of changes, applied as this version for office north.
fn list(
    rt: &impl Abort,
    heap: Global,
    version: u64,
    changes: &[Change],
) -> Result<Records, AllocError> {
    let deed = Deed::Applied {
        subject: editor(rt, "north"),
        version,
        changes: kept(rt, heap, changes),
    };
    let mut records = Vec::new(heap);
    records.push(Arc::new(heap, Record::new(1, deed))?)?;
    Ok(records)
}

/// Appends a group, which has to succeed.
fn append(rt: &impl Abort, heap: Global, volume: &mut Volume<MemStore>, records: &Records) {
    let done = volume.append(heap, records.as_slice());
    assert!(rt; done.is_ok(), "{done:?}");
}

/// Whether the volume has just these features.
fn keeps(rt: &impl Abort, heap: Global, volume: &mut Volume<MemStore>, features: &[Feature]) {
    match volume.state(heap, heap) {
        Ok(state) => assert_eq!(rt; state.features.as_slice(), features),
        Err(fault) => panic!(rt; "no state: {fault}"),
    }
}

fn mast(rt: &impl Abort, id: u64) -> Change {
    Change::Add {
        id,
        class: name(rt, "mast"),
        shape: point(rt, 4, 4),
    }
}

fn feature(rt: &impl Abort, id: u64, version: u64, x: i32) -> Feature {
    Feature {
        id,
        version,
        office: name(rt, "north"),
        class: name(rt, "mast"),
        shape: point(rt, x, 4),
    }
}

#[test]
fn ids_at_the_ends(rt: HostRuntime) -> Result<(), Fail> {
    let heap = rt.alloc();
    let mut volume = new_volume(&rt, heap);
    let adds = [
        mast(&rt, ENDS[3]),
        mast(&rt, ENDS[2]),
        mast(&rt, ENDS[1]),
        mast(&rt, ENDS[0]),
    ];
    append(&rt, heap, &mut volume, &list(&rt, heap, 1, &adds)?);
    let there = [
        feature(&rt, ENDS[0], 1, 4),
        feature(&rt, ENDS[1], 1, 4),
        feature(&rt, ENDS[2], 1, 4),
        feature(&rt, ENDS[3], 1, 4),
    ];
    keeps(&rt, heap, &mut volume, &there);
    let changes = [
        Change::Reshape {
            id: ENDS[3],
            version: 1,
            shape: point(&rt, 5, 4),
        },
        Change::Delete {
            id: ENDS[2],
            version: 1,
        },
    ];
    append(&rt, heap, &mut volume, &list(&rt, heap, 2, &changes)?);
    let left = [
        feature(&rt, ENDS[0], 1, 4),
        feature(&rt, ENDS[1], 1, 4),
        feature(&rt, ENDS[3], 2, 5),
    ];
    keeps(&rt, heap, &mut volume, &left);
    Ok(())
}

/// A volume that goes on behind another one begins with the features that there were.
#[test]
fn begins_with_features(rt: HostRuntime) {
    let heap = rt.alloc();
    let mut volume = match Volume::new(memory_store(&rt, heap), heap, TABLES, 8) {
        Ok(volume) => volume,
        Err((fault, _)) => panic!(&rt; "no volume: {fault}"),
    };
    let there = [feature(&rt, 3, 2, 4), feature(&rt, 7, 5, 6)];
    let decider = decider(&rt, heap, OPEN, 2);
    let begun = volume.begin(heap, &there, 5, &decider, 1, "[]");
    assert!(&rt; begun.is_ok(), "{begun:?}");
    keeps(&rt, heap, &mut volume, &there);
}

#[test]
fn misfits_leave_all_as_it_was(rt: HostRuntime) -> Result<(), Fail> {
    let heap = rt.alloc();
    let mut volume = new_volume(&rt, heap);
    append(
        &rt,
        heap,
        &mut volume,
        &list(&rt, heap, 1, &[mast(&rt, 7)])?,
    );
    let there = [feature(&rt, 7, 1, 4)];
    let wrong = [
        mast(&rt, 7),
        Change::Delete { id: 8, version: 1 },
        Change::Reshape {
            id: 9,
            version: 1,
            shape: point(&rt, 0, 0),
        },
    ];
    for change in &wrong {
        let group = list(&rt, heap, 2, &[mast(&rt, 6), *change])?;
        let done = volume.append(heap, group.as_slice());
        assert!(rt; matches!(done, Err(VolumeFault::Misfit)));
        keeps(&rt, heap, &mut volume, &there);
        assert_eq!(rt; volume.next(), 2);
    }
    append(
        &rt,
        heap,
        &mut volume,
        &list(&rt, heap, 2, &[mast(&rt, 6)])?,
    );
    keeps(
        &rt,
        heap,
        &mut volume,
        &[feature(&rt, 6, 2, 4), feature(&rt, 7, 1, 4)],
    );
    Ok(())
}

/// One of 40 ids, those at the ends among them.
fn drawn_id(number: u32) -> u64 {
    match ENDS.get(number as usize) {
        Some(id) => *id,
        None => u64::from(number).wrapping_mul(461_168_601_842_738_791),
    }
}

/// A list of up to 16 changes that fits these features, which are changed as it says.
fn draw_list(
    rt: &impl Abort,
    heap: Global,
    dice: &mut Dice,
    version: u64,
    plain: &mut Vec<Feature>,
) -> Result<Deed<Global>, AllocError> {
    let first = dice.below(40);
    let count = dice.below(16).saturating_add(1);
    let mut changes = Vec::new(heap);
    for k in 0..count {
        let id = drawn_id(first.wrapping_add(k).checked_rem(40).unwrap_or(0));
        let x = i32::try_from(dice.below(1_000)).unwrap_or(0);
        let found = plain.iter().position(|feature| feature.id == id);
        match found {
            None => {
                changes.push(Change::Add {
                    id,
                    class: name(rt, "mast"),
                    shape: point(rt, x, 4),
                })?;
                let at = plain.iter().position(|feature| feature.id > id);
                let at = at.unwrap_or(plain.len());
                plain.insert(at, feature(rt, id, version, x))?;
            }
            Some(at) if dice.below(3) == 0 => {
                changes.push(Change::Delete { id, version: 0 })?;
                let _gone = plain.remove(at);
            }
            Some(at) => {
                changes.push(Change::Reshape {
                    id,
                    version: 0,
                    shape: point(rt, x, 4),
                })?;
                let mut changed = plain[at];
                changed.version = version;
                changed.shape = point(rt, x, 4);
                plain[at] = changed;
            }
        }
    }
    Ok(Deed::Applied {
        subject: editor(rt, "north"),
        version,
        changes: kept(rt, heap, changes.as_slice()),
    })
}

/// A search that was answered with nothing: it changes no table but that of records.
fn answered(rt: &impl Abort, heap: Global) -> Deed<Global> {
    Deed::Answered {
        subject: editor(rt, "north"),
        window: point(rt, 0, 0),
        ids: Vec::new(heap),
        versions: Vec::new(heap),
    }
}

#[test]
fn ten_thousand_records_beside_a_list(rt: HostRuntime) -> Result<(), Fail> {
    let heap = rt.alloc();
    let mut dice = Dice::new(55);
    let mut volume = new_volume(&rt, heap);
    let mut plain = Vec::new(heap);
    let mut version = 0u64;
    let mut edition = 1u64;
    for turn in 0..2_500u32 {
        let mut group = Vec::new(heap);
        for _ in 0..4 {
            let deed = match dice.below(10) {
                0 => answered(&rt, heap),
                1 => {
                    edition = edition.saturating_add(1);
                    let text = if dice.below(2) == 0 { OPEN } else { SHUT };
                    Deed::Governed {
                        edition,
                        decider: Arc::new(heap, decider(&rt, heap, text, edition))?,
                    }
                }
                _ => {
                    version = version.saturating_add(1);
                    draw_list(&rt, heap, &mut dice, version, &mut plain)?
                }
            };
            group.push(Arc::new(heap, Record::new(1, deed))?)?;
        }
        append(&rt, heap, &mut volume, &group);
        if turn.checked_rem(250) == Some(0) {
            keeps(&rt, heap, &mut volume, plain.as_slice());
        }
    }
    let store = volume.into_store();
    let mut again = match Volume::new(store, heap, TABLES, 1) {
        Ok(volume) => volume,
        Err((fault, _)) => panic!(rt; "no volume: {fault}"),
    };
    match again.restore(heap, heap) {
        Ok(state) => {
            assert_eq!(rt; state.features.as_slice(), plain.as_slice());
            assert_eq!(rt; state.version, version);
            assert_eq!(rt; state.decider.edition(), edition);
        }
        Err(fault) => panic!(rt; "no state: {fault}"),
    }
    assert_eq!(rt; again.next(), 10_001);
    Ok(())
}

/// A volume over the store of another, whose first record has this number.
fn reopened(
    rt: &impl Abort,
    heap: Global,
    volume: Volume<MemStore>,
    first: u64,
) -> Volume<MemStore> {
    match Volume::new(volume.into_store(), heap, TABLES, first) {
        Ok(volume) => volume,
        Err((fault, _)) => panic!(rt; "no volume: {fault}"),
    }
}

#[test]
fn numbers_beyond_32_bits(rt: HostRuntime) -> Result<(), Fail> {
    let heap = rt.alloc();
    let first = 4_294_967_294;
    let mut volume = new_volume_at(&rt, heap, first);
    for id in 1..6u64 {
        append(
            &rt,
            heap,
            &mut volume,
            &list(&rt, heap, id, &[mast(&rt, id)])?,
        );
    }
    assert_eq!(rt; volume.next(), 4_294_967_299);
    let mut again = reopened(&rt, heap, volume, first);
    assert!(rt; again.restore(heap, heap).is_ok());
    assert_eq!(rt; again.next(), 4_294_967_299);
    let more = list(&rt, heap, 6, &[mast(&rt, 6)])?;
    append(&rt, heap, &mut again, &more);
    let mut wrong = reopened(&rt, heap, again, first.saturating_add(1));
    assert!(rt; matches!(wrong.restore(heap, heap), Err(VolumeFault::BadRecord)));
    Ok(())
}

/// A record has a number below 2^63.
#[test]
fn numbers_at_the_end(rt: HostRuntime) -> Result<(), Fail> {
    let heap = rt.alloc();
    let last = 9_223_372_036_854_775_807;
    let mut volume = new_volume_at(&rt, heap, last);
    append(
        &rt,
        heap,
        &mut volume,
        &list(&rt, heap, 1, &[mast(&rt, 1)])?,
    );
    let one_more = list(&rt, heap, 2, &[mast(&rt, 2)])?;
    let done = volume.append(heap, one_more.as_slice());
    assert!(rt; matches!(done, Err(VolumeFault::NoNumber)));
    assert!(rt; matches!(volume.note_life(2, "[]"), Err(VolumeFault::NoNumber)));
    keeps(&rt, heap, &mut volume, &[feature(&rt, 1, 1, 4)]);
    let mut again = reopened(&rt, heap, volume, last);
    assert!(rt; again.restore(heap, heap).is_ok());
    assert_eq!(rt; again.next(), 9_223_372_036_854_775_808);
    Ok(())
}

#[test]
fn two_tables_under_one_number(rt: HostRuntime) {
    let heap = rt.alloc();
    let tables = Tables {
        features: 0,
        policy: 0,
        records: 2,
        lives: 3,
    };
    let made = Volume::new(memory_store(&rt, heap), heap, tables, 1);
    assert!(rt; matches!(made, Err((VolumeFault::NoTables, _))));
    let absent = Tables {
        lives: 9,
        features: 0,
        policy: 1,
        records: 2,
    };
    let made = Volume::new(memory_store(&rt, heap), heap, absent, 1);
    assert!(rt; matches!(made, Err((VolumeFault::NoTables, _))));
}
