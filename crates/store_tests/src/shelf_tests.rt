//! Stores in folders that the tests make where they run.
use audit_trail::{Deed, Record, Trail};
use decision::Decider;
use features::{Change, Name, Subject, Subjects};
use keepers::Keeper;
use kept_shapes::ChangeList;
use plane::{Point, Shape};
use policy_documents::Document;
use policy_text::read_document;
use scripts::run_kept_script;
use shelf::{
    Beginning, Cause, Found, LookFault, Shelf, ShelfFault, check_store, export_features,
    export_records, list_store,
};
use sqlite_trees::error::StoreError;
use std::alloc::{AllocError, Global};
use std::process::Abort;
use std::sync::Arc;
use std::test::Fail;
use std::{fs, io};
use volumes::VolumeFault;
use world::{Base, Limits, Starts, World};

/// A document that permits everything.
const OPEN: &str = r#"{"root":{"policy":"all","combine":"permit-unless-deny","rules":[]}}"#;

type Records = Vec<Arc<Record<Global>, Global>>;

/// With what a store begins.
#[derive(Drop)]
struct Policy {
    decider: Decider,
    subjects: Subjects,
}

/// One subject, and a document as the first edition.
fn open_policy(rt: &impl Abort, heap: Global) -> Policy {
    Policy {
        decider: decider(rt, heap),
        subjects: subjects(rt),
    }
}

/// One subject.
fn subjects(rt: &impl Abort) -> Subjects {
    match Subjects::new(&[editor(rt)]) {
        Ok(subjects) => subjects,
        Err(_) => panic!(rt; "no subjects"),
    }
}

/// The document that permits everything.
fn open_document(rt: &impl Abort, heap: Global) -> Document<Global> {
    match read_document(heap, heap, OPEN.as_bytes()) {
        Ok(document) => document,
        Err(_) => panic!(rt; "no document"),
    }
}

/// The decider of a document as the first edition.
fn decider(rt: &impl Abort, heap: Global) -> Decider {
    let document = open_document(rt, heap);
    match Decider::new(document, 1) {
        Ok(decider) => decider,
        Err(_) => panic!(rt; "no decider"),
    }
}

fn name(rt: &impl Abort, text: &str) -> Name {
    let name = Name::new(text.as_bytes());
    assert!(rt; name.is_some(), "{text}");
    name.unwrap()
}

fn editor(rt: &impl Abort) -> Subject {
    Subject {
        name: name(rt, "north"),
        office: name(rt, "north"),
        role: name(rt, "editor"),
        steward: false,
    }
}

/// The changes as a record keeps them.
fn kept(rt: &impl Abort, heap: Global, changes: &[Change]) -> ChangeList<Global> {
    let list = ChangeList::new(heap, changes);
    assert!(rt; list.is_ok());
    list.unwrap()
}

/// A group of one list that adds one feature.
fn addition(rt: &impl Abort, heap: Global, version: u64, id: u64) -> Result<Records, AllocError> {
    let shape = Shape::point(Point { x: 3, y: 4 });
    assert!(rt; shape.is_ok());
    let change = Change::Add {
        id,
        class: name(rt, "mast"),
        shape: shape.unwrap(),
    };
    let deed = Deed::Applied {
        subject: editor(rt),
        version,
        changes: kept(rt, heap, &[change]),
    };
    let mut records = Vec::new(heap);
    records.push(Arc::new(heap, Record::new(1, deed))?)?;
    Ok(records)
}

/// A store that is opened, and what it had. Where it is new, it begins with this policy.
fn opened(rt: &HostRuntime, policy: &Policy, folder: &str) -> Result<(Shelf, Found), ShelfFault> {
    let beginning = Beginning {
        decider: &policy.decider,
        subjects: &policy.subjects,
    };
    Shelf::open(rt, folder, beginning)
}

/// An empty folder of this name.
fn empty_folder(rt: &HostRuntime, folder: &str) {
    let _ = fs::remove_dir_all(rt, folder);
    let _ = fs::create_dir(rt, folder);
}

#[test]
fn goes_on_where_it_was(rt: HostRuntime) -> Result<(), Fail> {
    let heap = rt.alloc();
    let policy = open_policy(&rt, rt.alloc());
    let folder = "goes_on";
    empty_folder(&rt, folder);
    let (mut shelf, found) = match opened(&rt, &policy, folder) {
        Ok(opened) => opened,
        Err(fault) => panic!(&rt; "not opened: {fault}"),
    };
    assert_eq!(&rt; found.life, 1);
    assert_eq!(&rt; found.next, 1);
    let done = shelf.append(addition(&rt, heap, 1, 7)?.as_slice());
    assert!(&rt; done.is_ok(), "{done:?}");
    let done = shelf.close();
    assert!(&rt; done.is_ok(), "{done:?}");
    let (mut shelf, found) = match opened(&rt, &policy, folder) {
        Ok(opened) => opened,
        Err(fault) => panic!(&rt; "not opened again: {fault}"),
    };
    assert_eq!(&rt; found.life, 2);
    assert_eq!(&rt; found.next, 2);
    assert_eq!(&rt; found.state.version, 1);
    assert_eq!(&rt; found.state.features.len(), 1);
    let done = shelf.append(addition(&rt, heap, 2, 8)?.as_slice());
    assert!(&rt; done.is_ok(), "{done:?}");
    // Not closed: what was appended lasts all the same.
    drop(shelf);
    match opened(&rt, &policy, folder) {
        Ok((_shelf, found)) => {
            assert_eq!(&rt; found.life, 3);
            assert_eq!(&rt; found.next, 3);
            assert_eq!(&rt; found.state.features.len(), 2);
        }
        Err(fault) => panic!(&rt; "not opened after a drop: {fault}"),
    }
    Ok(())
}

#[test]
fn one_at_a_time(rt: HostRuntime) {
    let policy = open_policy(&rt, rt.alloc());
    let folder = "one_at_a_time";
    empty_folder(&rt, folder);
    let first = opened(&rt, &policy, folder);
    assert!(&rt; first.is_ok());
    match opened(&rt, &policy, folder) {
        Err(fault) => {
            assert!(&rt; matches!(fault, ShelfFault::InUse(_)), "{fault}");
            assert!(&rt; !fault.is_passing());
        }
        Ok(_) => panic!(&rt; "opened twice"),
    }
    drop(first);
    assert!(&rt; opened(&rt, &policy, folder).is_ok());
}

/// What a store says of a file.
fn said(rt: &impl Abort, heap: Global, error: StoreError) -> ShelfFault {
    let path = "store/0000000001.db".repeat(heap, 1).expect(rt, "memory");
    ShelfFault::Unusable(path, Cause::Volume(VolumeFault::Store(error)))
}

/// A disk that is full is asked again; one that fails is not.
#[test]
fn want_of_room_passes(rt: HostRuntime) {
    let heap = rt.alloc();
    assert!(&rt; said(&rt, heap, StoreError::Full).is_passing());
    assert!(&rt; said(&rt, heap, StoreError::OutOfMemory).is_passing());
    assert!(&rt; !said(&rt, heap, StoreError::Corrupt).is_passing());
    assert!(&rt; !said(&rt, heap, StoreError::Io).is_passing());
}

/// What a store says of a file that a call of the system refused with this number.
fn refused(rt: &impl Abort, heap: Global, number: i32) -> ShelfFault {
    let path = "store/0000000002.db".repeat(heap, 1).expect(rt, "memory");
    ShelfFault::Unusable(path, Cause::File(io::Error::from_raw_os_error(number)))
}

/// A disk without room for a further volume's files is asked again too. The numbers are Linux's.
#[test]
fn want_of_room_for_a_file_passes(rt: HostRuntime) {
    let heap = rt.alloc();
    // ENOMEM, ENOSPC, EDQUOT.
    for number in [12i32, 28, 122] {
        assert!(&rt; refused(&rt, heap, number).is_passing(), "{number}");
    }
    // ENOENT, EIO, EACCES, EMFILE, EROFS.
    for number in [2i32, 5, 13, 24, 30] {
        assert!(&rt; !refused(&rt, heap, number).is_passing(), "{number}");
    }
}

#[test]
fn no_folder(rt: HostRuntime) {
    let policy = open_policy(&rt, rt.alloc());
    match opened(&rt, &policy, "there_is_no_such_folder") {
        Err(fault) => assert!(&rt; matches!(fault, ShelfFault::Unusable(..)), "{fault}"),
        Ok(_) => panic!(&rt; "opened"),
    }
}

#[test]
fn half_made_volumes_are_removed(rt: HostRuntime) {
    let policy = open_policy(&rt, rt.alloc());
    let folder = "half_made";
    empty_folder(&rt, folder);
    assert!(&rt; fs::write(&rt, "half_made/0000000001.db", b"").is_ok());
    match opened(&rt, &policy, folder) {
        Ok((_shelf, found)) => assert_eq!(&rt; found.life, 1),
        Err(fault) => panic!(&rt; "not opened: {fault}"),
    }
    assert!(&rt; fs::write(&rt, "half_made/0000000002.db", b"").is_ok());
    match opened(&rt, &policy, folder) {
        Ok((_shelf, found)) => assert_eq!(&rt; found.life, 2),
        Err(fault) => panic!(&rt; "not opened: {fault}"),
    }
    assert!(&rt; matches!(fs::exists(&rt, "half_made/0000000002.db"), Ok(false)));
}

/// Whether a fault is that of a volume which has not begun though one stands behind it.
fn is_emptied(fault: &ShelfFault, path: &str) -> bool {
    match fault {
        ShelfFault::Damaged(file, Cause::Words(words)) => {
            file.as_str() == path && *words == "it has not begun, and another volume follows it"
        }
        _ => false,
    }
}

/// The same of what a look at a store tells.
fn tells_of_emptied(told: &Result<(), LookFault>, path: &str) -> bool {
    match told {
        Err(LookFault::Store(fault)) => is_emptied(fault, path),
        _ => false,
    }
}

/// Where a store of two volumes is: its folder, and their files.
#[derive(Clone, Copy)]
struct Places<'a> {
    folder: &'a str,
    first: &'a str,
    last: &'a str,
}

/// Makes a store of two volumes. The first one has no records, and so is also what the last one
/// begins with; that has these.
fn two_volumes(
    rt: &HostRuntime,
    policy: &Policy,
    places: Places<'_>,
    records: &Records,
) -> Result<(), ShelfFault> {
    empty_folder(rt, places.folder);
    let (shelf, _found) = opened(rt, policy, places.folder)?;
    shelf.close()?;
    let _ = fs::copy(rt, places.first, places.last);
    let (mut shelf, _found) = opened(rt, policy, places.folder)?;
    shelf.append(records.as_slice())?;
    shelf.close()
}

/// Only the last volume can be half made. One before it that has not begun was emptied: no look at
/// the store passes over it.
#[test]
fn an_emptied_volume_is_seen(rt: HostRuntime) -> Result<(), Fail> {
    let heap = rt.alloc();
    let policy = open_policy(&rt, heap);
    let places = Places {
        folder: "emptied",
        first: "emptied/0000000001.db",
        last: "emptied/0000000002.db",
    };
    let Places { folder, first, .. } = places;
    let made = two_volumes(&rt, &policy, places, &addition(&rt, heap, 1, 7)?);
    assert!(&rt; made.is_ok(), "{made:?}");
    match check_store(&rt, folder) {
        Ok(checked) => assert_eq!(&rt; (checked.volumes, checked.records), (2, 1)),
        Err(fault) => panic!(&rt; "not right: {fault}"),
    }
    // Behind them one that was half made: the store is right.
    assert!(&rt; fs::write(&rt, "emptied/0000000003.db", b"").is_ok());
    match check_store(&rt, folder) {
        Ok(checked) => assert_eq!(&rt; (checked.volumes, checked.records), (2, 1)),
        Err(fault) => panic!(&rt; "not right: {fault}"),
    }
    assert!(&rt; fs::remove_file(&rt, "emptied/0000000003.db").is_ok());
    assert!(&rt; fs::write(&rt, first, b"").is_ok());
    match check_store(&rt, folder) {
        Ok(_) => panic!(&rt; "right"),
        Err(fault) => assert!(&rt; is_emptied(&fault, first), "{fault}"),
    }
    let mut output = Vec::new(heap);
    let told = export_records(&rt, folder, &mut output);
    assert!(&rt; tells_of_emptied(&told, first), "{told:?}");
    let told = list_store(&rt, folder, &mut output);
    assert!(&rt; tells_of_emptied(&told, first), "{told:?}");
    assert!(&rt; output.is_empty());
    // Features are in the last volume alone.
    let told = export_features(&rt, folder, &mut output);
    assert!(&rt; told.is_ok(), "{told:?}");
    assert_eq!(&rt;
        output.as_slice(),
        b"7,1,north,mast,\"POINT (3 4)\"\n".as_slice()
    );
    Ok(())
}

/// Two volumes that have not begun are never the work of a stop: nothing begins before them, and
/// nothing is removed.
#[test]
fn two_emptied_volumes_end_a_start(rt: HostRuntime) -> Result<(), Fail> {
    let heap = rt.alloc();
    let policy = open_policy(&rt, heap);
    let places = Places {
        folder: "two_emptied",
        first: "two_emptied/0000000001.db",
        last: "two_emptied/0000000002.db",
    };
    let Places { folder, last, .. } = places;
    let made = two_volumes(&rt, &policy, places, &addition(&rt, heap, 1, 7)?);
    assert!(&rt; made.is_ok(), "{made:?}");
    assert!(&rt; fs::write(&rt, last, b"").is_ok());
    assert!(&rt; fs::write(&rt, "two_emptied/0000000003.db", b"").is_ok());
    for _ in 0..2u32 {
        match opened(&rt, &policy, folder) {
            Err(fault) => assert!(&rt; is_emptied(&fault, last), "{fault}"),
            Ok(_) => panic!(&rt; "opened"),
        }
    }
    assert!(&rt; matches!(fs::exists(&rt, last), Ok(true)));
    assert!(&rt; matches!(fs::exists(&rt, "two_emptied/0000000003.db"), Ok(true)));
    let mut output = Vec::new(heap);
    let told = export_features(&rt, folder, &mut output);
    assert!(&rt; tells_of_emptied(&told, last), "{told:?}");
    assert!(&rt; output.is_empty());
    Ok(())
}

#[test]
fn foreign_files(rt: HostRuntime) {
    let policy = open_policy(&rt, rt.alloc());
    let folder = "foreign";
    empty_folder(&rt, folder);
    assert!(&rt;
        fs::write(
            &rt,
            "foreign/0000000001.db",
            b"This is no database, but a text."
        )
        .is_ok()
    );
    match opened(&rt, &policy, folder) {
        Err(fault) => assert!(&rt; matches!(fault, ShelfFault::Damaged(..)), "{fault}"),
        Ok(_) => panic!(&rt; "opened"),
    }
}

/// Runs a script over a store, and returns its replies.
fn replies(
    rt: &impl Abort,
    heap: Global,
    store: (Shelf, Found),
    text: &[u8],
) -> Result<Vec<u8>, AllocError> {
    let (shelf, found) = store;
    let base = Base {
        features: found.state.features,
        version: found.state.version,
        decider: Arc::new(heap, found.state.decider)?,
    };
    let starts = Starts {
        rolled: found.next.saturating_sub(1),
        ..Starts::FIRST
    };
    let opened = World::open_from(heap, subjects(rt), base, starts, Limits::GREATEST);
    let mut world = match opened {
        Ok(world) => world,
        Err(fault) => panic!(rt; "no world: {fault}"),
    };
    let mut reader = text;
    let mut output = Vec::new(heap);
    let run = run_kept_script(heap, heap, &mut world, shelf, &mut reader, &mut output);
    assert!(rt; run.fault.is_none());
    assert!(rt; run.end.is_ok());
    let closed = run.keeper.close();
    assert!(rt; closed.is_ok(), "{closed:?}");
    Ok(output)
}

/// A store that is opened, which has to succeed.
fn store(rt: &HostRuntime, policy: &Policy, folder: &str) -> Option<(Shelf, Found)> {
    opened(rt, policy, folder).ok()
}

#[test]
fn scripts_go_on(rt: HostRuntime) -> Result<(), Fail> {
    let heap = rt.alloc();
    let policy = open_policy(&rt, heap);
    let folder = "scripts";
    empty_folder(&rt, folder);
    let lines =
        b"n: HELLO north\nn: ADD 1 mast POINT (3 4)\nn: COMMIT\nn: ADD 2 mast POINT (3 4)\n";
    let first = store(&rt, &policy, folder);
    assert!(&rt; first.is_some());
    let told = replies(&rt, heap, first.unwrap(), lines)?;
    assert_eq!(&rt;
        told.as_slice(),
        b"n: hello north\nn: staged\nn: applied 1\nn: staged\n".as_slice()
    );
    // What was staged is gone; versions and numbers of records run on.
    let lines = b"n: HELLO north\nn: SEARCH POINT (3 4)\nn: DELETE 1 1\nn: COMMIT\n";
    let second = store(&rt, &policy, folder);
    assert!(&rt; second.is_some());
    let told = replies(&rt, heap, second.unwrap(), lines)?;
    assert_eq!(&rt;
        told.as_slice(),
        b"n: hello north\nn: rows 1\nn: 1 1 north mast POINT (3 4)\nn: staged\nn: applied 2\n".as_slice()
    );
    let third = store(&rt, &policy, folder);
    assert!(&rt; third.is_some());
    let (_shelf, found) = third.unwrap();
    assert_eq!(&rt; found.life, 3);
    assert_eq!(&rt; found.next, 4);
    assert_eq!(&rt; found.state.version, 2);
    assert!(&rt; found.state.features.is_empty());
    Ok(())
}

/// A keeper of nothing, which fails at the call behind so many.
#[derive(Drop)]
struct Failing {
    calls: u32,
    next: u64,
}

impl Keeper<Global> for Failing {
    type Fault = ();

    ghost next = { λ keeper. keeper.next };

    fn keep(&mut self, trail: &Trail<Global>) -> Result<(), ()> {
        if self.calls == 0 {
            return Err(());
        }
        self.calls -= 1;
        self.next = trail.first().saturating_add(u64::from(trail.len()));
        Ok(())
    }
}

/// The replies of a script whose keeper fails behind so many lines, and whether it did.
fn replies_until(rt: &impl Abort, heap: Global, calls: u32) -> Result<(Vec<u8>, bool), AllocError> {
    let opened = World::open(heap, heap, subjects(rt), open_document(rt, heap));
    let mut world = match opened {
        Ok(world) => world,
        Err(_) => panic!(rt; "no world"),
    };
    let text = b"n: HELLO north\nn: ADD 1 mast POINT (3 4)\nn: COMMIT\nn: SEARCH POINT (3 4)\n";
    let mut reader: &[u8] = text;
    let mut output = Vec::new(heap);
    let keeper = Failing { calls, next: 1 };
    let run = run_kept_script(heap, heap, &mut world, keeper, &mut reader, &mut output);
    assert!(rt; run.end.is_ok());
    Ok((output, run.fault.is_some()))
}

#[test]
fn no_reply_without_its_records(rt: HostRuntime) -> Result<(), Fail> {
    let heap = rt.alloc();
    let told: [&[u8]; 5] = [
        b"",
        b"n: hello north\n",
        b"n: hello north\nn: staged\n",
        b"n: hello north\nn: staged\nn: applied 1\n",
        b"n: hello north\nn: staged\nn: applied 1\nn: rows 1\nn: 1 1 north mast POINT (3 4)\n",
    ];
    for calls in 0..5u32 {
        let (output, failed) = replies_until(&rt, heap, calls)?;
        let wanted = told.get(calls as usize).copied().unwrap_or(b"");
        assert_eq!(&rt; output.as_slice(), wanted);
        assert_eq!(&rt; failed, calls < 4);
    }
    Ok(())
}
