//! A store: the volume that is written, and how one follows another.

ghost use Rattle.std.specs.Prelude.{◌≡◌, IfOk, OnOk, OnErr};
ghost use Rattle.features.specs.Rows.{IsSortedById};

use crate::faults::{Cause, ShelfFault, damaged, of_volume};
use crate::folders::{
    half_made, lock_folder, make_files, remove_volume, volume_numbers, volume_path,
};
use crate::opening::{Disk, Lives, Opened, close_volume, make_tables, open_volume};
use crate::subjects::subjects_text;
use audit_trail::{Record, Trail};
use decision::Decider;
use features::{Feature, Subjects};
use keepers::Keeper;
use memory::{GrowVec, NoMemory, another, text};
use sqlite_trees::store::Store;
use std::alloc::Global;
use std::fs::File;
use std::mem;
use std::sync::Arc;
use volumes::{State, Tables, Volume};

/// How many records a volume takes before the next one is made.
pub const VOLUME_RECORDS: u32 = 262_144;

/// With what a store begins that has no volume yet, and the subjects of this life.
#[derive(Clone, Copy)]
pub struct Beginning<'a> {
    /// The policy that is in force first.
    pub decider: &'a Decider,
    /// The subjects of this life.
    pub subjects: &'a Subjects,
}

/// What a store had when it was opened.
#[derive(Debug, Drop)]
pub struct Found {
    /// The number of this life, from 1.
    pub life: u64,
    /// The number of the next record.
    pub next: u64,
    /// The state that the records so far have led to.
    pub state: State<Global>,
}

/// A store that is open. Its folder is locked until it is dropped.
#[derive(Drop)]
pub struct Shelf {
    rt: HostRuntime,
    folder: String,
    subjects: String,
    _lock: File,
    volume: Volume<Disk>,
    number: u32,
    first: u64,
    life: u64,
    /// The records that are gathered to be appended.
    records: Vec<Arc<Record<Global>, Global>>,
}

/// The last volume of a folder that has begun.
#[derive(Drop)]
struct LastVolume<S: Store> {
    number: u32,
    path: String,
    store: S,
    tables: Tables,
    lives: Lives,
}

/// Removes the volume that was left half made, if there is one.
fn remove_half_made(
    rt: &HostRuntime,
    folder: &str,
    path: Option<String>,
) -> Result<(), ShelfFault> {
    match path {
        Some(path) => remove_volume(rt, folder, path.as_str()),
        None => Ok(()),
    }
}

/// The last volume of a folder that has begun. The one behind it, which a start or a change of volumes
/// left half made, is removed. `Damaged`, and nothing is removed, where two have not begun.
fn last_volume(rt: &HostRuntime, folder: &str) -> Result<Option<LastVolume<Disk>>, ShelfFault> {
    let heap = rt.alloc();
    let numbers = volume_numbers(rt, folder)?;
    let mut half_made_path = None;
    for number in numbers.iter().rev() {
        let path = volume_path(heap, folder, *number)?;
        match open_volume(rt, path.as_str())? {
            Opened::Begun(store, tables, lives) => {
                remove_half_made(rt, folder, half_made_path)?;
                return Ok(Some(LastVolume {
                    number: *number,
                    path,
                    store,
                    tables,
                    lives,
                }));
            }
            Opened::NotBegun => {
                half_made(heap, path.as_str(), *number, numbers.as_slice())?;
                half_made_path = Some(path);
            }
        }
    }
    remove_half_made(rt, folder, half_made_path)?;
    Ok(None)
}

/// The volume over the tables of a store.
fn volume_over<S: Store + Drop>(
    heap: Global,
    path: &str,
    store: S,
    tables: Tables,
    first: u64,
) -> Result<Volume<S>, ShelfFault> {
    match Volume::new(store, heap, tables, first) {
        Ok(volume) => Ok(volume),
        Err((fault, _store)) => Err(of_volume(heap, path, fault)),
    }
}

/// With what a new volume begins.
#[derive(Drop)]
struct Opening<'a> {
    number: u32,
    first: u64,
    features: &'a [Feature],
    version: u64,
    decider: &'a Decider,
    life: u64,
    subjects: &'a str,
}

/// Begins the volume in these tables.
fn begin_volume<S: Store + Drop>(
    heap: Global,
    path: &str,
    store: S,
    tables: Tables,
    opening: Opening<'_>,
) -> Result<Volume<S>, ShelfFault> {
    let mut volume = volume_over(heap, path, store, tables, opening.first)?;
    let begun = volume.begin(
        heap,
        opening.features,
        opening.version,
        opening.decider,
        opening.life,
        opening.subjects,
    );
    match begun {
        Ok(()) => Ok(volume),
        Err(fault) => Err(of_volume(heap, path, fault)),
    }
}

/// Makes a volume, and puts what it begins with. What an earlier try left is removed before.
fn new_volume(
    rt: &HostRuntime,
    folder: &str,
    opening: Opening<'_>,
) -> Result<Volume<Disk>, ShelfFault> {
    let heap = rt.alloc();
    let path = volume_path(heap, folder, opening.number)?;
    remove_volume(rt, folder, path.as_str())?;
    make_files(rt, folder, path.as_str())?;
    let (store, tables) = make_tables(rt, path.as_str())?;
    begin_volume(heap, path.as_str(), store, tables, opening)
}

/// The state that a volume keeps.
fn state_in<S: Store>(
    heap: Global,
    path: &str,
    volume: &mut Volume<S>,
) -> Result<State<Global>, ShelfFault>
    ensures sorted { IfOk result (λ state. IsSortedById state.features.items) }
{
    match volume.state(heap, heap) {
        Ok(state) => Ok(state),
        Err(fault) => Err(of_volume(heap, path, fault)),
    }
}

/// A volume that goes on, its number, what it has, and its first record.
#[derive(Drop)]
struct Resumed<S: Store + Drop> {
    volume: Volume<S>,
    number: u32,
    first: u64,
    life: u64,
    state: State<Global>,
}

/// Begins the first volume.
fn begin_first(
    rt: &HostRuntime,
    folder: &str,
    decider: &Decider,
    subjects: &str,
) -> Result<Resumed<Disk>, ShelfFault>
    ensures sorted { IfOk result (λ resumed. IsSortedById resumed.state.features.items) }
{
    let opening = Opening {
        number: 1,
        first: 1,
        features: &[],
        version: 0,
        decider,
        life: 1,
        subjects,
    };
    let mut volume = new_volume(rt, folder, opening)?;
    let state = state_in(rt.alloc(), folder, &mut volume)?;
    Ok(Resumed {
        volume,
        number: 1,
        first: 1,
        life: 1,
        state,
    })
}

/// Goes on with the last volume: reads all that it has, and notes a further life.
fn resume<S: Store + Drop>(
    heap: Global,
    last: LastVolume<S>,
    subjects: &str,
) -> Result<Resumed<S>, ShelfFault>
    ensures sorted { IfOk result (λ resumed. IsSortedById resumed.state.features.items) }
{
    let LastVolume {
        number,
        path,
        store,
        tables,
        lives,
    } = last;
    let mut volume = volume_over(heap, path.as_str(), store, tables, lives.first)?;
    let state = match volume.restore(heap, heap) {
        Ok(state) => state,
        Err(fault) => return Err(of_volume(heap, path.as_str(), fault)),
    };
    let Some(life) = lives.last.checked_add(1) else {
        let cause = Cause::Words("table life: the numbers of lives are at their end");
        return Err(damaged(heap, path.as_str(), cause));
    };
    if let Err(fault) = volume.note_life(life, subjects) {
        return Err(of_volume(heap, path.as_str(), fault));
    }
    Ok(Resumed {
        volume,
        number,
        first: lives.first,
        life,
        state,
    })
}

impl Shelf {
    /// Opens the store in a folder, which has to be there, for one life. Where it has no volume, the
    /// first one begins as `beginning` says, with no features; else the policy is the one that was in
    /// force, and `beginning` only says the subjects. `InUse` where another has the folder, else the
    /// first fault of its files.
    pub fn open(
        rt: &HostRuntime,
        folder: &str,
        beginning: Beginning<'_>,
    ) -> Result<(Shelf, Found), ShelfFault>
        ensures sorted { IfOk result (λ opened. IsSortedById opened.1.state.features.items) }
    {
        let heap = rt.alloc();
        let lock = lock_folder(rt, folder)?;
        let own_folder = text(heap, folder)?;
        let subjects = subjects_text(heap, beginning.subjects)?;
        let resumed = match last_volume(rt, folder)? {
            Some(last) => resume(heap, last, subjects.as_str())?,
            None => begin_first(rt, folder, beginning.decider, subjects.as_str())?,
        };
        let Resumed {
            volume,
            number,
            first,
            life,
            state,
        } = resumed;
        let next = volume.next();
        let shelf = Shelf {
            rt: *rt,
            folder: own_folder,
            subjects,
            _lock: lock,
            volume,
            number,
            first,
            life,
            records: Vec::new(heap),
        };
        Ok((shelf, Found { life, next, state }))
    }

    /// The number of the next record.
    pub fn next(&self) -> u64
        ensures { result ≡ self.now.volume.next }
    {
        self.volume.next()
    }

    /// Appends a group of records with what they change, all of them or none, and returns when they
    /// last. A fault that `is_passing` leaves the store as it was, and the group may be appended
    /// again; after any other, nothing can be said of what is on the disk but that it is what was
    /// there before, or that and the group.
    pub fn append(&mut self, records: &[Arc<Record<Global>, Global>]) -> Result<(), ShelfFault> {
        if self.volume.next().saturating_sub(self.first) >= u64::from(VOLUME_RECORDS) {
            self.turn()?;
        }
        let heap = self.rt.alloc();
        match self.volume.append(heap, records) {
            Ok(()) => Ok(()),
            Err(fault) => Err(of_volume(heap, self.path()?.as_str(), fault)),
        }
    }

    /// Gathers the records of a trail from the next number to `end`.
    fn gather(&mut self, trail: &Trail<Global>, end: u64) -> Result<(), NoMemory> {
        self.records.clear();
        for number in self.next()..end {
            if let Some(record) = trail.get(number) {
                self.records.try_push(another(record)?)?;
            }
        }
        Ok(())
    }

    /// The path of the volume that is written.
    fn path(&self) -> Result<String, NoMemory> {
        volume_path(self.rt.alloc(), self.folder.as_str(), self.number)
    }

    /// Goes on in a further volume, which begins with the features and the policy of the one so far.
    /// That one is closed. What its log has is copied into its file; where that fails, the log stays
    /// beside the file, as a part of the volume.
    fn turn(&mut self) -> Result<(), ShelfFault> {
        let heap = self.rt.alloc();
        let path = self.path()?;
        let Some(number) = self.number.checked_add(1) else {
            return Err(ShelfFault::NoNumber(path));
        };
        let first = self.volume.next();
        let state = state_in(heap, path.as_str(), &mut self.volume)?;
        let opening = Opening {
            number,
            first,
            features: state.features.as_slice(),
            version: state.version,
            decider: &state.decider,
            life: self.life,
            subjects: self.subjects.as_str(),
        };
        let volume = new_volume(&self.rt, self.folder.as_str(), opening)?;
        let old = mem::replace(&mut self.volume, volume);
        self.number = number;
        self.first = first;
        let _ = close_volume(heap, path.as_str(), old.into_store());
        Ok(())
    }

    /// Copies what the log of the last volume has into its file, closes both, and lets go of the
    /// folder.
    pub fn close(self) -> Result<(), ShelfFault> {
        let path = self.path()?;
        let Shelf {
            rt,
            folder: _,
            subjects: _,
            _lock,
            volume,
            number: _,
            first: _,
            life: _,
            records: _,
        } = self;
        close_volume(rt.alloc(), path.as_str(), volume.into_store())
    }
}

impl Keeper<Global> for Shelf {
    type Fault = ShelfFault;

    ghost next = { λ shelf. shelf.volume.next };

    fn keep(&mut self, trail: &Trail<Global>) -> Result<(), ShelfFault> {
        let Some(end) = trail.first().checked_add(u64::from(trail.len())) else {
            return Err(ShelfFault::NoNumber(self.path()?));
        };
        self.gather(trail, end)?;
        if !self.records.is_empty() {
            let records = mem::replace(&mut self.records, Vec::new(self.rt.alloc()));
            self.append(records.as_slice())?;
        }
        if self.next() != end {
            let cause = Cause::Words("table record: its numbers are not those of the trail");
            return Err(damaged(self.rt.alloc(), self.path()?.as_str(), cause));
        }
        Ok(())
    }
}
