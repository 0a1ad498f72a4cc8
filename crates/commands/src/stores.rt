//! Stores: scripts whose records are kept in one, and commands on one that no server has open.

ghost use Rattle.std.specs.Prelude.{IfOk};
ghost use Rattle.features.specs.Rows.{IsSortedById};

use crate::telling::fail;
use byte_streams::{Flushed, WriteFailed, flush, let_go, write_shown};
use command_line::{StoreAction, StoreWords};
use configuration::{Config, ReadFault};
use decision::Decider;
use feature_store::FEATURE_LIMIT;
use features::Subjects;
use memory::{buffered, shared};
use program::{Folder, HostFile, HostFolder, ProgramFault, WantedScript};
use scripts::{KeptRun, run_kept_script};
use shelf::{
    Beginning, Found, LookFault, Shelf, ShelfFault, check_store, export_features, export_records,
    list_store,
};
use std::alloc::Global;
use std::io::{Stderr, Write};
use std::process::ExitCode;
use std::{fmt, io};
use volumes::State;
use world::{Base, FeatureLimit, ROLLED_LIMIT, Starts, World};

/// The line on standard error about the fault of a store.
#[derive(Drop)]
struct StoreLine<'a> {
    fault: &'a ShelfFault,
}

impl fmt::Display for StoreLine<'_> {
    fn fmt<W: fmt::Write>(&self, f: &mut fmt::Formatter<W>) -> fmt::Result {
        let fault = self.fault;
        write!(f, "landmap: {fault}\n")
    }
}

/// Tells the fault of a store, and returns the exit status.
pub fn fail_store(fault: &ShelfFault, errors: &mut Stderr) -> ExitCode {
    let _ = write_shown(&StoreLine { fault }, errors);
    ExitCode::from(1)
}

/// The line on standard error about a store that was opened.
#[derive(Drop)]
struct FoundLine<'a> {
    folder: &'a str,
    life: u64,
    features: usize,
    edition: u64,
    next: u64,
}

impl fmt::Display for FoundLine<'_> {
    fn fmt<W: fmt::Write>(&self, f: &mut fmt::Formatter<W>) -> fmt::Result {
        let FoundLine {
            folder,
            life,
            features,
            edition,
            next,
        } = self;
        write!(
            f,
            "landmap: store {folder}: life {life}, {features} features, edition {edition}, next record {next}\n"
        )
    }
}

/// Opens a store for one life, with these subjects and, where it is new, this policy. Says on
/// standard error what it has, and warns where another policy is in force.
pub fn open_store(
    rt: &HostRuntime,
    folder: &str,
    subjects: &Subjects,
    decider: &Decider,
    errors: &mut Stderr,
) -> Result<(Shelf, Found), ShelfFault>
    ensures { IfOk result (λ opened. IsSortedById opened.1.state.features.items) }
{
    let beginning = Beginning { decider, subjects };
    let (shelf, found) = Shelf::open(rt, folder, beginning)?;
    let line = FoundLine {
        folder,
        life: found.life,
        features: found.state.features.len(),
        edition: found.state.decider.edition(),
        next: found.next,
    };
    let _ = write_shown(&line, errors);
    if found.state.decider.document() != decider.document() {
        let _ = errors.write_all(
            b"landmap: the policy of the store is in force, not that of the configuration\n",
        );
    }
    Ok((shelf, found))
}

/// The world that begins at the state of a store, where there may be so many features after an
/// addition. `Err` holds what is wrong with the state.
fn world_of(
    heap: Global,
    subjects: Subjects,
    features: FeatureLimit,
    found: Found,
) -> Result<World<Global>, &'static str>
    requires { IsSortedById found.state.features.items }
{
    let Found {
        life: _,
        next,
        state,
    } = found;
    let limits = features.limits();
    let State {
        features,
        version,
        decider,
    } = state;
    let rolled = next.saturating_sub(1);
    if features.len() > FEATURE_LIMIT {
        return Err("X11");
    }
    if rolled > ROLLED_LIMIT {
        return Err("Q4");
    }
    let Ok(decider) = shared(heap, decider) else {
        return Err("X12");
    };
    let base = Base {
        features,
        version,
        decider,
    };
    let starts = Starts {
        rolled,
        ..Starts::FIRST
    };
    match World::open_from(heap, subjects, base, starts, limits) {
        Ok(world) => Ok(world),
        Err(fault) => Err(fault.code()),
    }
}

/// Runs a script over a store, and returns the exit status. Each record is on the disk before the
/// reply that rests on it is written.
pub fn run_stored(rt: &HostRuntime, wanted: WantedScript<'_>, errors: &mut Stderr) -> ExitCode {
    let WantedScript {
        config,
        script,
        folder,
        features,
    } = wanted;
    let mut file = match HostFolder::of(rt).open_file(script) {
        Ok(file) => file,
        Err(closed) => {
            return fail(
                &ProgramFault::CannotRead(script, ReadFault::NotOpened(closed)),
                errors,
            );
        }
    };
    let Config {
        subjects,
        document,
        ..
    } = config;
    let decider = match Decider::new(document, 1) {
        Ok(decider) => decider,
        Err(failed) => return fail_store(&ShelfFault::Memory(failed.cause), errors),
    };
    let (shelf, found) = match open_store(rt, folder, &subjects, &decider, errors) {
        Ok(opened) => opened,
        Err(fault) => return fail_store(&fault, errors),
    };
    match world_of(rt.alloc(), subjects, features, found) {
        Ok(world) => run_over(rt, shelf, world, &mut file, errors),
        Err(code) => fail(&ProgramFault::Server(code), errors),
    }
}

/// Runs a script over a world whose records a store keeps.
fn run_over(
    rt: &HostRuntime,
    shelf: Shelf,
    world: World<Global>,
    file: &mut HostFile,
    errors: &mut Stderr,
) -> ExitCode {
    let heap = rt.alloc();
    let mut world = world;
    let mut output = match buffered(heap, io::writer(rt)) {
        Ok(output) => output,
        Err(no_memory) => return fail(&ProgramFault::Memory(no_memory), errors),
    };
    let run = run_kept_script(heap, heap, &mut world, shelf, file, &mut output);
    let flushed = flush(&mut output);
    let _ = let_go(output);
    conclude(run, flushed, errors)
}

/// Ends a run over a store: closes the store, and returns the exit status.
fn conclude(
    run: KeptRun<Shelf, ShelfFault>,
    flushed: Result<Flushed, WriteFailed>,
    errors: &mut Stderr,
) -> ExitCode {
    let KeptRun { keeper, fault, end } = run;
    if let Some(fault) = fault {
        return fail_store(&fault, errors);
    }
    if let Err(fault) = keeper.close() {
        return fail_store(&fault, errors);
    }
    if let Err(failed) = flushed {
        return fail(&ProgramFault::CannotWrite(failed), errors);
    }
    match end {
        Ok(_) => ExitCode::SUCCESS,
        Err(fault) => fail(&ProgramFault::from(fault), errors),
    }
}

/// The line that a store is right.
#[derive(Drop)]
struct RightLine {
    volumes: u32,
    records: u64,
}

impl fmt::Display for RightLine {
    fn fmt<W: fmt::Write>(&self, f: &mut fmt::Formatter<W>) -> fmt::Result {
        let RightLine { volumes, records } = self;
        write!(f, "right: {volumes} volumes, {records} records\n")
    }
}

/// Does what `store` asks for, with what it has to say written to the output.
fn look<W: Write>(
    rt: &HostRuntime,
    words: &StoreWords<'_>,
    output: &mut W,
) -> Result<(), LookFault> {
    match words.action {
        StoreAction::List => list_store(rt, words.folder, output),
        StoreAction::Check => {
            let checked = check_store(rt, words.folder)?;
            let line = RightLine {
                volumes: checked.volumes,
                records: checked.records,
            };
            Ok(write_shown(&line, output)?)
        }
        StoreAction::Export if words.features => export_features(rt, words.folder, output),
        StoreAction::Export => export_records(rt, words.folder, output),
    }
}

/// Looks at a store that no server has open, and returns the exit status.
pub fn look_at_store(rt: &HostRuntime, words: StoreWords<'_>, errors: &mut Stderr) -> ExitCode {
    let mut output = match buffered(rt.alloc(), io::writer(rt)) {
        Ok(output) => output,
        Err(no_memory) => return fail(&ProgramFault::Memory(no_memory), errors),
    };
    let looked = look(rt, &words, &mut output);
    let flushed = flush(&mut output);
    let _ = let_go(output);
    match looked {
        Err(LookFault::Store(fault)) => fail_store(&fault, errors),
        Err(LookFault::Write(failed)) => fail(&ProgramFault::CannotWrite(failed), errors),
        Ok(()) => match flushed {
            Ok(_) => ExitCode::SUCCESS,
            Err(failed) => fail(&ProgramFault::CannotWrite(failed), errors),
        },
    }
}
