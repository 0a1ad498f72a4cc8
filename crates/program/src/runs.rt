//! Runs of the program, from the words of the command line to its end.

ghost use Rattle.std.specs.Prelude.{◌≡◌, ℕ, List, Option, None, Some, OnOk, IfOk, IfErr, IfSome, map, option_map, string_bytes};
ghost use Rattle.configuration.specs.Configs.{config_data};
ghost use Rattle.program.specs.Ends.{IsUnwritten};
ghost use Rattle.program.specs.Programs.{DrawAnswered, IsAnswer, IsNext, IsServerFault, IsGridIn, IsServerOf, LookAnswered, PageAnswered, ScriptAnswered, TransferAnswered};
ghost use Rattle.program.specs.RunFaults.{BrokeOff, IsOfConfig, IsOfRun};
ghost use Rattle.program.specs.Runs.{IsConfigOf, RanScript, Served, features_asked};

use crate::built_in::built_in_config;
use crate::checks::{check_named, draw_named, print_asked};
use crate::ends::{Ended, Next, TransferWords, WantedScript, WantedServer, WantedTransfer};
use crate::faults::ProgramFault;
use crate::telling::tell;
use byte_streams::{Flushed, NotOpened, flush, write_shown};
use command_line::{Asked, ScriptWords, ServeWords, Shell, Shown, StoreWords, read_words};
use configuration::{Config, FileFault, ReadFault, read_config_file};
use feature_store::FEATURE_LIMIT;
use grid::Grid;
use scripts::run_script;
use std::alloc::{Allocator, Global};
use std::io::{Read, Write};
use world::{FeatureLimit, Starts, World};

/// The folder of the files that the command line names.
pub trait Folder {
    /// An open file.
    type File: Read + Drop;

    // what the file of a name reads, if known
    ghost holds: { Self → List ℕ → Option (List ℕ) };

    // holds for each name whose file was not opened
    ghost closed: { Self → List ℕ → Type 0 };

    /// Opens the file of this name for reading. It is an error if it cannot be opened or is a
    /// folder.
    fn open_file(&self, name: &str) -> Result<Self::File, NotOpened>
        ensures holds { IfOk result (λ file. Self.File.remaining file ≡ holds self.now name.now) }
        ensures closed { IfErr result (λ failed. closed self.now name.now) };
}

/// The most features that there may be, where so many are asked for, or where nothing is said.
fn feature_limit(asked: Option<u32>) -> FeatureLimit
    ensures { result.number ≡ features_asked asked }
{
    match asked {
        None => FeatureLimit::usual(),
        Some(number) => FeatureLimit {
            number: number.min(FEATURE_LIMIT as u32),
        },
    }
}

/// Runs a script over the world that a configuration opens, where there may be so many features, and
/// writes the replies.
/// Faults: `World` if there is no memory for the world; `CannotWrite` if a write or the final flush
/// fails; else the fault of the run.
pub fn run_file<'a, A: Allocator + Copy, R: Read, W: Write>(
    alloc: A,
    heap: Global,
    config: Config<Global>,
    features: FeatureLimit,
    file: &mut R,
    output: &mut W,
) -> Result<Flushed, ProgramFault<'a>>
    ensures served { OnOk result
        (IfSome (R.remaining file.old)
        (λ script. Served (config_data config) features.number script (W.contents output.old)
        (W.contents output.new))) }
    ensures err { IfErr result
        (IsOfRun (config_data config) features.number (R.remaining file.old)
        (W.contents output.old) (W.contents output.new)) }
{
    let opened = World::open_at(
        alloc,
        heap,
        config.subjects,
        config.document,
        Starts::FIRST,
        features.limits(),
    );
    let mut world = match opened {
        Ok(world) => world,
        Err((_, fault)) => return Err(ProgramFault::World(fault)),
    };
    let end = run_script(alloc, heap, &mut world, file, output);
    let flushed = flush(output)?;
    end?;
    Ok(flushed)
}

/// The configuration in the file of this name.
#[tactic(auto, using(crate::proofs::RunLemmas::configured, crate::proofs::RunLemmas::misconfigured))]
fn named_config<'a, F: Folder>(
    heap: Global,
    name: &'a str,
    folder: &F,
) -> Result<Config<Global>, ProgramFault<'a>>
    ensures ok { IfOk result
        (λ config. IsConfigOf (F.holds folder.now) (Some name.now) (config_data config)) }
    ensures err { IfErr result
        (IsOfConfig (F.holds folder.now) (F.closed folder.now) (Some name.now)) }
{
    let mut file = match folder.open_file(name) {
        Ok(file) => file,
        Err(closed) => return Err(ProgramFault::CannotRead(name, ReadFault::NotOpened(closed))),
    };
    match read_config_file(heap, heap, &mut file) {
        Ok(config) => Ok(config),
        Err(FileFault::CannotRead(fault)) => Err(ProgramFault::CannotRead(name, fault)),
        Err(FileFault::Config(fault)) => Err(ProgramFault::Config(fault)),
    }
}

/// The configuration in the named file, or the built-in one.
fn asked_config<'a, F: Folder>(
    heap: Global,
    name: Option<&'a str>,
    folder: &F,
) -> Result<Config<Global>, ProgramFault<'a>>
    ensures ok { IfOk result
        (λ config. IsConfigOf (F.holds folder.now) (option_map (λ name. name.now) name.entry)
        (config_data config)) }
    ensures err { IfErr result
        (IsOfConfig (F.holds folder.now) (F.closed folder.now)
        (option_map (λ name. name.now) name.entry)) }
{
    let Some(name) = name else {
        return match built_in_config(heap, heap) {
            Ok(config) => Ok(config),
            Err(fault) => Err(ProgramFault::Config(fault)),
        };
    };
    named_config(heap, name, folder)
}

/// Runs the script that the command line names, with the configuration that it names or the
/// built-in one. The first fault ends the run: the configuration's file cannot be read, its text is
/// not a configuration, the script's file cannot be opened; then those of `run_file`.
#[tactic(auto, using(crate::proofs::RunLemmas::ran, crate::proofs::RunLemmas::broke_off))]
pub fn run_named<'a, F: Folder, W: Write>(
    heap: Global,
    words: ScriptWords<'a>,
    folder: &F,
    output: &mut W,
) -> Result<Flushed, ProgramFault<'a>>
    ensures ran { OnOk result
        (RanScript (F.holds folder.now) (option_map (λ name. name.now) words.entry.config)
        (features_asked words.entry.features) words.entry.script.now (W.contents output.old)
        (W.contents output.new)) }
    ensures err { IfErr result
        (BrokeOff (F.holds folder.now) (F.closed folder.now)
        (option_map (λ name. name.now) words.entry.config) (features_asked words.entry.features)
        words.entry.script.now (W.contents output.old) (W.contents output.new)) }
{
    let config = match asked_config(heap, words.config, folder) {
        Ok(config) => config,
        Err(fault) => return Err(fault),
    };
    let mut file = match folder.open_file(words.script) {
        Ok(file) => file,
        Err(closed) => {
            let fault = ReadFault::NotOpened(closed);
            return Err(ProgramFault::CannotRead(words.script, fault));
        }
    };
    let features = feature_limit(words.features);
    run_file(heap, heap, config, features, &mut file, output)
}

/// Writes help to the output, and flushes it.
fn show_help<'a, W: Write>(help: &Shown<'_>, output: &mut W) -> Result<Flushed, ProgramFault<'a>>
    ensures { IfErr result (λ fault. IsUnwritten fault) }
{
    write_shown(help, output)?;
    Ok(flush(output)?)
}

/// What the words of a command line lead to, if there is no fault.
#[derive(Drop)]
enum Answer<'a> {
    /// What they ask for is done, and all output is flushed.
    Done(Flushed),
    /// They ask for this server.
    Serve(WantedServer<'a>),
    /// They ask for a talk with the server at this path.
    Connect(&'a str),
    /// They ask for this script over a store.
    Keep(WantedScript<'a>),
    /// They ask for this look at a store.
    Look(StoreWords<'a>),
    /// They ask for a secret for this subject.
    Secret(&'a str),
    /// They ask for this export or import.
    Transfer(WantedTransfer<'a>),
    /// clap rejected them, with this text.
    Mistaken(Shown<'a>),
}

/// The server that the command line asks for. The faults are those of its configuration.
fn wanted_server<'a, F: Folder>(
    heap: Global,
    words: ServeWords<'a>,
    folder: &F,
) -> Result<WantedServer<'a>, ProgramFault<'a>>
    ensures ok { IfOk result (IsServerOf (F.holds folder.now) words.entry) }
    ensures err { IfErr result
        (IsServerFault (F.holds folder.now) (F.closed folder.now) words.entry) }
{
    match asked_config(heap, words.config, folder) {
        Ok(config) => Ok(WantedServer {
            options: words.options,
            config,
            store: words.store,
            waits: words.waits,
            http: words.http,
            http_workers: words.http_workers,
            features: feature_limit(words.features),
        }),
        Err(fault) => Err(fault),
    }
}

/// The grid of the configuration in the named file, if one is named and has a grid.
fn named_grid<'a, F: Folder>(
    heap: Global,
    name: Option<&'a str>,
    folder: &F,
) -> Result<Option<Grid>, ProgramFault<'a>>
    ensures ok { IfOk result
        (IsGridIn (F.holds folder.now) (option_map (λ name. name.now) name.entry)) }
    ensures err { IfErr result
        (IsOfConfig (F.holds folder.now) (F.closed folder.now)
        (option_map (λ name. name.now) name.entry)) }
{
    let Some(name) = name else {
        return Ok(None);
    };
    match named_config(heap, name, folder) {
        Ok(config) => Ok(config.grid),
        Err(fault) => Err(fault),
    }
}

/// The export or import that the command line asks for, with the grid of the named configuration.
fn answer_transfer<'a, F: Folder>(
    heap: Global,
    words: TransferWords<'a>,
    config: Option<&'a str>,
    folder: &F,
) -> Result<Answer<'a>, ProgramFault<'a>>
    ensures { TransferAnswered (F.holds folder.now) (F.closed folder.now) words.entry
        (option_map (λ name. name.now) config.entry) result }
{
    match named_grid(heap, config, folder) {
        Ok(grid) => Ok(Answer::Transfer(WantedTransfer { words, grid })),
        Err(fault) => Err(fault),
    }
}

/// Runs a script, or, where it has a store, only reads its configuration.
fn answer_script<'a, F: Folder, O: Write>(
    heap: Global,
    words: ScriptWords<'a>,
    folder: &F,
    output: &mut O,
) -> Result<Answer<'a>, ProgramFault<'a>>
    ensures { ScriptAnswered (F.holds folder.now) (F.closed folder.now) words.entry O.contents
        output.old output.new result }
{
    let Some(store) = words.store else {
        return match run_named(heap, words, folder, output) {
            Ok(flushed) => Ok(Answer::Done(flushed)),
            Err(fault) => Err(fault),
        };
    };
    match asked_config(heap, words.config, folder) {
        Ok(config) => Ok(Answer::Keep(WantedScript {
            config,
            script: words.script,
            folder: store,
            features: feature_limit(words.features),
        })),
        Err(fault) => Err(fault),
    }
}

/// Looks at the configuration in the file of this name.
fn answer_check<'a, F: Folder, O: Write>(
    heap: Global,
    name: &'a str,
    folder: &F,
    output: &mut O,
) -> Result<Answer<'a>, ProgramFault<'a>>
    ensures { LookAnswered (F.holds folder.now) (F.closed folder.now) name.now
        (O.contents output.old) (O.contents output.new) result }
{
    match check_named(heap, name, folder, output) {
        Ok(flushed) => Ok(Answer::Done(flushed)),
        Err(fault) => Err(fault),
    }
}

/// Draws the script in the file of this name.
fn answer_draw<'a, F: Folder, O: Write>(
    heap: Global,
    name: &'a str,
    folder: &F,
    output: &mut O,
) -> Result<Answer<'a>, ProgramFault<'a>>
    ensures { DrawAnswered (F.holds folder.now) (F.closed folder.now) name.now
        (O.contents output.old) (O.contents output.new) result }
{
    match draw_named(heap, name, folder, output) {
        Ok(flushed) => Ok(Answer::Done(flushed)),
        Err(fault) => Err(fault),
    }
}

/// Prints the manual page, or the completions for a shell.
fn answer_page<'a, O: Write>(
    heap: Global,
    shell: Option<Shell>,
    output: &mut O,
) -> Result<Answer<'a>, ProgramFault<'a>>
    ensures { PageAnswered shell (O.contents output.old) (O.contents output.new) result }
{
    match print_asked(heap, shell, output) {
        Ok(flushed) => Ok(Answer::Done(flushed)),
        Err(fault) => Err(fault),
    }
}

/// Does what the words of the command line ask for. For a server, an export or an import it reads
/// only the configuration; for a talk it returns only the path, and for a secret only the name. If
/// clap rejects the words, nothing is done and clap's text is returned.
/// Faults: `Words` if there is no memory for the command line; `CannotWrite` if help cannot be
/// written; those of `run_named`, of `check_named`, of `draw_named`, and of a page that is printed;
/// those of the configuration of a server, an export or an import.
fn run_asked<'a, F: Folder, O: Write>(
    alloc: Global,
    words: &'a [String],
    folder: &F,
    output: &mut O,
) -> Result<Answer<'a>, ProgramFault<'a>>
    ensures { IsAnswer (map (λ word. string_bytes word) words.entry.now) (F.holds folder.now)
        (F.closed folder.now) O.contents output.old output.new result }
{
    match read_words(alloc, words) {
        Ok(Asked::Script(files)) => answer_script(alloc, files, folder, output),
        Ok(Asked::Serve(given)) => match wanted_server(alloc, given, folder) {
            Ok(server) => Ok(Answer::Serve(server)),
            Err(fault) => Err(fault),
        },
        Ok(Asked::Connect(path)) => Ok(Answer::Connect(path)),
        Ok(Asked::Check(name)) => answer_check(alloc, name, folder, output),
        Ok(Asked::Draw(name)) => answer_draw(alloc, name, folder, output),
        Ok(Asked::Export(given)) => answer_transfer(
            alloc,
            TransferWords::Export(given),
            given.config,
            folder,
        ),
        Ok(Asked::Import(given)) => answer_transfer(
            alloc,
            TransferWords::Import(given),
            given.config,
            folder,
        ),
        Ok(Asked::Store(given)) => Ok(Answer::Look(given)),
        Ok(Asked::Secret(subject)) => Ok(Answer::Secret(subject)),
        Ok(Asked::Man) => answer_page(alloc, None, output),
        Ok(Asked::Completions(shell)) => answer_page(alloc, Some(shell), output),
        Ok(Asked::Help(help)) => match show_help(&help, output) {
            Ok(flushed) => Ok(Answer::Done(flushed)),
            Err(fault) => Err(fault),
        },
        Ok(Asked::Mistake(mistake)) => Ok(Answer::Mistaken(mistake)),
        Err(no_memory) => Err(ProgramFault::Words(no_memory)),
    }
}

/// Runs the program with these words, the first of which is its name. Returns what is left to do:
/// exit, run a server, talk with one, make a secret, or export or import. For these, only the
/// configuration is read.
/// If the run ends by a fault, one line about it is written to `errors`; if clap rejects the words,
/// its text is written there. A failing write to `errors` cuts the text short and does not change
/// the result's kind or exit status.
pub fn run_program<'a, F: Folder, O: Write, E: Write>(
    alloc: Global,
    words: &'a [String],
    folder: &F,
    output: &mut O,
    errors: &mut E,
) -> Next<'a>
    ensures { IsNext (map (λ word. string_bytes word) words.entry.now) (F.holds folder.now)
        (F.closed folder.now) O.contents output.old output.new E.contents errors.old errors.new
        result }
{
    match run_asked(alloc, words, folder, output) {
        Ok(Answer::Done(flushed)) => Next::Exit(Ended::Well(flushed)),
        Ok(Answer::Serve(server)) => Next::Serve(server),
        Ok(Answer::Connect(path)) => Next::Connect(path),
        Ok(Answer::Keep(script)) => Next::Keep(script),
        Ok(Answer::Look(given)) => Next::Look(given),
        Ok(Answer::Secret(subject)) => Next::Secret(subject),
        Ok(Answer::Transfer(wanted)) => Next::Transfer(wanted),
        Ok(Answer::Mistaken(mistake)) => {
            let _ = write_shown(&mistake, errors);
            Next::Exit(Ended::TurnedDown)
        }
        Err(fault) => {
            let line = tell(&fault, errors);
            Next::Exit(Ended::Failed(fault, line))
        }
    }
}
