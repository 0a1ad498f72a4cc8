//! The program `landmap`: a map feature server for land agencies. What it does is in the crate
//! `program`; its server, in `server`; how it talks to one, in `client`.
#![tactic(auto)]

mod memory_watch;
mod stores;
mod web_plans;

use crate::memory_watch::watch_memory;
use crate::stores::{Alarm, StoreToOpen};
use crate::web_plans::{WebFault, WebPlan};
use byte_streams::{WriteFailed, flush, let_go, write_shown};
use command_line::{Waits, WordsFault, host_words};
use commands::{connect, fail, look_at_store, make_secret, run_stored, transfer};
use configuration::Config;
use credentials::Key;
use features::Subjects;
use log::{Log, warn};
use map_metrics::Tally;
use map_pages::Site;
use memory::{NoMemory, another, buffered, copied, shared, text};
use policy_text::{Document, print_document};
use program::{HostFolder, Next, ProgramFault, WantedServer, run_program};
use server::{
    Begins, Closed, Connections, Keeping, Rests, ServerFault, Serving, SocketOptions, Stop,
    TERM_RECORDS, serve_kept, serve_socket, watch,
};
use std::alloc::Global;
use std::fs::{File, Files};
use std::io::{Print, Stderr, Write};
use std::net::{Net, TcpListener, TcpStream};
use std::process::ExitCode;
use std::sync::{Arc, Wait};
use std::thread::Threads;
use std::time::Clock;
use std::{fmt, io, thread};
use world::FeatureLimit;

/// The exit status if the command line is wrong.
const TURNED_DOWN: u8 = 2;

/// The words with which the program was started, or the exit status if there are none.
fn given_words(rt: &HostRuntime, errors: &mut Stderr) -> Result<Vec<String>, ExitCode> {
    match host_words(rt) {
        Ok(words) => Ok(words),
        Err(WordsFault::Memory(no_memory)) => Err(fail(&ProgramFault::Words(no_memory), errors)),
        Err(WordsFault::NotUtf8) => {
            let _ = write!(errors, "error: an argument is not UTF-8\n");
            Err(ExitCode::from(TURNED_DOWN))
        }
    }
}

/// The line about the records of a closed server.
#[derive(Drop)]
struct Account {
    records: u64,
}

impl fmt::Display for Account {
    fn fmt<W: fmt::Write>(&self, f: &mut fmt::Formatter<W>) -> fmt::Result {
        write!(f, "closed {} records\n", self.records)
    }
}

/// Writes to standard output how many records a closed server has left.
fn tell_closed<W: Write>(closed: Closed, output: &mut W) -> Result<(), WriteFailed> {
    let account = Account {
        records: closed.records,
    };
    write_shown(&account, output)?;
    flush(output)?;
    Ok(())
}

/// What a server ready to run serves.
#[derive(Drop)]
enum Work {
    /// A world that is gone when the server ends.
    Passing(Serving),
    /// The world of a store.
    Stored(Keeping, StoreToOpen),
}

/// A server ready to run. It does not borrow from the words of the command line.
#[derive(Drop)]
struct Plan {
    work: Work,
    path: String,
    connections: Connections,
    idle: Option<u64>,
    takeover: bool,
    /// The keys of those who may begin a session of lines.
    keys: Vec<Key>,
    /// What is answered by HTTP, if anything is.
    web: Option<WebPlan>,
    /// How the server is told to accept no more connections.
    stop: Arc<Stop>,
    /// For the thread that waits for the end of standard input, if the command line asks for one.
    stopping: Option<Alarm>,
    /// For the thread that measures the memory, if somebody may read what is counted.
    watched: Option<Arc<Tally>>,
}

/// How a server at this path is told to accept nobody more.
fn alarm(heap: Global, stop: &Arc<Stop>, path: &str) -> Result<Alarm, NoMemory> {
    Ok(Alarm {
        stop: another(stop)?,
        path: text(heap, path)?,
    })
}

/// The same subjects.
fn same_subjects(subjects: &Subjects) -> Subjects {
    let Ok(copy) = Subjects::new(subjects.as_slice()) else {
        unreachable!()
    };
    copy
}

/// What a server without a store serves, or one with a store in this folder.
fn planned_work(
    rt: &HostRuntime,
    subjects: Subjects,
    document: Document<Global>,
    workers: usize,
    features: FeatureLimit,
    store: Option<&str>,
    waits: Waits,
    alarm: Alarm,
) -> Result<Work, NoMemory> {
    let Some(folder) = store else {
        return Ok(Work::Passing(Serving {
            subjects,
            begins: Begins::Document(document),
            workers,
            features,
        }));
    };
    let store = StoreToOpen {
        rt: *rt,
        folder: text(rt.alloc(), folder)?,
        subjects: same_subjects(&subjects),
        policy: print_document(rt.alloc(), &document)?,
        alarm,
    };
    let keeping = Keeping {
        subjects,
        workers,
        features,
        rests: if waits == Waits::Changes {
            Rests::Changes
        } else {
            Rests::All
        },
    };
    Ok(Work::Stored(keeping, store))
}

/// How many connections a server accepts: so many, or without end.
fn connections(wanted: Option<u16>) -> Connections {
    match wanted {
        Some(count) => Connections::UpTo(count),
        None => Connections::Endless(TERM_RECORDS),
    }
}

/// The server that the command line asks for.
fn planned(rt: &HostRuntime, server: WantedServer<'_>) -> Result<Plan, WebFault> {
    let heap = rt.alloc();
    let WantedServer {
        options,
        config,
        store,
        waits,
        http,
        http_workers,
        features,
    } = server;
    let Config {
        subjects,
        document,
        grid,
        web,
    } = config;
    let keys = copied(heap, web.keys.as_slice())?;
    let web = match http {
        Some(word) => {
            let lines = options.workers;
            Some(WebPlan::new(rt, word, lines, http_workers, grid, web)?)
        }
        None => None,
    };
    let watched = match &web {
        Some(plan) => plan.watched()?,
        None => None,
    };
    let stop = shared(heap, Stop::new())?;
    let stopping = if options.until_stdin_ends {
        Some(alarm(heap, &stop, options.socket)?)
    } else {
        None
    };
    let own_alarm = alarm(heap, &stop, options.socket)?;
    let workers = usize::from(options.workers);
    Ok(Plan {
        work: planned_work(
            rt, subjects, document, workers, features, store, waits, own_alarm,
        )?,
        path: text(heap, options.socket)?,
        connections: connections(options.connections),
        idle: options.idle_seconds.map(u64::from),
        takeover: options.takeover,
        keys,
        web,
        stop,
        stopping,
        watched,
    })
}

/// How connections are served.
#[derive(Clone, Copy)]
struct Manner<'a> {
    connections: Connections,
    idle: Option<u64>,
    takeover: bool,
    keys: &'a [Key],
}

/// Serves a socket until its last connection has ended, and returns the exit status. `own` is the
/// hall's own handle; HTTP is answered at `place`, if it is.
fn serve_work<H, R>(
    rt: &R,
    own: H,
    heap: Global,
    path: &str,
    work: Work,
    options: SocketOptions<'_>,
    place: &str,
    errors: &mut Stderr,
) -> ExitCode
where
    H: Wait + Copy + Drop + Send,
    R: Threads
        + Wait
        + Clock
        + Log
        + Files<File = File>
        + Net<Stream = TcpStream, Listener = TcpListener>
        + Print
        + Sync,
{
    let served = match work {
        Work::Passing(serving) => serve_socket(rt, own, heap, path, serving, options),
        Work::Stored(keeping, store) => serve_kept(rt, own, heap, path, keeping, options, store),
    };
    match served {
        Ok(closed) => conclude(rt, heap, closed, errors),
        Err(ServerFault::Bind) => fail(&ProgramFault::CannotBind(path), errors),
        Err(ServerFault::BindWeb) => fail(&ProgramFault::CannotBind(place), errors),
        Err(ServerFault::Write(failed)) => fail(&ProgramFault::CannotWrite(failed), errors),
        // The store has told what is wrong with it.
        Err(ServerFault::Store(_)) => ExitCode::from(1),
        Err(fault) => fail(&ProgramFault::Server(fault.code()), errors),
    }
}

/// Serves as `serve_work` does, and answers HTTP by pages that speak of this site.
fn serve_site<'a, H, R>(
    rt: &R,
    own: H,
    heap: Global,
    path: &str,
    work: Work,
    manner: Manner<'a>,
    stop: &'a Stop,
    plan: &'a WebPlan,
    site: &'a Site<'a>,
    errors: &mut Stderr,
) -> ExitCode
where
    H: Wait + Copy + Drop + Send,
    R: Threads
        + Wait
        + Clock
        + Log
        + Files<File = File>
        + Net<Stream = TcpStream, Listener = TcpListener>
        + Print
        + Sync,
{
    let Manner {
        connections,
        idle,
        takeover,
        keys,
    } = manner;
    let web = plan.web(site);
    let options = SocketOptions {
        connections,
        idle,
        takeover,
        stop: Some(stop),
        keys,
        web: Some(&web),
    };
    serve_work(rt, own, heap, path, work, options, plan.shown(), errors)
}

/// Serves as `serve_work` does, and answers HTTP as planned.
fn serve_web<H, R>(
    rt: &R,
    own: H,
    heap: Global,
    path: &str,
    work: Work,
    manner: Manner<'_>,
    stop: &Stop,
    plan: &WebPlan,
    errors: &mut Stderr,
) -> ExitCode
where
    H: Wait + Copy + Drop + Send,
    R: Threads
        + Wait
        + Clock
        + Log
        + Files<File = File>
        + Net<Stream = TcpStream, Listener = TcpListener>
        + Print
        + Sync,
{
    let site = plan.site();
    serve_site(rt, own, heap, path, work, manner, stop, plan, &site, errors)
}

/// Serves as planned until the last connection has ended, and returns the exit status. `own` is the
/// hall's own handle.
fn serve<H, R>(rt: &R, own: H, heap: Global, plan: Plan, errors: &mut Stderr) -> ExitCode
where
    H: Wait + Copy + Drop + Send,
    R: Threads
        + Wait
        + Clock
        + Log
        + Files<File = File>
        + Net<Stream = TcpStream, Listener = TcpListener>
        + Print
        + Sync,
{
    let Plan {
        work,
        path,
        connections,
        idle,
        takeover,
        keys,
        web,
        stop,
        stopping: _stopping,
        watched: _watched,
    } = plan;
    let path = path.as_str();
    let keys = keys.as_slice();
    if let Some(plan) = &web {
        let manner = Manner {
            connections,
            idle,
            takeover,
            keys,
        };
        return serve_web(rt, own, heap, path, work, manner, &stop, plan, errors);
    }
    let options = SocketOptions {
        connections,
        idle,
        takeover,
        stop: Some(&stop),
        keys,
        web: None,
    };
    serve_work(rt, own, heap, path, work, options, "", errors)
}

/// Writes how many records a server has left, and returns the exit status.
fn conclude<R: Print>(rt: &R, heap: Global, closed: Closed, errors: &mut Stderr) -> ExitCode {
    let mut output = match buffered(heap, io::writer(rt)) {
        Ok(output) => output,
        Err(no_memory) => return fail(&ProgramFault::Memory(no_memory), errors),
    };
    let told = tell_closed(closed, &mut output);
    let _ = let_go(output);
    match told {
        Ok(()) => ExitCode::SUCCESS,
        Err(failed) => fail(&ProgramFault::CannotWrite(failed), errors),
    }
}

fn main(rt: HostRuntime) -> ExitCode {
    let mut errors = rt.stderr();
    let words = match given_words(&rt, &mut errors) {
        Ok(words) => words,
        Err(status) => return status,
    };
    let mut output = match buffered(rt.alloc(), io::writer(&rt)) {
        Ok(output) => output,
        Err(no_memory) => return fail(&ProgramFault::Memory(no_memory), &mut errors),
    };
    let folder = HostFolder::of(&rt);
    let next = run_program(
        rt.alloc(),
        words.as_slice(),
        &folder,
        &mut output,
        &mut errors,
    );
    // All output is flushed, unless a write failed; then the rest is not written again.
    let _ = let_go(output);
    match next {
        Next::Exit(ended) => ExitCode::from(ended.status()),
        Next::Serve(server) => match planned(&rt, server) {
            Ok(plan) => {
                let mut plan = plan;
                if let Some(stopping) = plan.stopping.take() {
                    let watches = move || {
                        watch(&rt, &mut rt.stdin(), stopping.path.as_str(), &stopping.stop)
                    };
                    if thread::spawn(&rt, watches).is_err() {
                        warn!(&rt; target: "landmap", "the end of standard input is not seen");
                    }
                }
                if let Some(tally) = plan.watched.take() {
                    let measures = move || watch_memory(&rt, &tally);
                    if thread::spawn(&rt, measures).is_err() {
                        warn!(&rt; target: "landmap", "the memory is not measured");
                    }
                }
                serve(&rt, rt, rt.alloc(), plan, &mut errors)
            }
            Err(WebFault::Memory(no_memory)) => {
                fail(&ProgramFault::Memory(no_memory), &mut errors)
            }
            Err(fault) => {
                let text = fault.text();
                let _ = write!(errors, "error: {text}\n");
                ExitCode::from(1)
            }
        },
        Next::Connect(path) => connect(&rt, path, &mut errors),
        Next::Keep(wanted) => run_stored(&rt, wanted, &mut errors),
        Next::Look(words) => look_at_store(&rt, words, &mut errors),
        Next::Secret(name) => make_secret(&rt, name, &mut errors),
        Next::Transfer(wanted) => transfer(&rt, wanted, &mut errors),
    }
}
