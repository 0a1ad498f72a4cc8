//! Exports and imports: the files and the sockets that they open. What they do is in the crate
//! `exchange`.

use crate::greetings::greeting;
use crate::talks::connected;
use crate::telling::fail;
use byte_streams::{flush, let_go, open_file, write_shown, write_whole};
use command_line::{ExportWords, Format, ImportWords};
use configuration::ReadFault;
use exchange::{
    Books, BooksFault, ExportFault, Form, ImportFault, Importing, Plan, REFUSED_HEADER, RowFault,
    Script, Sink, SinkFault, Totals, Wanted, export, greet, kept_len, put_refusal, put_reply,
    read_geometry, shapes_of, whole_window,
};
use features::Name;
use grid::Grid;
use importing::{Pause, Peer, Refused, Server, progress_text, read_progress};
use memory::{GrowText, NoMemory, buffered, text};
use program::{ProgramFault, TransferWords, WantedTransfer};
use std::alloc::Global;
use std::fs::File;
use std::io::{IsTerminal, Read, Stderr, Write};
use std::os::unix::fs::FileExt;
use std::process::ExitCode;
use std::time::Duration;
use std::{fmt, io, thread};
use wkt::shape_text;

/// How long a busy server is left alone, in milliseconds.
const PAUSE: u64 = 20;

/// After how many rows the progress is shown at a terminal.
const SHOWN_EVERY: u64 = 1_000;

/// Writes the one line about what went wrong, and returns the exit status.
fn tell_line<D: fmt::Display + Drop>(line: D, errors: &mut Stderr) -> ExitCode {
    let _ = errors.write_fmt(line);
    ExitCode::from(1)
}

/// The name that a word is, or the exit status.
fn name_of(word: &str, errors: &mut Stderr) -> Result<Name, ExitCode> {
    match Name::new(word.as_bytes()) {
        Some(name) => Ok(name),
        None => Err(tell_line(format_args!("landmap: no name {word}\n"), errors)),
    }
}

/// The class that a word is, if there is a word, or the exit status.
fn class_of(word: Option<&str>, errors: &mut Stderr) -> Result<Option<Name>, ExitCode> {
    match word {
        Some(word) => Ok(Some(name_of(word, errors)?)),
        None => Ok(None),
    }
}

/// The text of the window that a word spells, by the coordinates of a grid.
fn window_of(heap: Global, grid: &Grid, word: Option<&str>) -> Result<String, RowFault> {
    let Some(word) = word else {
        return Ok(text(heap, whole_window())?);
    };
    let geometry = match read_geometry(heap, grid, word.as_bytes()) {
        Ok(geometry) => geometry,
        Err(fault) => return Err(RowFault::Geometry(fault)),
    };
    let shapes = shapes_of(heap, false, &geometry)?;
    match shapes.first() {
        Some(shape) => Ok(text(heap, shape_text(shape).as_str())?),
        None => Err(RowFault::Several),
    }
}

/// The form of a document.
fn form_of(format: Format) -> Form {
    match format {
        Format::GeoJson => Form::Collection,
        Format::GeoJsonSeq => Form::Sequence,
        Format::Csv => Form::Table,
    }
}

/// Tells why an export has no end.
fn tell_export(fault: &ExportFault<Global>, errors: &mut Stderr) -> ExitCode {
    match fault {
        ExportFault::Server(fault) => tell_line(format_args!("landmap: {fault}\n"), errors),
        ExportFault::Answered(line) => {
            let _ = errors.write_all(b"landmap: the server answers ");
            let _ = errors.write_all(line.as_slice());
            let _ = errors.write_all(b"\n");
            ExitCode::from(1)
        }
        ExportFault::Output(_) => tell_line(format_args!("landmap: cannot write\n"), errors),
    }
}

/// Writes the features of a server to standard output, and returns the exit status.
fn run_export(
    rt: &HostRuntime,
    given: ExportWords<'_>,
    grid: Grid,
    errors: &mut Stderr,
) -> ExitCode {
    match exported(rt, given, grid, errors) {
        Ok(()) => ExitCode::SUCCESS,
        Err(status) => status,
    }
}

/// Writes the features of a server, or the exit status.
fn exported(
    rt: &HostRuntime,
    given: ExportWords<'_>,
    grid: Grid,
    errors: &mut Stderr,
) -> Result<(), ExitCode> {
    let subject = name_of(given.subject, errors)?;
    let hello = greeting(rt, subject, errors)?;
    let class = class_of(given.class, errors)?;
    let window = match window_of(rt.alloc(), &grid, given.window) {
        Ok(window) => window,
        Err(fault) => return Err(tell_line(format_args!("landmap: {fault}\n"), errors)),
    };
    let Ok((mut reader, mut writer)) = connected(rt, given.socket) else {
        return Err(fail(&ProgramFault::CannotConnect(given.socket), errors));
    };
    let mut output = match buffered(rt.alloc(), io::writer(rt)) {
        Ok(output) => output,
        Err(no_memory) => return Err(fail(&ProgramFault::Memory(no_memory), errors)),
    };
    let wanted = Wanted {
        hello: hello.as_slice(),
        window: window.as_bytes(),
        class,
        grid,
        form: form_of(given.format),
    };
    let end = export(rt.alloc(), &wanted, &mut reader, &mut writer, &mut output);
    if end.is_err() {
        let _ = flush(&mut output);
    }
    let _ = let_go(output);
    match end {
        Ok(_) => Ok(()),
        Err(fault) => Err(tell_export(&fault, errors)),
    }
}

/// A moment's rest before a busy server is asked again.
#[derive(Drop)]
struct Rest<'a> {
    rt: &'a HostRuntime,
}

impl Pause for Rest<'_> {
    fn pause(&mut self) {
        thread::sleep(self.rt, Duration::from_millis(PAUSE));
    }
}

/// The books of an import: `FILE.done` and `FILE.refused.csv`.
#[derive(Drop)]
struct FileBooks<'a> {
    rt: &'a HostRuntime,
    /// The path of the number of settled rows; `None` where it is not kept.
    done: Option<&'a str>,
    /// How many rows were settled at the start.
    begun: u64,
    /// The file at that path, from the first rows on that are settled.
    file: Option<File>,
    refused: File,
    /// Whether the file of refused rows could not be written.
    refused_fails: bool,
    errors: Stderr,
    /// Whether the progress is shown.
    shows: bool,
    /// Up to which row it was shown.
    shown: u64,
}

impl FileBooks<'_> {
    /// Remembers that it was the file of refused rows that could not be written.
    fn refused_lost(&mut self) -> BooksFault {
        self.refused_fails = true;
        BooksFault
    }

    /// Shows the progress at a terminal.
    fn show(&mut self, totals: &Totals) {
        if self.shows && totals.rows >= self.shown.saturating_add(SHOWN_EVERY) {
            self.shown = totals.rows;
            let _ = self.errors.write_fmt(format_args!(
                "\r{} rows, {} refused",
                totals.rows, totals.refused
            ));
        }
    }
}

impl Books for FileBooks<'_> {
    fn refuse_row(&mut self, row: u64, fault: &RowFault) -> Result<(), BooksFault> {
        // Only a script comes to rows that are settled: what is told of them stays.
        if row <= self.begun {
            return Ok(());
        }
        match put_refusal(self.rt.alloc(), row, fault, &mut self.refused) {
            Ok(()) => Ok(()),
            Err(_) => Err(self.refused_lost()),
        }
    }

    fn refuse_reply(&mut self, refused: &Refused<Global>) -> Result<(), BooksFault> {
        match put_reply(refused, &mut self.refused) {
            Ok(()) => Ok(()),
            Err(_) => Err(self.refused_lost()),
        }
    }

    fn settle(&mut self, rows: u64, totals: &Totals) -> Result<(), BooksFault> {
        self.show(totals);
        let Some(path) = self.done else {
            return Ok(());
        };
        if self.file.is_none() {
            self.file = Some(done_file(self.rt, path, self.begun)?);
        }
        let Some(file) = &self.file else {
            return Err(BooksFault);
        };
        match file.write_all_at(progress_text(rows).as_slice(), 0) {
            Ok(()) => Ok(()),
            Err(_) => Err(BooksFault),
        }
    }
}

/// The file of the number of settled rows, of which so many are settled. It is written in place, as
/// the number only grows: a file that is emptied for each list would be flushed to the disk for each.
fn done_file(rt: &HostRuntime, path: &str, done: u64) -> Result<File, BooksFault> {
    let Ok(file) = File::options().write(true).create(true).open(rt, path) else {
        return Err(BooksFault);
    };
    if done == 0 && file.set_len(0).is_err() {
        return Err(BooksFault);
    }
    Ok(file)
}

/// How many rows of a file are settled, by its `.done` file; 0 if there is none.
fn settled_rows(rt: &HostRuntime, path: &str) -> u64 {
    let Ok(mut file) = open_file(rt, path) else {
        return 0;
    };
    let mut bytes = [0; 32];
    match file.read(&mut bytes) {
        Ok(count) => read_progress(&bytes[..count.min(32)]).unwrap_or(0),
        Err(_) => 0,
    }
}

/// How many bytes of a file of refused rows are about rows that are settled.
fn kept_of(rt: &HostRuntime, done: u64, mut file: File) -> u64 {
    if done == 0 {
        return 0;
    }
    kept_len(rt.alloc(), done, &mut file).unwrap_or(0)
}

/// The file of refused rows, with what it has of the rows that are settled.
fn refused_file(rt: &HostRuntime, path: &str, done: u64) -> Result<File, BooksFault> {
    let kept = match open_file(rt, path) {
        Ok(file) => kept_of(rt, done, file),
        Err(_) => 0,
    };
    let Ok(mut file) = File::options().append(true).create(true).open(rt, path) else {
        return Err(BooksFault);
    };
    if file.set_len(kept).is_err() {
        return Err(BooksFault);
    }
    if kept == 0 && write_whole(REFUSED_HEADER, &mut file).is_err() {
        return Err(BooksFault);
    }
    Ok(file)
}

/// A path with an ending.
fn with_ending(heap: Global, path: &str, ending: &str) -> Result<String, NoMemory> {
    let mut made = text(heap, path)?;
    made.try_push_str(ending)?;
    Ok(made)
}

/// The paths that belong to the file of an import.
#[derive(Drop)]
struct Paths {
    done: String,
    refused: String,
}

/// The paths that belong to a file.
fn paths_of(heap: Global, file: &str) -> Result<Paths, NoMemory> {
    Ok(Paths {
        done: with_ending(heap, file, ".done")?,
        refused: with_ending(heap, file, ".refused.csv")?,
    })
}

/// The totals of an import, as they are printed.
#[derive(Drop)]
struct Account {
    totals: Totals,
}

impl fmt::Display for Account {
    fn fmt<W: fmt::Write>(&self, f: &mut fmt::Formatter<W>) -> fmt::Result {
        let Totals {
            rows,
            applied,
            present,
            refused,
        } = self.totals;
        write!(
            f,
            "rows {rows}\napplied {applied}\npresent {present}\nrefused {refused}\n"
        )
    }
}

/// Tells why an import has ended at a row. `book` is the path of that one of its books which could
/// not be written, if one could not.
fn tell_import(
    fault: &ImportFault,
    row: u64,
    paths: &Paths,
    book: &str,
    errors: &mut Stderr,
) -> ExitCode {
    match fault {
        ImportFault::Source(fault) => tell_line(
            format_args!("landmap: {fault} behind row {row}\n"),
            errors,
        ),
        ImportFault::Sink(SinkFault::Server(fault)) => tell_line(
            format_args!("landmap: {fault}\n"),
            errors,
        ),
        ImportFault::Sink(SinkFault::Output(_)) => tell_line(
            format_args!("landmap: cannot write\n"),
            errors,
        ),
        ImportFault::Books => tell_line(format_args!("landmap: cannot keep {book}\n"), errors),
        ImportFault::Refused => {
            let refused = paths.refused.as_str();
            tell_line(
                format_args!("landmap: a row is refused, see {refused}\n"),
                errors,
            )
        }
    }
}

/// How many rows of the file of a script an import has settled. What is told of them stays, and
/// standard error says so.
fn settled_before(rt: &HostRuntime, paths: &Paths, errors: &mut Stderr) -> u64 {
    let done = settled_rows(rt, paths.done.as_str());
    if done > 0 {
        let refused = paths.refused.as_str();
        let path = paths.done.as_str();
        let _ = write!(
            errors,
            "landmap: {refused} stays as it is up to row {done}, as {path} says\n"
        );
    }
    done
}

/// The books of an import, of which so many rows were settled at the start. Its progress is kept
/// and shown, if `keeps` is set.
fn opened_books<'a>(
    rt: &'a HostRuntime,
    paths: &'a Paths,
    begun: u64,
    keeps: bool,
) -> Result<FileBooks<'a>, BooksFault> {
    let refused = refused_file(rt, paths.refused.as_str(), begun)?;
    Ok(FileBooks {
        rt,
        done: if keeps {
            Some(paths.done.as_str())
        } else {
            None
        },
        begun,
        file: None,
        refused,
        refused_fails: false,
        errors: rt.stderr(),
        shows: keeps && rt.stderr().is_terminal(),
        shown: 0,
    })
}

/// Imports the rows of a file into a sink.
fn imported<S: Sink>(
    rt: &HostRuntime,
    plan: Plan,
    paths: &Paths,
    keeps: bool,
    input: &mut File,
    sink: &mut S,
    errors: &mut Stderr,
) -> Result<Totals, ExitCode> {
    let begun = if keeps {
        plan.done
    } else {
        settled_before(rt, paths, errors)
    };
    let Ok(mut books) = opened_books(rt, paths, begun, keeps) else {
        let path = paths.refused.as_str();
        return Err(tell_line(format_args!("landmap: cannot keep {path}\n"), errors));
    };
    let (end, totals) = {
        let mut import = Importing::new(rt.alloc(), plan, sink, &mut books);
        let end = import.run(rt.alloc(), input);
        (end, import.totals())
    };
    if books.shown > 0 {
        let _ = errors.write_all(b"\n");
    }
    match end {
        Ok(()) => Ok(totals),
        Err(fault) => {
            let book = if books.refused_fails {
                paths.refused.as_str()
            } else {
                paths.done.as_str()
            };
            Err(tell_import(&fault, totals.rows, paths, book, errors))
        }
    }
}

/// Adds the features of a file to a server, or writes their session lines, and returns the exit
/// status.
fn run_import(
    rt: &HostRuntime,
    given: ImportWords<'_>,
    grid: Grid,
    errors: &mut Stderr,
) -> ExitCode {
    match started_import(rt, given, grid, errors) {
        Ok(()) => ExitCode::SUCCESS,
        Err(status) => status,
    }
}

/// Opens the file of an import, and imports it.
fn started_import(
    rt: &HostRuntime,
    given: ImportWords<'_>,
    grid: Grid,
    errors: &mut Stderr,
) -> Result<(), ExitCode> {
    let subject = name_of(given.subject, errors)?;
    let class = class_of(given.class, errors)?;
    let mut input = match open_file(rt, given.file) {
        Ok(input) => input,
        Err(closed) => {
            let fault = ReadFault::NotOpened(closed);
            return Err(fail(&ProgramFault::CannotRead(given.file, fault), errors));
        }
    };
    let paths = match paths_of(rt.alloc(), given.file) {
        Ok(paths) => paths,
        Err(no_memory) => return Err(fail(&ProgramFault::Memory(no_memory), errors)),
    };
    let plan = Plan {
        grid,
        class,
        first_id: given.first_id.map(u64::from),
        whole: given.whole,
        split: given.split,
        done: 0,
    };
    match (given.script, given.socket) {
        (false, Some(socket)) => sent_import(rt, plan, subject, socket, &paths, &mut input, errors),
        _ => written_import(rt, plan, subject, &paths, &mut input, errors),
    }
}

/// Writes the session lines of an import to standard output.
fn written_import(
    rt: &HostRuntime,
    plan: Plan,
    label: Name,
    paths: &Paths,
    input: &mut File,
    errors: &mut Stderr,
) -> Result<(), ExitCode> {
    let mut output = match buffered(rt.alloc(), io::writer(rt)) {
        Ok(output) => output,
        Err(no_memory) => return Err(fail(&ProgramFault::Memory(no_memory), errors)),
    };
    let (begun, end) = {
        let mut script = Script {
            label,
            output: &mut output,
        };
        let begun = script.put_hello();
        let end = imported(rt, plan, paths, false, input, &mut script, errors);
        (begun, end)
    };
    let flushed = flush(&mut output);
    let _ = let_go(output);
    end?;
    if let Err(failed) = begun {
        return Err(fail(&ProgramFault::CannotWrite(failed), errors));
    }
    match flushed {
        Ok(_) => Ok(()),
        Err(failed) => Err(fail(&ProgramFault::CannotWrite(failed), errors)),
    }
}

/// Sends the features of an import to a server, and writes what has become of them.
fn sent_import(
    rt: &HostRuntime,
    plan: Plan,
    subject: Name,
    socket: &str,
    paths: &Paths,
    input: &mut File,
    errors: &mut Stderr,
) -> Result<(), ExitCode> {
    let heap = rt.alloc();
    let hello = greeting(rt, subject, errors)?;
    let hello = hello.as_slice();
    let Ok((mut reader, mut writer)) = connected(rt, socket) else {
        return Err(fail(&ProgramFault::CannotConnect(socket), errors));
    };
    let mut peer = Peer::new(heap);
    if let Err(fault) = greet(heap, hello, &mut peer, &mut reader, &mut writer) {
        return Err(tell_export(&fault, errors));
    }
    let mut server = Server {
        peer,
        reader,
        writer,
        pause: Rest { rt },
    };
    let done = settled_rows(rt, paths.done.as_str());
    if done > 0 {
        let path = paths.done.as_str();
        let _ = write!(
            errors,
            "landmap: goes on behind row {done}, as {path} says\n"
        );
    }
    let plan = Plan { done, ..plan };
    let end = imported(rt, plan, paths, true, input, &mut server, errors);
    let Server {
        peer: _peer,
        reader: _reader,
        writer: _writer,
        pause: Rest { rt: _ },
    } = server;
    let totals = end?;
    let mut output = io::writer(rt);
    match write_shown(&Account { totals }, &mut output) {
        Ok(()) => Ok(()),
        Err(failed) => Err(fail(&ProgramFault::CannotWrite(failed), errors)),
    }
}

/// Exports or imports, and returns the exit status. Without a grid coordinates are whole numbers.
pub fn transfer(rt: &HostRuntime, wanted: WantedTransfer<'_>, errors: &mut Stderr) -> ExitCode {
    let grid = wanted.grid.unwrap_or(Grid::whole_numbers());
    match wanted.words {
        TransferWords::Export(given) => run_export(rt, given, grid, errors),
        TransferWords::Import(given) => run_import(rt, given, grid, errors),
    }
}
