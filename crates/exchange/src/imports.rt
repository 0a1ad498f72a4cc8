//! An import: the rows of a file, settled one after another.

ghost use Rattle.std.specs.Prelude.{◌≤◌, length};

use crate::faults::{RowFault, SourceFault};
use crate::refusals::cut_at;
use crate::rows::{Found, Table, row_of_csv, row_of_json, table_of};
use crate::shapes::shapes_of;
use crate::sources::{Source, SourceForm};
use byte_streams::{WriteFailed, write_whole};
use convex_parts::{PART_LIMIT, part_id};
use features::Name;
use geojson::Wished;
use grid::Grid;
use importing::{Addition, Counts, LIST_LIMIT, ListFault, Pause, Refused, Server, list_text};
use memory::{GrowVec, NoMemory};
use std::alloc::Global;
use std::io::{Read, Write};

/// After how many rows that are all refused the progress is kept.
const KEPT_EVERY: u64 = 1_024;

/// How the rows of a file become features.
#[derive(Clone, Copy, Debug)]
pub struct Plan {
    /// The grid of the coordinates.
    pub grid: Grid,
    /// The class of all features; `None` for the class of each row.
    pub class: Option<Name>,
    /// The id of the first row; `None` for the id of each row.
    pub first_id: Option<u64>,
    /// Whether a row that is refused ends the import.
    pub whole: bool,
    /// Whether lines and regions are cut.
    pub split: bool,
    /// How many rows are settled already.
    pub done: u64,
}

/// What has become of the rows so far.
#[derive(Clone, Copy, Debug, PartialEq, Eq)]
pub struct Totals {
    /// How many rows were read.
    pub rows: u64,
    /// How many features were added.
    pub applied: u64,
    /// How many were there already, just as they are in the file.
    pub present: u64,
    /// How many rows or features were refused.
    pub refused: u64,
}

/// Where lists of additions go.
pub trait Sink {
    /// Settles each addition of a list; those that are refused are told in `refused`.
    fn settle(
        &mut self,
        heap: Global,
        list: &[Addition],
        refused: &mut Vec<Refused<Global>>,
    ) -> Result<Counts, SinkFault>
        requires { length list.now ≤ LIST_LIMIT };
}

/// Why a list is not settled.
#[derive(Debug, Drop)]
pub enum SinkFault {
    /// The server.
    Server(ListFault),
    /// The session lines cannot be written.
    Output(WriteFailed),
}

impl<R: Read, W: Write, P: Pause> Sink for Server<Global, R, W, P> {
    fn settle(
        &mut self,
        heap: Global,
        list: &[Addition],
        refused: &mut Vec<Refused<Global>>,
    ) -> Result<Counts, SinkFault> {
        match self.settle_list(heap, list, refused) {
            Ok(counts) => Ok(counts),
            Err(fault) => Err(SinkFault::Server(fault)),
        }
    }
}

/// A sink that writes the lines of a script, each with a label.
#[derive(Drop)]
pub struct Script<'a, O: Write> {
    /// The label, and the subject of its session.
    pub label: Name,
    /// Where the lines go.
    pub output: &'a mut O,
}

impl<O: Write> Script<'_, O> {
    /// Writes a line with its label.
    fn put_line(&mut self, line: &[u8]) -> Result<(), WriteFailed> {
        write_whole(self.label.as_bytes(), self.output)?;
        write_whole(b": ", self.output)?;
        write_whole(line, self.output)?;
        write_whole(b"\n", self.output)
    }

    /// Writes the first line, HELLO.
    pub fn put_hello(&mut self) -> Result<(), WriteFailed> {
        write_whole(self.label.as_bytes(), self.output)?;
        write_whole(b": HELLO ", self.output)?;
        write_whole(self.label.as_bytes(), self.output)?;
        write_whole(b"\n", self.output)
    }
}

impl<O: Write> Sink for Script<'_, O> {
    fn settle(
        &mut self,
        heap: Global,
        list: &[Addition],
        _refused: &mut Vec<Refused<Global>>,
    ) -> Result<Counts, SinkFault> {
        let text = match list_text(heap, list) {
            Ok(text) => text,
            Err(no_memory) => return Err(SinkFault::Server(ListFault::Memory(no_memory))),
        };
        let mut rest = text.as_slice();
        for _ in 0..=list.len() {
            let (line, behind) = cut_at(rest, b'\n');
            if let Err(failed) = self.put_line(line) {
                return Err(SinkFault::Output(failed));
            }
            rest = behind;
        }
        Ok(Counts {
            applied: list.len(),
            present: 0,
            refused: 0,
        })
    }
}

/// The progress of an import cannot be kept.
#[derive(Debug, Drop)]
pub struct BooksFault;

/// Where the progress of an import is kept.
pub trait Books {
    /// Keeps a row that is no feature.
    fn refuse_row(&mut self, row: u64, fault: &RowFault) -> Result<(), BooksFault>;

    /// Keeps an addition that the server has refused.
    fn refuse_reply(&mut self, refused: &Refused<Global>) -> Result<(), BooksFault>;

    /// Keeps how many rows are settled, behind what was refused so far.
    fn settle(&mut self, rows: u64, totals: &Totals) -> Result<(), BooksFault>;
}

/// Why an import has ended before the file's end.
#[derive(Debug, Drop)]
pub enum ImportFault {
    /// The file.
    Source(SourceFault),
    /// The server, or the output.
    Sink(SinkFault),
    /// The progress cannot be kept.
    Books,
    /// A row was refused, and the import was to be whole.
    Refused,
}

impl From<SourceFault> for ImportFault {
    fn from(fault: SourceFault) -> ImportFault {
        ImportFault::Source(fault)
    }
}

impl From<NoMemory> for ImportFault {
    fn from(_no_memory: NoMemory) -> ImportFault {
        ImportFault::Source(SourceFault::Memory)
    }
}

impl From<BooksFault> for ImportFault {
    fn from(_fault: BooksFault) -> ImportFault {
        ImportFault::Books
    }
}

/// An import under way.
#[derive(Drop)]
pub struct Importing<'a, S: Sink, B: Books> {
    plan: Plan,
    sink: &'a mut S,
    books: &'a mut B,
    totals: Totals,
    /// How many rows are refused, or have all their additions sent or in the list.
    taken: u64,
    /// What is to be sent next: at most `LIST_LIMIT` additions.
    list: Vec<Addition>,
}

impl<'a, S: Sink, B: Books> Importing<'a, S, B> {
    /// Nothing is read yet.
    pub fn new(heap: Global, plan: Plan, sink: &'a mut S, books: &'a mut B) -> Self {
        Importing {
            plan,
            sink,
            books,
            totals: Totals {
                rows: 0,
                applied: 0,
                present: 0,
                refused: 0,
            },
            taken: 0,
            list: Vec::new(heap),
        }
    }

    /// What has become of the rows so far.
    pub fn totals(&self) -> Totals {
        self.totals
    }

    /// Imports the rows of a file to its end. Rows that the plan has as done are passed over. After a
    /// fault the books have how many rows are settled; the rows after them are in doubt. After a
    /// fault of the file they have all rows before it.
    pub fn run<R: Read>(&mut self, heap: Global, reader: &mut R) -> Result<(), ImportFault> {
        let mut source = Source::new(heap);
        let mut text = Vec::new(heap);
        let form = source.form(reader)?;
        let table = match form {
            SourceForm::Json => None,
            SourceForm::Csv => {
                source.read_row(form, reader, &mut text)?;
                Some(table_of(heap, text.as_slice())?)
            }
        };
        let end = self.take_rows(heap, form, table, &mut source, reader);
        if matches!(end, Ok(()) | Err(ImportFault::Source(_))) {
            self.send(heap)?;
            let totals = self.totals;
            self.books.settle(self.taken.max(self.plan.done), &totals)?;
        }
        end
    }

    /// Takes the rows of a file to its end, but for those that are settled already.
    fn take_rows<R: Read>(
        &mut self,
        heap: Global,
        form: SourceForm,
        table: Option<Table>,
        source: &mut Source<Global>,
        reader: &mut R,
    ) -> Result<(), ImportFault> {
        let mut text = Vec::new(heap);
        for _ in 0..u64::MAX {
            if !source.read_row(form, reader, &mut text)? {
                return Ok(());
            }
            self.totals.rows = self.totals.rows.saturating_add(1);
            if self.totals.rows > self.plan.done {
                self.take_row(heap, table, text.as_slice())?;
            }
            self.taken = self.totals.rows;
        }
        Ok(())
    }

    /// Takes a row: its features go to the list, or it is refused.
    fn take_row(
        &mut self,
        heap: Global,
        table: Option<Table>,
        text: &[u8],
    ) -> Result<(), ImportFault> {
        match self.additions(heap, table, text) {
            Ok(additions) => {
                for addition in additions.as_slice() {
                    self.take(heap, *addition)?;
                }
                Ok(())
            }
            Err(RowFault::Memory) => Err(ImportFault::Source(SourceFault::Memory)),
            Err(fault) => {
                self.books.refuse_row(self.totals.rows, &fault)?;
                self.totals.refused = self.totals.refused.saturating_add(1);
                if self.plan.whole {
                    return Err(ImportFault::Refused);
                }
                if self.list.is_empty() && self.totals.rows % KEPT_EVERY == 0 {
                    let totals = self.totals;
                    self.books.settle(totals.rows, &totals)?;
                }
                Ok(())
            }
        }
    }

    /// What a row says of a feature.
    fn found(&self, heap: Global, table: Option<Table>, text: &[u8]) -> Result<Found, RowFault> {
        match table {
            Some(table) => row_of_csv(heap, &self.plan.grid, table, text),
            None => {
                let wished = Wished {
                    id: self.plan.first_id.is_none(),
                    class: self.plan.class.is_none(),
                    others: false,
                };
                row_of_json(heap, &self.plan.grid, wished, text)
            }
        }
    }

    /// The id of a row: its place behind the first id, or else its own.
    fn id_of(&self, found: &Found) -> Option<u64> {
        match self.plan.first_id {
            Some(first) => first.checked_add(self.totals.rows.saturating_sub(1)),
            None => found.id,
        }
    }

    /// The additions of a row.
    fn additions(
        &self,
        heap: Global,
        table: Option<Table>,
        text: &[u8],
    ) -> Result<Vec<Addition>, RowFault> {
        let found = self.found(heap, table, text)?;
        let Some(id) = self.id_of(&found) else {
            return Err(RowFault::NoId);
        };
        let Some(class) = self.plan.class.or(found.class) else {
            return Err(RowFault::NoClass);
        };
        let shapes = shapes_of(heap, self.plan.split, &found.geometry)?;
        let mut additions = Vec::new(heap);
        for (part, shape) in shapes.iter().enumerate() {
            let id = if self.plan.split {
                part_of(id, part)
            } else {
                Some(id)
            };
            let Some(id) = id else {
                return Err(RowFault::NoId);
            };
            additions.try_push(Addition {
                row: self.totals.rows,
                id,
                class,
                shape: *shape,
            })?;
        }
        Ok(additions)
    }

    /// Takes an addition; a list that is full is sent before.
    fn take(&mut self, heap: Global, addition: Addition) -> Result<(), ImportFault> {
        if self.list.len() >= LIST_LIMIT {
            self.send(heap)?;
            let totals = self.totals;
            self.books.settle(self.taken, &totals)?;
        }
        self.list.try_push(addition)?;
        Ok(())
    }

    /// Sends the list, and keeps what was refused of it.
    fn send(&mut self, heap: Global) -> Result<(), ImportFault> {
        if self.list.is_empty() {
            return Ok(());
        }
        let mut refused = Vec::new(heap);
        let list = self.list.as_slice();
        let list = &list[..list.len().min(LIST_LIMIT)];
        let counts = match self.sink.settle(heap, list, &mut refused) {
            Ok(counts) => counts,
            Err(fault) => return Err(ImportFault::Sink(fault)),
        };
        // What is told of rows that are settled has to stand before all else: see `kept_len`.
        refused.sort_unstable_by_key(|one| (one.row, one.id));
        for one in refused.as_slice() {
            self.books.refuse_reply(one)?;
        }
        self.list.clear();
        self.totals.applied = self.totals.applied.saturating_add(counts.applied as u64);
        self.totals.present = self.totals.present.saturating_add(counts.present as u64);
        self.totals.refused = self.totals.refused.saturating_add(counts.refused as u64);
        if self.plan.whole && counts.refused > 0 {
            return Err(ImportFault::Refused);
        }
        Ok(())
    }
}

/// The id of a part. `None` where there are too many parts, or that is no number of 64 bits.
fn part_of(id: u64, part: usize) -> Option<u64> {
    if part < PART_LIMIT {
        part_id(id, part)
    } else {
        None
    }
}
