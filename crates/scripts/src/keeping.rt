//! Scripts whose records are kept before the replies that rest on them are written.

ghost use Rattle.std.specs.Prelude.{◌≡◌, ℕ, List, ◌+◌, [], length, OnOk, IfOk, Result};
ghost use Rattle.line_streams.specs.Streams.{Ran};
ghost use Rattle.plain_world.specs.States.{WorldData};
ghost use Rattle.scripts.specs.Indexed.{AllShut, IndexedScript, indexed};
ghost use Rattle.scripts.specs.Keeping.{RunsKept, kept_script};
ghost use Rattle.scripts.specs.States.{SessionState};
ghost use Rattle.world.specs.Index.{IndexedWorld};

use crate::scripts::{Table, drop_all, write_heard};
use byte_streams::{Flushed, WriteFailed};
use keepers::Keeper;
use line_streams::{LineDesk, Next, ServeFault, run_lines};
use std::alloc::{Allocator, Global};
use std::io::{Read, Write};
use world::World;

/// The sessions of a script, and what keeps its records.
#[derive(Drop)]
struct KeptTable<A: Allocator, K: Keeper<A> + Drop> {
    table: Table<A>,
    keeper: K,
    fault: Option<K::Fault>,
}

impl<A: Allocator + Copy, K: Keeper<A> + Drop> LineDesk for KeptTable<A, K> {
    ghost use Rattle.std.proofs.Common.{rules};
    ghost use Rattle.scripts.specs.Indexed.{indexed};
    ghost use Rattle.scripts.specs.Keeping.{RunsKept, kept_script};

    type World = World<A>;

    ghost tells = { λ line old new said next. RunsKept line
        (kept_script (indexed old.0 old.1.table.sessions.items old.1.table.next_slot)
        (K.next old.1.keeper))
        (kept_script (indexed new.0 new.1.table.sessions.items new.1.table.next_slot)
        (K.next new.1.keeper)) said next };

    fn take_line<W: Write>(
        &mut self,
        world: &mut World<A>,
        line: &[u8],
        writer: &mut W,
    ) -> Result<Next, WriteFailed> {
        let heard = self.table.answer(world, line);
        if let Err(fault) = self.keeper.keep(world.trail()) {
            self.fault = Some(fault);
            self.table.tend(world);
            return Ok(Next::End);
        }
        let end = write_heard(&heard, writer);
        self.table.tend(world);
        Next::Line.behind(end)
    }

    ghost long_alike = { Prim.search rules };
}

/// How a script with a keeper ended.
#[derive(Drop)]
pub struct KeptRun<K: Drop, F: Drop> {
    /// What kept the records.
    pub keeper: K,
    /// Why the last records could not be kept: then the reply that rests on them was not written,
    /// and no further line was answered.
    pub fault: Option<F>,
    /// How the run ended otherwise.
    pub end: Result<Flushed, ServeFault>,
}

/// Runs the lines of a script as `run_script` does, and has the records of each line kept before its
/// reply is written: at each write of a reply the keeper has every record of the trail.
pub fn run_kept_script<A: Allocator + Copy, K: Keeper<A> + Drop, R: Read, W: Write>(
    alloc: A,
    heap: Global,
    world: &mut World<A>,
    keeper: K,
    reader: &mut R,
    writer: &mut W,
) -> KeptRun<K, K::Fault>
    ensures { (sessions : List SessionState) × (slot : ℕ) × (last : IndexedWorld)
        × Ran RunsKept result.end (kept_script (indexed world.old [] 0) (K.next keeper))
        (kept_script (indexed last sessions slot) (K.next result.keeper))
        (R.remaining reader.old) (R.remaining reader.new) (W.contents writer.old)
        (W.contents writer.new) × AllShut sessions last world.new }
{
    let table = match Table::new(alloc, heap) {
        Ok(table) => table,
        Err(no_memory) => {
            return KeptRun {
                keeper,
                fault: None,
                end: Err(ServeFault::Memory(no_memory)),
            };
        }
    };
    let mut kept = KeptTable {
        table,
        keeper,
        fault: None,
    };
    let end = run_lines(alloc, &mut kept, world, reader, writer);
    drop_all(&kept.table.sessions, world);
    let KeptTable {
        table: _,
        keeper,
        fault,
    } = kept;
    KeptRun { keeper, fault, end }
}
