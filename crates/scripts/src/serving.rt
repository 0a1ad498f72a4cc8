//! One session over a world, whose lines have no label.

ghost use Rattle.std.specs.Prelude.{◌≡◌, [], List, Option, None, ℕ, OnOk, IfErr, IfSome};
ghost use Rattle.std.specs.Io.KnownBytes.{Appends};
ghost use Rattle.features.specs.declared.rows.Change.{Change};
ghost use Rattle.scripts.specs.Indexed.{ServesThere, asks_for};
ghost use Rattle.scripts.specs.Services.{ServesCall, solo_subject};
ghost use Rattle.session_lines.specs.Services.{no_keys};
ghost use Rattle.session_lines.specs.Serving.{IsServedText, DeskTells};
ghost use Rattle.scripts.specs.States.{IsIdle, solo};
ghost use Rattle.session_lines.specs.Desks.{desk};
ghost use Rattle.line_streams.specs.Streams.{OnMemory, Ran};

use crate::solos::Solo;
use byte_streams::Flushed;
use line_streams::ServeFault;
use session_lines::serve;
use std::alloc::{Allocator, Global};
use std::io::{Read, Write};
use world::World;

/// Serves one session over a world, as `serve` does. `alloc` serves the buffers, `heap` the
/// documents and the lines of a roll. If no search and no transaction was open before, none is open
/// afterwards, however the run ends.
pub fn serve_world<A: Allocator + Copy, R: Read, W: Write>(
    alloc: A,
    heap: Global,
    world: &mut World<A>,
    reader: &mut R,
    writer: &mut W,
) -> Result<Flushed, ServeFault>
    ensures served_text { (seat : Option ℕ)
        × OnOk result (IfSome (R.remaining reader.old)
        (λ input. (said : List ℕ) × Appends (W.contents writer.old) (W.contents writer.new) said
        × IsServedText no_keys solo_subject ServesCall (solo world.old.plain None) input
        (solo world.new.plain seat) said)) }
    ensures ran { (staged : List Change) × (seat : Option ℕ)
        × Ran (DeskTells no_keys solo_subject ServesCall) result (desk [] (solo world.old.plain None))
        (desk staged (solo world.new.plain seat)) (R.remaining reader.old) (R.remaining reader.new)
        (W.contents writer.old) (W.contents writer.new) }
    ensures runs { (staged : List Change) × (seat : Option ℕ)
        × Ran (DeskTells no_keys asks_for ServesThere) result (desk [] (solo world.old None))
        (desk staged (solo world.new seat)) (R.remaining reader.old) (R.remaining reader.new)
        (W.contents writer.old) (W.contents writer.new) }
    ensures idle { IsIdle world.old.plain → IsIdle world.new.plain }
    ensures untouched { IfErr result
        (λ fault. OnMemory fault
        ((world.new ≡ world.old) × (reader.new ≡ reader.old) × (writer.new ≡ writer.old))) }
{
    let mut solo = Solo::new(world, heap);
    serve(alloc, heap, &mut solo, reader, writer)
}
