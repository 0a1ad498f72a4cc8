//! Looking at a configuration: what it has, or its first fault with its place.

ghost use Rattle.std.specs.Prelude.{◌≡◌, IfOk};
ghost use Rattle.configuration.specs.Checking.{CheckGives, IsCheckOf, byte_of, greatest_words, least_words, step_words};

use crate::config_faults::ConfigFault;
use crate::configs::read_config;
use crate::files::{FileFault, whole_file};
use crate::summaries::{Summary, summary_of};
use crate::web::Web;
use crate::web_lines::WebLine;
use grid::{Axis, Grid, NumberText, reach, step_text};
use memory::NoMemory;
use policy_text::TextFault;
use std::alloc::{Allocator, Global};
use std::fmt;
use std::io::Read;
use wkt::WktFault;

/// What there is to tell of a configuration.
#[derive(Debug, Drop)]
pub enum Checked<A: Allocator> {
    /// It is right, and has this, perhaps a grid, and this that is said of HTTP.
    Right(Summary, Option<Grid>, Web<A>),
    /// It has this fault first.
    Wrong(ConfigFault),
}

/// The byte, within the text of a zone's shape, at which that is at fault.
fn byte_of(fault: &ConfigFault) -> Option<usize>
    ensures { result ≡ byte_of fault.now }
{
    let ConfigFault::Policies(TextFault::BadZone(_, _, shape)) = fault else {
        return None;
    };
    match shape {
        WktFault::UnknownWord(at)
        | WktFault::LeftOut(at)
        | WktFault::Syntax(at)
        | WktFault::Number(at)
        | WktFault::OutOfRange(at) => Some(*at),
        WktFault::Bad(_) => None,
    }
}

/// The text of a step of a grid.
#[tactic(auto, unfolding(crate::specs::Checking::step_words))]
fn step_of(grid: &Grid) -> NumberText
    ensures { result.bytes ≡ step_words grid.now }
{
    step_text(grid)
}

/// The texts of the least and the greatest coordinate of a grid on an axis.
#[tactic(auto, unfolding(crate::specs::Checking::least_words, crate::specs::Checking::greatest_words))]
fn reach_on(grid: &Grid, axis: Axis) -> (NumberText, NumberText)
    ensures least { result.0.bytes ≡ least_words grid.now axis }
    ensures greatest { result.1.bytes ≡ greatest_words grid.now axis }
{
    reach(grid, axis)
}

/// A grid as it is told: its step and its reach.
#[derive(Clone, Copy)]
struct GridLines {
    grid: Grid,
}

impl fmt::Display for GridLines {
    ghost use Rattle.std.specs.Prelude.{Some};
    ghost use Rattle.configuration.specs.Checking.{grid_text};

    ghost output = { λ lines. Some (grid_text lines.grid) };

    fn fmt<W: fmt::Write>(&self, f: &mut fmt::Formatter<W>) -> fmt::Result {
        let step = step_of(&self.grid);
        let (left, right) = reach_on(&self.grid, Axis::X);
        let (lower, upper) = reach_on(&self.grid, Axis::Y);
        write!(
            f,
            "grid step {}\ngrid x from {} to {}\ngrid y from {} to {}\n",
            step.as_str(),
            left.as_str(),
            right.as_str(),
            lower.as_str(),
            upper.as_str()
        )
    }
}

/// A grid as it is told, if there is one.
#[derive(Clone, Copy)]
struct GridPart {
    grid: Option<Grid>,
}

impl fmt::Display for GridPart {
    ghost use Rattle.std.specs.Prelude.{Some};
    ghost use Rattle.configuration.specs.Checking.{grid_part};

    ghost output = { λ part. Some (grid_part part.grid) };

    fn fmt<W: fmt::Write>(&self, f: &mut fmt::Formatter<W>) -> fmt::Result {
        match self.grid {
            Some(grid) => fmt::Display::fmt(&GridLines { grid }, f),
            None => Ok(()),
        }
    }
}

/// The place of a fault as it is told, if it has one.
#[derive(Drop)]
struct PlacePart<'a> {
    fault: &'a ConfigFault,
}

impl fmt::Display for PlacePart<'_> {
    ghost use Rattle.std.specs.Prelude.{Some};
    ghost use Rattle.configuration.specs.Checking.{place_part};

    ghost output = { λ part. Some (place_part part.fault.now) };

    fn fmt<W: fmt::Write>(&self, f: &mut fmt::Formatter<W>) -> fmt::Result {
        match self.fault {
            ConfigFault::Form(path) | ConfigFault::Subjects(_, path) => {
                write!(f, " at \"{path}\"")
            }
            ConfigFault::Policies(fault) => match fault.path() {
                Some(path) => write!(f, " at \"/policies{path}\""),
                None => Ok(()),
            },
            ConfigFault::NotJson | ConfigFault::Memory(_) => Ok(()),
        }
    }
}

impl<A: Allocator> fmt::Display for Checked<A> {
    ghost use Rattle.std.specs.Prelude.{Some};
    ghost use Rattle.configuration.specs.Checking.{checked_text};

    ghost output = { λ checked. Some (checked_text checked) };

    /// Of what is right some lines, each a word and a number, and perhaps a line of what is said of
    /// HTTP; of a fault one line: its code and its place, and of a zone's shape the byte within its
    /// text.
    fn fmt<W: fmt::Write>(&self, f: &mut fmt::Formatter<W>) -> fmt::Result {
        match self {
            Checked::Right(summary, grid, web) => {
                fmt::Display::fmt(summary, f)?;
                fmt::Display::fmt(&GridPart { grid: *grid }, f)?;
                fmt::Display::fmt(&WebLine { web }, f)
            }
            Checked::Wrong(fault) => {
                f.write_str(fault.code())?;
                fmt::Display::fmt(&PlacePart { fault }, f)?;
                if let Some(byte) = byte_of(fault) {
                    write!(f, ", byte {byte}")?;
                }
                f.write_str("\n")
            }
        }
    }
}

/// What there is to tell of the configuration in a text. The only error is that an allocation was
/// refused.
pub fn check_config<A: Allocator + Copy>(
    alloc: A,
    heap: Global,
    text: &[u8],
) -> Result<Checked<A>, NoMemory>
    ensures { IfOk result (IsCheckOf text.now) }
{
    match read_config(alloc, heap, text) {
        Ok(config) => {
            let summary = summary_of(alloc, &config)?;
            Ok(Checked::Right(summary, config.grid, config.web))
        }
        Err(ConfigFault::Memory(no_memory)) => Err(no_memory),
        Err(fault) => Ok(Checked::Wrong(fault)),
    }
}

/// What there is to tell of the configuration in a file, which is held whole meanwhile.
/// Faults: `CannotRead` if a read fails or the file is longer than 16,777,216 bytes; `Config` with
/// `Memory` if an allocation is refused.
pub fn check_config_file<A: Allocator + Copy, R: Read>(
    alloc: A,
    heap: Global,
    file: &mut R,
) -> Result<Checked<A>, FileFault>
    ensures { CheckGives result (R.remaining file.old) }
{
    let text = whole_file(alloc, file)?;
    Ok(check_config(alloc, heap, text.as_slice())?)
}
