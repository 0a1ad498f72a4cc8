//! Telling that a server listens.

ghost use Rattle.std.specs.Prelude.{◌++◌, codes};

use crate::faults::ServerFault;
use byte_streams::{WriteFailed, flush, let_go, write_shown};
use listeners::WebPlace;
use memory::buffered;
use std::alloc::Global;
use std::io::{Print, Write};
use std::{fmt, io};

/// The line `listening PATH`, and behind it one of where HTTP is answered, if it is.
#[derive(Drop)]
struct Ready<'a> {
    path: &'a str,
    web: Option<WebPlace<'a>>,
}

impl fmt::Display for Ready<'_> {
    fn fmt<W: fmt::Write>(&self, f: &mut fmt::Formatter<W>) -> fmt::Result {
        f.write_str("listening ")?;
        f.write_str(self.path)?;
        f.write_str("\n")?;
        match self.web {
            None => Ok(()),
            Some(WebPlace::Address(address)) => write!(f, "listening http://{address}\n"),
            Some(WebPlace::Path(path)) => write!(f, "listening {path}\n"),
        }
    }
}

/// Writes where a server listens, and flushes it.
fn write_ready<W: Write>(ready: &Ready<'_>, writer: &mut W) -> Result<(), WriteFailed> {
    write_shown(ready, writer)?;
    flush(writer)?;
    Ok(())
}

/// Writes the line `listening PATH`, and where HTTP is answered, to standard output. `Write` where
/// that fails, H6 where there is no memory for the buffer.
pub(crate) fn tell_ready<R: Print>(
    rt: &R,
    heap: Global,
    path: &str,
    web: Option<WebPlace<'_>>,
) -> Result<(), ServerFault> {
    let mut output = buffered(heap, io::writer(rt))?;
    match write_ready(&Ready { path, web }, &mut output) {
        Ok(()) => Ok(()),
        Err(failed) => {
            let _ = let_go(output);
            Err(ServerFault::Write(failed))
        }
    }
}
