//! Writers that wait.

use crate::desks::Desk;
use crate::progress::Source;
use std::io;
use std::io::{ErrorKind, Write};
use std::sync::Wait;

/// On what a reply rests.
#[derive(Clone, Copy, Debug, Drop, PartialEq, Eq)]
pub enum Rests {
    /// On all items that there are.
    All,
    /// On the items up to the last one that changed something.
    Changes,
}

/// A writer through which bytes leave only when what they rest on lasts. It stands below each
/// buffer, so what was put into a buffer leaves behind the items that there are when the buffer is
/// written. Without a desk it is the inner writer.
#[derive(Drop)]
pub struct Barrier<'a, T: Drop, S: Source<T>, W: Wait, O: Write + Drop> {
    inner: O,
    rt: &'a W,
    desk: Option<&'a Desk<T>>,
    source: &'a S,
    rests: Rests,
}

impl<'a, T: Drop, S: Source<T>, W: Wait, O: Write + Drop> Barrier<'a, T, S, W, O> {
    /// Before this writer, over this desk and its source.
    pub fn new(
        rt: &'a W,
        desk: Option<&'a Desk<T>>,
        source: &'a S,
        rests: Rests,
        inner: O,
    ) -> Self {
        Barrier {
            inner,
            rt,
            desk,
            source,
            rests,
        }
    }

    /// Waits until bytes may leave. False where they never may.
    fn wait(&self) -> bool {
        let Some(desk) = self.desk else {
            return true;
        };
        let count = match self.rests {
            Rests::All => self.source.count(),
            Rests::Changes => self.source.changed(),
        };
        desk.wait_for(self.rt, self.source, count)
    }
}

impl<'a, T: Drop, S: Source<T>, W: Wait, O: Write + Drop> Write for Barrier<'a, T, S, W, O> {
    ghost contents = { λ barrier. O.Write.contents barrier.inner };

    /// Writes once what the bytes rest on lasts. An error where it never will.
    fn write(&mut self, bytes: &[u8]) -> io::Result<usize> {
        if !self.wait() {
            return Err(ErrorKind::Other.into());
        }
        self.inner.write(bytes)
    }

    fn flush(&mut self) -> io::Result<()> {
        self.inner.flush()
    }
}
