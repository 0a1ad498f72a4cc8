//! Readers and writers for tests, which fail at one call, are interrupted, count their calls, or
//! have very long contents.
#![tactic(auto)]

mod readers;
mod writers;

pub use readers::{CountingReader, FailingReader, InterruptedReader, LongReader};
pub use writers::{FailingWriter, Failure};
