//! How much memory the program has, measured for who watches a server.

use map_metrics::Tally;
use std::fs::{File, Files};
use std::io::Read;
use std::sync::Wait;
use std::time::{Clock, Duration};
use std::{str, thread};

/// Where Linux tells of a process's memory (proc(5)).
const STATUS: &str = "/proc/self/status";

/// What stands there before the number of KiB that are in RAM.
const RESIDENT: &str = "VmRSS:";

/// For how many seconds is waited between two looks.
const LOOK: u64 = 1;

/// The bytes in RAM, by the text of a process's status.
fn resident_bytes(status: &str) -> Option<u64> {
    for line in status.lines() {
        if let Some(told) = line.strip_prefix(RESIDENT) {
            let number = told.split_ascii_whitespace().next()?;
            return number.parse::<u64>().ok()?.checked_mul(1_024);
        }
    }
    None
}

/// The bytes of this process that are in RAM; `None` where the machine does not tell them.
fn resident_memory<R: Files<File = File>>(rt: &R) -> Option<u64> {
    let mut file = File::open(rt, STATUS).ok()?;
    let mut text = [0; 4_096];
    let len = file.read(&mut text).ok()?;
    let status = str::from_utf8(text.get(..len)?).ok()?;
    resident_bytes(status)
}

/// Notes how much memory the program has, each second, as long as it runs.
pub(crate) fn watch_memory<R>(rt: &R, tally: &Tally)
where
    R: Wait + Clock + Files<File = File>,
{
    for _ in rt.forever() {
        if let Some(bytes) = resident_memory(rt) {
            tally.note_memory(bytes);
        }
        thread::sleep(rt, Duration::from_secs(LOOK));
    }
    unreachable!()
}
