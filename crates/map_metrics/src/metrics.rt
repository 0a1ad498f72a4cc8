//! The text by which a server's counts are read.

ghost use Rattle.std.specs.Prelude.{◌≡◌, ◌++◌, IfOk, OnOk};
ghost use Rattle.map_metrics.specs.Metrics.{counters_text, metrics_text};

use crate::counters::{
    put_commits, put_denied, put_held, put_info, put_memory, put_policies, put_records,
    put_searches,
};
use crate::readings::Readings;
use crate::requests::put_requests;
use crate::times::put_times;
use memory::NoMemory;
use std::alloc::Allocator;

/// Appends what is counted by one number.
fn put_counters<A: Allocator>(text: &mut Vec<u8, A>, readings: &Readings) -> Result<(), NoMemory>
    ensures { OnOk result (text.new.items ≡ text.old.items ++ counters_text readings.now) }
{
    put_searches(text, readings.searches)?;
    put_commits(text, readings.commits)?;
    put_held(text, readings.held)?;
    put_denied(text, readings.denied)?;
    put_policies(text, readings.policies)?;
    put_records(text, readings.records)
}

/// Appends all families.
fn put_metrics<A: Allocator>(text: &mut Vec<u8, A>, readings: &Readings) -> Result<(), NoMemory>
    ensures { OnOk result (text.new.items ≡ text.old.items ++ metrics_text readings.now) }
{
    put_requests(text, &readings.responses)?;
    put_times(text, &readings.times, readings.micros)?;
    put_counters(text, readings)?;
    put_memory(text, readings.memory)?;
    put_info(text)
}

/// What was read, as who watches a server wants it: Prometheus' text (version 0.0.4), each family
/// with its words and its kind. Times are in seconds.
pub fn metrics_text<A: Allocator>(alloc: A, readings: &Readings) -> Result<Vec<u8, A>, NoMemory>
    ensures { IfOk result (λ made. made.items ≡ metrics_text readings.now) }
{
    let mut text = Vec::new(alloc);
    put_metrics(&mut text, readings)?;
    Ok(text)
}
