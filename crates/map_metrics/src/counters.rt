//! What is counted by one number.

ghost use Rattle.std.specs.Prelude.{◌≡◌, ◌++◌, OnOk};
ghost use Rattle.map_metrics.specs.Counters.{commits_text, denied_text, held_text, info_text, memory_text, number_text, policies_text, records_text, searches_text};

use map_answers::{put, put_number};
use memory::NoMemory;
use std::alloc::Allocator;

/// Appends a family of one number.
fn put_number_text<A: Allocator>(
    text: &mut Vec<u8, A>,
    head: &[u8],
    count: u64,
) -> Result<(), NoMemory>
    ensures { OnOk result (text.new.items ≡ text.old.items ++ number_text head.now count) }
{
    put(text, head)?;
    put_number(text, count)?;
    put(text, b"\n")
}

#[tactic(auto, unfolding(crate::specs::Counters::searches_text))]
pub(crate) fn put_searches<A: Allocator>(text: &mut Vec<u8, A>, count: u64) -> Result<(), NoMemory>
    ensures { OnOk result (text.new.items ≡ text.old.items ++ searches_text count) }
{
    put_number_text(
        text,
        b"# HELP landmap_searches_total Searches that were answered, of sessions of lines and of HTTP.\n# TYPE landmap_searches_total counter\nlandmap_searches_total ",
        count,
    )
}

#[tactic(auto, unfolding(crate::specs::Counters::commits_text))]
pub(crate) fn put_commits<A: Allocator>(text: &mut Vec<u8, A>, count: u64) -> Result<(), NoMemory>
    ensures { OnOk result (text.new.items ≡ text.old.items ++ commits_text count) }
{
    put_number_text(
        text,
        b"# HELP landmap_commits_total Lists of changes that were applied.\n# TYPE landmap_commits_total counter\nlandmap_commits_total ",
        count,
    )
}

#[tactic(auto, unfolding(crate::specs::Counters::held_text))]
pub(crate) fn put_held<A: Allocator>(text: &mut Vec<u8, A>, count: u64) -> Result<(), NoMemory>
    ensures { OnOk result (text.new.items ≡ text.old.items ++ held_text count) }
{
    put_number_text(
        text,
        b"# HELP landmap_commits_held_total Lists of changes that an open search held up.\n# TYPE landmap_commits_held_total counter\nlandmap_commits_held_total ",
        count,
    )
}

#[tactic(auto, unfolding(crate::specs::Counters::denied_text))]
pub(crate) fn put_denied<A: Allocator>(text: &mut Vec<u8, A>, count: u64) -> Result<(), NoMemory>
    ensures { OnOk result (text.new.items ≡ text.old.items ++ denied_text count) }
{
    put_number_text(
        text,
        b"# HELP landmap_denied_total Lists of changes that the policy denied.\n# TYPE landmap_denied_total counter\nlandmap_denied_total ",
        count,
    )
}

#[tactic(auto, unfolding(crate::specs::Counters::policies_text))]
pub(crate) fn put_policies<A: Allocator>(text: &mut Vec<u8, A>, count: u64) -> Result<(), NoMemory>
    ensures { OnOk result (text.new.items ≡ text.old.items ++ policies_text count) }
{
    put_number_text(
        text,
        b"# HELP landmap_policies_total Policies that were put in force.\n# TYPE landmap_policies_total counter\nlandmap_policies_total ",
        count,
    )
}

#[tactic(auto, unfolding(crate::specs::Counters::records_text))]
pub(crate) fn put_records<A: Allocator>(text: &mut Vec<u8, A>, count: u64) -> Result<(), NoMemory>
    ensures { OnOk result (text.new.items ≡ text.old.items ++ records_text count) }
{
    put_number_text(
        text,
        b"# HELP landmap_records_total Records that were added to the trail.\n# TYPE landmap_records_total counter\nlandmap_records_total ",
        count,
    )
}

/// Appends how many bytes of memory the server has; nothing for 0.
#[tactic(auto, unfolding(crate::specs::Counters::memory_text))]
pub(crate) fn put_memory<A: Allocator>(text: &mut Vec<u8, A>, bytes: u64) -> Result<(), NoMemory>
    ensures { OnOk result (text.new.items ≡ text.old.items ++ memory_text bytes) }
{
    if bytes == 0 {
        return Ok(());
    }
    put_number_text(
        text,
        b"# HELP process_resident_memory_bytes Memory of the server that is in RAM.\n# TYPE process_resident_memory_bytes gauge\nprocess_resident_memory_bytes ",
        bytes,
    )
}

#[tactic(auto, unfolding(crate::specs::Counters::info_text))]
pub(crate) fn put_info<A: Allocator>(text: &mut Vec<u8, A>) -> Result<(), NoMemory>
    ensures { OnOk result (text.new.items ≡ text.old.items ++ info_text) }
{
    put(
        text,
        b"# HELP landmap_info The version of the server.\n# TYPE landmap_info gauge\nlandmap_info{version=\"0.1.0\"} 1\n",
    )
}
