//! How long requests take.

ghost use Rattle.std.specs.Prelude.{◌≡◌, ◌++◌, OnOk};
ghost use Rattle.map_metrics.specs.Times.{all_of, bucket_front, bucket_line, bucket_lines, count_line, more, sum_line, times_head, times_text};

use crate::bounds::{BOUNDS, Bound};
use map_answers::{put, put_number};
use memory::NoMemory;
use std::alloc::Allocator;

/// A number and so many more; the greatest number there is where it would be above that.
fn more(number: u64, count: u64) -> u64
    ensures { result ≡ more number count }
{
    number.saturating_add(count)
}

/// How many there are in all.
fn all_of(counts: &[u64]) -> u64
    ensures { result ≡ all_of 0 counts.now }
{
    let mut all = 0;
    for count in counts {
        all = more(all, *count);
    }
    all
}

#[tactic(auto, unfolding(crate::specs::Times::times_head))]
fn put_times_head<A: Allocator>(text: &mut Vec<u8, A>) -> Result<(), NoMemory>
    ensures { OnOk result (text.new.items ≡ text.old.items ++ times_head) }
{
    put(
        text,
        b"# HELP landmap_http_request_seconds How long a request is answered, once it was read whole.\n# TYPE landmap_http_request_seconds histogram\n",
    )
}

#[tactic(auto, unfolding(crate::specs::Times::bucket_front))]
fn put_bucket_front<A: Allocator>(text: &mut Vec<u8, A>) -> Result<(), NoMemory>
    ensures { OnOk result (text.new.items ≡ text.old.items ++ bucket_front) }
{
    put(text, b"landmap_http_request_seconds_bucket{le=\"")
}

/// Appends how many requests took at most so long.
fn put_bucket_line<A: Allocator>(
    text: &mut Vec<u8, A>,
    bound: &str,
    count: u64,
) -> Result<(), NoMemory>
    ensures { OnOk result (text.new.items ≡ text.old.items ++ bucket_line bound.now count) }
{
    put_bucket_front(text)?;
    put(text, bound.as_bytes())?;
    put(text, b"\"} ")?;
    put_number(text, count)?;
    put(text, b"\n")
}

/// Appends how many requests took at most the time of each bound.
fn put_bucket_lines<A: Allocator>(
    text: &mut Vec<u8, A>,
    bounds: &[Bound],
    counts: &[u64],
) -> Result<(), NoMemory>
    ensures { OnOk result
        (text.new.items ≡ text.old.items ++ bucket_lines 0 bounds.now counts.now) }
{
    let mut before = 0;
    let mut left = counts;
    for bound in bounds {
        let [count, behind @ ..] = left else {
            return Ok(());
        };
        before = more(before, *count);
        put_bucket_line(text, bound.text(), before)?;
        left = behind;
    }
    Ok(())
}

#[tactic(auto, unfolding(crate::specs::Times::sum_line))]
fn put_sum_line<A: Allocator>(text: &mut Vec<u8, A>, micros: u64) -> Result<(), NoMemory>
    ensures { OnOk result (text.new.items ≡ text.old.items ++ sum_line micros) }
{
    put(text, b"landmap_http_request_seconds_sum ")?;
    put_number(text, micros)?;
    put(text, b"e-6\n")
}

#[tactic(auto, unfolding(crate::specs::Times::count_line))]
fn put_count_line<A: Allocator>(text: &mut Vec<u8, A>, count: u64) -> Result<(), NoMemory>
    ensures { OnOk result (text.new.items ≡ text.old.items ++ count_line count) }
{
    put(text, b"landmap_http_request_seconds_count ")?;
    put_number(text, count)?;
    put(text, b"\n")
}

/// Appends how long requests took.
pub(crate) fn put_times<A: Allocator>(
    text: &mut Vec<u8, A>,
    counts: &[u64],
    micros: u64,
) -> Result<(), NoMemory>
    ensures { OnOk result (text.new.items ≡ text.old.items ++ times_text counts.now micros) }
{
    put_times_head(text)?;
    put_bucket_lines(text, &BOUNDS, counts)?;
    put_bucket_line(text, "+Inf", all_of(counts))?;
    put_sum_line(text, micros)?;
    put_count_line(text, all_of(counts))
}
