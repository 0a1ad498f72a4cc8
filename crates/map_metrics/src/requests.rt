//! Requests, by the status of their response.

ghost use Rattle.std.specs.Prelude.{◌≡◌, ◌++◌, OnOk};
ghost use Rattle.map_metrics.specs.Requests.{place_of, requests_head, requests_text, status_front, status_line, status_lines, statuses};

use map_answers::{Status, put, put_number};
use memory::NoMemory;
use std::alloc::Allocator;

/// How many statuses there are.
pub const STATUS_COUNT: usize = 19;

/// All statuses, by rising number.
pub const STATUSES: [Status; STATUS_COUNT] = [
    Status::Success,
    Status::Created,
    Status::NoContent,
    Status::NotModified,
    Status::BadRequest,
    Status::Unauthorized,
    Status::Forbidden,
    Status::NotFound,
    Status::MethodNotAllowed,
    Status::Conflict,
    Status::Gone,
    Status::PreconditionFailed,
    Status::UnsupportedMedia,
    Status::MisdirectedRequest,
    Status::Unprocessable,
    Status::PreconditionRequired,
    Status::Internal,
    Status::Unavailable,
    Status::InsufficientStorage,
];

/// Where the status of a number stands among the statuses; `None` where none of them has it.
pub fn place_of(number: u16) -> Option<usize>
    ensures { result ≡ place_of number }
{
    STATUSES.iter().position(|status| status.number() == number)
}

#[tactic(auto, unfolding(crate::specs::Requests::requests_head))]
fn put_requests_head<A: Allocator>(text: &mut Vec<u8, A>) -> Result<(), NoMemory>
    ensures { OnOk result (text.new.items ≡ text.old.items ++ requests_head) }
{
    put(
        text,
        b"# HELP landmap_http_requests_total Requests of HTTP, by the status of their response.\n# TYPE landmap_http_requests_total counter\n",
    )
}

#[tactic(auto, unfolding(crate::specs::Requests::status_front))]
fn put_status_front<A: Allocator>(text: &mut Vec<u8, A>) -> Result<(), NoMemory>
    ensures { OnOk result (text.new.items ≡ text.old.items ++ status_front) }
{
    put(text, b"landmap_http_requests_total{status=\"")
}

/// Appends how many responses there were of a status.
fn put_status_line<A: Allocator>(
    text: &mut Vec<u8, A>,
    status: Status,
    count: u64,
) -> Result<(), NoMemory>
    ensures { OnOk result (text.new.items ≡ text.old.items ++ status_line status count) }
{
    put_status_front(text)?;
    put_number(text, status.number() as u64)?;
    put(text, b"\"} ")?;
    put_number(text, count)?;
    put(text, b"\n")
}

/// Appends how many responses there were of each status.
fn put_status_lines<A: Allocator>(
    text: &mut Vec<u8, A>,
    statuses: &[Status],
    counts: &[u64],
) -> Result<(), NoMemory>
    ensures { OnOk result
        (text.new.items ≡ text.old.items ++ status_lines statuses.now counts.now) }
{
    let mut left = counts;
    for status in statuses {
        let [count, behind @ ..] = left else {
            return Ok(());
        };
        put_status_line(text, *status, *count)?;
        left = behind;
    }
    Ok(())
}

/// Appends how many requests there were, by the status of their response.
pub(crate) fn put_requests<A: Allocator>(
    text: &mut Vec<u8, A>,
    counts: &[u64],
) -> Result<(), NoMemory>
    ensures { OnOk result (text.new.items ≡ text.old.items ++ requests_text counts.now) }
{
    put_requests_head(text)?;
    put_status_lines(text, &STATUSES, counts)
}
