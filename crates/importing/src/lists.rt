//! A list is sent, and sent again, until each of its additions is settled.

ghost use Rattle.std.specs.Prelude.{◌≡◌, ℕ, ◌+◌, ◌<◌, ◌≤◌, length, count_by, vec_len, IfOk, slice_index_or, true};
ghost use Rattle.importing.specs.Steps.{is_staged, PointsTo};
ghost use Rattle.importing.specs.Counts.{total};
ghost use Rattle.importing.specs.declared.replies.Reply.TheVariants.{Unknown};

use crate::additions::{Addition, LIST_LIMIT, list_text};
use crate::faults::ListFault;
use crate::peers::Peer;
use crate::replies::{Reply, read_reply};
use crate::rows::is_row_of;
use crate::steps::{Step, is_staged, next_step};
use byte_streams::{flush, write_whole};
use line_words::read_number;
use memory::{GrowVec, copied};
use std::alloc::Allocator;
use std::io::{Read, Write};
use wkt::shape_text;

/// How often COMMIT is sent while the server is busy.
const TRIES: u32 = 1_000;

/// What is done before COMMIT is sent again to a busy server.
pub trait Pause {
    /// Waits for a moment.
    fn pause(&mut self);
}

/// An addition that the server has refused, and its reply.
#[derive(Drop)]
pub struct Refused<A: Allocator> {
    pub row: u64,
    pub id: u64,
    /// The server's line, without its line feed.
    pub reply: Vec<u8, A>,
}

/// How many additions were settled in which way.
#[derive(Clone, Copy, Debug)]
pub struct Counts {
    pub applied: usize,
    /// There was such a feature already, of that class and with that shape.
    pub present: usize,
    pub refused: usize,
}

/// A server: the two ends of a connection to it, and what it has sent.
pub struct Server<A: Allocator, R: Read, W: Write, P: Pause> {
    pub peer: Peer<A>,
    pub reader: R,
    pub writer: W,
    pub pause: P,
}

/// What one sending of a list has come to.
#[derive(Drop)]
struct Round<A: Allocator> {
    /// The additions that are to be sent again.
    left: Vec<Addition, A>,
    counts: Counts,
}

/// Sends bytes.
fn send<W: Write>(bytes: &[u8], writer: &mut W) -> Result<(), ListFault> {
    write_whole(bytes, writer)?;
    flush(writer)?;
    Ok(())
}

/// Keeps an addition that was refused, with a copy of the server's line.
fn refuse<A: Allocator + Copy>(
    alloc: A,
    refused: &mut Vec<Refused<A>, A>,
    addition: &Addition,
    reply: &[u8],
) -> Result<(), ListFault> {
    let reply = copied(alloc, reply)?;
    refused.try_push(Refused {
        row: addition.row,
        id: addition.id,
        reply,
    })?;
    Ok(())
}

/// How many additions of a list were staged.
fn staged_count(adds: &[Reply]) -> usize
    ensures value { result ≡ count_by is_staged adds.now }
    ensures within { result ≤ length adds.now }
{
    adds.iter().filter(|reply| is_staged(**reply)).count()
}

/// The additions that were staged, without the one at an index.
fn others<A: Allocator + Copy>(
    alloc: A,
    list: &[Addition],
    adds: &[Reply],
    without: usize,
) -> Result<Vec<Addition, A>, ListFault>
    requires same { length adds.now ≡ length list.now }
    requires within { without < length adds.now }
    ensures { IfOk result (λ left. vec_len left < length list.now) }
{
    let mut left = Vec::new(alloc);
    for (index, addition) in list.iter().enumerate() {
        if index != without && is_staged(adds[index]) {
            left.try_push(*addition)?;
        }
    }
    Ok(left)
}

impl<A: Allocator + Copy, R: Read, W: Write, P: Pause> Server<A, R, W, P> {
    /// Reads the replies to the additions of a list. Those that were not staged are refused.
    fn read_adds(
        &mut self,
        alloc: A,
        list: &[Addition],
        refused: &mut Vec<Refused<A>, A>,
    ) -> Result<Vec<Reply, A>, ListFault>
        ensures { IfOk result (λ adds. vec_len adds ≡ length list.now) }
    {
        let mut adds = Vec::new(alloc);
        let mut line = Vec::new(alloc);
        for addition in list {
            self.peer.read_line(&mut self.reader, &mut line)?;
            let reply = read_reply(line.as_slice());
            if !is_staged(reply) {
                refuse(alloc, refused, addition, line.as_slice())?;
            }
            adds.try_push(reply)?;
        }
        Ok(adds)
    }

    /// Whether a search of an addition's shape lists that very feature.
    fn is_present(&mut self, alloc: A, addition: &Addition) -> Result<bool, ListFault> {
        send(b"SEARCH ", &mut self.writer)?;
        send(shape_text(&addition.shape).as_bytes(), &mut self.writer)?;
        send(b"\n", &mut self.writer)?;
        let mut line = Vec::new(alloc);
        self.peer.read_line(&mut self.reader, &mut line)?;
        let rows = match line.as_slice().strip_prefix(b"rows ") {
            Some(count) => read_number(count),
            None => None,
        };
        let Some(rows) = rows else {
            return Err(ListFault::Stopped);
        };
        let mut is_found = false;
        for _ in 0..rows {
            self.peer.read_line(&mut self.reader, &mut line)?;
            if is_row_of(line.as_slice(), addition) {
                is_found = true;
            }
        }
        Ok(is_found)
    }

    /// Reads the reply to COMMIT, which is sent again while the server is busy. The last reply is
    /// left in `line`.
    fn committed(&mut self, adds: &[Reply], line: &mut Vec<u8, A>) -> Result<Step, ListFault>
        ensures { IfOk result (PointsTo adds.now) }
    {
        for _ in 0..TRIES {
            self.peer.read_line(&mut self.reader, line)?;
            let step = next_step(adds, read_reply(line.as_slice()));
            if !is_again(step) {
                return Ok(step);
            }
            self.pause.pause();
            send(b"COMMIT\n", &mut self.writer)?;
        }
        Err(ListFault::Busy)
    }

    /// Sends a list once, and settles what its replies settle: at least one addition.
    fn round(
        &mut self,
        alloc: A,
        list: &[Addition],
        refused: &mut Vec<Refused<A>, A>,
    ) -> Result<Round<A>, ListFault>
        requires { 0 < length list.now }
        ensures total { IfOk result (λ round. vec_len round.left + total round.counts
            ≡ length list.now) }
        ensures fewer { IfOk result (λ round. vec_len round.left < length list.now) }
    {
        let text = list_text(alloc, list)?;
        send(text.as_slice(), &mut self.writer)?;
        let adds = self.read_adds(alloc, list, refused)?;
        let mut line = Vec::new(alloc);
        let step = self.committed(adds.as_slice(), &mut line)?;
        let staged = staged_count(adds.as_slice());
        match step {
            Step::Done => Ok(settled(alloc, list.len(), staged)),
            Step::Denies(at) => {
                refuse(alloc, refused, &list[at], line.as_slice())?;
                without(alloc, list, adds.as_slice(), at, false)
            }
            Step::Meets(at) => {
                let is_present = self.is_present(alloc, &list[at])?;
                if !is_present {
                    refuse(alloc, refused, &list[at], line.as_slice())?;
                }
                without(alloc, list, adds.as_slice(), at, is_present)
            }
            Step::CommitAgain | Step::Stop => {
                if staged == 0 {
                    Ok(settled(alloc, list.len(), 0))
                } else {
                    Err(ListFault::Stopped)
                }
            }
        }
    }

    /// Sends a list of additions, and settles each of them: it is applied, or the server has that
    /// very feature already, or it is refused and told in `refused`. What is refused does not keep
    /// the others back: they are sent again. One list is under way at a time, and the next replies
    /// are read before anything more is sent, so neither side waits for the other to read.
    pub fn settle_list(
        &mut self,
        alloc: A,
        list: &[Addition],
        refused: &mut Vec<Refused<A>, A>,
    ) -> Result<Counts, ListFault>
        requires { length list.now ≤ LIST_LIMIT }
        ensures { IfOk result (λ counts. total counts ≡ length list.now) }
    {
        let mut left = copied(alloc, list)?;
        let mut counts = Counts {
            applied: 0,
            present: 0,
            refused: 0,
        };
        while !left.is_empty() {
            let round = self.round(alloc, left.as_slice(), refused)?;
            counts = sum(counts, round.counts);
            left = round.left;
        }
        Ok(counts)
    }
}

/// The counts of two rounds together.
fn sum(one: Counts, other: Counts) -> Counts
    requires { total one + total other ≤ LIST_LIMIT }
    ensures { total result ≡ total one + total other }
{
    Counts {
        applied: one.applied + other.applied,
        present: one.present + other.present,
        refused: one.refused + other.refused,
    }
}

/// Whether COMMIT is to be sent again.
fn is_again(step: Step) -> bool {
    matches!(step, Step::CommitAgain)
}

/// A round that leaves nothing: those that were staged are applied, the others refused.
fn settled<A: Allocator>(alloc: A, len: usize, staged: usize) -> Round<A>
    requires { staged ≤ len }
    ensures total { vec_len result.left + total result.counts ≡ len }
    ensures empty { vec_len result.left ≡ 0 }
{
    Round {
        left: Vec::new(alloc),
        counts: Counts {
            applied: staged,
            present: 0,
            refused: len - staged,
        },
    }
}

/// A round that leaves those that were staged, but for the one at an index, which was present or
/// refused.
fn without<A: Allocator + Copy>(
    alloc: A,
    list: &[Addition],
    adds: &[Reply],
    at: usize,
    is_present: bool,
) -> Result<Round<A>, ListFault>
    requires same { length adds.now ≡ length list.now }
    requires within { at < length adds.now }
    requires staged { is_staged (slice_index_or adds.now at Unknown) ≡ true }
    ensures total { IfOk result (λ round. vec_len round.left + total round.counts
        ≡ length list.now) }
    ensures fewer { IfOk result (λ round. vec_len round.left < length list.now) }
{
    let left = others(alloc, list, adds, at)?;
    let settled = list.len() - left.len();
    let counts = if is_present {
        Counts {
            applied: 0,
            present: 1,
            refused: settled - 1,
        }
    } else {
        Counts {
            applied: 0,
            present: 0,
            refused: settled,
        }
    };
    Ok(Round { left, counts })
}
