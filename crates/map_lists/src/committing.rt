//! Lists of changes that are asked for, committed by a session.

ghost use Rattle.std.specs.Prelude.{◌≡◌, ◌≤◌, length};
ghost use Rattle.judging.specs.Judging.{AreDistinct};
ghost use Rattle.map_lists.specs.Committing.{Carries, Lists, outcome_of};
ghost use Rattle.map_lists.specs.Requests.{list_data};
ghost use Rattle.map_sessions.specs.Visiting.{place_of};
ghost use Rattle.plain_world.specs.declared.settings.TheConstants.{CHANGE_LIMIT};

use crate::faults::ListFault;
use crate::reading::read_list;
use crate::requests::ListRequest;
use features::{Change, Name};
use map_edits::commit_asked;
use map_sessions::{Host, Refusal};
use session_lines::{Reply, Service};
use std::alloc::Allocator;

/// What comes of a request to make a list of changes.
#[derive(Debug, Drop)]
pub enum Outcome {
    /// It asks for no list that can be committed.
    Fault(ListFault),
    /// The session does not begin for who asks.
    Refused(Refusal),
    /// The reply to the list, which has this many changes.
    Replied(usize, Reply),
}

/// What comes of a list of this many changes.
fn outcome_of(count: usize, told: Result<Reply, Refusal>) -> Outcome
    ensures { result ≡ outcome_of count told }
{
    match told {
        Ok(reply) => Outcome::Replied(count, reply),
        Err(refusal) => Outcome::Refused(refusal),
    }
}

/// Commits a list of changes for who asks.
fn carry_out<S: Service>(
    host: &Host,
    asker: Option<Name>,
    service: &mut S,
    changes: &[Change],
) -> Outcome
    requires distinct { AreDistinct changes.now }
    requires few { length changes.now ≤ CHANGE_LIMIT }
    ensures { Carries S.subject_of S.serves (place_of host.now) asker changes.now service.old
        service.new result }
{
    let told = commit_asked(host, asker, service, changes);
    outcome_of(changes.len(), told)
}

/// Reads the list that a request asks for, whole, and commits it for who asks.
#[tactic(auto, using(crate::proofs::ReadLists::read_is_distinct, crate::proofs::ReadLists::read_is_few))]
pub(crate) fn list<S: Service, A: Allocator + Copy>(
    alloc: A,
    host: &Host,
    asker: Option<Name>,
    service: &mut S,
    request: &ListRequest,
) -> Outcome
    ensures { Lists S.subject_of S.serves (place_of host.now) asker (list_data request.now)
        service.old service.new result }
{
    match read_list(alloc, host.site.grid, request) {
        Ok(changes) => carry_out(host, asker, service, changes.as_slice()),
        Err(fault) => Outcome::Fault(fault),
    }
}
