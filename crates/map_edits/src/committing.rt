//! Changes that are asked for, committed by a session.

ghost use Rattle.std.specs.Prelude.{◌≡◌, ◌≤◌, length};
ghost use Rattle.judging.specs.Judging.{AreDistinct};
ghost use Rattle.map_changes.specs.Requests.{request_data};
ghost use Rattle.map_edits.specs.Committing.{Carries, Changes, Commits, CommitsAsked, CommitsFor, outcome_of};
ghost use Rattle.map_sessions.specs.Visiting.{place_of};
ghost use Rattle.plain_world.specs.declared.settings.TheConstants.{CHANGE_LIMIT};

use features::{Change, Name};
use map_changes::{ChangeFault, ChangeRequest, Edit, read_change};
use map_sessions::{Host, Refusal, greet, unasked};
use session_lines::{Reply, Service};
use std::alloc::Allocator;

/// What comes of a request to change.
#[derive(Debug, Drop)]
pub enum Outcome {
    /// It asks for no change that there is.
    Fault(ChangeFault),
    /// The session does not begin for who asks.
    Refused(Refusal),
    /// The reply to the list of the one change that it asks for.
    Replied(Edit, Reply),
}

/// Commits a list of changes.
fn commit<S: Service>(service: &mut S, changes: &[Change]) -> Result<Reply, Refusal>
    requires distinct { AreDistinct changes.now }
    requires few { length changes.now ≤ CHANGE_LIMIT }
    ensures { Commits S.serves changes.now service.old service.new result }
{
    Ok(service.commit(changes))
}

/// Commits a list of changes for a subject.
fn commit_for<S: Service>(
    service: &mut S,
    asker: &Name,
    changes: &[Change],
) -> Result<Reply, Refusal>
    requires distinct { AreDistinct changes.now }
    requires few { length changes.now ≤ CHANGE_LIMIT }
    ensures { CommitsFor S.subject_of S.serves asker.now changes.now service.old service.new
        result }
{
    match greet(service, asker) {
        Ok(()) => commit(service, changes),
        Err(refusal) => Err(refusal),
    }
}

/// Commits a list of changes, each of another feature, for who asks: the session is begun for them,
/// if it does not ask for them already. Refused where nobody asks, and by what the session says
/// where it does not begin.
pub fn commit_asked<S: Service>(
    host: &Host,
    asker: Option<Name>,
    service: &mut S,
    changes: &[Change],
) -> Result<Reply, Refusal>
    requires distinct { AreDistinct changes.now }
    requires few { length changes.now ≤ CHANGE_LIMIT }
    ensures { CommitsAsked S.subject_of S.serves (place_of host.now) asker changes.now service.old
        service.new result }
{
    match asker {
        Some(asker) => commit_for(service, &asker, changes),
        None => Err(unasked(host)),
    }
}

/// What comes of a change that was asked for.
fn outcome_of(edit: Edit, told: Result<Reply, Refusal>) -> Outcome
    ensures { result ≡ outcome_of edit told }
{
    match told {
        Ok(reply) => Outcome::Replied(edit, reply),
        Err(refusal) => Outcome::Refused(refusal),
    }
}

/// Makes a change for who asks.
#[tactic(auto, using(crate::proofs::ListLemmas::one_is_distinct, crate::proofs::ListLemmas::one_is_few))]
fn carry_out<S: Service>(host: &Host, asker: Option<Name>, service: &mut S, edit: Edit) -> Outcome
    ensures { Carries S.subject_of S.serves (place_of host.now) asker edit service.old service.new
        result }
{
    let changes = [edit.change];
    let told = commit_asked(host, asker, service, &changes);
    outcome_of(edit, told)
}

/// Reads what a request asks for, whole, and makes that change for who asks.
pub(crate) fn change<S: Service, A: Allocator + Copy>(
    alloc: A,
    host: &Host,
    asker: Option<Name>,
    service: &mut S,
    request: &ChangeRequest,
) -> Outcome
    ensures { Changes S.subject_of S.serves (place_of host.now) asker (request_data request.now)
        service.old service.new result }
{
    match read_change(alloc, host.site.grid, host.site.classes, request) {
        Ok(edit) => carry_out(host, asker, service, edit),
        Err(fault) => Outcome::Fault(fault),
    }
}
