//! What a request to make a list of changes is answered.

ghost use Rattle.std.specs.Prelude.{◌≡◌, ◌++◌, IfOk, OnOk};
ghost use Rattle.map_answers.specs.Answers.{answer_data, found};
ghost use Rattle.map_answers.specs.declared.answers.MediaType.TheVariants.{Json};
ghost use Rattle.map_edits.specs.Faults.{fault_data as change_fault_data};
ghost use Rattle.map_lists.specs.Faults.{no_form};
ghost use Rattle.map_lists.specs.Telling.{applied_text, change_member, conflict_data, count_part, denied_data, fault_data, item_data, item_place, list_place, outcome_data, reply_data, stale_data, unlisted_data, version_part};

use crate::committing::Outcome;
use crate::faults::{ItemFault, ListFault, Part};
use features::Name;
use geojson::{Cause, FeatureFault, Member};
use map_answers::{Answer, MediaType, Status, detailed_answer, put, put_number};
use map_changes::ChangeFault;
use map_edits::{
    fault_answer as change_fault_answer, placed, put_current_member, put_index_part,
    put_rule_member, refused, unmade_answer,
};
use memory::NoMemory;
use session_lines::Reply;
use std::alloc::Allocator;

/// Appends where in the body the list is.
#[tactic(auto, unfolding(crate::specs::Telling::list_place))]
fn put_list_place<A: Allocator>(text: &mut Vec<u8, A>) -> Result<(), NoMemory>
    ensures { OnOk result (text.new.items ≡ text.old.items ++ list_place) }
{
    put(text, b"/changes")
}

/// Appends where in the body the change at an index is.
fn put_item_place<A: Allocator>(text: &mut Vec<u8, A>, index: usize) -> Result<(), NoMemory>
    ensures { OnOk result (text.new.items ≡ text.old.items ++ item_place index) }
{
    put_list_place(text)?;
    put_index_part(text, index)
}

/// The answer to a change that is at fault.
fn item_answer<A: Allocator + Copy>(
    alloc: A,
    index: usize,
    fault: &ItemFault,
) -> Result<Answer<A>, NoMemory>
    ensures { IfOk result (λ answer. answer_data answer ≡ item_data index fault.now) }
{
    let mut place = Vec::new(alloc);
    put_item_place(&mut place, index)?;
    put(&mut place, fault.part.pointer().as_bytes())?;
    change_fault_answer(alloc, place.as_slice(), &fault.fault)
}

/// The answer to a list that cannot be committed, whatever its changes.
fn unlisted<A: Allocator + Copy>(alloc: A, code: &str) -> Result<Answer<A>, NoMemory>
    ensures { IfOk result (λ answer. answer_data answer ≡ unlisted_data code.now list_place) }
{
    let mut place = Vec::new(alloc);
    put_list_place(&mut place)?;
    placed(alloc, Status::Unprocessable, code, place.as_slice())
}

/// The answer to a list with a change of a feature that one before it names.
fn twice<A: Allocator + Copy>(alloc: A, index: usize) -> Result<Answer<A>, NoMemory>
    ensures { IfOk result (λ answer. answer_data answer
        ≡ fault_data (ListFault.Twice index)) }
{
    let mut place = Vec::new(alloc);
    put_item_place(&mut place, index)?;
    placed(alloc, Status::Unprocessable, "X5", place.as_slice())
}

/// The answer to a body without a list.
fn formless<A: Allocator + Copy>(alloc: A) -> Result<Answer<A>, NoMemory>
    ensures { IfOk result (λ answer. answer_data answer
        ≡ change_fault_data list_place no_form) }
{
    let mut place = Vec::new(alloc);
    put_list_place(&mut place)?;
    let fault = ItemFault::form_at(Part::Whole);
    change_fault_answer(alloc, place.as_slice(), &fault.fault)
}

/// The answer to a body that is not JSON.
fn unread<A: Allocator + Copy>(alloc: A, cause: Cause) -> Result<Answer<A>, NoMemory>
    ensures { IfOk result (λ answer. answer_data answer
        ≡ fault_data (ListFault.Unread cause)) }
{
    let fault = ChangeFault::Feature(FeatureFault::at(Member::Text, cause));
    change_fault_answer(alloc, b"", &fault)
}

/// The answer to a request at fault.
fn fault_answer<A: Allocator + Copy>(alloc: A, fault: ListFault) -> Result<Answer<A>, NoMemory>
    ensures { IfOk result (λ answer. answer_data answer ≡ fault_data fault) }
{
    match fault {
        ListFault::Parameter => change_fault_answer(alloc, b"", &ChangeFault::Parameter),
        ListFault::Media => change_fault_answer(alloc, b"", &ChangeFault::Media),
        ListFault::Unread(cause) => unread(alloc, cause),
        ListFault::Form => formless(alloc),
        ListFault::Empty => unlisted(alloc, "E7"),
        ListFault::TooMany => unlisted(alloc, "X6"),
        ListFault::Item(index, fault) => item_answer(alloc, index, &fault),
        ListFault::Twice(index) => twice(alloc, index),
    }
}

#[tactic(auto, unfolding(crate::specs::Telling::version_part))]
fn put_version<A: Allocator>(text: &mut Vec<u8, A>, version: u64) -> Result<(), NoMemory>
    ensures { OnOk result (text.new.items ≡ text.old.items ++ version_part version) }
{
    put(text, b"{\"version\":")?;
    put_number(text, version)
}

#[tactic(auto, unfolding(crate::specs::Telling::count_part))]
fn put_count<A: Allocator>(text: &mut Vec<u8, A>, count: usize) -> Result<(), NoMemory>
    ensures { OnOk result (text.new.items ≡ text.old.items ++ count_part count) }
{
    put(text, b",\"changes\":")?;
    put_number(text, count as u64)
}

/// Appends what is told of a list that was applied.
fn put_applied<A: Allocator>(
    text: &mut Vec<u8, A>,
    version: u64,
    count: usize,
) -> Result<(), NoMemory>
    ensures { OnOk result (text.new.items ≡ text.old.items ++ applied_text version count) }
{
    put_version(text, version)?;
    put_count(text, count)?;
    put(text, b"}")
}

/// The answer where the list was applied.
fn applied<A: Allocator + Copy>(alloc: A, version: u64, count: usize) -> Result<Answer<A>, NoMemory>
    ensures { IfOk result (λ answer. answer_data answer
        ≡ found Json (applied_text version count)) }
{
    let mut body = Vec::new(alloc);
    put_applied(&mut body, version, count)?;
    Ok(Answer {
        status: Status::Success,
        media: MediaType::Json,
        version: None,
        location: None,
        retry_after: None,
        body,
    })
}

/// Appends the member that tells of the change that fails.
#[tactic(auto, unfolding(crate::specs::Telling::change_member))]
fn put_change_member<A: Allocator>(text: &mut Vec<u8, A>, change: u64) -> Result<(), NoMemory>
    ensures { OnOk result (text.new.items ≡ text.old.items ++ change_member change) }
{
    put(text, b",\"change\":")?;
    put_number(text, change)
}

/// The answer where the policy denies a change.
fn denied<A: Allocator + Copy>(
    alloc: A,
    rule: &Option<Name>,
    change: u64,
) -> Result<Answer<A>, NoMemory>
    ensures { IfOk result (λ answer. answer_data answer ≡ denied_data rule.now change) }
{
    let mut members = Vec::new(alloc);
    put_rule_member(&mut members, rule)?;
    put_change_member(&mut members, change)?;
    detailed_answer(alloc, Status::Forbidden, "denied", members.as_slice())
}

/// The answer where a change cannot be made of what is there.
fn conflict<A: Allocator + Copy>(alloc: A, code: &str, change: u64) -> Result<Answer<A>, NoMemory>
    ensures { IfOk result (λ answer. answer_data answer ≡ conflict_data code.now change) }
{
    let mut members = Vec::new(alloc);
    put_change_member(&mut members, change)?;
    detailed_answer(alloc, Status::Conflict, code, members.as_slice())
}

/// The answer where a feature has another version than a change names.
fn stale<A: Allocator + Copy>(alloc: A, current: u64, change: u64) -> Result<Answer<A>, NoMemory>
    ensures { IfOk result (λ answer. answer_data answer ≡ stale_data current change) }
{
    let mut members = Vec::new(alloc);
    put_current_member(&mut members, current)?;
    put_change_member(&mut members, change)?;
    detailed_answer(alloc, Status::Conflict, "stale", members.as_slice())
}

/// The answer to a reply to a list of this many changes.
fn reply_answer<A: Allocator + Copy>(
    alloc: A,
    count: usize,
    reply: Reply,
) -> Result<Answer<A>, NoMemory>
    ensures { IfOk result (λ answer. answer_data answer ≡ reply_data count reply) }
{
    match reply {
        Reply::Applied(version) => applied(alloc, version, count),
        Reply::Denied(rule, change) => denied(alloc, &rule, change),
        Reply::Absent(change) => conflict(alloc, "absent", change),
        Reply::Exists(change) => conflict(alloc, "exists", change),
        Reply::Stale(current, change) => stale(alloc, current, change),
        other => unmade_answer(alloc, other),
    }
}

/// The answer to what came of a request to make a list of changes.
pub(crate) fn outcome_answer<A: Allocator + Copy>(
    alloc: A,
    outcome: Outcome,
) -> Result<Answer<A>, NoMemory>
    ensures { IfOk result (λ answer. answer_data answer ≡ outcome_data outcome) }
{
    match outcome {
        Outcome::Fault(fault) => fault_answer(alloc, fault),
        Outcome::Refused(refusal) => refused(alloc, &refusal),
        Outcome::Replied(count, reply) => reply_answer(alloc, count, reply),
    }
}
