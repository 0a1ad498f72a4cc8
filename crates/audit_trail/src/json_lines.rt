//! Records as lines of JSON.

ghost use Rattle.std.specs.Prelude.{◌≡◌, ◌≤◌, Err, IfOk, OnOk, MatchOption, MatchResult, length, map, string_bytes, codes};
ghost use Rattle.std.specs.Arc.{arc_value};
ghost use Rattle.memory.specs.NoMemory.{out_of_memory};
ghost use Rattle.serde_json.specs.Data.{string, put as with_member};
ghost use Rattle.serde_json.specs.View.{view, members_view};
ghost use Rattle.wkt.specs.Printing.{printed};
ghost use Rattle.audit_trail.specs.JsonLines.{with_fields, numeral, change_fields, change_data, changes_data, numbers_data, rule_data, cause_fields, answer_fields, deed_fields, line_of, line_text, lines_from, IsDocumented};
ghost use Rattle.audit_trail.specs.Records.{record_at, applied, turned_away, governed};
ghost use Rattle.audit_trail.specs.Views.{deed_view};

use crate::records::{Deed, Record};
use crate::trails::{FIRST_LIMIT, RECORD_LIMIT, Trail, TrailFault};
use decision::Decider;
use features::{Change, Name, Subject};
use judging::{Cause, Refusal};
use kept_shapes::ChangeList;
use memory::{GrowVec, NoMemory, json_string, json_text, put_member, text};
use plane::Shape;
use policy_text::document_value;
use serde_json::{Map, Value};
use std::alloc::{Allocator, Global};
use std::sync::Arc;
use wkt::print_shape;

impl<A: Allocator> Trail<A> {
    /// The record with this number as JSON (RFC 8259): no spaces, no line end, the keys of each
    /// object sorted. `NoRecord` exactly if the trail has no such record; otherwise the only error
    /// is `Memory`.
    pub fn json_line(&self, heap: Global, number: u64) -> Result<String, TrailFault>
        ensures { MatchOption (record_at number self.now)
            (result ≡ Err TrailFault.NoRecord)
            (λ r. MatchResult result (λ text. string_bytes text ≡ line_text number r)
            (λ fault. fault ≡ TrailFault.Memory out_of_memory)) }
    {
        let Some(entry) = self.get(number) else {
            return Err(TrailFault::NoRecord);
        };
        Ok(record_line(heap, number, entry)?)
    }
}

impl<A: Allocator + Copy> Trail<A> {
    /// All records as `json_line` gives them, by rising number. The trail's allocator holds the
    /// lines; `heap` holds the JSON values they are made from.
    pub fn lines(&self, heap: Global) -> Result<Vec<String<A>, A>, NoMemory>
        ensures { IfOk result
            (λ lines. map string_bytes lines.items ≡ lines_from self.now.first self.now.records) }
    {
        lines_of(self.alloc, heap, self.first, self.records.as_slice())
    }
}

/// These records as lines of JSON. The first one has the number `first`.
fn lines_of<A: Allocator + Copy>(
    alloc: A,
    heap: Global,
    first: u64,
    records: &[Arc<Record<A>, A>],
) -> Result<Vec<String<A>, A>, NoMemory>
    requires first { first ≤ FIRST_LIMIT }
    requires records { length records.now ≤ RECORD_LIMIT }
    ensures { IfOk result
        (λ lines. map string_bytes lines.items ≡ lines_from first (map arc_value records.now)) }
{
    let mut lines = Vec::new(alloc);
    let mut place = 0;
    for entry in records {
        let line = record_line(heap, first + place, entry)?;
        lines.try_push(text(alloc, line.as_str())?)?;
        place += 1;
    }
    Ok(lines)
}

/// A record under this number as JSON (RFC 8259), as `Trail::json_line` gives it. The only error is
/// out of memory.
pub fn record_line<A: Allocator>(
    heap: Global,
    number: u64,
    entry: &Record<A>,
) -> Result<String, NoMemory>
    ensures { IfOk result (λ text. string_bytes text ≡ line_text number entry.now) }
{
    let value = line_value(heap, number, entry)?;
    json_text(heap, &value)
}

/// A record with its number, as a JSON object.
fn line_value<A: Allocator>(heap: Global, number: u64, entry: &Record<A>) -> Result<Value, NoMemory>
    ensures value { IfOk result (λ v. view v ≡ line_of number entry.now) }
    ensures documented { OnOk result (IsDocumented entry.now.deed) }
{
    let mut members = Map::new(heap);
    put_member(&mut members, heap, "number", Value::from(number))?;
    put_member(&mut members, heap, "seat", Value::from(entry.seat()))?;
    put_deed(&mut members, heap, entry.deed())?;
    Ok(Value::Object(members))
}

/// Puts the fields of a deed.
fn put_deed<A: Allocator>(
    members: &mut Map<String, Value>,
    heap: Global,
    deed: &Deed<A>,
) -> Result<(), NoMemory>
    ensures fields { OnOk result
        (members_view members.new.entries
        ≡ with_fields (members_view members.old.entries) (deed_fields (deed_view deed.now))) }
    ensures documented { OnOk result (IsDocumented (deed_view deed.now)) }
{
    match deed {
        Deed::Answered {
            subject,
            window,
            ids,
            ..
        } => put_answer(members, heap, subject, window, ids),
        Deed::Applied {
            subject,
            version,
            changes,
        } => put_applied_list(members, heap, subject, *version, changes),
        Deed::Refused {
            subject,
            changes,
            refusal,
        } => put_refused_list(members, heap, subject, changes, refusal),
        Deed::Governed { edition, decider } => put_governing(members, heap, *edition, decider),
    }
}

/// Puts the answer to a search: the ids of the rows, without their versions.
fn put_answer(
    members: &mut Map<String, Value>,
    heap: Global,
    subject: &Subject,
    window: &Shape,
    ids: &[u64],
) -> Result<(), NoMemory>
    ensures { OnOk result
        (members_view members.new.entries
        ≡ with_fields (members_view members.old.entries)
        (answer_fields subject.now window.now ids.now)) }
{
    put_text(members, heap, "kind", "answered")?;
    put_name(members, heap, "subject", &subject.name)?;
    put_shape(members, heap, "window", window)?;
    put_member(members, heap, "ids", numbers_value(heap, ids)?)
}

/// Puts the list that was applied, and its version.
fn put_applied_list<A: Allocator>(
    members: &mut Map<String, Value>,
    heap: Global,
    subject: &Subject,
    version: u64,
    changes: &ChangeList<A>,
) -> Result<(), NoMemory>
    ensures { OnOk result
        (members_view members.new.entries
        ≡ with_fields (members_view members.old.entries)
        (deed_fields (applied subject.now version changes.now))) }
{
    put_text(members, heap, "kind", "applied")?;
    put_name(members, heap, "subject", &subject.name)?;
    put_member(members, heap, "version", Value::from(version))?;
    put_member(
        members,
        heap,
        "changes",
        changes_value(heap, &changes.copied(heap)?)?,
    )
}

/// Puts the list that was rejected, and why.
fn put_refused_list<A: Allocator>(
    members: &mut Map<String, Value>,
    heap: Global,
    subject: &Subject,
    changes: &ChangeList<A>,
    refusal: &Refusal,
) -> Result<(), NoMemory>
    ensures { OnOk result
        (members_view members.new.entries
        ≡ with_fields (members_view members.old.entries)
        (deed_fields (turned_away subject.now changes.now refusal.now))) }
{
    put_text(members, heap, "kind", "refused")?;
    put_name(members, heap, "subject", &subject.name)?;
    put_member(
        members,
        heap,
        "changes",
        changes_value(heap, &changes.copied(heap)?)?,
    )?;
    put_refusal(members, heap, refusal)
}

/// Puts the document that was put in force, and its edition.
fn put_governing(
    members: &mut Map<String, Value>,
    heap: Global,
    edition: u64,
    decider: &Decider,
) -> Result<(), NoMemory>
    ensures fields { OnOk result
        (members_view members.new.entries
        ≡ with_fields (members_view members.old.entries)
        (deed_fields (governed edition decider.now))) }
    ensures documented { OnOk result (IsDocumented (governed edition decider.now)) }
{
    put_text(members, heap, "kind", "governed")?;
    put_member(members, heap, "edition", Value::from(edition))?;
    let document = document_value(heap, decider.document())?;
    put_member(members, heap, "document", document)
}

/// Puts the number of the failing change, and its cause.
fn put_refusal(
    members: &mut Map<String, Value>,
    heap: Global,
    refusal: &Refusal,
) -> Result<(), NoMemory>
    ensures { OnOk result
        (members_view members.new.entries
        ≡ with_fields (with_member (codes "change") (numeral refusal.now.change)
        (members_view members.old.entries)) (cause_fields refusal.now.cause)) }
{
    put_member(members, heap, "change", Value::from(refusal.change))?;
    put_cause(members, heap, &refusal.cause)
}

/// Puts the cause of a failing change.
fn put_cause(members: &mut Map<String, Value>, heap: Global, cause: &Cause) -> Result<(), NoMemory>
    ensures { OnOk result
        (members_view members.new.entries
        ≡ with_fields (members_view members.old.entries) (cause_fields cause.now)) }
{
    match cause {
        Cause::Denied(rule) => {
            put_text(members, heap, "cause", "denied")?;
            put_member(members, heap, "rule", rule_value(rule))
        }
        Cause::Exists => put_text(members, heap, "cause", "exists"),
        Cause::Absent => put_text(members, heap, "cause", "absent"),
        Cause::Stale(current) => {
            put_text(members, heap, "cause", "stale")?;
            put_member(members, heap, "current", Value::from(*current))
        }
    }
}

/// A rule's number, or `null` without one.
fn rule_value(rule: &Option<u32>) -> Value
    ensures { view result ≡ rule_data rule.now }
{
    match rule {
        Some(number) => Value::from(*number),
        None => Value::Null,
    }
}

/// Changes as an array.
fn changes_value(heap: Global, changes: &[Change]) -> Result<Value, NoMemory>
    ensures { IfOk result (λ v. view v ≡ changes_data changes.now) }
{
    let mut values = Vec::new(heap);
    for change in changes {
        values.try_push(change_value(heap, change)?)?;
    }
    Ok(Value::Array(values))
}

/// A change as an object.
fn change_value(heap: Global, change: &Change) -> Result<Value, NoMemory>
    ensures { IfOk result (λ v. view v ≡ change_data change.now) }
{
    let mut members = Map::new(heap);
    put_change(&mut members, heap, change)?;
    Ok(Value::Object(members))
}

/// Puts what a change does.
fn put_change(
    members: &mut Map<String, Value>,
    heap: Global,
    change: &Change,
) -> Result<(), NoMemory>
    ensures { OnOk result
        (members_view members.new.entries
        ≡ with_fields (members_view members.old.entries) (change_fields change.now)) }
{
    match change {
        Change::Add { id, class, shape } => {
            put_text(members, heap, "what", "add")?;
            put_member(members, heap, "id", Value::from(*id))?;
            put_name(members, heap, "class", class)?;
            put_shape(members, heap, "shape", shape)
        }
        Change::Reshape { id, version, shape } => {
            put_text(members, heap, "what", "reshape")?;
            put_member(members, heap, "id", Value::from(*id))?;
            put_member(members, heap, "version", Value::from(*version))?;
            put_shape(members, heap, "shape", shape)
        }
        Change::Delete { id, version } => {
            put_text(members, heap, "what", "delete")?;
            put_member(members, heap, "id", Value::from(*id))?;
            put_member(members, heap, "version", Value::from(*version))
        }
    }
}

/// Numbers as an array.
fn numbers_value(heap: Global, numbers: &[u64]) -> Result<Value, NoMemory>
    ensures { IfOk result (λ v. view v ≡ numbers_data numbers.now) }
{
    let mut values = Vec::new(heap);
    for number in numbers {
        values.try_push(Value::from(*number))?;
    }
    Ok(Value::Array(values))
}

/// Puts a text under a key.
fn put_text(
    members: &mut Map<String, Value>,
    heap: Global,
    key: &str,
    text: &str,
) -> Result<(), NoMemory>
    ensures { OnOk result
        (members_view members.new.entries
        ≡ with_member key.now (string text.now) (members_view members.old.entries)) }
{
    let text = json_string(heap, text)?;
    put_member(members, heap, key, text)
}

/// Puts a name under a key.
fn put_name(
    members: &mut Map<String, Value>,
    heap: Global,
    key: &str,
    name: &Name,
) -> Result<(), NoMemory>
    ensures { OnOk result
        (members_view members.new.entries
        ≡ with_member key.now (string name.now) (members_view members.old.entries)) }
{
    put_text(members, heap, key, name_text(name))
}

/// The text of a name.
fn name_text(name: &Name) -> &str
    ensures { result.now ≡ name.now }
{
    str::from_utf8(name.as_bytes()).unwrap()
}

/// Puts a shape under a key, as its text.
fn put_shape(
    members: &mut Map<String, Value>,
    heap: Global,
    key: &str,
    shape: &Shape,
) -> Result<(), NoMemory>
    ensures { OnOk result
        (members_view members.new.entries
        ≡ with_member key.now (string (printed shape.now)) (members_view members.old.entries)) }
{
    let text = print_shape(heap, shape)?;
    put_text(members, heap, key, text.as_str())
}
