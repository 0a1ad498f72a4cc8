//! The words and members that documents are printed with.

ghost use Rattle.std.specs.Prelude.{◌≡◌, IfOk, OnOk, string_bytes};
ghost use Rattle.serde_json.specs.Data.{string};
ghost use Rattle.serde_json.specs.View.{view, items_view, members_view};
ghost use Rattle.policy_text.specs.Printed.{algorithm_text, effect_text, action_text, single};
ghost use Rattle.policy_text.specs.PrintedMembers.{put_items};

use crate::paths::MemberName;
use features::{Action, Name};
use memory::{NoMemory, json_string, put_member};
use policy_documents::{Algorithm, Effect};
use serde_json::{Map, Value};
use std::alloc::Global;

/// The word for an algorithm.
pub(crate) fn algorithm_word(algorithm: Algorithm) -> &'static str
    ensures { result.now ≡ algorithm_text algorithm }
{
    match algorithm {
        Algorithm::DenyOverrides => "deny-overrides",
        Algorithm::PermitOverrides => "permit-overrides",
        Algorithm::DenyUnlessPermit => "deny-unless-permit",
        Algorithm::PermitUnlessDeny => "permit-unless-deny",
        Algorithm::FirstApplicable => "first-applicable",
    }
}

/// The word for an effect.
pub(crate) fn effect_word(effect: Effect) -> &'static str
    ensures { result.now ≡ effect_text effect }
{
    match effect {
        Effect::Permit => "permit",
        Effect::Deny => "deny",
    }
}

/// The word for an action.
pub(crate) fn action_word(action: Action) -> &'static str
    ensures { result.now ≡ action_text action }
{
    match action {
        Action::Read => "read",
        Action::Add => "add",
        Action::Reshape => "reshape",
        Action::Delete => "delete",
    }
}

/// The text of a name.
fn name_text(name: &Name) -> &str
    ensures { result.now ≡ name.now }
{
    str::from_utf8(name.as_bytes()).unwrap()
}

/// A name as a JSON string. Fails only when out of memory.
pub(crate) fn name_value(heap: Global, name: &Name) -> Result<Value, NoMemory>
    ensures { IfOk result (λ v. view v ≡ string name.now) }
{
    json_string(heap, name_text(name))
}

/// An object with one member. Fails only when out of memory.
pub(crate) fn single_value(heap: Global, key: MemberName, value: Value) -> Result<Value, NoMemory>
    ensures { IfOk result (λ v. view v ≡ single key (view value)) }
{
    let mut members = Map::new(heap);
    put_member(&mut members, heap, key.text(), value)?;
    Ok(Value::Object(members))
}

/// Puts an array under a key, unless it is empty. Fails only when out of memory.
pub(crate) fn put_array(
    members: &mut Map<String, Value>,
    heap: Global,
    key: MemberName,
    items: Vec<Value>,
) -> Result<(), NoMemory>
    ensures { OnOk result
        (members_view members.new.entries
        ≡ put_items key (items_view items.items) (members_view members.old.entries)) }
{
    if items.is_empty() {
        return Ok(());
    }
    put_member(members, heap, key.text(), Value::Array(items))
}
