//! Reads the members of a document's objects.

ghost use Rattle.std.specs.Prelude.{◌≡◌, ◌<◌, option_map, option_and_then, length};
ghost use Rattle.serde_json.specs.View.{view, items_view, members_view};
ghost use Rattle.serde_json.specs.Find.{as_str};
ghost use Rattle.std.specs.Option.{ok_or};
ghost use Rattle.policy_text.specs.Keys.{key_text};
ghost use Rattle.policy_text.specs.Reading.{Shows, is_listed, has_key, has_only, has_one, object_in, name_in, text_in, array_in, optional_array_in, algorithm_in, effect_in, action_in, value_of, at_key, single_in, within};
ghost use Rattle.policy_text.specs.declared.faults.TextFault.TheVariants.{Form};

use crate::faults::TextFault;
use crate::paths::{MemberName, PART_LIMIT, Path, PathPart};
use features::{Action, Name};
use policy_documents::{Algorithm, Effect};
use serde_json::{Map, Value};

/// Whether `text` is one of these keys.
fn is_listed(listed: &[MemberName], text: &str) -> bool
    ensures { result ≡ is_listed listed.now text.now }
{
    listed.iter().any(|key| key.text() == text)
}

/// The text under a key, if there is one.
fn text_at(value: &Value, key: MemberName) -> Option<&str>
    ensures { option_map (λ text. text.now) result
        ≡ option_and_then as_str (value_of key (view value.now)) }
{
    value.get(key.text())?.as_str()
}

/// The fault of a missing or wrong value under a key.
fn form_at(path: Path, key: MemberName) -> TextFault
    requires { length path < PART_LIMIT }
    ensures { result ≡ Form (at_key path key) }
{
    TextFault::Form(path.with(PathPart::Member(key)))
}

/// The name under a key.
pub(crate) fn name_in(value: &Value, key: MemberName, path: Path) -> Result<Name, TextFault>
    requires { length path < PART_LIMIT }
    ensures { result ≡ name_in key path (view value.now) }
{
    let Some(text) = text_at(value, key) else {
        return Err(form_at(path, key));
    };
    match Name::new(text.as_bytes()) {
        Some(name) => Ok(name),
        None => Err(form_at(path, key)),
    }
}

/// The text under a key.
pub(crate) fn text_in(value: &Value, key: MemberName, path: Path) -> Result<&str, TextFault>
    requires { length path < PART_LIMIT }
    ensures { Shows (λ text. text.now) result (text_in key path (view value.now)) }
{
    let Some(text) = text_at(value, key) else {
        return Err(form_at(path, key));
    };
    Ok(text)
}

/// The value under a key.
pub(crate) fn value_in(value: &Value, key: MemberName, path: Path) -> Result<&Value, TextFault>
    requires { length path < PART_LIMIT }
    ensures { Shows (λ v. view v.now) result
        (ok_or (value_of key (view value.now)) (Form (at_key path key))) }
{
    match value.get(key.text()) {
        Some(value) => Ok(value),
        None => Err(form_at(path, key)),
    }
}

/// The algorithm under the key `combine`.
pub(crate) fn algorithm_in(value: &Value, path: Path) -> Result<Algorithm, TextFault>
    requires { length path < PART_LIMIT }
    ensures { result ≡ algorithm_in path (view value.now) }
{
    let Some(text) = text_at(value, MemberName::Combine) else {
        return Err(form_at(path, MemberName::Combine));
    };
    match text {
        "deny-overrides" => Ok(Algorithm::DenyOverrides),
        "permit-overrides" => Ok(Algorithm::PermitOverrides),
        "deny-unless-permit" => Ok(Algorithm::DenyUnlessPermit),
        "permit-unless-deny" => Ok(Algorithm::PermitUnlessDeny),
        "first-applicable" => Ok(Algorithm::FirstApplicable),
        _ => Err(form_at(path, MemberName::Combine)),
    }
}

/// The effect under the key `effect`.
pub(crate) fn effect_in(value: &Value, path: Path) -> Result<Effect, TextFault>
    requires { length path < PART_LIMIT }
    ensures { result ≡ effect_in path (view value.now) }
{
    let Some(text) = text_at(value, MemberName::Effect) else {
        return Err(form_at(path, MemberName::Effect));
    };
    match text {
        "permit" => Ok(Effect::Permit),
        "deny" => Ok(Effect::Deny),
        _ => Err(form_at(path, MemberName::Effect)),
    }
}

/// The action under the key `action`.
pub(crate) fn action_in(value: &Value, path: Path) -> Result<Action, TextFault>
    requires { length path < PART_LIMIT }
    ensures { result ≡ action_in path (view value.now) }
{
    let Some(text) = text_at(value, MemberName::Action) else {
        return Err(form_at(path, MemberName::Action));
    };
    match text {
        "read" => Ok(Action::Read),
        "add" => Ok(Action::Add),
        "reshape" => Ok(Action::Reshape),
        "delete" => Ok(Action::Delete),
        _ => Err(form_at(path, MemberName::Action)),
    }
}

/// Whether an object has this key.
pub(crate) fn has_key(value: &Value, key: MemberName) -> bool
    ensures { result ≡ has_key key (view value.now) }
{
    value.get(key.text()).is_some()
}

/// Whether each key of an object is listed.
fn has_only(listed: &[MemberName], members: &Map<String, Value>) -> bool
    ensures { result ≡ has_only listed.now (members_view members.now.entries) }
{
    for (key, _) in members.iter() {
        if !is_listed(listed, key.as_str()) {
            return false;
        }
    }
    true
}

/// Checks that a value is an object (else `Form`) and its keys are listed (else `UnknownKey`).
pub(crate) fn object_in(value: &Value, listed: &[MemberName], path: Path) -> Result<(), TextFault>
    ensures { result ≡ object_in listed.now path (view value.now) }
{
    let Some(members) = value.as_object() else {
        return Err(TextFault::Form(path));
    };
    if has_only(listed, members) {
        Ok(())
    } else {
        Err(TextFault::UnknownKey(path))
    }
}

/// Whether an object has exactly one key.
fn has_one(members: &Map<String, Value>) -> bool
    ensures { result ≡ has_one (members_view members.now.entries) }
{
    members.len() == 1
}

/// Checks that a value is an object (else `Form`), its keys are listed (else `UnknownKey`), and it
/// has exactly one key (else `Form`).
pub(crate) fn single_in(value: &Value, listed: &[MemberName], path: Path) -> Result<(), TextFault>
    ensures { result ≡ single_in listed.now path (view value.now) }
{
    let Some(members) = value.as_object() else {
        return Err(TextFault::Form(path));
    };
    if !has_only(listed, members) {
        return Err(TextFault::UnknownKey(path));
    }
    if has_one(members) {
        Ok(())
    } else {
        Err(TextFault::Form(path))
    }
}

/// The array under a key.
pub(crate) fn array_in(value: &Value, key: MemberName, path: Path) -> Result<&[Value], TextFault>
    requires { length path < PART_LIMIT }
    ensures { Shows (λ items. items_view items.now) result (array_in key path (view value.now)) }
{
    let Some(items) = value.get(key.text()) else {
        return Err(form_at(path, key));
    };
    match items.as_array() {
        Some(items) => Ok(items),
        None => Err(form_at(path, key)),
    }
}

/// The array under a key; empty if the object does not have the key.
#[tactic(auto, unfolding(crate::specs::Reading::optional_array_in))]
pub(crate) fn optional_array_in(
    value: &Value,
    key: MemberName,
    path: Path,
) -> Result<&[Value], TextFault>
    requires { length path < PART_LIMIT }
    ensures { Shows (λ items. items_view items.now) result
        (optional_array_in key path (view value.now)) }
{
    let Some(items) = value.get(key.text()) else {
        return Ok(&[]);
    };
    match items.as_array() {
        Some(items) => Ok(items),
        None => Err(form_at(path, key)),
    }
}

/// `count + 1`, or `TooMany` if `count` has reached `limit`: the value at `path` is one too many.
pub(crate) fn within(limit: u32, count: u32, path: Path) -> Result<u32, TextFault>
    ensures { result ≡ within path limit count }
{
    if count < limit {
        Ok(count + 1)
    } else {
        Err(TextFault::TooMany(path))
    }
}
