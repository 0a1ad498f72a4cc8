//! The keys that a configuration has for requests of HTTP.

ghost use Rattle.std.specs.Prelude.{◌≡◌, [], option_and_then, option_map};
ghost use Rattle.std.specs.List.{list_any};
ghost use Rattle.serde_json.specs.View.{items_view, view};
ghost use Rattle.configuration.specs.ConfigFaults.{Gives};
ghost use Rattle.configuration.specs.Configs.{each, key_behind, key_digest, key_in, key_subject, keys_in, keys_member, of_form, trusted_member, value_of};
ghost use Rattle.configuration.specs.Web.{digest_at, is_same_key, subject_at};
ghost use Rattle.configuration.specs.declared.paths.MemberName.TheVariants as member_names;

use crate::config_faults::ConfigFault;
use crate::fields::{flag_in, object_in, subject_at, value_in};
use crate::paths::{ConfigPath, MemberName};
use credentials::Key;
use features::{Name, Subjects};
use hex::FromHex;
use memory::GrowVec;
use serde_json::Value;
use std::alloc::Allocator;

/// The most keys.
pub const KEY_LIMIT: usize = 1_024;

const KEY_KEYS: [MemberName; 2] = [MemberName::Subject, MemberName::Sha256];

/// The digest that a value spells.
fn digest_at(value: &Value) -> Option<[u8; 32]>
    ensures { result ≡ digest_at (view value.now) }
{
    <[u8; 32] as FromHex>::from_hex(value.as_str()?).ok()
}

/// The subject under the key of a key.
fn subject_under(subjects: &Subjects, value: &Value) -> Option<Name>
    ensures { result
        ≡ option_and_then (subject_at subjects.now) (value_of member_names.Subject (view value.now)) }
{
    subject_at(subjects, value_in(value, MemberName::Subject)?)
}

/// The digest under the key of a key.
fn digest_under(value: &Value) -> Option<[u8; 32]>
    ensures { result ≡ option_and_then digest_at (value_of member_names.Sha256 (view value.now)) }
{
    digest_at(value_in(value, MemberName::Sha256)?)
}

/// The subject of the key of this index.
fn key_subject(subjects: &Subjects, value: &Value, index: usize) -> Result<Name, ConfigPath>
    ensures { result ≡ key_subject subjects.now index (view value.now) }
{
    match subject_under(subjects, value) {
        Some(name) => Ok(name),
        None => Err(ConfigPath::ItemMember(MemberName::Keys, index, MemberName::Subject)),
    }
}

/// The digest of the key of this index.
fn key_digest(value: &Value, index: usize) -> Result<[u8; 32], ConfigPath>
    ensures { result ≡ key_digest index (view value.now) }
{
    match digest_under(value) {
        Some(digest) => Ok(digest),
        None => Err(ConfigPath::ItemMember(MemberName::Keys, index, MemberName::Sha256)),
    }
}

/// The key of this index, which a JSON value spells.
#[tactic(auto, unfolding(crate::specs::Configs::key_in))]
fn key_in(subjects: &Subjects, value: &Value, index: usize) -> Result<Key, ConfigPath>
    ensures { result ≡ key_in subjects.now index (view value.now) }
{
    object_in(value, &KEY_KEYS, ConfigPath::Item(MemberName::Keys, index))?;
    let subject = key_subject(subjects, value, index)?;
    let digest = key_digest(value, index)?;
    Ok(Key { subject, digest })
}

/// Whether two keys are one.
fn is_same_key(a: &Key, b: &Key) -> bool
    ensures { result ≡ is_same_key a.now b.now }
{
    a.subject == b.subject && a.digest == b.digest
}

/// Whether a key is among these.
fn is_among(key: &Key, keys: &[Key]) -> bool
    ensures { result ≡ list_any (is_same_key key.now) keys.now }
{
    keys.iter().any(|other| is_same_key(key, other))
}

/// The key behind these, none of which it is.
#[tactic(auto, unfolding(crate::specs::Configs::key_behind))]
fn key_behind(subjects: &Subjects, before: &[Key], value: &Value) -> Result<Key, ConfigPath>
    ensures { result ≡ key_behind subjects.now before.now (view value.now) }
{
    let index = before.len();
    let key = key_in(subjects, value, index)?;
    if is_among(&key, before) {
        return Err(ConfigPath::Item(MemberName::Keys, index));
    }
    Ok(key)
}

/// The keys of an array, in order.
fn keys_of<A: Allocator>(
    alloc: A,
    subjects: &Subjects,
    items: &[Value],
) -> Result<Vec<Key, A>, ConfigFault>
    ensures { Gives (λ keys. keys.items) result
        (of_form (each (key_behind subjects.now) [] (items_view items.now))) }
{
    let mut keys = Vec::new(alloc);
    for value in items {
        let key = key_behind(subjects, keys.as_slice(), value)?;
        keys.try_push(key)?;
    }
    Ok(keys)
}

/// The keys of an array, if it has not too many.
fn keys_in<A: Allocator>(
    alloc: A,
    subjects: &Subjects,
    items: &[Value],
) -> Result<Vec<Key, A>, ConfigFault>
    ensures { Gives (λ keys. keys.items) result
        (of_form (keys_in subjects.now (items_view items.now))) }
{
    if items.len() > KEY_LIMIT {
        return Err(ConfigFault::Form(ConfigPath::Member(MemberName::Keys)));
    }
    keys_of(alloc, subjects, items)
}

/// The keys under the key; none, if nothing is there.
pub(crate) fn keys_member<A: Allocator>(
    alloc: A,
    subjects: &Subjects,
    value: Option<&Value>,
) -> Result<Vec<Key, A>, ConfigFault>
    ensures { Gives (λ keys. keys.items) result
        (of_form (keys_member subjects.now (option_map (λ v. view v.now) value.entry))) }
{
    let Some(value) = value else {
        return Ok(Vec::new(alloc));
    };
    match value.as_array() {
        Some(items) => keys_in(alloc, subjects, items.as_slice()),
        None => Err(ConfigFault::Form(ConfigPath::Member(MemberName::Keys))),
    }
}

/// Whether a field is trusted, beside these keys.
pub(crate) fn trusted_member(keys: &[Key], value: Option<&Value>) -> Result<bool, ConfigPath>
    ensures { result ≡ trusted_member keys.now (option_map (λ v. view v.now) value.entry) }
{
    let path = ConfigPath::Member(MemberName::TrustedField);
    let trusted = flag_in(value, path)?;
    if trusted && !keys.is_empty() {
        return Err(path);
    }
    Ok(trusted)
}
