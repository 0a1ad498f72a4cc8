//! The members of the objects of a configuration.

ghost use Rattle.std.specs.Prelude.{◌≡◌, option_map, option_and_then};
ghost use Rattle.serde_json.specs.Find.{as_array};
ghost use Rattle.serde_json.specs.View.{view, items_view, members_view};
ghost use Rattle.configuration.specs.Configs.{flag_in, has_only, is_listed, is_object_of, name_in, object_in, steward_in, value_of};
ghost use Rattle.configuration.specs.Paths.{key_text};
ghost use Rattle.configuration.specs.Web.{name_at, subject_at};

use crate::paths::{ConfigPath, MemberName};
use features::{Name, Subjects};
use serde_json::{Map, Value};

/// Whether a text is one of the listed keys.
fn is_listed(listed: &[MemberName], text: &str) -> bool
    ensures { result ≡ is_listed listed.now text.now }
{
    listed.iter().any(|key| key.text() == text)
}

/// Whether each key of an object is listed.
fn has_only(listed: &[MemberName], members: &Map<String, Value>) -> bool
    ensures { result ≡ has_only listed.now (members_view members.now.entries) }
{
    for (key, _) in members.iter() {
        if !is_listed(listed, key.as_str()) {
            return false;
        }
    }
    true
}

/// Whether a value is an object with listed keys only.
pub(crate) fn is_object_of(value: &Value, listed: &[MemberName]) -> bool
    ensures { result ≡ is_object_of listed.now (view value.now) }
{
    match value.as_object() {
        Some(members) => has_only(listed, members),
        None => false,
    }
}

/// Checks that a value is an object with listed keys only, which stands at this path.
pub(crate) fn object_in(
    value: &Value,
    listed: &[MemberName],
    path: ConfigPath,
) -> Result<(), ConfigPath>
    ensures { result ≡ object_in listed.now path (view value.now) }
{
    if is_object_of(value, listed) {
        Ok(())
    } else {
        Err(path)
    }
}

/// The value under a key.
pub(crate) fn value_in(value: &Value, key: MemberName) -> Option<&Value>
    ensures { option_map (λ v. view v.now) result ≡ value_of key (view value.now) }
{
    value.get(key.text())
}

/// The array under a key.
pub(crate) fn array_in(value: &Value, key: MemberName) -> Option<&[Value]>
    ensures { option_map (λ items. items_view items.now) result
        ≡ option_and_then as_array (value_of key (view value.now)) }
{
    Some(value.get(key.text())?.as_array()?)
}

/// The name that a value spells.
pub(crate) fn name_at(value: &Value) -> Option<Name>
    ensures { result ≡ name_at (view value.now) }
{
    Name::new(value.as_str()?.as_bytes())
}

/// The name of one of these subjects that a value spells.
pub(crate) fn subject_at(subjects: &Subjects, value: &Value) -> Option<Name>
    ensures { result ≡ subject_at subjects.now (view value.now) }
{
    let subject = subjects.get(name_at(value)?)?;
    Some(subject.name)
}

/// The name under a key.
fn name_under(value: &Value, key: MemberName) -> Option<Name>
    ensures { result ≡ option_and_then name_at (value_of key (view value.now)) }
{
    name_at(value_in(value, key)?)
}

/// The name under a key of the subject of this index.
pub(crate) fn name_in(value: &Value, key: MemberName, index: usize) -> Result<Name, ConfigPath>
    ensures { result ≡ name_in key index (view value.now) }
{
    match name_under(value, key) {
        Some(name) => Ok(name),
        None => Err(ConfigPath::ItemMember(MemberName::Subjects, index, key)),
    }
}

/// A flag at a path; false if it is missing.
pub(crate) fn flag_in(value: Option<&Value>, path: ConfigPath) -> Result<bool, ConfigPath>
    ensures { result ≡ flag_in path (option_map (λ v. view v.now) value.entry) }
{
    let Some(value) = value else {
        return Ok(false);
    };
    match value.as_bool() {
        Some(flag) => Ok(flag),
        None => Err(path),
    }
}

/// Whether the subject of this index is a steward; false if the key is missing.
pub(crate) fn steward_in(value: &Value, index: usize) -> Result<bool, ConfigPath>
    ensures { result ≡ steward_in index (view value.now) }
{
    let path = ConfigPath::ItemMember(MemberName::Subjects, index, MemberName::Steward);
    flag_in(value_in(value, MemberName::Steward), path)
}
