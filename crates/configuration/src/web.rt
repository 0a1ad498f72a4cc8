//! What a configuration says of HTTP.

ghost use Rattle.std.specs.Prelude.{◌≡◌, [], bytes_eq, codes, option_map, string_bytes};
ghost use Rattle.std.specs.List.{list_all};
ghost use Rattle.serde_json.specs.View.{items_view, view};
ghost use Rattle.configuration.specs.ConfigFaults.{Gives};
ghost use Rattle.configuration.specs.Configs.{collection_in, collections_in, collections_member, each, is_no_collection, of_form, public_member, subject_member, value_of, web_data, web_in};
ghost use Rattle.configuration.specs.Web.{behind_scheme, is_beginning, is_host_byte, is_host, public_at};

use crate::config_faults::ConfigFault;
use crate::fields::{name_at, subject_at, value_in};
use crate::keys::{keys_member, trusted_member};
use crate::paths::{ConfigPath, MemberName};
use credentials::Key;
use features::{Name, Subjects};
use memory::{GrowVec, text};
use serde_json::Value;
use std::alloc::Allocator;

/// The most collections.
pub const COLLECTION_LIMIT: usize = 64;

/// The most bytes behind `http://` or `https://` of what links begin with.
pub const PUBLIC_LIMIT: usize = 200;

/// The collection of all features, which no class may be called.
const ALL_FEATURES: &str = "features";

/// What a configuration says of HTTP.
#[derive(Debug, Drop)]
pub struct Web<A: Allocator> {
    /// The subject of requests that do not say who asks; `None` if those are refused.
    pub anonymous: Option<Name>,
    /// The subject that may read the metrics; `None` if there is no such page.
    pub metrics: Option<Name>,
    /// What links begin with; `None` for the address at which HTTP is answered.
    pub public: Option<String<A>>,
    /// The classes that are collections.
    pub collections: Vec<Name, A>,
    /// The keys of the subjects that may ask.
    pub keys: Vec<Key, A>,
    /// Whether the field `landmap-subject` of a request says who asks.
    pub trusted_field: bool,
}

/// The subject under a key of a configuration, if there is one.
fn subject_member(
    subjects: &Subjects,
    value: &Value,
    key: MemberName,
) -> Result<Option<Name>, ConfigPath>
    ensures { result ≡ subject_member subjects.now key (value_of key (view value.now)) }
{
    let Some(value) = value_in(value, key) else {
        return Ok(None);
    };
    match subject_at(subjects, value) {
        Some(name) => Ok(Some(name)),
        None => Err(ConfigPath::Member(key)),
    }
}

/// Whether a byte may stand in what links begin with.
fn is_host_byte(byte: u8) -> bool
    ensures { result ≡ is_host_byte byte }
{
    match byte {
        b'"' | b'#' | b'<' | b'>' | b'?' | b'\\' => false,
        b'!'..=b'~' => true,
        _ => false,
    }
}

/// Whether these bytes may stand in what links begin with.
fn are_host_bytes(text: &[u8]) -> bool
    ensures { result ≡ list_all is_host_byte text.now }
{
    text.iter().all(|byte| is_host_byte(*byte))
}

/// Whether this may stand behind `http://` or `https://`.
fn is_host(text: &[u8]) -> bool
    ensures { result ≡ is_host text.now }
{
    !text.is_empty()
        && text.len() <= PUBLIC_LIMIT
        && are_host_bytes(text)
        && !text.starts_with(b"/")
        && !text.starts_with(b":")
        && !text.ends_with(b"/")
}

/// What stands behind a scheme in a text that begins with it.
fn behind_scheme<'t>(scheme: &[u8], text: &'t [u8]) -> Option<&'t [u8]>
    ensures { option_map (λ rest. rest.now) result ≡ behind_scheme scheme.now text.now }
{
    text.strip_prefix(scheme)
}

/// Whether links may begin with a text.
fn is_beginning(text: &[u8]) -> bool
    ensures { result ≡ is_beginning text.now }
{
    if let Some(host) = behind_scheme(b"https://", text) {
        return is_host(host);
    }
    match behind_scheme(b"http://", text) {
        Some(host) => is_host(host),
        None => false,
    }
}

/// The text that a value spells, if links may begin with it.
fn public_at(value: &Value) -> Option<&str>
    ensures { option_map (λ text. text.now) result ≡ public_at (view value.now) }
{
    let text = value.as_str()?;
    if is_beginning(text.as_bytes()) {
        Some(text)
    } else {
        None
    }
}

/// What links begin with, if something is under the key.
fn public_member<A: Allocator>(
    alloc: A,
    value: Option<&Value>,
) -> Result<Option<String<A>>, ConfigFault>
    ensures { Gives (option_map (λ text. string_bytes text)) result
        (of_form (public_member (option_map (λ v. view v.now) value.entry))) }
{
    let Some(value) = value else {
        return Ok(None);
    };
    let Some(given) = public_at(value) else {
        return Err(ConfigFault::Form(ConfigPath::Member(MemberName::Public)));
    };
    let public = text(alloc, given)?;
    Ok(Some(public))
}

/// Whether a name is that of the collection of all features.
fn is_all(name: &Name) -> bool
    ensures { result ≡ bytes_eq name.now (codes "features") }
{
    name.as_bytes() == ALL_FEATURES.as_bytes()
}

/// Whether a name may not be one more collection behind these.
fn is_no_collection(before: &[Name], name: &Name) -> bool
    ensures { result ≡ is_no_collection before.now name.now }
{
    is_all(name) || before.contains(name)
}

/// The collection behind these.
#[tactic(auto, unfolding(crate::specs::Configs::collection_in))]
fn collection_in(before: &[Name], value: &Value) -> Result<Name, ConfigPath>
    ensures { result ≡ collection_in before.now (view value.now) }
{
    let path = ConfigPath::Item(MemberName::Collections, before.len());
    let Some(name) = name_at(value) else {
        return Err(path);
    };
    if is_no_collection(before, &name) {
        return Err(path);
    }
    Ok(name)
}

/// The collections of an array, in order.
fn collections_of<A: Allocator>(alloc: A, items: &[Value]) -> Result<Vec<Name, A>, ConfigFault>
    ensures { Gives (λ names. names.items) result
        (of_form (each collection_in [] (items_view items.now))) }
{
    let mut names = Vec::new(alloc);
    for value in items {
        let name = collection_in(names.as_slice(), value)?;
        names.try_push(name)?;
    }
    Ok(names)
}

/// The collections of an array, if it has not too many.
fn collections_in<A: Allocator>(alloc: A, items: &[Value]) -> Result<Vec<Name, A>, ConfigFault>
    ensures { Gives (λ names. names.items) result (of_form (collections_in (items_view items.now))) }
{
    if items.len() > COLLECTION_LIMIT {
        return Err(ConfigFault::Form(ConfigPath::Member(MemberName::Collections)));
    }
    collections_of(alloc, items)
}

/// The collections under the key; none, if nothing is there.
fn collections_member<A: Allocator>(
    alloc: A,
    value: Option<&Value>,
) -> Result<Vec<Name, A>, ConfigFault>
    ensures { Gives (λ names. names.items) result
        (of_form (collections_member (option_map (λ v. view v.now) value.entry))) }
{
    let Some(value) = value else {
        return Ok(Vec::new(alloc));
    };
    match value.as_array() {
        Some(items) => collections_in(alloc, items.as_slice()),
        None => Err(ConfigFault::Form(ConfigPath::Member(MemberName::Collections))),
    }
}

/// What a configuration with these subjects says of HTTP.
#[tactic(auto, unfolding(crate::specs::Configs::web_in))]
pub(crate) fn web_in<A: Allocator + Copy>(
    alloc: A,
    subjects: &Subjects,
    value: &Value,
) -> Result<Web<A>, ConfigFault>
    ensures { Gives web_data result (of_form (web_in subjects.now (view value.now))) }
{
    let anonymous = subject_member(subjects, value, MemberName::Anonymous)?;
    let metrics = subject_member(subjects, value, MemberName::Metrics)?;
    let public = public_member(alloc, value_in(value, MemberName::Public))?;
    let collections = collections_member(alloc, value_in(value, MemberName::Collections))?;
    let keys = keys_member(alloc, subjects, value_in(value, MemberName::Keys))?;
    let trusted_field = trusted_member(keys.as_slice(), value_in(value, MemberName::TrustedField))?;
    Ok(Web {
        anonymous,
        metrics,
        public,
        collections,
        keys,
        trusted_field,
    })
}
