//! Who asks, by the fields of a request.

ghost use Rattle.std.specs.Prelude.{◌≡◌, codes};
ghost use Rattle.credentials.specs.Asking.{asker_of};
ghost use Rattle.features.specs.Names.{name_of};
ghost use Rattle.http_header.specs.HeaderMap.{get_all};
ghost use Rattle.map_http.specs.Askers.{asker_by_proxy, asker_by_secret, asker_in, known, named, stands, way_of};
ghost use Rattle.map_sessions.specs.Visiting.{place_of};

use credentials::{Key, asker_of};
use features::Name;
use http::{HeaderMap, HeaderValue, header};
use map_sessions::Host;

/// The field by which a proxy says who asks.
const SUBJECT_FIELD: &str = "landmap-subject";

/// By what it is said who asks.
#[derive(Clone, Copy, Debug, PartialEq, Eq)]
pub(crate) enum Way {
    /// By nothing: all requests are alike.
    Nothing,
    /// By a name and a secret, in the field `authorization`.
    Secret,
    /// By a proxy, in the field `landmap-subject`.
    Proxy,
}

/// Why it cannot be told who asks.
#[derive(Clone, Copy, Debug, PartialEq, Eq)]
pub(crate) enum AskerFault {
    /// A proxy's field is not trusted here, stands more than once, or has no name in it.
    Field,
    /// What is said fits no key, or is said more than once.
    Unknown,
}

/// By what it is said who asks.
pub(crate) fn way_of(host: &Host) -> Way
    ensures { result ≡ way_of (place_of host.now) }
{
    if host.trusted_field {
        Way::Proxy
    } else if host.is_keyed() {
        Way::Secret
    } else {
        Way::Nothing
    }
}

/// The name that stands in a proxy's field.
fn named(value: &[u8]) -> Result<Option<Name>, AskerFault>
    ensures { result ≡ named (name_of value.now) }
{
    match Name::new(value) {
        Some(name) => Ok(Some(name)),
        None => Err(AskerFault::Field),
    }
}

/// Who asks, where a proxy says it.
fn asker_by_proxy(
    fields: &HeaderMap<HeaderValue>,
    anonymous: Option<Name>,
) -> Result<Option<Name>, AskerFault>
    ensures { result ≡ asker_by_proxy anonymous (get_all fields.now (codes "landmap-subject")) }
{
    let mut values = fields.get_all(SUBJECT_FIELD).iter();
    let Some(value) = values.next() else {
        return Ok(anonymous);
    };
    if values.next().is_some() {
        return Err(AskerFault::Field);
    }
    named(value.as_bytes())
}

/// The name that a key lets in.
fn known(keys: &[Key], value: &[u8]) -> Result<Option<Name>, AskerFault>
    ensures { result ≡ known (asker_of keys.now value.now) }
{
    match asker_of(keys, value) {
        Some(name) => Ok(Some(name)),
        None => Err(AskerFault::Unknown),
    }
}

/// Who asks, where a secret says it.
fn asker_by_secret(
    fields: &HeaderMap<HeaderValue>,
    keys: &[Key],
    anonymous: Option<Name>,
) -> Result<Option<Name>, AskerFault>
    ensures { result ≡ asker_by_secret keys.now anonymous
        (get_all fields.now (codes "authorization")) }
{
    let mut values = fields.get_all(header::AUTHORIZATION).iter();
    let Some(value) = values.next() else {
        return Ok(anonymous);
    };
    if values.next().is_some() {
        return Err(AskerFault::Unknown);
    }
    known(keys, value.as_bytes())
}

/// Whether a proxy's field stands.
fn has_subject(fields: &HeaderMap<HeaderValue>) -> bool
    ensures { result ≡ stands (get_all fields.now (codes "landmap-subject")) }
{
    fields.get_all(SUBJECT_FIELD).iter().next().is_some()
}

/// Who asks by the fields of a request: a subject, or nobody; or why it cannot be told.
pub(crate) fn asker_in(
    host: &Host,
    fields: &HeaderMap<HeaderValue>,
) -> Result<Option<Name>, AskerFault>
    ensures { result ≡ asker_in (place_of host.now) fields.now }
{
    match way_of(host) {
        Way::Proxy => asker_by_proxy(fields, host.anonymous),
        _ if has_subject(fields) => Err(AskerFault::Field),
        Way::Secret => asker_by_secret(fields, host.keys, host.anonymous),
        Way::Nothing => Ok(host.anonymous),
    }
}
