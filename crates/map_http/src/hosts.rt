//! For which host a request is.

ghost use Rattle.std.specs.Prelude.{◌≡◌, option_map};
ghost use Rattle.std.specs.Char.{is_ascii_digit};
ghost use Rattle.std.specs.List.{list_all};
ghost use Rattle.http.specs.Request.{head_of};
ghost use Rattle.map_http.specs.Hosts.{authority_of, begins_with, has_name, is_authority_of, is_for, is_from_here, is_near, is_own, is_own_machine, is_path, is_port, is_same, names_authority, origin_authority};

use bytes::Bytes;
use http::{Request, header};

/// Whether a text begins with another one, whose letters may be of either case.
fn begins_with(text: &[u8], front: &[u8]) -> bool
    ensures { result ≡ begins_with text.now front.now }
{
    text.len() >= front.len() && text[..front.len()].eq_ignore_ascii_case(front)
}

/// Whether a text is nothing, or a path.
fn is_path(text: &[u8]) -> bool
    ensures { result ≡ is_path text.now }
{
    text.is_empty() || text.starts_with(b"/")
}

/// Whether what stands behind the `://` of an address is this authority, and then nothing or a path.
fn names_authority(text: &[u8], authority: &[u8]) -> bool
    ensures { result ≡ names_authority text.now authority.now }
{
    begins_with(text, authority) && is_path(&text[authority.len()..])
}

/// Whether an authority is that of an address.
fn is_authority_of(address: &[u8], authority: &[u8]) -> bool
    ensures { result ≡ is_authority_of address.now authority.now }
{
    if address.starts_with(b"http://") {
        names_authority(&address[7..], authority)
    } else if address.starts_with(b"https://") {
        names_authority(&address[8..], authority)
    } else {
        false
    }
}

/// Whether a text is digits alone.
fn are_digits(text: &[u8]) -> bool
    ensures { result ≡ list_all is_ascii_digit text.now }
{
    text.iter().all(|byte| byte.is_ascii_digit())
}

/// Whether a text is nothing, or a colon and a port.
fn is_port(text: &[u8]) -> bool
    ensures { result ≡ is_port text.now }
{
    match text {
        [] => true,
        [colon, digits @ ..] => *colon == b':' && are_digits(digits),
    }
}

/// Whether an authority is this name, with a port or without.
fn has_name(authority: &[u8], name: &[u8]) -> bool
    ensures { result ≡ has_name authority.now name.now }
{
    begins_with(authority, name) && is_port(&authority[name.len()..])
}

/// Whether an authority is one that only programs of the machine itself reach by.
#[tactic(auto, unfolding(crate::specs::Hosts::is_own_machine))]
fn is_own_machine(authority: &[u8]) -> bool
    ensures { result ≡ is_own_machine authority.now }
{
    has_name(authority, b"localhost")
        || has_name(authority, b"127.0.0.1")
        || has_name(authority, b"[::1]")
}

/// Whether an authority is that of the server's address, or of the machine itself.
fn is_own(base: &[u8], authority: &[u8]) -> bool
    ensures { result ≡ is_own base.now authority.now }
{
    is_authority_of(base, authority) || is_own_machine(authority)
}

/// For which host a request is: by the authority of its target where it has one, else by its first
/// field `host`.
fn authority_of(request: &Request<Bytes>) -> Option<&[u8]>
    ensures { option_map (λ authority. authority.now) result ≡ authority_of (head_of request.now) }
{
    if let Some(authority) = request.uri().authority() {
        return Some(authority.as_str().as_bytes());
    }
    match request.headers().get(header::HOST) {
        Some(value) => Some(value.as_bytes()),
        None => None,
    }
}

/// Whether a request is for the server of this address: by the authority of its target where it has
/// one, else by its first field `host`.
pub(crate) fn is_for(base: &[u8], request: &Request<Bytes>) -> bool
    ensures { result ≡ is_for base.now (head_of request.now) }
{
    match authority_of(request) {
        Some(authority) => is_own(base, authority),
        None => false,
    }
}

/// The authority of an origin.
fn origin_authority(origin: &[u8]) -> Option<&[u8]>
    ensures { option_map (λ authority. authority.now) result ≡ origin_authority origin.now }
{
    if origin.starts_with(b"http://") {
        Some(&origin[7..])
    } else if origin.starts_with(b"https://") {
        Some(&origin[8..])
    } else {
        None
    }
}

/// Whether an authority is the one that a request is for.
fn is_same(authority: &[u8], request: &Request<Bytes>) -> bool
    ensures { result ≡ is_same authority.now (authority_of (head_of request.now)) }
{
    match authority_of(request) {
        Some(own) => authority.eq_ignore_ascii_case(own),
        None => false,
    }
}

/// Whether an origin is the server itself, by its address or by the host that the request is for.
fn is_near(base: &[u8], request: &Request<Bytes>, origin: &[u8]) -> bool
    ensures { result ≡ is_near base.now (head_of request.now) (origin_authority origin.now) }
{
    match origin_authority(origin) {
        Some(authority) => is_authority_of(base, authority) || is_same(authority, request),
        None => false,
    }
}

/// Whether a request comes from no page of somebody else: it has no field `origin`, or the first one
/// is the server itself.
pub(crate) fn is_from_here(base: &[u8], request: &Request<Bytes>) -> bool
    ensures { result ≡ is_from_here base.now (head_of request.now) }
{
    match request.headers().get(header::ORIGIN) {
        Some(value) => is_near(base, request, value.as_bytes()),
        None => true,
    }
}
