//! Parts of requests.

ghost use Rattle.std.specs.Prelude.{◌≡◌};
ghost use Rattle.map_http.specs.Parts.{action_of, change_method, is_read, known_in, match_in, media_in, query_in};

use http::uri::Uri;
use http::{HeaderMap, HeaderValue, header};
use map_changes::Method;
use map_questions::Action;

/// Whether a method only reads.
pub(crate) fn is_read(method: &http::Method) -> bool
    ensures { result ≡ is_read method.now }
{
    let word = method.as_str().as_bytes();
    word == b"GET".as_slice() || word == b"HEAD".as_slice()
}

/// The query of an address; empty where there is none.
pub(crate) fn query_in(uri: &Uri) -> &[u8]
    ensures { result.now ≡ query_in uri.now }
{
    match uri.query() {
        Some(query) => query.as_bytes(),
        None => b"",
    }
}

/// The field `if-none-match`, the first one where there are several; empty where there is none.
pub(crate) fn known_in(fields: &HeaderMap<HeaderValue>) -> &[u8]
    ensures { result.now ≡ known_in fields.now }
{
    match fields.get(header::IF_NONE_MATCH) {
        Some(value) => value.as_bytes(),
        None => b"",
    }
}

/// The field `if-match`, the first one where there are several; empty where there is none.
pub(crate) fn match_in(fields: &HeaderMap<HeaderValue>) -> &[u8]
    ensures { result.now ≡ match_in fields.now }
{
    match fields.get(header::IF_MATCH) {
        Some(value) => value.as_bytes(),
        None => b"",
    }
}

/// The field `content-type`, the first one where there are several; empty where there is none.
pub(crate) fn media_in(fields: &HeaderMap<HeaderValue>) -> &[u8]
    ensures { result.now ≡ media_in fields.now }
{
    match fields.get(header::CONTENT_TYPE) {
        Some(value) => value.as_bytes(),
        None => b"",
    }
}

/// The method by which a request changes, if it does.
fn change_method(method: &http::Method) -> Option<Method>
    ensures { result ≡ change_method method.now }
{
    let word = method.as_str().as_bytes();
    if word == b"POST".as_slice() {
        Some(Method::Post)
    } else if word == b"PUT".as_slice() {
        Some(Method::Put)
    } else if word == b"PATCH".as_slice() {
        Some(Method::Patch)
    } else if word == b"DELETE".as_slice() {
        Some(Method::Delete)
    } else {
        None
    }
}

/// What a method does, if it is served.
pub(crate) fn action_of(method: &http::Method) -> Option<Action>
    ensures { result ≡ action_of method.now }
{
    if is_read(method) {
        return Some(Action::Read);
    }
    Some(Action::Change(change_method(method)?))
}
