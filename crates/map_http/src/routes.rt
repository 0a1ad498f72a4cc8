//! Where requests are answered.

ghost use Rattle.std.specs.Prelude.{◌≡◌};
ghost use Rattle.map_http.specs.Routes.{allow_of, call_methods, map_methods, map_route, route_of};

use crate::parts::is_read;
use features::Name;
use map_changes::{Methods, methods_of};
use map_questions::{Call, call_of};

/// Where a request is answered, by its method and its path.
#[derive(Clone, Copy, Debug)]
pub enum Route {
    /// A page of the map is read.
    Reading,
    /// A feature is changed.
    Changing,
    /// A list of changes is committed: `/transactions`.
    Listing,
    /// It is read how the server does: `/metrics`, where somebody may read that.
    Watching,
    /// The policy or the trail is asked for.
    Calling(Call),
}

/// The methods that a page has.
#[derive(Clone, Copy, Debug, PartialEq, Eq)]
pub(crate) enum Allow {
    /// `GET` and `HEAD`.
    Read,
    /// These and `POST`.
    Add,
    /// `GET`, `HEAD`, `PUT`, `PATCH` and `DELETE`.
    Edit,
    /// `POST`.
    Post,
    /// `PUT`.
    Put,
    /// `GET`, `HEAD` and `DELETE`.
    Piece,
}

/// Where a request for the map is answered.
fn map_route(method: &http::Method) -> Route
    ensures { result ≡ map_route method.now }
{
    if is_read(method) {
        Route::Reading
    } else {
        Route::Changing
    }
}

/// Where a request of this method for this path is answered. `is_watched` says whether there is
/// somebody who may read how the server does.
#[tactic(auto, unfolding(crate::specs::Routes::route_of))]
pub fn route_of(is_watched: bool, method: &http::Method, path: &[u8]) -> Route
    ensures { result ≡ route_of is_watched method.now path.now }
{
    if path == b"/transactions".as_slice() {
        return Route::Listing;
    }
    if is_watched && path == b"/metrics".as_slice() {
        return Route::Watching;
    }
    match call_of(path) {
        Some(call) => Route::Calling(call),
        None => map_route(method),
    }
}

/// The methods of a page of the map.
fn map_methods(methods: Methods) -> Allow
    ensures { result ≡ map_methods methods }
{
    match methods {
        Methods::Read => Allow::Read,
        Methods::Add => Allow::Add,
        Methods::Edit => Allow::Edit,
    }
}

/// The methods of a page of the policy and the trail.
fn call_methods(call: Call) -> Allow
    ensures { result ≡ call_methods call }
{
    match call {
        Call::Explain => Allow::Read,
        Call::Policy => Allow::Put,
        Call::Trail => Allow::Post,
        Call::Piece(_) => Allow::Piece,
    }
}

/// The methods that there are at the path of a request.
pub(crate) fn allow_of(route: Route, classes: &[Name], path: &[u8]) -> Allow
    ensures { result ≡ allow_of route classes.now path.now }
{
    match route {
        Route::Reading => map_methods(methods_of(classes, path)),
        Route::Changing => map_methods(methods_of(classes, path)),
        Route::Listing => Allow::Post,
        Route::Watching => Allow::Read,
        Route::Calling(call) => call_methods(call),
    }
}
