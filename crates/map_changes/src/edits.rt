//! Requests to change a feature, and what they ask for.

use features::Change;
use map_asks::Layer;

/// A method that changes.
#[derive(Clone, Copy, Debug, PartialEq, Eq)]
pub enum Method {
    /// `POST` (RFC 9110, 9.3.3): adds a feature.
    Post,
    /// `PUT` (RFC 9110, 9.3.4): gives a feature another shape.
    Put,
    /// `PATCH` (RFC 5789): the same, as the shape is all that can be changed.
    Patch,
    /// `DELETE` (RFC 9110, 9.3.5): removes a feature.
    Delete,
}

/// A request to change a feature. A field that is not there is empty here.
#[derive(Clone, Copy, Debug)]
pub struct ChangeRequest<'a> {
    pub method: Method,
    pub path: &'a [u8],
    /// What stands behind the question mark; empty where there is none.
    pub query: &'a [u8],
    /// The field `content-type`.
    pub media: &'a [u8],
    /// The field `if-match`.
    pub if_match: &'a [u8],
    pub body: &'a [u8],
}

/// What a request asks for: one change.
#[derive(Clone, Copy, Debug)]
pub struct Edit {
    /// The collection in whose path it was asked for.
    pub layer: Layer,
    pub change: Change,
}
