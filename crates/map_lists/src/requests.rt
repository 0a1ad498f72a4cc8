//! Requests to make a list of changes.

/// A request to make a list of changes. A field that is not there is empty here.
#[derive(Clone, Copy, Debug)]
pub struct ListRequest<'a> {
    /// What stands behind the question mark; empty where there is none.
    pub query: &'a [u8],
    /// The field `content-type`.
    pub media: &'a [u8],
    pub body: &'a [u8],
}
