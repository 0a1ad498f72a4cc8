//! Answers, as values.

ghost use Rattle.std.specs.Prelude.{◌≡◌};

use crate::statuses::Status;
use std::alloc::Allocator;

/// What the body of an answer is.
#[derive(Clone, Copy, Debug, PartialEq, Eq)]
pub enum MediaType {
    /// JSON (RFC 8259).
    Json,
    /// GeoJSON (RFC 7946).
    GeoJson,
    /// The description of the pages for programs (OpenAPI 3.0), as JSON.
    OpenApi,
    /// A page for a browser (HTML, in UTF-8).
    Html,
    /// A problem (RFC 9457).
    Problem,
    /// Values of JSON, one a line.
    Lines,
    /// What Prometheus reads (its text format, version 0.0.4).
    Metrics,
}

impl MediaType {
    ghost use Rattle.map_answers.specs.Answers.{media_text};

    /// The text of the field `content-type`.
    pub fn text(self) -> &'static str
        ensures { result.now ≡ media_text self }
    {
        match self {
            MediaType::Json => "application/json",
            MediaType::GeoJson => "application/geo+json",
            MediaType::OpenApi => "application/vnd.oai.openapi+json;version=3.0",
            MediaType::Html => "text/html; charset=utf-8",
            MediaType::Problem => "application/problem+json",
            MediaType::Lines => "application/x-ndjson",
            MediaType::Metrics => "text/plain; version=0.0.4; charset=utf-8",
        }
    }
}

/// What a request is answered.
#[derive(Debug, Drop)]
pub struct Answer<A: Allocator> {
    pub status: Status,
    /// What the body is.
    pub media: MediaType,
    /// The version of the feature, which is its entity tag.
    pub version: Option<u64>,
    /// The address of a feature that was added.
    pub location: Option<Vec<u8, A>>,
    /// In how many seconds the client may try again.
    pub retry_after: Option<u64>,
    pub body: Vec<u8, A>,
}
