//! The forms of files that are exported.

ghost use Rattle.std.specs.Prelude.{◌≡◌};
ghost use Rattle.command_line.specs.CommandLine.{format_named};

/// The form of a file of features.
#[derive(Clone, Copy, Debug, PartialEq, Eq)]
pub enum Format {
    /// A FeatureCollection (RFC 7946).
    GeoJson,
    /// A sequence of features, each on a line of its own.
    GeoJsonSeq,
    /// Comma-separated values (RFC 4180), with the shape as well-known text.
    Csv,
}

/// The form of this name: `geojson`, `geojsonseq` or `csv`.
pub(crate) fn format_named(name: &str) -> Option<Format>
    ensures { result ≡ format_named name.now }
{
    if name == "geojson" {
        Some(Format::GeoJson)
    } else if name == "geojsonseq" {
        Some(Format::GeoJsonSeq)
    } else if name == "csv" {
        Some(Format::Csv)
    } else {
        None
    }
}
