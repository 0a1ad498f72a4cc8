//! What the query of a page of features asks for.

ghost use Rattle.std.specs.Prelude.{◌≡◌, ◌==◌, [], option_map};
ghost use Rattle.form_urlencoded.specs.Form.{raw_pairs};
ghost use Rattle.map_asks.specs.Queries.{blank, text_of, limit_of, with_bbox, with_datetime, with_limit, with_kept, with_after, parameter_named, parameter_of, taken, taken_pair, wanted_by, items_of, query_items, is_empty_query};

use crate::asks::{Items, Source};
use crate::boxes::window_spelled;
use crate::dates::is_datetime;
use crate::faults::{AskFault, Parameter};
use crate::windows::{Window, everywhere};
use arrayvec::ArrayVec;
use form_urlencoded::raw_pairs;
use grid::Grid;
use line_words::read_number;
use percent_encoding::percent_decode;

/// The most features of a page.
pub const MOST_LIMIT: u64 = 10_000;

/// The most features of a page where nothing else is asked for.
pub const DEFAULT_LIMIT: u64 = 1_000;

/// The most bytes of a parameter's name or value, with its escapes decoded.
pub const VALUE_LIMIT: usize = 256;

/// A name or a value of a query, decoded.
type Text = ArrayVec<u8, VALUE_LIMIT>;

/// What a query asks for, as far as it is read.
#[derive(Clone, Copy, Debug)]
pub(crate) struct Wanted {
    pub window: Option<Window>,
    pub dated: bool,
    pub limit: Option<u64>,
    pub kept: Option<u64>,
    pub after: Option<u64>,
}

/// Decodes the escapes of a name or a value (RFC 3986, 2.1). `None` if it is longer than
/// `VALUE_LIMIT`.
#[tactic(auto, unfolding(crate::specs::Queries::text_of))]
fn text_of(raw: &[u8]) -> Option<Text>
    ensures { option_map (λ text. text.items) result ≡ text_of raw.now }
{
    let mut text = ArrayVec::new();
    for byte in percent_decode(raw) {
        if text.is_full() {
            return None;
        }
        text.push(byte);
    }
    Some(text)
}

/// The most features of a page, as a text spells it.
fn limit_of(text: &[u8]) -> Option<u64>
    ensures { result ≡ limit_of text.now }
{
    let limit = read_number(text)?;
    if limit == 0 {
        return None;
    }
    Some(limit.min(MOST_LIMIT))
}

/// Takes the box.
fn with_bbox(grid: &Grid, text: &[u8], wanted: Wanted) -> Result<Wanted, AskFault>
    ensures { result ≡ with_bbox grid.now text.now wanted }
{
    if wanted.window.is_some() {
        return Err(AskFault::Twice(Parameter::Bbox));
    }
    let Some(window) = window_spelled(grid, text) else {
        return Err(AskFault::Value(Parameter::Bbox));
    };
    Ok(Wanted {
        window: Some(window),
        ..wanted
    })
}

/// Takes the time.
fn with_datetime(text: &[u8], wanted: Wanted) -> Result<Wanted, AskFault>
    ensures { result ≡ with_datetime text.now wanted }
{
    if wanted.dated {
        return Err(AskFault::Twice(Parameter::Datetime));
    }
    if !is_datetime(text) {
        return Err(AskFault::Value(Parameter::Datetime));
    }
    Ok(Wanted {
        dated: true,
        ..wanted
    })
}

/// Takes the limit.
fn with_limit(text: &[u8], wanted: Wanted) -> Result<Wanted, AskFault>
    ensures { result ≡ with_limit text.now wanted }
{
    if wanted.limit.is_some() {
        return Err(AskFault::Twice(Parameter::Limit));
    }
    let Some(limit) = limit_of(text) else {
        return Err(AskFault::Value(Parameter::Limit));
    };
    Ok(Wanted {
        limit: Some(limit),
        ..wanted
    })
}

/// Takes the number of a kept answer.
fn with_kept(text: &[u8], wanted: Wanted) -> Result<Wanted, AskFault>
    ensures { result ≡ with_kept text.now wanted }
{
    if wanted.kept.is_some() {
        return Err(AskFault::Twice(Parameter::Kept));
    }
    let Some(kept) = read_number(text) else {
        return Err(AskFault::Value(Parameter::Kept));
    };
    Ok(Wanted {
        kept: Some(kept),
        ..wanted
    })
}

/// Takes the id behind which a page begins.
fn with_after(text: &[u8], wanted: Wanted) -> Result<Wanted, AskFault>
    ensures { result ≡ with_after text.now wanted }
{
    if wanted.after.is_some() {
        return Err(AskFault::Twice(Parameter::After));
    }
    let Some(after) = read_number(text) else {
        return Err(AskFault::Value(Parameter::After));
    };
    Ok(Wanted {
        after: Some(after),
        ..wanted
    })
}

/// The parameter of this name.
fn parameter_named(name: &[u8]) -> Option<Parameter>
    ensures { result ≡ parameter_named name.now }
{
    if name == b"bbox".as_slice() {
        Some(Parameter::Bbox)
    } else if name == b"datetime".as_slice() {
        Some(Parameter::Datetime)
    } else if name == b"limit".as_slice() {
        Some(Parameter::Limit)
    } else if name == b"kept".as_slice() {
        Some(Parameter::Kept)
    } else if name == b"after".as_slice() {
        Some(Parameter::After)
    } else {
        None
    }
}

/// Takes a parameter's value.
#[tactic(auto, unfolding(crate::specs::Queries::taken))]
fn taken(grid: &Grid, parameter: Parameter, text: &[u8], wanted: Wanted) -> Result<Wanted, AskFault>
    ensures { result ≡ taken grid.now parameter text.now wanted }
{
    match parameter {
        Parameter::Bbox => with_bbox(grid, text, wanted),
        Parameter::Datetime => with_datetime(text, wanted),
        Parameter::Limit => with_limit(text, wanted),
        Parameter::Kept => with_kept(text, wanted),
        Parameter::After => with_after(text, wanted),
    }
}

/// The parameter that a name spells, with its escapes.
fn parameter_of(name: &[u8]) -> Option<Parameter>
    ensures { result ≡ parameter_of name.now }
{
    let text = text_of(name)?;
    parameter_named(text.as_slice())
}

/// Takes one pair of a query.
#[tactic(auto, unfolding(crate::specs::Queries::taken_pair))]
fn taken_pair(grid: &Grid, name: &[u8], value: &[u8], wanted: Wanted) -> Result<Wanted, AskFault>
    ensures { result ≡ taken_pair grid.now name.now value.now wanted }
{
    let Some(parameter) = parameter_of(name) else {
        return Err(AskFault::UnknownParameter);
    };
    let Some(text) = text_of(value) else {
        return Err(AskFault::Value(parameter));
    };
    taken(grid, parameter, text.as_slice(), wanted)
}

/// What a query asks for: each parameter is given once at most, in any order. The first fault is
/// reported.
fn wanted_by(grid: &Grid, query: &[u8]) -> Result<Wanted, AskFault>
    ensures { result ≡ wanted_by grid.now (raw_pairs query.now) blank }
{
    let mut wanted = Wanted {
        window: None,
        dated: false,
        limit: None,
        kept: None,
        after: None,
    };
    for (name, value) in raw_pairs(query) {
        wanted = taken_pair(grid, name, value, wanted)?;
    }
    Ok(wanted)
}

/// The page of features that a query asks for.
fn items_of(wanted: Wanted) -> Result<Items, AskFault>
    ensures { result ≡ items_of wanted }
{
    let limit = wanted.limit.unwrap_or(DEFAULT_LIMIT);
    if let Some(number) = wanted.kept {
        if wanted.window.is_some() || wanted.dated {
            return Err(AskFault::Apart);
        }
        let source = Source::Kept {
            number,
            after: wanted.after,
        };
        return Ok(Items { source, limit });
    }
    if wanted.after.is_some() {
        return Err(AskFault::Apart);
    }
    let window = match wanted.window {
        Some(window) => Some(window),
        None => everywhere(),
    };
    match window {
        Some(window) => Ok(Items {
            source: Source::Search(window),
            limit,
        }),
        None => Err(AskFault::Value(Parameter::Bbox)),
    }
}

/// The page of features that a query asks for, or the query's first fault.
#[tactic(auto, unfolding(crate::specs::Queries::query_items))]
pub(crate) fn read_items(grid: &Grid, query: &[u8]) -> Result<Items, AskFault>
    ensures { result ≡ query_items grid.now query.now }
{
    match wanted_by(grid, query) {
        Ok(wanted) => items_of(wanted),
        Err(fault) => Err(fault),
    }
}

/// Whether a query has no parameters.
pub fn is_empty(query: &[u8]) -> bool
    ensures { result ≡ is_empty_query query.now }
{
    raw_pairs(query).next().is_none()
}
