//! The parameters of a query, each of which is given once.

ghost use Rattle.std.specs.Prelude.{◌≡◌, option_map};
ghost use Rattle.form_urlencoded.specs.Form.{raw_pairs};
ghost use Rattle.map_questions.specs.Queries.{Gives, given_once, has_known_names, is_known, is_of, parameter_named, parameter_of, text_given, text_of, values_of};

use crate::faults::{AskingFault, Parameter};
use arrayvec::ArrayVec;
use form_urlencoded::raw_pairs;
use percent_encoding::percent_decode;

/// The most bytes of a parameter's name or value, with its escapes decoded.
pub const TEXT_LIMIT: usize = 4_096;

/// A name or a value of a query, decoded.
pub(crate) type Text = ArrayVec<u8, TEXT_LIMIT>;

/// Decodes the escapes of a name or a value (RFC 3986, 2.1). `None` if it is longer than
/// `TEXT_LIMIT`.
#[tactic(auto, unfolding(crate::specs::Queries::text_of))]
fn text_of(raw: &[u8]) -> Option<Text>
    ensures { option_map (λ text. text.items) result ≡ text_of raw.now }
{
    let mut text = ArrayVec::new();
    for byte in percent_decode(raw) {
        if text.is_full() {
            return None;
        }
        text.push(byte);
    }
    Some(text)
}

/// The parameter of this name.
fn parameter_named(name: &[u8]) -> Option<Parameter>
    ensures { result ≡ parameter_named name.now }
{
    if name == b"action".as_slice() {
        Some(Parameter::Action)
    } else if name == b"office".as_slice() {
        Some(Parameter::Office)
    } else if name == b"class".as_slice() {
        Some(Parameter::Class)
    } else if name == b"geometry".as_slice() {
        Some(Parameter::Geometry)
    } else {
        None
    }
}

/// The parameter that a name spells, with its escapes.
fn parameter_of(name: &[u8]) -> Option<Parameter>
    ensures { result ≡ parameter_of name.now }
{
    let text = text_of(name)?;
    parameter_named(text.as_slice())
}

/// Whether a name spells a parameter.
fn is_known(name: &[u8]) -> bool
    ensures { result ≡ is_known name.now }
{
    parameter_of(name).is_some()
}

/// Whether a name spells this parameter.
fn is_of(parameter: Parameter, name: &[u8]) -> bool
    ensures { result ≡ is_of parameter name.now }
{
    match (parameter, parameter_of(name)) {
        (Parameter::Action, Some(Parameter::Action)) => true,
        (Parameter::Office, Some(Parameter::Office)) => true,
        (Parameter::Class, Some(Parameter::Class)) => true,
        (Parameter::Geometry, Some(Parameter::Geometry)) => true,
        _ => false,
    }
}

/// Whether each name of a query spells a parameter.
pub(crate) fn has_known_names(query: &[u8]) -> bool
    ensures { result ≡ has_known_names (raw_pairs query.now) }
{
    for (name, _value) in raw_pairs(query) {
        if !is_known(name) {
            return false;
        }
    }
    true
}

/// The value of a parameter with its escapes, if it is given once.
fn value_of(parameter: Parameter, query: &[u8]) -> Result<&[u8], AskingFault>
    ensures { Gives (λ value. value.now) result
        (given_once parameter (values_of parameter (raw_pairs query.now))) }
{
    let mut found = None;
    for (name, value) in raw_pairs(query) {
        if is_of(parameter, name) {
            if found.is_some() {
                return Err(AskingFault::Twice(parameter));
            }
            found = Some(value);
        }
    }
    match found {
        Some(value) => Ok(value),
        None => Err(AskingFault::Value(parameter)),
    }
}

/// The value of a parameter, if it is given once.
#[tactic(auto, unfolding(crate::specs::Queries::text_given))]
pub(crate) fn text_given(parameter: Parameter, query: &[u8]) -> Result<Text, AskingFault>
    ensures { Gives (λ text. text.items) result (text_given parameter query.now) }
{
    let raw = value_of(parameter, query)?;
    match text_of(raw) {
        Some(text) => Ok(text),
        None => Err(AskingFault::Value(parameter)),
    }
}
