//! What a query asks of the policy.

ghost use Rattle.std.specs.Prelude.{◌≡◌};
ghost use Rattle.map_questions.specs.Askings.{Tells, action_given, action_of, asking_of, fault_of, name_given, named_asking, shape_given, shape_of, shaped};

use crate::faults::{AskingFault, Parameter};
use crate::queries::{has_known_names, text_given};
use features::{Action, Name};
use geojson::{Cause, Wished, read_wished};
use grid::Grid;
use map_changes::{ChangeFault, shape_in};
use plane::Shape;
use std::alloc::Allocator;

/// What is asked of the policy: may who asks do this with a feature of this office and class, at
/// this shape?
#[derive(Clone, Copy, Debug, PartialEq, Eq)]
pub struct Asking {
    pub action: Action,
    /// The office whose feature it is.
    pub office: Name,
    pub class: Name,
    pub shape: Shape,
}

/// Of a feature that is asked about, nothing is looked at but its geometry.
pub(crate) const GEOMETRY_ALONE: Wished = Wished {
    id: false,
    class: false,
    others: false,
};

/// The action that a text names.
fn action_of(text: &[u8]) -> Option<Action>
    ensures { result ≡ action_of text.now }
{
    if text == b"read".as_slice() {
        Some(Action::Read)
    } else if text == b"add".as_slice() {
        Some(Action::Add)
    } else if text == b"reshape".as_slice() {
        Some(Action::Reshape)
    } else if text == b"delete".as_slice() {
        Some(Action::Delete)
    } else {
        None
    }
}

/// The action that is asked about.
fn action_given(query: &[u8]) -> Result<Action, AskingFault>
    ensures { result ≡ action_given query.now }
{
    let text = text_given(Parameter::Action, query)?;
    match action_of(text.as_slice()) {
        Some(action) => Ok(action),
        None => Err(AskingFault::Value(Parameter::Action)),
    }
}

/// The name that a parameter is.
fn name_given(parameter: Parameter, query: &[u8]) -> Result<Name, AskingFault>
    ensures { result ≡ name_given parameter query.now }
{
    let text = text_given(parameter, query)?;
    match Name::new(text.as_slice()) {
        Some(name) => Ok(name),
        None => Err(AskingFault::Value(parameter)),
    }
}

/// The fault of a text that is no geometry.
fn fault_of(cause: &Cause) -> AskingFault
    ensures { result ≡ fault_of cause.now }
{
    match cause {
        Cause::NotJson => AskingFault::Value(Parameter::Geometry),
        Cause::Form => AskingFault::Value(Parameter::Geometry),
        Cause::Kind => AskingFault::Value(Parameter::Geometry),
        Cause::Number(_) => AskingFault::Value(Parameter::Geometry),
        Cause::Memory(_) => AskingFault::Memory,
        Cause::Json(_) => AskingFault::Memory,
    }
}

/// A shape, or the fault of a geometry that is none.
fn shaped(shape: Result<Shape, ChangeFault>) -> Result<Shape, AskingFault>
    ensures { result ≡ shaped shape }
{
    match shape {
        Ok(shape) => Ok(shape),
        Err(_) => Err(AskingFault::Value(Parameter::Geometry)),
    }
}

/// The one shape that the geometry of a text is.
#[tactic(auto, unfolding(crate::specs::Askings::shape_of))]
fn shape_of<A: Allocator + Copy>(alloc: A, grid: &Grid, text: &[u8]) -> Result<Shape, AskingFault>
    ensures { Tells result (shape_of grid.now text.now) }
{
    match read_wished(alloc, grid, GEOMETRY_ALONE, text) {
        Ok(given) => shaped(shape_in(given.geometry.paths.as_slice())),
        Err(fault) => Err(fault_of(&fault.cause)),
    }
}

/// The shape that is asked about.
fn shape_given<A: Allocator + Copy>(
    alloc: A,
    grid: &Grid,
    query: &[u8],
) -> Result<Shape, AskingFault>
    ensures { Tells result (shape_given grid.now query.now) }
{
    match text_given(Parameter::Geometry, query) {
        Ok(text) => shape_of(alloc, grid, text.as_slice()),
        Err(fault) => Err(fault),
    }
}

/// What a query asks whose names are all known.
fn named_asking<A: Allocator + Copy>(
    alloc: A,
    grid: &Grid,
    query: &[u8],
) -> Result<Asking, AskingFault>
    ensures { Tells result (named_asking grid.now query.now) }
{
    let action = action_given(query)?;
    let office = name_given(Parameter::Office, query)?;
    let class = name_given(Parameter::Class, query)?;
    let shape = shape_given(alloc, grid, query)?;
    Ok(Asking {
        action,
        office,
        class,
        shape,
    })
}

/// What a query asks of the policy, where the grid says which number a coordinate means. It is what
/// stands behind the question mark.
///
/// It gives each of four parameters once, in any order: `action`, one of `read`, `add`, `reshape`
/// and `delete`; `office` and `class`, two names; and `geometry`, a geometry of GeoJSON (RFC 7946,
/// 3.1) that is one point, one line of two points or one ring without holes, or a Feature that has
/// such a one. The fault is the first in this order: `UnknownParameter`; then of each parameter in
/// that order `Value` where it is not given, `Twice`, and `Value` where it has no such value.
/// `Memory` says that an allocation was refused.
#[tactic(auto, unfolding(crate::specs::Askings::asking_of))]
pub fn read_asking<A: Allocator + Copy>(
    alloc: A,
    grid: &Grid,
    query: &[u8],
) -> Result<Asking, AskingFault>
    ensures { Tells result (asking_of grid.now query.now) }
{
    if has_known_names(query) {
        named_asking(alloc, grid, query)
    } else {
        Err(AskingFault::UnknownParameter)
    }
}
