//! Reads a feature from its text.

ghost use Rattle.std.specs.Prelude.{◌≡◌, [], ◌∷◌, Ok, option_map};
ghost use Rattle.json.specs.Find.{get};
ghost use Rattle.json.specs.Value.{value_view};
ghost use Rattle.geojson.specs.Faults.{Gives};
ghost use Rattle.geojson.specs.Paths.{geometry_view};
ghost use Rattle.geojson.specs.Given.{Tells, Reads, given_view, all_wished};
ghost use Rattle.geojson.specs.Given.{kind_of, kind_in, type_name, whole_member, type_member, coordinates_member};
ghost use Rattle.geojson.specs.Given.{point_in, line_in, coordinates_in, listed_in, geometry_in, geometry_of};
ghost use Rattle.geojson.specs.Given.{present, whole_number, name_in, number_member, name_member, property};
ghost use Rattle.geojson.specs.Given.{id_in, version_in, office_in, class_in, if_wished, said_in};
ghost use Rattle.geojson.specs.Given.{is_feature, whole_feature, bare_in, with_paths, feature_in};

use crate::documents::read_json;
use crate::faults::{Cause, CoordinatesFault, FeatureFault, Member};
use crate::geometries::{Geometry, Layout, Path, Role};
use crate::polygons::polygons;
use crate::reading::{paths, points, position};
use features::Name;
use grid::Grid;
use json::{Scratch, Value};
use memory::GrowVec;
use plane::Point;
use std::alloc::Allocator;

/// What a text says of a feature.
#[derive(Debug, Drop)]
pub struct Given<A: Allocator> {
    /// The member `id`, or else the property `id`: a number without a point, or its text.
    pub id: Option<u64>,
    /// The property `version`.
    pub version: Option<u64>,
    /// The property `office`.
    pub office: Option<Name>,
    /// The property `class`.
    pub class: Option<Name>,
    /// Its geometry.
    pub geometry: Geometry<A>,
}

/// A type of geometry that can be read.
#[derive(Clone, Copy)]
enum Kind {
    Point,
    LineString,
    Polygon,
    MultiLineString,
    MultiPolygon,
}

/// The type of geometry with this name (RFC 7946, 1.4).
fn kind_of(name: &str) -> Option<Kind>
    ensures { result ≡ kind_of name.now }
{
    if name == "Point" {
        Some(Kind::Point)
    } else if name == "LineString" {
        Some(Kind::LineString)
    } else if name == "Polygon" {
        Some(Kind::Polygon)
    } else if name == "MultiLineString" {
        Some(Kind::MultiLineString)
    } else if name == "MultiPolygon" {
        Some(Kind::MultiPolygon)
    } else {
        None
    }
}

/// The name of a value's type.
fn type_name<'a, A: Allocator>(value: &Value<'a, A>) -> Option<&'a str>
    ensures { option_map (λ s. s.now) result ≡ type_name (value_view value.now) }
{
    value.get("type")?.as_str()
}

/// A geometry of one path.
#[tactic(auto, using(crate::proofs::Told::exact_told))]
fn one_path<A: Allocator + Copy>(
    alloc: A,
    role: Role,
    points: Vec<Point, A>,
) -> Result<Geometry<A>, CoordinatesFault>
    ensures { Gives geometry_view result (Ok ((role, points.items) ∷ [])) }
{
    let mut paths = Vec::new(alloc);
    paths.try_push(Path { role, points })?;
    Ok(Geometry { paths })
}

/// The path of a position.
#[tactic(auto, using(crate::proofs::Told::exact_told))]
fn point_path<A: Allocator + Copy>(
    alloc: A,
    grid: &Grid,
    value: &Value<'_, A>,
) -> Result<Geometry<A>, CoordinatesFault>
    ensures { Gives geometry_view result (point_in grid.now (value_view value.now)) }
{
    let point = position(grid, value)?;
    let mut points = Vec::new(alloc);
    points.try_push(point)?;
    one_path(alloc, Role::Point, points)
}

/// The path of a line.
#[tactic(auto, using(crate::proofs::Told::line_fault))]
fn line_path<A: Allocator + Copy>(
    alloc: A,
    grid: &Grid,
    value: &Value<'_, A>,
) -> Result<Geometry<A>, CoordinatesFault>
    ensures { Gives geometry_view result (line_in grid.now (value_view value.now)) }
{
    let points = points(alloc, grid, value)?;
    one_path(alloc, Role::Line, points)
}

/// The geometry of coordinates.
fn coordinates<A: Allocator + Copy>(
    alloc: A,
    grid: &Grid,
    kind: Kind,
    value: &Value<'_, A>,
) -> Result<Geometry<A>, CoordinatesFault>
    ensures { Gives geometry_view result (coordinates_in grid.now kind (value_view value.now)) }
{
    match kind {
        Kind::Point => point_path(alloc, grid, value),
        Kind::LineString => line_path(alloc, grid, value),
        Kind::Polygon => Ok(Geometry {
            paths: paths(alloc, grid, Layout::Rings, value)?,
        }),
        Kind::MultiLineString => Ok(Geometry {
            paths: paths(alloc, grid, Layout::Lines, value)?,
        }),
        Kind::MultiPolygon => Ok(Geometry {
            paths: polygons(alloc, grid, value)?,
        }),
    }
}

/// The member that a geometry is. `bare` says whether it is the whole text, and no member of a
/// feature.
fn whole_member(bare: bool) -> Member
    ensures { result ≡ whole_member bare }
{
    if bare { Member::Text } else { Member::Geometry }
}

/// The member that is a geometry's type.
fn type_member(bare: bool) -> Member
    ensures { result ≡ type_member bare }
{
    if bare {
        Member::Type
    } else {
        Member::GeometryType
    }
}

/// The member that is a geometry's coordinates.
fn coordinates_member(bare: bool) -> Member
    ensures { result ≡ coordinates_member bare }
{
    if bare {
        Member::BareCoordinates
    } else {
        Member::Coordinates
    }
}

/// The type of a geometry.
#[tactic(auto, unfolding(crate::specs::Given::kind_in))]
fn kind_in<A: Allocator>(bare: bool, value: &Value<'_, A>) -> Result<Kind, FeatureFault>
    ensures { result ≡ kind_in bare (value_view value.now) }
{
    let Value::Object(_) = value else {
        return Err(FeatureFault::at(whole_member(bare), Cause::Form));
    };
    let Some(name) = type_name(value) else {
        return Err(FeatureFault::at(type_member(bare), Cause::Form));
    };
    match kind_of(name) {
        Some(kind) => Ok(kind),
        None => Err(FeatureFault::at(type_member(bare), Cause::Kind)),
    }
}

/// The geometry of the coordinates of a type, if they are there.
#[tactic(auto, using(crate::proofs::Told::listed_fault))]
fn listed<A: Allocator + Copy>(
    alloc: A,
    grid: &Grid,
    bare: bool,
    kind: Kind,
    value: Option<&Value<'_, A>>,
) -> Result<Geometry<A>, FeatureFault>
    ensures { Tells geometry_view result
        (listed_in grid.now bare kind (option_map (λ v. value_view v.now) value.entry)) }
{
    let Some(value) = value else {
        return Err(FeatureFault::at(coordinates_member(bare), Cause::Form));
    };
    match coordinates(alloc, grid, kind, value) {
        Ok(geometry) => Ok(geometry),
        Err(CoordinatesFault { cause, spot }) => Err(FeatureFault {
            cause,
            member: coordinates_member(bare),
            spot,
        }),
    }
}

/// A geometry.
#[tactic(auto, unfolding(crate::specs::Given::geometry_in), using(crate::proofs::Told::exact_told))]
fn geometry<A: Allocator + Copy>(
    alloc: A,
    grid: &Grid,
    bare: bool,
    value: &Value<'_, A>,
) -> Result<Geometry<A>, FeatureFault>
    ensures { Tells geometry_view result (geometry_in grid.now bare (value_view value.now)) }
{
    let kind = kind_in(bare, value)?;
    listed(alloc, grid, bare, kind, value.get("coordinates"))
}

/// A member that may be missing or null.
fn present<'v, 'a, A: Allocator>(value: Option<&'v Value<'a, A>>) -> Option<&'v Value<'a, A>>
    ensures { option_map (λ v. value_view v.now) result
        ≡ present (option_map (λ v. value_view v.now) value.entry) }
{
    let value = value?;
    if value.is_null() { None } else { Some(value) }
}

/// A whole number: digits, or a text of digits; below 2^64.
pub fn whole_number<A: Allocator>(value: &Value<'_, A>) -> Option<u64>
    ensures { result ≡ whole_number (value_view value.now) }
{
    match value {
        Value::Number(text) | Value::String(text) => line_words::read_number(text.as_bytes()),
        _ => None,
    }
}

/// A name: a text that is one.
fn name_in<A: Allocator>(value: &Value<'_, A>) -> Option<Name>
    ensures { result ≡ name_in (value_view value.now) }
{
    Name::new(value.as_str()?.as_bytes())
}

/// A member that is a whole number, if it is there.
fn number_member<A: Allocator>(
    value: Option<&Value<'_, A>>,
    member: Member,
) -> Result<Option<u64>, FeatureFault>
    ensures { result ≡ number_member member (option_map (λ v. value_view v.now) value.entry) }
{
    let Some(value) = present(value) else {
        return Ok(None);
    };
    match whole_number(value) {
        Some(n) => Ok(Some(n)),
        None => Err(FeatureFault::at(member, Cause::Form)),
    }
}

/// A member that is a name, if it is there.
fn name_member<A: Allocator>(
    value: Option<&Value<'_, A>>,
    member: Member,
) -> Result<Option<Name>, FeatureFault>
    ensures { result ≡ name_member member (option_map (λ v. value_view v.now) value.entry) }
{
    let Some(value) = present(value) else {
        return Ok(None);
    };
    match name_in(value) {
        Some(name) => Ok(Some(name)),
        None => Err(FeatureFault::at(member, Cause::Form)),
    }
}

/// A property of a feature.
#[tactic(auto, unfolding(crate::specs::Given::property))]
fn property<'v, 'a, A: Allocator>(feature: &'v Value<'a, A>, name: &str) -> Option<&'v Value<'a, A>>
    ensures { option_map (λ v. value_view v.now) result
        ≡ property name.now (value_view feature.now) }
{
    feature.get("properties")?.get(name)
}

/// The id of a feature: its member, or else its property.
#[tactic(auto, unfolding(crate::specs::Given::id_in))]
fn id_of<A: Allocator>(feature: &Value<'_, A>) -> Result<Option<u64>, FeatureFault>
    ensures { result ≡ id_in (value_view feature.now) }
{
    match number_member(feature.get("id"), Member::Id)? {
        Some(id) => Ok(Some(id)),
        None => number_member(property(feature, "id"), Member::PropertyId),
    }
}

/// The version of a feature.
#[tactic(auto, unfolding(crate::specs::Given::version_in))]
fn version_of<A: Allocator>(feature: &Value<'_, A>) -> Result<Option<u64>, FeatureFault>
    ensures { result ≡ version_in (value_view feature.now) }
{
    number_member(property(feature, "version"), Member::Version)
}

/// The office of a feature.
#[tactic(auto, unfolding(crate::specs::Given::office_in))]
fn office_of<A: Allocator>(feature: &Value<'_, A>) -> Result<Option<Name>, FeatureFault>
    ensures { result ≡ office_in (value_view feature.now) }
{
    name_member(property(feature, "office"), Member::Office)
}

/// The class of a feature.
#[tactic(auto, unfolding(crate::specs::Given::class_in))]
fn class_of<A: Allocator>(feature: &Value<'_, A>) -> Result<Option<Name>, FeatureFault>
    ensures { result ≡ class_in (value_view feature.now) }
{
    name_member(property(feature, "class"), Member::Class)
}

/// What of a feature is looked at, beside its geometry. What is not has no fault.
#[derive(Clone, Copy, Debug, PartialEq, Eq)]
pub struct Wished {
    /// The id.
    pub id: bool,
    /// The property `class`.
    pub class: bool,
    /// The properties `version` and `office`.
    pub others: bool,
}

/// What a feature says beside its geometry.
#[derive(Drop)]
struct Said {
    id: Option<u64>,
    version: Option<u64>,
    office: Option<Name>,
    class: Option<Name>,
}

/// The id, if it is wished.
fn wished_id<A: Allocator>(
    wished: bool,
    feature: &Value<'_, A>,
) -> Result<Option<u64>, FeatureFault>
    ensures { result ≡ if_wished wished (id_in (value_view feature.now)) }
{
    if wished { id_of(feature) } else { Ok(None) }
}

/// The version, if it is wished.
fn wished_version<A: Allocator>(
    wished: bool,
    feature: &Value<'_, A>,
) -> Result<Option<u64>, FeatureFault>
    ensures { result ≡ if_wished wished (version_in (value_view feature.now)) }
{
    if wished {
        version_of(feature)
    } else {
        Ok(None)
    }
}

/// The office, if it is wished.
fn wished_office<A: Allocator>(
    wished: bool,
    feature: &Value<'_, A>,
) -> Result<Option<Name>, FeatureFault>
    ensures { result ≡ if_wished wished (office_in (value_view feature.now)) }
{
    if wished { office_of(feature) } else { Ok(None) }
}

/// The class, if it is wished.
fn wished_class<A: Allocator>(
    wished: bool,
    feature: &Value<'_, A>,
) -> Result<Option<Name>, FeatureFault>
    ensures { result ≡ if_wished wished (class_in (value_view feature.now)) }
{
    if wished { class_of(feature) } else { Ok(None) }
}

/// What a feature says beside its geometry.
#[tactic(auto, unfolding(crate::specs::Given::said_in))]
fn said_in<A: Allocator>(wished: Wished, feature: &Value<'_, A>) -> Result<Said, FeatureFault>
    ensures { result ≡ said_in wished (value_view feature.now) }
{
    let id = wished_id(wished.id, feature)?;
    let version = wished_version(wished.others, feature)?;
    let office = wished_office(wished.others, feature)?;
    let class = wished_class(wished.class, feature)?;
    Ok(Said {
        id,
        version,
        office,
        class,
    })
}

/// The geometry that a JSON value has as its member `geometry`, as a Feature has it (RFC 7946, 3.2).
/// The fault is the first in this order: the member is not there; its type; its coordinates from
/// the first on.
#[tactic(auto, unfolding(crate::specs::Given::geometry_of))]
pub fn geometry_of<A: Allocator + Copy>(
    alloc: A,
    grid: &Grid,
    feature: &Value<'_, A>,
) -> Result<Geometry<A>, FeatureFault>
    ensures { Tells geometry_view result (geometry_of grid.now (value_view feature.now)) }
{
    match feature.get("geometry") {
        Some(value) => geometry(alloc, grid, false, value),
        None => Err(FeatureFault::at(Member::Geometry, Cause::Form)),
    }
}

/// What is said beside a geometry, with the geometry.
fn with_geometry<A: Allocator>(said: Said, geometry: Geometry<A>) -> Given<A>
    ensures { Ok (given_view result) ≡ with_paths said (Ok (geometry_view geometry)) }
{
    Given {
        id: said.id,
        version: said.version,
        office: said.office,
        class: said.class,
        geometry,
    }
}

/// A feature.
#[tactic(auto, using(crate::proofs::Told::exact_told, crate::proofs::Told::feature_fault))]
fn feature<A: Allocator + Copy>(
    alloc: A,
    grid: &Grid,
    wished: Wished,
    value: &Value<'_, A>,
) -> Result<Given<A>, FeatureFault>
    ensures { Tells given_view result (whole_feature grid.now wished (value_view value.now)) }
{
    let said = said_in(wished, value)?;
    let geometry = geometry_of(alloc, grid, value)?;
    Ok(with_geometry(said, geometry))
}

/// A geometry by itself.
#[tactic(auto, using(crate::proofs::Told::bare_fault))]
fn bare_geometry<A: Allocator + Copy>(
    alloc: A,
    grid: &Grid,
    value: &Value<'_, A>,
) -> Result<Given<A>, FeatureFault>
    ensures { Tells given_view result (bare_in grid.now (value_view value.now)) }
{
    let geometry = geometry(alloc, grid, true, value)?;
    Ok(Given {
        id: None,
        version: None,
        office: None,
        class: None,
        geometry,
    })
}

/// Whether a value says that it is a feature.
#[tactic(auto, unfolding(crate::specs::Given::is_feature))]
fn is_feature<A: Allocator>(value: &Value<'_, A>) -> bool
    ensures { result ≡ is_feature (value_view value.now) }
{
    match type_name(value) {
        Some(name) => name == "Feature",
        None => false,
    }
}

/// What a JSON value says of a feature, as `read_wished` has it of a text.
#[tactic(auto, unfolding(crate::specs::Given::feature_in))]
pub fn feature_of<A: Allocator + Copy>(
    alloc: A,
    grid: &Grid,
    wished: Wished,
    value: &Value<'_, A>,
) -> Result<Given<A>, FeatureFault>
    ensures { Tells given_view result (feature_in grid.now wished (value_view value.now)) }
{
    if is_feature(value) {
        feature(alloc, grid, wished, value)
    } else {
        bare_geometry(alloc, grid, value)
    }
}

/// Reads what a text says of a feature: a Feature (RFC 7946, 3.2), or a geometry by itself (3.1).
///
/// The geometry is a Point, a LineString, a Polygon, a MultiLineString or a MultiPolygon. Heights,
/// other members and other properties are not looked at. The fault is the first in this order: the
/// text is not JSON; the id, the version, the office or the class is there and is none; the
/// geometry's type, and then its coordinates from the first on. An allocation that is refused takes
/// the place of any other fault.
pub fn read_feature<A: Allocator + Copy>(
    alloc: A,
    grid: &Grid,
    text: &[u8],
) -> Result<Given<A>, FeatureFault>
    ensures { Reads grid.now all_wished text.now result }
{
    let all = Wished {
        id: true,
        class: true,
        others: true,
    };
    read_wished(alloc, grid, all, text)
}

/// Reads what a text says of a feature, as `read_feature` does, but looks only at what is wished:
/// what is not is `None`, and no fault.
#[tactic(auto, unfolding(crate::specs::Given::feature_read), using(crate::proofs::Unread::text_read, crate::proofs::Unread::text_fault))]
pub fn read_wished<A: Allocator + Copy>(
    alloc: A,
    grid: &Grid,
    wished: Wished,
    text: &[u8],
) -> Result<Given<A>, FeatureFault>
    ensures { Reads grid.now wished text.now result }
{
    let mut scratch = Scratch::new(alloc);
    match read_json(alloc, text, &mut scratch) {
        Ok(value) => feature_of(alloc, grid, wished, &value),
        Err(cause) => Err(FeatureFault::at(Member::Text, cause)),
    }
}
