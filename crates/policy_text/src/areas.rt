//! Reads zones and whole documents from JSON values.

ghost use Rattle.std.specs.Prelude.{◌≡◌, ◌<◌, [], length, map};
ghost use Rattle.serde_json.specs.View.{view, items_view};
ghost use Rattle.policy_documents.specs.Views.{zone_of, document_view};
ghost use Rattle.policy_text.specs.Reading.{Gives, Tells, shape_in, with_zone, zone_at, zones_at, document_in};

use crate::faults::TextFault;
use crate::fields::{name_in, object_in, optional_array_in, text_in, value_in};
use crate::paths::{MemberName, PART_LIMIT, Path, PathPart};
use crate::reading::{SoFar, node_at};
use crate::terms::has_zone;
use features::Name;
use indexmap::IndexMap;
use memory::put;
use plane::Shape;
use policy_documents::{DEPTH_LIMIT, Node, ZONE_LIMIT, ZoneName, Zones};
use serde_json::Value;
use std::alloc::Allocator;
use wkt::read_shape;

const ZONE_KEYS: [MemberName; 2] = [MemberName::Zone, MemberName::Shape];

const DOCUMENT_KEYS: [MemberName; 2] = [MemberName::Zones, MemberName::Root];

/// Reads the shape of the zone at `path` with this name; `BadZone` if the text is no shape.
fn shape_in(name: Name, text: &str, path: Path) -> Result<Shape, TextFault>
    requires { length path < PART_LIMIT }
    ensures { result ≡ shape_in path name text.now }
{
    match read_shape(text.as_bytes()) {
        Ok(shape) => Ok(shape),
        Err(fault) => {
            let path = path.with(PathPart::Member(MemberName::Shape));
            Err(TextFault::BadZone(path, name, fault))
        }
    }
}

/// Adds the zone at `path`. `NameTwice` if a zone has its name; otherwise `TooMany` at
/// `ZONE_LIMIT`.
#[tactic(auto, unfolding(crate::specs::Reading::with_zone))]
fn put_zone<A: Allocator + Copy>(
    name: Name,
    shape: Shape,
    path: Path,
    zones: &mut Zones<A>,
) -> Result<(), TextFault>
    requires { length path < PART_LIMIT }
    ensures value { Gives (λ _. map zone_of zones.new.entries) result
        (with_zone path name shape (map zone_of zones.old.entries)) }
    ensures told { Tells result (with_zone path name shape (map zone_of zones.old.entries)) }
{
    if has_zone(zones, name) {
        let path = path.with(PathPart::Member(MemberName::Zone));
        return Err(TextFault::NameTwice(path, name));
    }
    if zones.len() >= ZONE_LIMIT {
        return Err(TextFault::TooMany(path));
    }
    put(zones, ZoneName { name }, shape)?;
    Ok(())
}

/// Reads a zone and adds it to the zones before it.
#[tactic(auto, unfolding(crate::specs::Reading::zone_at))]
fn zone_at<A: Allocator + Copy>(
    value: &Value,
    path: Path,
    zones: &mut Zones<A>,
) -> Result<(), TextFault>
    requires { length path < PART_LIMIT }
    ensures value { Gives (λ _. map zone_of zones.new.entries) result
        (zone_at path (map zone_of zones.old.entries) (view value.now)) }
    ensures told { Tells result (zone_at path (map zone_of zones.old.entries) (view value.now)) }
{
    object_in(value, &ZONE_KEYS, path)?;
    let name = name_in(value, MemberName::Zone, path)?;
    let text = text_in(value, MemberName::Shape, path)?;
    let shape = shape_in(name, text, path)?;
    put_zone(name, shape, path, zones)
}

/// Reads the zones of an array.
fn zones_at<A: Allocator + Copy>(alloc: A, items: &[Value]) -> Result<Zones<A>, TextFault>
    ensures { Gives (λ z. map zone_of z.entries) result (zones_at 0 [] (items_view items.now)) }
{
    let path = Path::new().with(PathPart::Member(MemberName::Zones));
    let mut zones = IndexMap::new(alloc);
    for (index, value) in items.iter().enumerate() {
        zone_at(value, path.with(PathPart::Item(index)), &mut zones)?;
    }
    Ok(zones)
}

/// Reads the zones and the root of a document.
#[tactic(auto, unfolding(crate::specs::Reading::document_in))]
pub(crate) fn document_in<A: Allocator + Copy>(
    alloc: A,
    value: &Value,
) -> Result<(Zones<A>, Node<A>), TextFault>
    ensures { Gives (λ r. document_view r.0.entries r.1) result (document_in (view value.now)) }
{
    let path = Path::new();
    object_in(value, &DOCUMENT_KEYS, path)?;
    let items = optional_array_in(value, MemberName::Zones, path)?;
    let root = value_in(value, MemberName::Root, path)?;
    let zones = zones_at(alloc, items)?;
    let mut seen = SoFar {
        names: Vec::new(alloc),
        nodes: 0,
        rules: 0,
        tests: 0,
    };
    let root = node_at(
        alloc,
        &zones,
        root,
        DEPTH_LIMIT,
        path.with(PathPart::Member(MemberName::Root)),
        &mut seen,
    )?;
    Ok((zones, root))
}
