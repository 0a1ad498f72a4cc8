//! Prints documents as JSON.

ghost use Rattle.std.specs.Prelude.{◌≡◌, IfOk, map, string_bytes};
ghost use Rattle.serde_json.specs.Data.{object};
ghost use Rattle.serde_json.specs.View.{view, items_view};
ghost use Rattle.policy_documents.specs.Documents.{IsDocument};
ghost use Rattle.policy_text.specs.Printed.{rule_data, target_items, node_data, zone_data, zones_items, document_data, document_text};
ghost use Rattle.policy_text.specs.Bytes.{document_of_bytes};
ghost use Rattle.policy_text.specs.PrintedMembers.{put_node};
ghost use Rattle.policy_documents.specs.Views.{node_view, zone_of};

use crate::paths::MemberName;
use crate::reading::{NodeForm, POLICY, SET};
use crate::values::{Printed, part_values};
use crate::words::{algorithm_word, effect_word, name_value, put_array};
use features::Name;
use memory::{GrowVec, NoMemory, json_string, json_text, put_member};
use plane::Shape;
use policy_documents::{Algorithm, Document, Node, Rule, Target, Zones};
use serde_json::{Map, Value};
use std::alloc::{Allocator, Global};
use wkt::print_shape;

impl<A: Allocator> Printed for Rule<A> {
    ghost printed = { rule_data };

    /// Leaves out an empty target and empty conditions.
    fn value(&self, heap: Global) -> Result<Value, NoMemory> {
        let effect = json_string(heap, effect_word(self.effect))?;
        let name = name_value(heap, &self.name)?;
        let target = target_values(heap, &self.target)?;
        let when = part_values(heap, self.when.as_slice())?;
        let mut members = Map::new(heap);
        put_member(&mut members, heap, MemberName::Effect.text(), effect)?;
        put_member(&mut members, heap, MemberName::Rule.text(), name)?;
        put_array(&mut members, heap, MemberName::Target, target)?;
        put_array(&mut members, heap, MemberName::When, when)?;
        Ok(Value::Object(members))
    }
}

/// The parts of a target. Fails only when out of memory.
fn target_values<A: Allocator>(heap: Global, target: &Target<A>) -> Result<Vec<Value>, NoMemory>
    ensures { IfOk result (λ values. items_view values.items ≡ target_items target.now) }
{
    part_values(heap, target.as_slice())
}

/// A set or a policy with these children, without an empty target. Fails only when out of memory.
fn form_value<A: Allocator>(
    heap: Global,
    form: NodeForm,
    name: &Name,
    combine: Algorithm,
    target: &Target<A>,
    children: Vec<Value>,
) -> Result<Value, NoMemory>
    ensures { IfOk result (λ v. view v ≡ object
        (put_node form.name form.children (record {
          name = name.now;
          combine = combine;
          target = target.now;
        }) (items_view children.items))) }
{
    let combine = json_string(heap, algorithm_word(combine))?;
    let name = name_value(heap, name)?;
    let target = target_values(heap, target)?;
    let mut members = Map::new(heap);
    put_member(&mut members, heap, MemberName::Combine.text(), combine)?;
    put_member(&mut members, heap, form.name.text(), name)?;
    put_member(
        &mut members,
        heap,
        form.children.text(),
        Value::Array(children),
    )?;
    put_array(&mut members, heap, MemberName::Target, target)?;
    Ok(Value::Object(members))
}

/// A set or a policy. Fails only when out of memory.
#[cycle(print)]
fn node_value<A: Allocator>(heap: Global, node: &Node<A>) -> Result<Value, NoMemory>
    ensures { IfOk result (λ v. view v ≡ node_data (node_view node.now)) }
{
    match node {
        Node::Set {
            name,
            combine,
            target,
            of,
        } => {
            let children = node_values(heap, of)?;
            form_value(heap, SET, name, *combine, target, children)
        }
        Node::Policy {
            name,
            combine,
            target,
            rules,
        } => {
            let children = part_values(heap, rules)?;
            form_value(heap, POLICY, name, *combine, target, children)
        }
    }
}

/// The children of a set. Fails only when out of memory.
#[cycle(print)]
fn node_values<A: Allocator>(heap: Global, nodes: &Vec<Node<A>, A>) -> Result<Vec<Value>, NoMemory>
    ensures { IfOk result
        (λ values. map view values.items ≡ map (λ n. node_data (node_view n)) nodes.now.items) }
{
    let mut values = Vec::new(heap);
    for node in nodes {
        values.try_push(node_value(heap, node)?)?;
    }
    Ok(values)
}

/// A zone. Fails only when out of memory.
fn zone_value(heap: Global, name: &Name, shape: &Shape) -> Result<Value, NoMemory>
    ensures { IfOk result
        (λ v. view v ≡ zone_data (record { name = name.now; shape = shape.now })) }
{
    let shape = Value::from(print_shape(heap, shape)?);
    let name = name_value(heap, name)?;
    let mut members = Map::new(heap);
    put_member(&mut members, heap, MemberName::Shape.text(), shape)?;
    put_member(&mut members, heap, MemberName::Zone.text(), name)?;
    Ok(Value::Object(members))
}

/// The zones, in their order. Fails only when out of memory.
fn zone_values<A: Allocator>(heap: Global, zones: &Zones<A>) -> Result<Vec<Value>, NoMemory>
    ensures { IfOk result
        (λ values. items_view values.items ≡ zones_items (map zone_of zones.now.entries)) }
{
    let mut values = Vec::new(heap);
    for (key, shape) in zones.iter() {
        values.try_push(zone_value(heap, &key.name, shape)?)?;
    }
    Ok(values)
}

/// A document as a JSON value, without an empty list of zones. Fails only when out of memory.
pub fn document_value<A: Allocator>(heap: Global, document: &Document<A>) -> Result<Value, NoMemory>
    ensures value { IfOk result (λ v. view v ≡ document_data document.now) }
    ensures sound { IsDocument document.now }
{
    let root = node_value(heap, document.root())?;
    let zones = zone_values(heap, document.zones())?;
    let mut members = Map::new(heap);
    put_member(&mut members, heap, MemberName::Root.text(), root)?;
    put_array(&mut members, heap, MemberName::Zones, zones)?;
    Ok(Value::Object(members))
}

/// A document as JSON (RFC 8259) without spaces, the keys of each object sorted. Leaves out zones,
/// targets and conditions that are empty. `read_document` reads it as the same document. Fails only
/// when out of memory.
pub fn print_document<A: Allocator>(
    heap: Global,
    document: &Document<A>,
) -> Result<String, NoMemory>
    ensures text { IfOk result (λ text. string_bytes text ≡ document_text document.now) }
    ensures read { IfOk result (λ text. document_of_bytes (string_bytes text) ≡ Ok document.now) }
{
    json_text(heap, &document_value(heap, document)?)
}
