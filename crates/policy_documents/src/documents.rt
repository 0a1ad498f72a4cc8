//! Whole documents.

ghost use Rattle.std.specs.Prelude.{◌≡◌, ◌↔◌, IfOk, IsTrue, length, map, slice_get};
ghost use Rattle.std.specs.Option.{option_copied};
ghost use Rattle.policy_documents.specs.Documents.{zone_shape, rule_named, IsDocument, rules_of, rules_of_all, children_of, found_rule};
ghost use Rattle.policy_documents.specs.Equality.{same_zones, same_document};
ghost use Rattle.policy_documents.specs.Views.{node_view, zone_of, document_view};

use crate::nodes::{Node, copy_node};
use crate::rules::Rule;
use crate::zones::{Zone, ZoneName};
use features::Name;
use indexmap::IndexMap;
use memory::{NoMemory, put};
use plane::Shape;
use std::alloc::Allocator;
use std::hash::{BuildHasherDefault, FoldHasher};
use std::marker::Model;

/// How deep sets and policies may nest.
pub const DEPTH_LIMIT: usize = 8;

/// The most sets and policies of a document.
pub const NODE_LIMIT: u32 = 512;

/// The most rules of a document.
pub const RULE_LIMIT: u32 = 512;

/// The most matches and atoms of a document; a negated atom counts twice.
pub const TEST_LIMIT: u32 = 4096;

/// The most zones of a document.
pub const ZONE_LIMIT: usize = 64;

/// Zones by name, in written order.
pub type Zones<A> = IndexMap<ZoneName, Shape, BuildHasherDefault<FoldHasher>, A>;

/// A policy document: its zones, in written order, and its root. It keeps the limits above; the
/// names of its sets, policies and rules are distinct, and those of its zones; each zone that a
/// match names exists. A contract sees the list of zones and a tree of plain data.
#[derive(Debug, Drop)]
pub struct Document<A: Allocator> {
    zones: Zones<A>,
    root: Node<A>,
}

impl<A: Allocator> Model for Document<A> {
    ghost use Rattle.policy_documents.specs.Documents.{DocumentData, IsDocument};
    ghost use Rattle.policy_documents.specs.Coding.{Part, stored, restored, restored-stored};
    ghost use Rattle.policy_documents.specs.declared.zones.Zone.{Zone};
    ghost use Rattle.std.specs.Coded.{code_by, codes};
    ghost use Rattle.std.specs.Prelude.{List};

    ghost Value = { DocumentData };

    ghost coded = { code_by (List Zone × List Part) (Prim.hlevel codes) stored restored
        restored-stored };

    ghost use Rattle.policy_documents.specs.Views.{document_view};

    ghost view = { λ d. document_view d.zones.entries d.root };

    ghost invariant = { λ d. IsDocument (document_view d.zones.entries d.root) };
}

impl<A: Allocator> Document<A> {
    /// The document of these zones and this root. The caller has to prove `IsDocument`; to get a
    /// document from a text, use `policy_text::read_document`, which has a fault for each
    /// requirement.
    pub fn new(zones: Zones<A>, root: Node<A>) -> Self
        requires { IsDocument (document_view zones.entries root) }
        ensures { result ≡ document_view zones.entries root }
    {
        Document { zones, root }
    }

    /// The set or policy at the root.
    pub fn root(&self) -> &Node<A>
        ensures root { node_view result.now ≡ self.now.root }
        ensures sound { IsDocument self.now }
    {
        &self.root
    }

    /// The zones, in written order.
    pub fn zones(&self) -> &Zones<A>
        ensures { map zone_of result.now.entries ≡ self.now.zones }
    {
        &self.zones
    }

    /// How many zones there are.
    pub fn zone_count(&self) -> usize
        ensures { result ≡ length self.now.zones }
    {
        self.zones.len()
    }

    /// The zone at this index, counted from 0, in written order.
    pub fn zone_at(&self, index: usize) -> Option<Zone>
        ensures { result ≡ slice_get self.now.zones index }
    {
        let (key, shape) = self.zones.get_index(index)?;
        Some(Zone {
            name: key.name,
            shape: *shape,
        })
    }

    /// The shape of the zone with this name.
    pub fn zone(&self, name: Name) -> Option<&Shape>
        ensures { option_copied result ≡ zone_shape name self.now.zones }
    {
        self.zones.get(&ZoneName { name })
    }

    /// The name of the rule with this number. Rules are numbered from 1, in document order.
    pub fn rule_name(&self, number: u32) -> Option<Name>
        ensures { result ≡ rule_named number self.now.root }
    {
        if number == 0 {
            return None;
        }
        rule_in(&self.root, number as usize - 1).ok()
    }

    /// A copy of the document in another allocator. Fails only when out of memory.
    pub fn copy<B: Allocator + Copy>(&self, alloc: B) -> Result<Document<B>, NoMemory>
        ensures { IfOk result (λ copy. copy ≡ self.now) }
    {
        Ok(Document {
            zones: copy_zones(alloc, &self.zones)?,
            root: copy_node(alloc, &self.root)?,
        })
    }
}

/// The name of the node's rule at this index, counted from 0. If there are too few rules, the error
/// is the index minus their count.
#[cycle(rule_in)]
fn rule_in<A: Allocator>(node: &Node<A>, index: usize) -> Result<Name, usize>
    ensures { result ≡ found_rule index (rules_of (node_view node.now)) }
{
    match node {
        Node::Set { of, .. } => rule_in_nodes(of, index),
        Node::Policy { rules, .. } => rule_at(rules, index),
    }
}

/// `rule_in` for the rules of a policy.
fn rule_at<A: Allocator>(rules: &[Rule<A>], index: usize) -> Result<Name, usize>
    ensures { result ≡ found_rule index rules.now }
{
    if index < rules.len() {
        let rule = &rules[index];
        Ok(rule.name)
    } else {
        Err(index - rules.len())
    }
}

/// `rule_in` for several nodes.
#[cycle(rule_in)]
fn rule_in_nodes<A: Allocator>(nodes: &[Node<A>], index: usize) -> Result<Name, usize>
    ensures { result ≡ found_rule index (rules_of_all (children_of (map node_view nodes.now))) }
{
    let mut left = index;
    for node in nodes {
        match rule_in(node, left) {
            Ok(name) => return Ok(name),
            Err(rest) => left = rest,
        }
    }
    Err(left)
}

/// A copy of the zones. Fails only when out of memory.
fn copy_zones<A: Allocator, B: Allocator + Copy>(
    alloc: B,
    zones: &Zones<A>,
) -> Result<Zones<B>, NoMemory>
    ensures { IfOk result (λ copy. copy.entries ≡ zones.now.entries) }
{
    let mut copies = IndexMap::new(alloc);
    for (key, shape) in zones.iter() {
        put(&mut copies, *key, *shape)?;
    }
    Ok(copies)
}

impl<A: Allocator> PartialEq for Document<A> {
    ghost use Rattle.std.specs.Cmp.{decided, partial_equiv_from_equiv};
    ghost use Rattle.policy_documents.specs.Equality.{same_document, same_document_decides};

    ghost eq = { same_document };

    ghost laws = { partial_equiv_from_equiv (decided same_document same_document_decides) };

    #[tactic(auto, using(crate::proofs::EqualLemmas::exact_document_roots, crate::proofs::EqualLemmas::exact_document_zones))]
    fn eq(&self, other: &Self) -> bool
        ensures tested { result ≡ same_document self.now other.now }
        ensures exact { IsTrue result ↔ (self.now ≡ other.now) }
    {
        same_zones(self, other) && self.root == other.root
    }
}

impl<A: Allocator> Eq for Document<A> {
    ghost use Rattle.std.specs.Cmp.{decided};
    ghost use Rattle.policy_documents.specs.Equality.{same_document, same_document_decides};

    ghost laws = { decided same_document same_document_decides };
}

/// Whether two documents have the same zones, in the same order.
fn same_zones<A: Allocator>(document: &Document<A>, other: &Document<A>) -> bool
    ensures { result ≡ same_zones document.now.zones other.now.zones }
{
    if document.zone_count() != other.zone_count() {
        return false;
    }
    for index in 0..document.zone_count() {
        if document.zone_at(index) != other.zone_at(index) {
            return false;
        }
    }
    true
}
