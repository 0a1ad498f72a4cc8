//! Reads rules, policies and sets from JSON values.

ghost use Rattle.std.specs.Prelude.{◌≡◌, ◌+◌, ◌*◌, ◌<◌, ◌≤◌, length, map};
ghost use Rattle.std.specs.List.{list_any};
ghost use Rattle.serde_json.specs.View.{view, items_view};
ghost use Rattle.features.specs.Equality.{same_name};
ghost use Rattle.policy_text.specs.SeenViews.{seen_view, head_view};
ghost use Rattle.policy_documents.specs.Views.{zone_of, node_view};
ghost use Rattle.policy_text.specs.Reading.{Gives, Tells, at_key, fresh, each_at, rule_at, head_at, policy_at, set_at, node_at};

use crate::faults::TextFault;
use crate::fields::{
    algorithm_in, array_in, effect_in, has_key, name_in, object_in, optional_array_in, within,
};
use crate::paths::{MemberName, PART_LIMIT, Path, PathPart};
use crate::targets::parts_at;
use features::Name;
use memory::GrowVec;
use policy_documents::{Algorithm, NODE_LIMIT, Node, RULE_LIMIT, Rule, Target, Zones};
use serde_json::Value;
use std::alloc::Allocator;

const RULE_KEYS: [MemberName; 4] = [
    MemberName::Rule,
    MemberName::Effect,
    MemberName::Target,
    MemberName::When,
];

/// The keys of a set or of a policy: all of them, that of its name, and that of its children.
#[derive(Clone, Copy)]
pub(crate) struct NodeForm {
    pub listed: [MemberName; 4],
    pub name: MemberName,
    pub children: MemberName,
}

pub(crate) const SET: NodeForm = NodeForm {
    listed: [
        MemberName::Set,
        MemberName::Combine,
        MemberName::Target,
        MemberName::Of,
    ],
    name: MemberName::Set,
    children: MemberName::Of,
};

pub(crate) const POLICY: NodeForm = NodeForm {
    listed: [
        MemberName::Policy,
        MemberName::Combine,
        MemberName::Target,
        MemberName::Rules,
    ],
    name: MemberName::Policy,
    children: MemberName::Rules,
};

/// What was read so far: the names of sets, policies and rules, and the counts of sets and
/// policies, of rules, and of matches and atoms.
#[derive(Drop)]
pub(crate) struct SoFar<A: Allocator> {
    pub names: Vec<Name, A>,
    pub nodes: u32,
    pub rules: u32,
    pub tests: u32,
}

/// A set or a policy without its children.
#[derive(Drop)]
struct Headed<A: Allocator> {
    name: Name,
    combine: Algorithm,
    target: Target<A>,
}

/// Whether the name is one of these.
fn has_name(names: &[Name], name: Name) -> bool
    ensures { result ≡ list_any (same_name name) names.now }
{
    names.iter().any(|other| name == *other)
}

/// Appends the name that the value at `path` has under a key; `NameTwice` if it is one of the names
/// already.
pub(crate) fn fresh<A: Allocator>(
    name: Name,
    key: MemberName,
    path: Path,
    names: &mut Vec<Name, A>,
) -> Result<(), TextFault>
    requires { length path < PART_LIMIT }
    ensures value { Gives (λ _. names.new.items) result
        (fresh (at_key path key) name names.old.items) }
    ensures told { Tells result (fresh (at_key path key) name names.old.items) }
{
    if has_name(names, name) {
        let path = path.with(PathPart::Member(key));
        return Err(TextFault::NameTwice(path, name));
    }
    names.try_push(name)?;
    Ok(())
}

/// Reads a rule, and adds to `seen` what it has.
#[tactic(auto, unfolding(crate::specs::Reading::rule_at, crate::specs::Reading::target_at, crate::specs::Reading::any_of_at, crate::specs::Reading::all_of_at, crate::specs::Reading::when_at))]
fn rule_at<A: Allocator + Copy, B: Allocator>(
    alloc: A,
    zones: &Zones<B>,
    value: &Value,
    path: Path,
    seen: &mut SoFar<A>,
) -> Result<Rule<A>, TextFault>
    requires { length path < 20 }
    ensures { Gives (λ rule. (rule, seen_view seen.new)) result
        (rule_at (map zone_of zones.now.entries) path (seen_view seen.old) (view value.now)) }
{
    object_in(value, &RULE_KEYS, path)?;
    let name = name_in(value, MemberName::Rule, path)?;
    let effect = effect_in(value, path)?;
    let target = optional_array_in(value, MemberName::Target, path)?;
    let when = optional_array_in(value, MemberName::When, path)?;
    fresh(name, MemberName::Rule, path, &mut seen.names)?;
    seen.rules = within(RULE_LIMIT, seen.rules, path)?;
    let (target, tests) = parts_at(
        alloc,
        zones,
        target,
        path.with(PathPart::Member(MemberName::Target)),
        seen.tests,
    )?;
    let (when, tests) = parts_at(
        alloc,
        zones,
        when,
        path.with(PathPart::Member(MemberName::When)),
        tests,
    )?;
    seen.tests = tests;
    Ok(Rule {
        name,
        effect,
        target,
        when,
    })
}

/// Reads the rules of an array.
fn rules_at<A: Allocator + Copy, B: Allocator>(
    alloc: A,
    zones: &Zones<B>,
    items: &[Value],
    path: Path,
    seen: &mut SoFar<A>,
) -> Result<Vec<Rule<A>, A>, TextFault>
    requires { length path < 19 }
    ensures { Gives (λ rules. (rules.items, seen_view seen.new)) result
        (each_at (rule_at (map zone_of zones.now.entries)) path 0 (seen_view seen.old)
        (items_view items.now)) }
{
    let mut rules = Vec::new(alloc);
    for (index, value) in items.iter().enumerate() {
        let rule = rule_at(alloc, zones, value, path.with(PathPart::Item(index)), seen)?;
        rules.try_push(rule)?;
    }
    Ok(rules)
}

/// Reads a set or a policy without its children, and returns it with the array of these.
#[tactic(auto, unfolding(crate::specs::Reading::head_at, crate::specs::Reading::target_at, crate::specs::Reading::any_of_at, crate::specs::Reading::all_of_at))]
fn head_at<'v, A: Allocator + Copy, B: Allocator>(
    alloc: A,
    zones: &Zones<B>,
    value: &'v Value,
    form: NodeForm,
    path: Path,
    seen: &mut SoFar<A>,
) -> Result<(Headed<A>, &'v [Value]), TextFault>
    requires { length path < 20 }
    ensures { Gives (λ r. (head_view r.0, (seen_view seen.new, items_view r.1.now))) result
        (head_at (map zone_of zones.now.entries) form.listed form.name form.children path
        (seen_view seen.old) (view value.now)) }
{
    object_in(value, &form.listed, path)?;
    let name = name_in(value, form.name, path)?;
    let combine = algorithm_in(value, path)?;
    let target = optional_array_in(value, MemberName::Target, path)?;
    let items = array_in(value, form.children, path)?;
    fresh(name, form.name, path, &mut seen.names)?;
    seen.nodes = within(NODE_LIMIT, seen.nodes, path)?;
    let (target, tests) = parts_at(
        alloc,
        zones,
        target,
        path.with(PathPart::Member(MemberName::Target)),
        seen.tests,
    )?;
    seen.tests = tests;
    let head = Headed {
        name,
        combine,
        target,
    };
    Ok((head, items))
}

/// Reads a policy.
#[tactic(auto, unfolding(crate::specs::Reading::policy_at))]
fn policy_at<A: Allocator + Copy, B: Allocator>(
    alloc: A,
    zones: &Zones<B>,
    value: &Value,
    path: Path,
    seen: &mut SoFar<A>,
) -> Result<Node<A>, TextFault>
    requires { length path < 18 }
    ensures { Gives (λ node. (node_view node, seen_view seen.new)) result
        (policy_at (map zone_of zones.now.entries) path (seen_view seen.old) (view value.now)) }
{
    let (head, items) = head_at(alloc, zones, value, POLICY, path, seen)?;
    let rules = rules_at(
        alloc,
        zones,
        items,
        path.with(PathPart::Member(MemberName::Rules)),
        seen,
    )?;
    let Headed {
        name,
        combine,
        target,
    } = head;
    Ok(Node::Policy {
        name,
        combine,
        target,
        rules,
    })
}

/// Reads a set or a policy. `TooDeep` if `levels` is 0; the node itself counts as one level.
#[cycle(read)]
pub(crate) fn node_at<A: Allocator + Copy, B: Allocator>(
    alloc: A,
    zones: &Zones<B>,
    value: &Value,
    levels: usize,
    path: Path,
    seen: &mut SoFar<A>,
) -> Result<Node<A>, TextFault>
    requires { length path + 2 * levels ≤ 17 }
    ensures { Gives (λ node. (node_view node, seen_view seen.new)) result
        (node_at (map zone_of zones.now.entries) levels path (seen_view seen.old)
        (view value.now)) }
{
    if levels == 0 {
        return Err(TextFault::TooDeep(path));
    }
    let below = levels - 1;
    if has_key(value, MemberName::Set) {
        set_at(alloc, zones, value, below, path, seen)
    } else {
        policy_at(alloc, zones, value, path, seen)
    }
}

/// Reads a set with at most `below` levels below it.
#[cycle(read)]
#[tactic(auto, unfolding(crate::specs::Reading::set_at))]
fn set_at<A: Allocator + Copy, B: Allocator>(
    alloc: A,
    zones: &Zones<B>,
    value: &Value,
    below: usize,
    path: Path,
    seen: &mut SoFar<A>,
) -> Result<Node<A>, TextFault>
    requires { length path + 2 * below ≤ 15 }
    ensures { Gives (λ node. (node_view node, seen_view seen.new)) result
        (set_at (node_at (map zone_of zones.now.entries) below) (map zone_of zones.now.entries) path
        (seen_view seen.old) (view value.now)) }
{
    let (head, items) = head_at(alloc, zones, value, SET, path, seen)?;
    let of = nodes_at(
        alloc,
        zones,
        items,
        below,
        path.with(PathPart::Member(MemberName::Of)),
        seen,
    )?;
    let Headed {
        name,
        combine,
        target,
    } = head;
    Ok(Node::Set {
        name,
        combine,
        target,
        of,
    })
}

/// Reads the children of a set.
#[cycle(read)]
fn nodes_at<A: Allocator + Copy, B: Allocator>(
    alloc: A,
    zones: &Zones<B>,
    items: &[Value],
    levels: usize,
    path: Path,
    seen: &mut SoFar<A>,
) -> Result<Vec<Node<A>, A>, TextFault>
    requires { length path + 2 * levels ≤ 16 }
    ensures { Gives (λ nodes. (map node_view nodes.items, seen_view seen.new)) result
        (each_at (node_at (map zone_of zones.now.entries) levels) path 0 (seen_view seen.old)
        (items_view items.now)) }
{
    let mut nodes = Vec::new(alloc);
    for (index, value) in items.iter().enumerate() {
        let node = node_at(
            alloc,
            zones,
            value,
            levels,
            path.with(PathPart::Item(index)),
            seen,
        )?;
        nodes.try_push(node)?;
    }
    Ok(nodes)
}
