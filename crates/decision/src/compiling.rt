//! Compiles a document to a flat list of steps.

ghost use Rattle.std.specs.Prelude.{◌≡◌, ℕ, ◌+◌, ◌<◌, ◌≤◌, List, ◌∷◌, ◌++◌, [], OnOk, IfOk, length, map};
ghost use Rattle.combining.specs.Deciding.{rule_part};
ghost use Rattle.combining.specs.Gathering.{node_part, last_number};
ghost use Rattle.decision.specs.Plans.{Branches, flat};
ghost use Rattle.decision.specs.Compiled.{Appends, StandsFor, AllStandFor, is_silent, placeholder, node_closed};
ghost use Rattle.policy_documents.specs.Documents.{set, policy, rules_of, rules_of_all, children_of};
ghost use Rattle.policy_documents.specs.Views.{node_view};

use crate::known::{Known, keep_conditions, keep_target};
use crate::plan_nodes::PlanNode;
use combining::rule_count;
use memory::{GrowVec, NoMemory};
use policy_documents::{Algorithm, Node, Rule, Target};
use std::alloc::Allocator;

/// Appends the step of a rule, unless the rule applies to no question that fits `known`. Fails only
/// when out of memory.
fn compile_rule<A: Allocator, B: Allocator + Copy>(
    alloc: B,
    known: &Known,
    rule: &Rule<A>,
    number: u32,
    steps: &mut Vec<PlanNode<B>, B>,
) -> Result<(), NoMemory>
    ensures { OnOk result
        (Appends B known.now (λ q met. StandsFor q met number (rule_part q met rule.now))
        steps.old.items steps.new.items) }
{
    let Some(target) = keep_target(alloc, known, &rule.target)? else {
        return Ok(());
    };
    let Some(when) = keep_conditions(alloc, known, &rule.when)? else {
        return Ok(());
    };
    steps.try_push(PlanNode::Rule {
        number,
        effect: rule.effect,
        target,
        when,
    })?;
    Ok(())
}

/// Appends the steps of a policy's rules, numbered from `next` on. Fails only when out of memory.
fn compile_rules<A: Allocator, B: Allocator + Copy>(
    alloc: B,
    known: &Known,
    rules: &[Rule<A>],
    next: u32,
    steps: &mut Vec<PlanNode<B>, B>,
) -> Result<(), NoMemory>
    requires { next + length rules.now ≤ last_number }
    ensures { OnOk result
        (Appends B known.now (λ q met. AllStandFor q met next (map (rule_part q met) rules.now))
        steps.old.items steps.new.items) }
{
    let mut number = next;
    for rule in rules {
        compile_rule(alloc, known, rule, number, steps)?;
        number += 1;
    }
    Ok(())
}

/// Appends a placeholder for a set or a policy and returns its index; the steps below the node come
/// after it. Fails only when out of memory.
fn open_node<B: Allocator + Copy>(
    alloc: B,
    combine: Algorithm,
    steps: &mut Vec<PlanNode<B>, B>,
) -> Result<usize, NoMemory>
    ensures { IfOk result
        (λ place. (place ≡ length steps.old.items)
        × (steps.new.items ≡ steps.old.items ++ placeholder B combine ∷ [])) }
{
    let place = steps.len();
    steps.try_push(PlanNode::Node {
        combine,
        target: Target::from_vec(Vec::new(alloc)),
        below: 0,
    })?;
    Ok(place)
}

/// Whether a set or a policy with nothing below it is not applicable by this algorithm.
fn is_silent(combine: Algorithm) -> bool
    ensures { result ≡ is_silent combine }
{
    match combine {
        Algorithm::DenyOverrides | Algorithm::PermitOverrides | Algorithm::FirstApplicable => true,
        Algorithm::DenyUnlessPermit | Algorithm::PermitUnlessDeny => false,
    }
}

/// Replaces the placeholder at `place` by a set or a policy that has all steps after it below it, or
/// takes it away, where nothing is below it and the node would never be applicable.
fn close_node<B: Allocator + Copy>(
    steps: &mut Vec<PlanNode<B>, B>,
    place: usize,
    combine: Algorithm,
    target: Target<B>,
)
    requires { place < length steps.old.items }
    ensures { steps.new.items ≡ node_closed B place combine target steps.old.items }
{
    let below = steps.len() - place - 1;
    if is_silent(combine) && below == 0 {
        steps.truncate(place);
        return;
    }
    steps[place] = PlanNode::Node {
        combine,
        target,
        below,
    };
}

/// Appends the steps of a policy, unless its target holds for no question that fits `known`. The
/// policy's first rule has the number `next`. The contract holds for any name of the policy. Fails
/// only when out of memory.
fn compile_policy<A: Allocator, B: Allocator + Copy>(
    alloc: B,
    known: &Known,
    combine: Algorithm,
    target: &Target<A>,
    rules: &[Rule<A>],
    next: u32,
    steps: &mut Vec<PlanNode<B>, B>,
) -> Result<(), NoMemory>
    requires { next + length rules.now ≤ last_number }
    ensures { (name : List ℕ)
        → OnOk result (Appends B known.now
        (λ q met. StandsFor q met next
        (node_part q met
        (policy (record { name = name; combine = combine; target = target.now }) rules.now)))
        steps.old.items steps.new.items) }
{
    let Some(target) = keep_target(alloc, known, target)? else {
        return Ok(());
    };
    let place = open_node(alloc, combine, steps)?;
    compile_rules(alloc, known, rules, next, steps)?;
    close_node(steps, place, combine, target);
    Ok(())
}

/// Appends the steps of a set or a policy, unless its target holds for no question that fits
/// `known`. The first rule below it has the number `next`. Fails only when out of memory.
#[cycle(compile)]
pub(crate) fn compile_node<A: Allocator, B: Allocator + Copy>(
    alloc: B,
    known: &Known,
    node: &Node<A>,
    next: u32,
    steps: &mut Vec<PlanNode<B>, B>,
) -> Result<(), NoMemory>
    requires { next + length (rules_of (node_view node.now)) ≤ last_number }
    ensures { OnOk result
        (Appends B known.now (λ q met. StandsFor q met next (node_part q met (node_view node.now)))
        steps.old.items steps.new.items) }
{
    match node {
        Node::Set {
            combine,
            target,
            of,
            ..
        } => compile_set(alloc, known, *combine, target, of, next, steps),
        Node::Policy {
            combine,
            target,
            rules,
            ..
        } => compile_policy(alloc, known, *combine, target, rules, next, steps),
    }
}

/// Appends the steps of a set, unless its target holds for no question that fits `known`. The first
/// rule below it has the number `next`. The contract holds for any name of the set. Fails only when
/// out of memory.
#[cycle(compile)]
fn compile_set<A: Allocator, B: Allocator + Copy>(
    alloc: B,
    known: &Known,
    combine: Algorithm,
    target: &Target<A>,
    of: &[Node<A>],
    next: u32,
    steps: &mut Vec<PlanNode<B>, B>,
) -> Result<(), NoMemory>
    requires { next + length (rules_of_all (children_of (map node_view of.now))) ≤ last_number }
    ensures { (name : List ℕ)
        → OnOk result (Appends B known.now
        (λ q met. StandsFor q met next
        (node_part q met
        (set (record { name = name; combine = combine; target = target.now })
        (children_of (map node_view of.now))))) steps.old.items steps.new.items) }
{
    let Some(target) = keep_target(alloc, known, target)? else {
        return Ok(());
    };
    let place = open_node(alloc, combine, steps)?;
    compile_nodes(alloc, known, of, next, steps)?;
    close_node(steps, place, combine, target);
    Ok(())
}

/// Appends the steps of a set's children. The first rule below them has the number `next`. Fails
/// only when out of memory.
#[cycle(compile)]
fn compile_nodes<A: Allocator, B: Allocator + Copy>(
    alloc: B,
    known: &Known,
    nodes: &[Node<A>],
    next: u32,
    steps: &mut Vec<PlanNode<B>, B>,
) -> Result<(), NoMemory>
    requires { next + length (rules_of_all (children_of (map node_view nodes.now))) ≤ last_number }
    ensures { OnOk result
        (Appends B known.now
        (λ q met. AllStandFor q met next (map (λ node. node_part q met (node_view node)) nodes.now))
        steps.old.items steps.new.items) }
{
    let mut next = next;
    for node in nodes {
        compile_node(alloc, known, node, next, steps)?;
        next += rule_count(node);
    }
    Ok(())
}
