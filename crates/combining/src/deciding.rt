//! Evaluates a document by recursion to a decision and the rule that made it.

ghost use Rattle.std.specs.Prelude.{◌≡◌, ◌+◌, ◌≤◌, length, map};
ghost use Rattle.combining.specs.Decisions.{effect_decision};
ghost use Rattle.combining.specs.Deciding.{rule_part};
ghost use Rattle.combining.specs.Gathering.{gathered_of, part_verdict, node_part, last_number};
ghost use Rattle.policy_documents.specs.Documents.{rules_of, rules_of_all, children_of};
ghost use Rattle.policy_documents.specs.Views.{node_view};

use crate::decisions::{Decision, Verdict};
use crate::gathering::Gathered;
use crate::holding::{rule_applies, target_holds};
use crate::questions::Question;
use features::Name;
use policy_documents::{Algorithm, Effect, Node, Rule};
use std::alloc::Allocator;

const NOT_APPLICABLE: Verdict = Verdict {
    decision: Decision::NotApplicable,
    rule: None,
};

/// The decision of a rule with this effect, if the rule applies.
pub fn effect_decision(effect: Effect) -> Decision
    ensures { result ≡ effect_decision effect }
{
    match effect {
        Effect::Permit => Decision::Permit,
        Effect::Deny => Decision::Deny,
    }
}

/// The verdict of the rule with this number: its effect if it applies.
#[tactic(auto, using(crate::proofs::GatherLemmas::rule_applied, crate::proofs::GatherLemmas::rule_left))]
fn decide_rule<A: Allocator>(
    question: &Question,
    met: &[Name],
    rule: &Rule<A>,
    number: u32,
) -> Verdict
    ensures { result
        ≡ part_verdict question.now met.now number (rule_part question.now met.now rule.now) }
{
    if !rule_applies(question, met, rule) {
        return NOT_APPLICABLE;
    }
    Verdict {
        decision: effect_decision(rule.effect),
        rule: Some(number),
    }
}

/// Gathers the verdicts of a policy's rules, the first of which has the number `next`.
fn gather_rules<A: Allocator>(
    question: &Question,
    met: &[Name],
    combine: Algorithm,
    rules: &[Rule<A>],
    next: u32,
) -> Gathered
    requires { next + length rules.now ≤ last_number }
    ensures { result
        ≡ gathered_of question.now met.now combine next
        (map (rule_part question.now met.now) rules.now) }
{
    let mut gathered = Gathered::new();
    let mut number = next;
    for rule in rules {
        let verdict = decide_rule(question, met, rule, number);
        gathered = gathered.with(combine, verdict);
        number += 1;
    }
    gathered
}

/// What a set or a policy decides, and the first rule that made the decision. The first rule below
/// it has the number `next`.
#[cycle(decide)]
pub(crate) fn decide_node<A: Allocator>(
    question: &Question,
    met: &[Name],
    node: &Node<A>,
    next: u32,
) -> Verdict
    requires { next + length (rules_of (node_view node.now)) ≤ last_number }
    ensures { result
        ≡ part_verdict question.now met.now next
        (node_part question.now met.now (node_view node.now)) }
{
    match node {
        Node::Set {
            combine,
            target,
            of,
            ..
        } => {
            if !target_holds(question, met, target) {
                return NOT_APPLICABLE;
            }
            gather_nodes(question, met, *combine, of, next).settle(*combine)
        }
        Node::Policy {
            combine,
            target,
            rules,
            ..
        } => {
            if !target_holds(question, met, target) {
                return NOT_APPLICABLE;
            }
            gather_rules(question, met, *combine, rules, next).settle(*combine)
        }
    }
}

/// Gathers the verdicts of a set's children. The first rule below them has the number `next`.
#[cycle(decide)]
fn gather_nodes<A: Allocator>(
    question: &Question,
    met: &[Name],
    combine: Algorithm,
    nodes: &[Node<A>],
    next: u32,
) -> Gathered
    requires { next + length (rules_of_all (children_of (map node_view nodes.now))) ≤ last_number }
    ensures { result
        ≡ gathered_of question.now met.now combine next
        (map (λ node. node_part question.now met.now (node_view node)) nodes.now) }
{
    let mut gathered = Gathered::new();
    let mut next = next;
    for node in nodes {
        let verdict = decide_node(question, met, node, next);
        gathered = gathered.with(combine, verdict);
        next += rule_count(node);
    }
    gathered
}

/// How many rules are below a node.
#[cycle(count)]
pub fn rule_count<A: Allocator>(node: &Node<A>) -> u32
    requires { length (rules_of (node_view node.now)) ≤ last_number }
    ensures { result ≡ length (rules_of (node_view node.now)) }
{
    match node {
        Node::Set { of, .. } => rule_count_of_all(of),
        Node::Policy { rules, .. } => rules.len() as u32,
    }
}

/// How many rules are below these nodes.
#[cycle(count)]
fn rule_count_of_all<A: Allocator>(nodes: &[Node<A>]) -> u32
    requires { length (rules_of_all (children_of (map node_view nodes.now))) ≤ last_number }
    ensures { result ≡ length (rules_of_all (children_of (map node_view nodes.now))) }
{
    let mut count = 0;
    for node in nodes {
        count += rule_count(node);
    }
    count
}
