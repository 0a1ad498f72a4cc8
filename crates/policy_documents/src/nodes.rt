//! Sets and policies.

ghost use Rattle.std.specs.Prelude.{◌≡◌, ◌↔◌, IfOk, IsTrue, map};
ghost use Rattle.policy_documents.specs.Documents.{children_of};
ghost use Rattle.policy_documents.specs.Equality.{head_of, same_head, same_node, same_children};
ghost use Rattle.policy_documents.specs.Views.{node_view};

use crate::algorithms::Algorithm;
use crate::matches::{Target, copy_target};
use crate::rules::Rule;
use features::Name;
use memory::{GrowVec, NoMemory};
use std::alloc::Allocator;

/// A set, whose children are sets and policies, or a policy, whose children are rules. If its
/// target holds, it combines the decisions of its children.
#[derive(Debug, Drop)]
pub enum Node<A: Allocator> {
    Set {
        name: Name,
        combine: Algorithm,
        target: Target<A>,
        of: Vec<Node<A>, A>,
    },
    Policy {
        name: Name,
        combine: Algorithm,
        target: Target<A>,
        rules: Vec<Rule<A>, A>,
    },
}

/// A copy of the node. Fails only when out of memory.
#[cycle(copy)]
pub(crate) fn copy_node<A: Allocator, B: Allocator + Copy>(
    alloc: B,
    node: &Node<A>,
) -> Result<Node<B>, NoMemory>
    ensures { IfOk result (λ copy. node_view copy ≡ node_view node.now) }
{
    match node {
        Node::Set {
            name,
            combine,
            target,
            of,
        } => Ok(Node::Set {
            name: *name,
            combine: *combine,
            target: copy_target(alloc, target)?,
            of: copy_nodes(alloc, of)?,
        }),
        Node::Policy {
            name,
            combine,
            target,
            rules,
        } => Ok(Node::Policy {
            name: *name,
            combine: *combine,
            target: copy_target(alloc, target)?,
            rules: copy_rules(alloc, rules)?,
        }),
    }
}

/// Copies of the nodes, in their order. Fails only when out of memory.
#[cycle(copy)]
fn copy_nodes<A: Allocator, B: Allocator + Copy>(
    alloc: B,
    nodes: &Vec<Node<A>, A>,
) -> Result<Vec<Node<B>, B>, NoMemory>
    ensures { IfOk result (λ copies. map node_view copies.items ≡ map node_view nodes.now.items) }
{
    let mut copies = Vec::new(alloc);
    for node in nodes {
        copies.try_push(copy_node(alloc, node)?)?;
    }
    Ok(copies)
}

/// Copies of the rules, in their order. Fails only when out of memory.
fn copy_rules<A: Allocator, B: Allocator + Copy>(
    alloc: B,
    rules: &Vec<Rule<A>, A>,
) -> Result<Vec<Rule<B>, B>, NoMemory>
    ensures { IfOk result (λ copies. copies.items ≡ rules.now.items) }
{
    let mut copies = Vec::new(alloc);
    for rule in rules {
        copies.try_push(rule.copy(alloc)?)?;
    }
    Ok(copies)
}

impl<A: Allocator> PartialEq for Node<A> {
    ghost use Rattle.std.specs.Cmp.{decided, on_equiv, partial_equiv_from_equiv};
    ghost use Rattle.policy_documents.specs.Equality.{same_node, same_node_decides};
    ghost use Rattle.policy_documents.specs.Views.{node_view};

    ghost eq = { λ a b. same_node (node_view a) (node_view b) };

    ghost laws = { partial_equiv_from_equiv
        (on_equiv node_view (decided same_node same_node_decides)) };

    #[tactic(auto, using(crate::proofs::EqualLemmas::exact_node))]
    fn eq(&self, other: &Self) -> bool
        ensures tested { result ≡ same_node (node_view self.now) (node_view other.now) }
        ensures exact { IsTrue result ↔ (node_view self.now ≡ node_view other.now) }
    {
        same_node(self, other)
    }
}

impl<A: Allocator> Eq for Node<A> {
    ghost use Rattle.std.specs.Cmp.{decided, on_equiv};
    ghost use Rattle.policy_documents.specs.Equality.{same_node, same_node_decides};
    ghost use Rattle.policy_documents.specs.Views.{node_view};

    ghost laws = { on_equiv node_view (decided same_node same_node_decides) };
}

/// Whether two nodes are equal.
#[cycle(same)]
fn same_node<A: Allocator>(node: &Node<A>, other: &Node<A>) -> bool
    ensures { result ≡ same_node (node_view node.now) (node_view other.now) }
{
    match node {
        Node::Set { of, .. } => match other {
            Node::Set { of: others, .. } => same_head(node, other) && same_nodes(of, others),
            Node::Policy { .. } => false,
        },
        Node::Policy { rules, .. } => match other {
            Node::Policy { rules: others, .. } => same_head(node, other) && *rules == *others,
            Node::Set { .. } => false,
        },
    }
}

/// Whether two nodes have equal names, algorithms and targets.
#[tactic(auto, using(crate::proofs::EqualLemmas::same_target_derived))]
fn same_head<A: Allocator>(node: &Node<A>, other: &Node<A>) -> bool
    ensures { result ≡ same_head (head_of (node_view node.now)) (head_of (node_view other.now)) }
{
    let (name, combine, target) = head(node);
    let (other_name, other_combine, other_target) = head(other);
    name == other_name && combine == other_combine && *target == *other_target
}

/// The node's name, algorithm and target.
fn head<A: Allocator>(node: &Node<A>) -> (Name, Algorithm, &Target<A>)
    ensures { head_of (node_view node.now)
        ≡ record { name = result.0; combine = result.1; target = result.2.now } }
{
    match node {
        Node::Set {
            name,
            combine,
            target,
            ..
        }
        | Node::Policy {
            name,
            combine,
            target,
            ..
        } => (*name, *combine, target),
    }
}

/// Whether two lists of nodes are equal.
#[cycle(same)]
fn same_nodes<A: Allocator>(nodes: &[Node<A>], others: &[Node<A>]) -> bool
    ensures { result
        ≡ same_children (children_of (map node_view nodes.now))
        (children_of (map node_view others.now)) }
{
    if nodes.len() != others.len() {
        return false;
    }
    for (index, node) in nodes.iter().enumerate() {
        if !same_node(node, &others[index]) {
            return false;
        }
    }
    true
}
