//! What a configuration has, in numbers.

ghost use Rattle.std.specs.Prelude.{◌≡◌, ◌≤◌, ◌<◌, ◌+◌, ◌++◌, map, IfOk, OnOk};
ghost use Rattle.std.specs.List.{flat_map};
ghost use Rattle.policy_documents.specs.Views.{node_view};
ghost use Rattle.configuration.specs.Configs.{config_data};
ghost use Rattle.configuration.specs.Summaries.{count_of, counted, is_permit, node_permits, summary_of};

use crate::configs::Config;
use features::Subject;
use memory::{GrowVec, NoMemory};
use policy_text::{Effect, Node, Rule};
use std::alloc::Allocator;
use std::fmt;

/// What a configuration has, in numbers.
#[derive(Clone, Copy, Debug, PartialEq, Eq)]
pub struct Summary {
    /// Its subjects.
    pub subjects: usize,
    /// Those that are stewards.
    pub stewards: usize,
    /// The zones of its policies.
    pub zones: usize,
    /// The rules that permit.
    pub permits: usize,
    /// The rules that deny.
    pub denies: usize,
}

impl fmt::Display for Summary {
    ghost use Rattle.std.specs.Prelude.{Some};
    ghost use Rattle.configuration.specs.Summaries.{summary_text};

    ghost output = { λ summary. Some (summary_text summary) };

    /// A line for each number.
    fn fmt<W: fmt::Write>(&self, f: &mut fmt::Formatter<W>) -> fmt::Result {
        write!(
            f,
            "subjects {}\nstewards {}\nzones {}\nrules that permit {}\nrules that deny {}\n",
            self.subjects, self.stewards, self.zones, self.permits, self.denies
        )
    }
}

/// The count with one more flag.
fn counted(wanted: bool, count: usize, flag: bool) -> usize
    requires { count < usize.MAX }
    ensures value { result ≡ counted wanted count flag }
    ensures grows { result ≤ count + 1 }
{
    if flag == wanted { count + 1 } else { count }
}

/// How many flags are this one.
fn count_of(wanted: bool, flags: &[bool]) -> usize
    ensures { result ≡ count_of wanted flags.now }
{
    let mut count = 0;
    for flag in flags {
        count = counted(wanted, count, *flag);
    }
    count
}

/// Whether each subject is a steward.
fn put_stewards<A: Allocator>(
    subjects: &[Subject],
    flags: &mut Vec<bool, A>,
) -> Result<(), NoMemory>
    ensures { OnOk result (flags.new.items ≡ flags.old.items ++ map (λ s. s.steward) subjects.now) }
{
    for subject in subjects {
        flags.try_push(subject.steward)?;
    }
    Ok(())
}

/// Whether each rule of a policy permits.
fn put_rule_permits<A: Allocator, B: Allocator>(
    rules: &Vec<Rule<A>, A>,
    flags: &mut Vec<bool, B>,
) -> Result<(), NoMemory>
    ensures { OnOk result (flags.new.items ≡ flags.old.items ++ map is_permit rules.now.items) }
{
    for rule in rules {
        flags.try_push(rule.effect == Effect::Permit)?;
    }
    Ok(())
}

/// Whether each rule below a node permits.
#[cycle(permits)]
fn put_permits<A: Allocator, B: Allocator>(
    node: &Node<A>,
    flags: &mut Vec<bool, B>,
) -> Result<(), NoMemory>
    ensures { OnOk result (flags.new.items
        ≡ flags.old.items ++ node_permits (node_view node.now)) }
{
    match node {
        Node::Set { of, .. } => put_permits_below(of, flags),
        Node::Policy { rules, .. } => put_rule_permits(rules, flags),
    }
}

/// Whether each rule below the children of a set permits.
#[cycle(permits)]
fn put_permits_below<A: Allocator, B: Allocator>(
    nodes: &Vec<Node<A>, A>,
    flags: &mut Vec<bool, B>,
) -> Result<(), NoMemory>
    ensures { OnOk result (flags.new.items
        ≡ flags.old.items ++ flat_map (λ n. node_permits (node_view n)) nodes.now.items) }
{
    for node in nodes {
        put_permits(node, flags)?;
    }
    Ok(())
}

/// What a configuration has. The flags that are counted lie in `alloc` meanwhile; the only error is
/// that it refused an allocation.
pub(crate) fn summary_of<A: Allocator, B: Allocator + Copy>(
    alloc: B,
    config: &Config<A>,
) -> Result<Summary, NoMemory>
    ensures { IfOk result (λ summary. summary ≡ summary_of (config_data config.now)) }
{
    let subjects = config.subjects.as_slice();
    let mut stewards = Vec::new(alloc);
    put_stewards(subjects, &mut stewards)?;
    let mut permits = Vec::new(alloc);
    put_permits(config.document.root(), &mut permits)?;
    Ok(Summary {
        subjects: subjects.len(),
        stewards: count_of(true, &stewards),
        zones: config.document.zone_count(),
        permits: count_of(true, &permits),
        denies: count_of(false, &permits),
    })
}
