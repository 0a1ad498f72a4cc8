//! Answers a session's lines, over any service.

ghost use Rattle.std.specs.Prelude.{◌≡◌, List, []};
ghost use Rattle.features.specs.declared.rows.Change.{Change};
ghost use Rattle.plain_world.specs.Staging.{names};
ghost use Rattle.session_lines.specs.Desks.{Answers, Asks, Closes, Does, GovernsLine, Obeys, is_policy, staged_with, desk};
ghost use Rattle.session_lines.specs.Replies.{line, said_view};

use crate::commands::{Asking, Command, Verb, read_arguments, read_verb};
use crate::faults::LineFault;
use crate::lists::ChangeList;
use crate::replies::{Reply, Said, policy_reply};
use crate::services::Service;
use combining::Question;
use features::Change;
use plain_world::{CHANGE_LIMIT, Fault as WorldFault};
use policy_text::read_document;
use std::alloc::Global;
use std::marker::Model;

/// The changes that a session has staged, each of another feature. Contracts see their list. They
/// are stored in the value itself, so staging takes no memory.
#[derive(Debug, Drop)]
pub struct Staged {
    changes: ChangeList,
}

impl Model for Staged {
    ghost use Rattle.std.specs.Prelude.{List};
    ghost use Rattle.features.specs.declared.rows.Change.{Change};
    ghost use Rattle.judging.specs.Judging.{AreDistinct};

    ghost Value = { List Change };

    ghost view = { λ s. s.changes };

    ghost invariant = { λ s. AreDistinct s.changes };
}

impl Staged {
    /// Nothing is staged.
    pub fn new() -> Self
        ensures { result ≡ [] }
    {
        Staged {
            changes: ChangeList::new(),
        }
    }

    /// Stages a change. X6 where 16 are staged, then X5 where one of them names the same feature.
    fn stage(&mut self, change: Change) -> Reply
        ensures { (self.new, result) ≡ staged_with change self.old }
    {
        if self.changes.len() >= CHANGE_LIMIT {
            return Reply::Failed(WorldFault::TooManyChanges);
        }
        if is_named(self.changes.as_slice(), change.id()) {
            return Reply::Failed(WorldFault::NamedTwice);
        }
        self.changes.push(change);
        Reply::Staged
    }

    /// Drops what is staged.
    fn clear(&mut self)
        ensures { self.new ≡ [] }
    {
        self.changes.clear();
    }

    /// Commits the staged list, and drops it once it is judged. E7 where nothing is staged.
    fn commit<S: Service>(&mut self, service: &mut S) -> Reply
        ensures { Closes S.serves (desk self.old service.old) (desk self.new service.new)
            (line result) }
    {
        if self.changes.len() == 0 {
            return Reply::Error(LineFault::NothingStaged);
        }
        let reply = service.commit(self.changes.as_slice());
        if reply.ends_list() {
            self.changes.clear();
        }
        reply
    }
}

/// Whether a change of the list names this feature.
fn is_named(changes: &[Change], id: u64) -> bool
    ensures { result ≡ names id changes.now }
{
    changes.iter().any(|change| change.id() == id)
}

/// Whether the command is POLICY, which takes all the rest of its line.
fn is_policy(verb: &Verb) -> bool
    ensures { result ≡ is_policy verb.now }
{
    matches!(verb, Verb::Policy)
}

/// Answers a line of a session, without its label and its end. `heap` is where a document is read.
pub fn answer<S: Service>(
    service: &mut S,
    heap: Global,
    staged: &mut Staged,
    text: &[u8],
) -> Said<S::Memory>
    ensures { Answers S.subject_of S.serves text.now (desk staged.old service.old)
        (desk staged.new service.new) (said_view result) }
{
    match read_verb(service.subject().is_some(), text) {
        Err(fault) => Said::Line(Reply::Error(fault)),
        Ok((verb, rest)) => take_command(service, heap, staged, verb, rest),
    }
}

/// Answers a line with this command, whose words or document are the rest of the line.
fn take_command<S: Service>(
    service: &mut S,
    heap: Global,
    staged: &mut Staged,
    verb: Verb,
    rest: &[u8],
) -> Said<S::Memory>
    ensures { Does S.subject_of S.serves verb rest.now (desk staged.old service.old)
        (desk staged.new service.new) (said_view result) }
{
    if is_policy(&verb) {
        return Said::Line(govern(service, heap, rest));
    }
    match read_arguments(verb, rest) {
        Err(fault) => Said::Line(Reply::Error(fault)),
        Ok(command) => obey(service, staged, command),
    }
}

/// Puts in force the document that a text spells. The staged list stays.
fn govern<S: Service>(service: &mut S, heap: Global, text: &[u8]) -> Reply
    ensures { (staged : List Change)
        → GovernsLine S.serves text.now (desk staged service.old) (desk staged service.new)
        (line result) }
{
    match read_document(heap, heap, text) {
        Err(fault) => policy_reply(fault),
        Ok(document) => service.govern(document),
    }
}

/// The ruling of the policy in force on what the session's subject asks. The staged list stays.
fn explain<S: Service>(service: &mut S, asking: &Asking) -> Reply
    ensures { (staged : List Change)
        → Asks S.subject_of S.serves asking.now (desk staged service.old) (desk staged service.new)
        (line result) }
{
    match service.subject() {
        None => Reply::Error(LineFault::BeforeHello),
        Some(subject) => service.explain(&Question {
            subject,
            action: asking.action,
            owner: asking.owner,
            class: asking.class,
            shape: asking.shape,
        }),
    }
}

/// Does what a command asks.
fn obey<S: Service>(service: &mut S, staged: &mut Staged, command: Command) -> Said<S::Memory>
    ensures { Obeys S.subject_of S.serves command (desk staged.old service.old)
        (desk staged.new service.new) (said_view result) }
{
    match command {
        Command::Hello(name) => Said::Line(service.hello(name)),
        Command::Search(window) => service.search(window),
        Command::Stage(change) => Said::Line(staged.stage(change)),
        Command::Commit => Said::Line(staged.commit(service)),
        Command::Abort => {
            staged.clear();
            Said::Line(Reply::Aborted)
        }
        Command::Explain(asking) => Said::Line(explain(service, &asking)),
        Command::Roll => service.roll(),
        Command::Bye => {
            staged.clear();
            Said::Line(service.leave())
        }
    }
}
