//! The commands of session lines: their words, and the order of a line's faults.

ghost use Rattle.std.specs.Prelude.{◌≡◌};
ghost use Rattle.features.specs.Names.{name_of};
ghost use Rattle.line_words.specs.Words.{number_of};
ghost use Rattle.session_lines.specs.Actions.{action_of};
ghost use Rattle.session_lines.specs.Commands.{Gives, verb_of, verb_at, verb_for, allowed, or_fault, word_at, shape_at, end_at, hello_at, add_at, reshape_at, delete_at, explain_at, alone_at, arguments_at};

use crate::actions::action_named;
use crate::faults::LineFault;
use features::{Action, Change, Name};
use line_words::{next_word, read_number};
use plane::Shape;
use wkt::read_shape;

/// A command of a session. POLICY is none of these: its document is the rest of the line.
#[derive(Clone, Copy, Debug, PartialEq, Eq)]
pub(crate) enum Command {
    /// HELLO: begins the session, for the subject of this name.
    Hello(Name),
    /// SEARCH: lists the features that meet this window.
    Search(Shape),
    /// ADD, RESHAPE, DELETE: stages a change.
    Stage(Change),
    /// COMMIT: commits the staged list.
    Commit,
    /// ABORT: drops the staged list.
    Abort,
    /// EXPLAIN: says whether the session's subject may do this.
    Explain(Asking),
    /// ROLL: takes the trail out.
    Roll,
    /// BYE: ends the session.
    Bye,
}

/// What EXPLAIN asks: whether the session's subject may do this with a feature of this office and
/// class, at this shape.
#[derive(Clone, Copy, Debug, PartialEq, Eq)]
pub(crate) struct Asking {
    /// What would be done.
    pub action: Action,
    /// The office whose feature it is.
    pub owner: Name,
    /// The feature's class.
    pub class: Name,
    /// Where it is.
    pub shape: Shape,
}

/// The first word of a line.
#[derive(Clone, Copy, Debug, PartialEq, Eq)]
pub(crate) enum Verb {
    Hello,
    Search,
    Add,
    Reshape,
    Delete,
    Commit,
    Abort,
    Policy,
    Explain,
    Roll,
    Bye,
}

/// Reads the command of a line without its label, for a session that has begun or not; returns it
/// with the rest of the line. Faults in this order: `Command` for an unknown command, then
/// `BeforeHello` or `HelloAgain`.
#[tactic(auto, unfolding(crate::specs::Commands::verb_for))]
pub(crate) fn read_verb(begun: bool, text: &[u8]) -> Result<(Verb, &[u8]), LineFault>
    ensures { Gives (λ r. (r.0, r.1.now)) result (verb_for begun text.now) }
{
    let (verb, rest) = first_verb(text)?;
    allow(begun, verb)?;
    Ok((verb, rest))
}

/// The command that a word names.
fn verb_named(word: &[u8]) -> Option<Verb>
    ensures { result ≡ verb_of word.now }
{
    if word == b"HELLO".as_slice() {
        Some(Verb::Hello)
    } else if word == b"SEARCH".as_slice() {
        Some(Verb::Search)
    } else if word == b"ADD".as_slice() {
        Some(Verb::Add)
    } else if word == b"RESHAPE".as_slice() {
        Some(Verb::Reshape)
    } else if word == b"DELETE".as_slice() {
        Some(Verb::Delete)
    } else if word == b"COMMIT".as_slice() {
        Some(Verb::Commit)
    } else if word == b"ABORT".as_slice() {
        Some(Verb::Abort)
    } else if word == b"POLICY".as_slice() {
        Some(Verb::Policy)
    } else if word == b"EXPLAIN".as_slice() {
        Some(Verb::Explain)
    } else if word == b"ROLL".as_slice() {
        Some(Verb::Roll)
    } else if word == b"BYE".as_slice() {
        Some(Verb::Bye)
    } else {
        None
    }
}

/// The command that the first word names, and the rest of the line.
#[tactic(auto, unfolding(crate::specs::Commands::verb_at))]
fn first_verb(text: &[u8]) -> Result<(Verb, &[u8]), LineFault>
    ensures { Gives (λ r. (r.0, r.1.now)) result (verb_at text.now) }
{
    let (word, rest) = due_word(text)?;
    let verb = verb_named(word).ok_or(LineFault::Command)?;
    Ok((verb, rest))
}

/// `HelloAgain` or `BeforeHello` where the command may not come now.
fn allow(begun: bool, verb: Verb) -> Result<(), LineFault>
    ensures { result ≡ allowed begun verb }
{
    match verb {
        Verb::Bye => Ok(()),
        Verb::Hello if begun => Err(LineFault::HelloAgain),
        Verb::Hello => Ok(()),
        _ if begun => Ok(()),
        _ => Err(LineFault::BeforeHello),
    }
}

/// Reads the words of a command. Faults of the words from left to right: `Command` for a missing
/// one, `Number`, `Name`; then those of the shape's text; then `Command` for something left over.
#[tactic(auto, unfolding(crate::specs::Commands::arguments_at))]
pub(crate) fn read_arguments(verb: Verb, rest: &[u8]) -> Result<Command, LineFault>
    ensures { result ≡ arguments_at verb rest.now }
{
    match verb {
        Verb::Hello => hello(rest),
        Verb::Search => Ok(Command::Search(as_shape(rest)?)),
        Verb::Add => add(rest),
        Verb::Reshape => reshape(rest),
        Verb::Delete => delete(rest),
        Verb::Commit => alone(Command::Commit, rest),
        Verb::Abort => alone(Command::Abort, rest),
        // No line comes here: `take_command` reads a policy's text before.
        Verb::Policy => Err(LineFault::Command),
        Verb::Explain => explain(rest),
        Verb::Roll => alone(Command::Roll, rest),
        Verb::Bye => alone(Command::Bye, rest),
    }
}

/// A command that has no words.
#[tactic(auto, unfolding(crate::specs::Commands::alone_at))]
fn alone(command: Command, rest: &[u8]) -> Result<Command, LineFault>
    ensures { result ≡ alone_at command rest.now }
{
    end(rest)?;
    Ok(command)
}

/// The words of HELLO: a name.
#[tactic(auto, unfolding(crate::specs::Commands::hello_at))]
fn hello(rest: &[u8]) -> Result<Command, LineFault>
    ensures { result ≡ hello_at rest.now }
{
    let (word, rest) = due_word(rest)?;
    let name = as_name(word)?;
    end(rest)?;
    Ok(Command::Hello(name))
}

/// The words of ADD: the id, the class, and the shape.
#[tactic(auto, unfolding(crate::specs::Commands::add_at))]
fn add(rest: &[u8]) -> Result<Command, LineFault>
    ensures { result ≡ add_at rest.now }
{
    let (word, rest) = due_word(rest)?;
    let id = as_number(word)?;
    let (word, rest) = due_word(rest)?;
    let class = as_name(word)?;
    let shape = as_shape(rest)?;
    Ok(Command::Stage(Change::Add { id, class, shape }))
}

/// The words of RESHAPE: the id, the version that the editor has seen, and the shape.
#[tactic(auto, unfolding(crate::specs::Commands::reshape_at))]
fn reshape(rest: &[u8]) -> Result<Command, LineFault>
    ensures { result ≡ reshape_at rest.now }
{
    let (word, rest) = due_word(rest)?;
    let id = as_number(word)?;
    let (word, rest) = due_word(rest)?;
    let version = as_number(word)?;
    let shape = as_shape(rest)?;
    Ok(Command::Stage(Change::Reshape { id, version, shape }))
}

/// The words of DELETE: the id, and the version that the editor has seen.
#[tactic(auto, unfolding(crate::specs::Commands::delete_at))]
fn delete(rest: &[u8]) -> Result<Command, LineFault>
    ensures { result ≡ delete_at rest.now }
{
    let (word, rest) = due_word(rest)?;
    let id = as_number(word)?;
    let (word, rest) = due_word(rest)?;
    let version = as_number(word)?;
    end(rest)?;
    Ok(Command::Stage(Change::Delete { id, version }))
}

/// The words of EXPLAIN: the action, the office, the class, and the shape.
#[tactic(auto, unfolding(crate::specs::Commands::explain_at))]
fn explain(rest: &[u8]) -> Result<Command, LineFault>
    ensures { result ≡ explain_at rest.now }
{
    let (word, rest) = due_word(rest)?;
    let action = as_action(word)?;
    let (word, rest) = due_word(rest)?;
    let owner = as_name(word)?;
    let (word, rest) = due_word(rest)?;
    let class = as_name(word)?;
    let shape = as_shape(rest)?;
    Ok(Command::Explain(Asking {
        action,
        owner,
        class,
        shape,
    }))
}

/// The action that a word names, or `Name`.
fn as_action(word: &[u8]) -> Result<Action, LineFault>
    ensures { result ≡ or_fault LineFault.Name (action_of word.now) }
{
    action_named(word).ok_or(LineFault::Name)
}

/// The next word, and the rest of the text. `Command` where no word is left.
pub fn due_word(text: &[u8]) -> Result<(&[u8], &[u8]), LineFault>
    ensures { Gives (λ r. (r.0.now, r.1.now)) result (word_at text.now) }
{
    next_word(text).ok_or(LineFault::Command)
}

/// The number that a word spells, or `Number`.
pub fn as_number(word: &[u8]) -> Result<u64, LineFault>
    ensures { result ≡ or_fault LineFault.Number (number_of word.now) }
{
    read_number(word).ok_or(LineFault::Number)
}

/// The name that a word is, or `Name`.
pub(crate) fn as_name(word: &[u8]) -> Result<Name, LineFault>
    ensures { result ≡ or_fault LineFault.Name (name_of word.now) }
{
    Name::new(word).ok_or(LineFault::Name)
}

/// The shape that the rest of a line spells, or the fault of its text.
#[tactic(auto, unfolding(crate::specs::Commands::shape_at))]
pub fn as_shape(text: &[u8]) -> Result<Shape, LineFault>
    ensures { result ≡ shape_at text.now }
{
    read_shape(text).map_err(LineFault::Shape)
}

/// `Command` unless nothing but spaces is left.
#[tactic(auto, unfolding(crate::specs::Commands::end_at))]
pub fn end(text: &[u8]) -> Result<(), LineFault>
    ensures { result ≡ end_at text.now }
{
    match next_word(text) {
        None => Ok(()),
        Some(_) => Err(LineFault::Command),
    }
}
