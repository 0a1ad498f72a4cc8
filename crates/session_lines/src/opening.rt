//! HELLO where there are keys: a secret stands behind the name.

ghost use Rattle.session_lines.specs.Commands.{Gives};
ghost use Rattle.session_lines.specs.Desks.{desk};
ghost use Rattle.session_lines.specs.Opening.{AnswersOpened, greeting_at, let_in, opened};
ghost use Rattle.session_lines.specs.Replies.{said_view};

use crate::commands::{Verb, as_name, due_word, end, read_verb};
use crate::desks::{Staged, answer};
use crate::faults::LineFault;
use crate::replies::{Reply, Said};
use crate::services::Service;
use credentials::{Key, has_key};
use features::Name;
use std::alloc::Global;

/// The line up to the name, where a key of the name has this secret; else `NoSubject`.
fn let_in<'a>(
    keys: &[Key],
    name: &Name,
    secret: &[u8],
    text: &'a [u8],
    rest: &[u8],
) -> Result<&'a [u8], LineFault>
    ensures { Gives (λ line. line.now) result (let_in keys.now name.now secret.now text.now rest.now) }
{
    if has_key(keys, name, secret) {
        Ok(&text[..text.len().saturating_sub(rest.len())])
    } else {
        Err(LineFault::NoSubject)
    }
}

/// A line of HELLO without its secret, where `words` are what stands behind the command. Faults from
/// left to right: `Command` for a missing word, `Name`, `Command` for something left over; then
/// `NoSubject`.
#[tactic(auto, unfolding(crate::specs::Opening::greeting_at))]
fn greeting<'a>(keys: &[Key], text: &'a [u8], words: &[u8]) -> Result<&'a [u8], LineFault>
    ensures { Gives (λ line. line.now) result (greeting_at keys.now text.now words.now) }
{
    let (word, rest) = due_word(words)?;
    let name = as_name(word)?;
    let (secret, behind) = due_word(rest)?;
    end(behind)?;
    let_in(keys, &name, secret, text, rest)
}

/// The line that is answered: where there are keys, that of HELLO without its secret.
fn opened<'a>(keys: &[Key], begun: bool, text: &'a [u8]) -> Result<&'a [u8], LineFault>
    ensures { Gives (λ line. line.now) result (opened keys.now begun text.now) }
{
    if keys.is_empty() {
        return Ok(text);
    }
    let (verb, words) = read_verb(begun, text)?;
    match verb {
        Verb::Hello => greeting(keys, text, words),
        _ => Ok(text),
    }
}

/// Answers a line of a session, without its label and its end, by a service that may have keys.
pub(crate) fn answer_opened<S: Service>(
    service: &mut S,
    heap: Global,
    staged: &mut Staged,
    text: &[u8],
) -> Said<S::Memory>
    ensures { AnswersOpened S.keys_of S.subject_of S.serves text.now (desk staged.old service.old)
        (desk staged.new service.new) (said_view result) }
{
    match opened(service.keys(), service.subject().is_some(), text) {
        Ok(line) => answer(service, heap, staged, line),
        Err(fault) => Said::Line(Reply::Error(fault)),
    }
}
