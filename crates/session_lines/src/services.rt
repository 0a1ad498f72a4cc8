//! The back end of a session.

ghost use Rattle.std.specs.Prelude.{◌≡◌, ◌≤◌, length};
ghost use Rattle.judging.specs.Judging.{AreDistinct};
ghost use Rattle.plain_world.specs.declared.settings.TheConstants.{CHANGE_LIMIT};
ghost use Rattle.session_lines.specs.Replies.{line, said_view};

use crate::replies::{Reply, Said};
use combining::Question;
use credentials::Key;
use features::{Change, Name, Subject};
use plane::Shape;
use policy_text::Document;
use std::alloc::{Allocator, Global};

/// The back end of a session, which makes the calls that the session's lines ask for. Each call
/// returns the reply to its line.
pub trait Service {
    ghost use Rattle.std.specs.Prelude.{List, Option};
    ghost use Rattle.credentials.specs.declared.keys.Key.{Key};
    ghost use Rattle.features.specs.declared.actors.Subject.{Subject};
    ghost use Rattle.session_lines.specs.Replies.{SaidData};
    ghost use Rattle.session_lines.specs.Services.{Call, Hello, Search, Commit, Govern, Explain, Roll, Leave};

    /// The allocator of rows and of a roll's lines.
    type Memory: Allocator;

    // the keys of those who may begin the session
    ghost keys_of: { Self → List Key };

    // the subject for whom the session asks
    ghost subject_of: { Self → Option Subject };

    // what a call makes of the service, and what is said
    ghost serves: { Call → Self → Self → SaidData → Type 0 };

    /// The keys of those who may begin the session: HELLO then says a secret behind the name. With
    /// none it says a name alone, and is believed.
    fn keys(&self) -> &[Key]
        ensures { result.now ≡ keys_of self.now };

    /// The subject for whom the session asks, from `hello` to `leave`.
    fn subject(&self) -> Option<Subject>
        ensures { result ≡ subject_of self.now };

    /// Begins the session for the subject of a name: `hello`, H1 where there is no such subject, H2
    /// where no seat is left, H3 where a hall is closed, `memory`.
    fn hello(&mut self, name: Name) -> Reply
        ensures { serves (Hello name) self.old self.new (line result) };

    /// Lists what meets a window and the subject may read: `rows`, `memory`, or the search's fault
    /// (of a world S2, S6, S7 or X10).
    fn search(&mut self, window: Shape) -> Said<Self::Memory>
        ensures { serves (Search window) self.old self.new (said_view result) };

    /// Commits a list of changes, all or none: the reply by its judgement, `held`, `memory`, or the
    /// commit's fault (of a world S4 to S7, X8, X10 or X11).
    fn commit(&mut self, changes: &[Change]) -> Reply
        requires distinct { AreDistinct changes.now }
        requires few { length changes.now ≤ CHANGE_LIMIT }
        ensures { serves (Commit changes.now) self.old self.new (line result) };

    /// Puts a document in force: `edition`, X7 where the subject is no steward, `memory`, X8 or
    /// X10.
    fn govern(&mut self, document: Document<Global>) -> Reply
        ensures { serves (Govern document) self.old self.new (line result) };

    /// The ruling of the policy in force on a question: `permit`, `denied`, or H7 where there is no
    /// policy to read.
    fn explain(&mut self, question: &Question) -> Reply
        ensures { serves (Explain question.now) self.old self.new (line result) };

    /// Takes the trail out: `rolled`, X7 where the subject is no steward, X8, `memory`.
    fn roll(&mut self) -> Said<Self::Memory>
        ensures { serves Roll self.old self.new (said_view result) };

    /// Ends the session: `bye`. Another may begin.
    fn leave(&mut self) -> Reply
        ensures { serves Leave self.old self.new (line result) };
}
