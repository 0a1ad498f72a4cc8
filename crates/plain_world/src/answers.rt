//! Answers of searches.

ghost use Rattle.std.specs.Prelude.{◌≡◌};
ghost use Rattle.std.specs.Arc.{arc_value};
ghost use Rattle.features.specs.Rows.{IsSortedById};
ghost use Rattle.judging.specs.Listing.{AreShown};

use decision::Decider;
use features::{Feature, Subject};
use plane::Shape;
use std::alloc::Allocator;
use std::marker::Model;
use std::sync::Arc;

/// The result of a search: its rows by rising id. Each row meets the window, and the decider that
/// the answer carries permits the subject to read it. Only a world makes one.
#[derive(Debug, Drop)]
pub struct Answer<A: Allocator> {
    subject: Subject,
    window: Shape,
    decider: Arc<Decider>,
    rows: Vec<Feature, A>,
}

impl<A: Allocator> Model for Answer<A> {
    ghost use Rattle.std.specs.Arc.{arc_value};
    ghost use Rattle.std.specs.Coded.{code_by, codes};
    ghost use Rattle.plain_world.specs.Answers.{AnswerData, IsAnswer};
    ghost use Rattle.plain_world.specs.Coding.{StoredAnswer, stored_answer, restored_answer, restored_answer-stored_answer};

    ghost Value = { AnswerData };

    ghost coded = { code_by StoredAnswer (Prim.hlevel codes) stored_answer restored_answer
        restored_answer-stored_answer };

    ghost view = { λ a. record {
      subject = a.subject;
      window = a.window;
      decider = arc_value a.decider;
      rows = a.rows.items;
    } };

    ghost invariant = { λ a. IsAnswer (record {
      subject = a.subject;
      window = a.window;
      decider = arc_value a.decider;
      rows = a.rows.items;
    }) };
}

impl<A: Allocator> Answer<A> {
    ghost use Rattle.plain_world.specs.Answers.{AnswerData, IsAnswer};

    /// The answer of these rows, each of which is shown.
    pub(crate) fn new(
        subject: Subject,
        window: Shape,
        decider: Arc<Decider>,
        rows: Vec<Feature, A>,
    ) -> Self
        requires { IsAnswer
            (record {
              subject = subject;
              window = window;
              decider = arc_value decider;
              rows = rows.items;
            }) }
        ensures { result
            ≡ record {
              subject = subject;
              window = window;
              decider = arc_value decider;
              rows = rows.items;
            } }
    {
        Answer {
            subject,
            window,
            decider,
            rows,
        }
    }

    /// Who asked.
    pub fn subject(&self) -> Subject
        ensures { result ≡ self.now.subject }
    {
        self.subject
    }

    /// The window that was searched.
    pub fn window(&self) -> Shape
        ensures { result ≡ self.now.window }
    {
        self.window
    }

    /// The decider that permits each row.
    pub fn decider(&self) -> &Arc<Decider>
        ensures { arc_value result.now ≡ self.now.decider }
    {
        &self.decider
    }

    /// The rows, by rising id. Each meets the window, and the decider permits the subject to read
    /// it.
    pub fn rows(&self) -> &[Feature]
        ensures value { result.now ≡ self.now.rows }
        ensures sorted { IsSortedById self.now.rows }
        ensures shown { AreShown self.now.decider.document self.now.subject self.now.window
            self.now.rows }
    {
        self.rows.as_slice()
    }
}
