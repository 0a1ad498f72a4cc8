//! A law of the definition of rulings. The function has an empty body: it is its contract.

ghost use Rattle.std.specs.Prelude.{◌≡◌};
ghost use Rattle.policy_documents.specs.Documents.{DocumentData};
ghost use Rattle.combining.specs.declared.questions.Question.{Question};
ghost use Rattle.decision.specs.Rulings.{Rules};

use crate::rulings::Ruling;

/// A document has one ruling on a question.
pub fn rulings_are_one()
    ensures { (document : DocumentData) (question : Question) (a b : Ruling)
        → Rules document question a → Rules document question b → a ≡ b }
{}
