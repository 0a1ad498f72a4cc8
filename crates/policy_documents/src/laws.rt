//! A law of the tests that compare parts of documents. The function is its contract.

ghost use Rattle.std.specs.Prelude.{◌≡◌, ◌↔◌, IsTrue};
ghost use Rattle.policy_documents.specs.contracts.matches.MatchPartialEq.TheImpl as matching;
ghost use Rattle.policy_documents.specs.contracts.matches.AtomPartialEq.TheImpl as testing;

use crate::matches::{Atom, Match};

/// `==` on matches and on atoms is exact, and therefore also on what is made of them.
pub fn tests_compare_exactly()
    ensures matches { (a b : Match) → IsTrue (matching.eq-value.it a b) ↔ (a ≡ b) }
    ensures atoms { (a b : Atom) → IsTrue (testing.eq-value.it a b) ↔ (a ≡ b) }
{}
