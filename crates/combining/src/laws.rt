//! Laws of the definitions that documents are decided by. Each function is its contract.

ghost use Rattle.std.specs.Prelude.{◌≡◌, ℕ, true, false, List, ◌∷◌, ◌++◌, map, Some, is_some};
ghost use Rattle.std.specs.List.{list_any};
ghost use Rattle.plane.specs.declared.point.Point.{Point};
ghost use Rattle.policy_documents.specs.Documents.{NodeData, DocumentData, rules_of};
ghost use Rattle.policy_documents.specs.declared.algorithms.Algorithm.{Algorithm};
ghost use Rattle.policy_documents.specs.declared.zones.Zone.{Zone};
ghost use Rattle.combining.specs.Holding.{AreMet};
ghost use Rattle.combining.specs.Decisions.{combined, is_settled, is_not_applicable, decision_of};
ghost use Rattle.combining.specs.Deciding.{placed_rules, first_deciding, IsMadeBy, Answers};
ghost use Rattle.combining.specs.ThreeAlgorithms.{uses_older, older_decision, older_first_deciding};

use crate::decisions::{Decision, Verdict};
use crate::questions::Question;

/// For a document that uses neither deny-unless-permit nor permit-unless-deny, the decision and the
/// first deciding rule are those of the older definitions, which have three algorithms. Each Permit
/// and each Deny of such a document is made by a rule; none is given by default.
pub fn older_documents_decide_as_before()
    ensures decision { (question : Question) (met : List (List ℕ)) (root : NodeData)
        → uses_older root ≡ true
        → decision_of question met root ≡ older_decision question met root }
    ensures rule { (question : Question) (met : List (List ℕ)) (root : NodeData)
        → uses_older root ≡ true
        → first_deciding question met root ≡ older_first_deciding question met root }
    ensures made { (question : Question) (met : List (List ℕ)) (root : NodeData)
        → uses_older root ≡ true → is_not_applicable (decision_of question met root) ≡ false
        → is_some (first_deciding question met root) ≡ true }
{}

/// A shape meets the zones of one list of names, and a document has one verdict on a question.
pub fn answers_are_one()
    ensures met { (shape : List Point) (zones : List Zone) (a b : List (List ℕ))
        → AreMet shape zones a → AreMet shape zones b → a ≡ b }
    ensures verdict { (document : DocumentData) (question : Question) (a b : Verdict)
        → Answers document question a → Answers document question b → a ≡ b }
{}

/// Evaluating a document and naming its rules number the rules alike: in document order, from 1.
/// The number in a verdict is that of a rule that made the decision, and the document names that
/// rule by this number.
pub fn verdicts_number_as_documents_name()
    ensures order { (question : Question) (met : List (List ℕ)) (root : NodeData)
        → map (λ placed. placed.rule) (placed_rules question met root) ≡ rules_of root }
    ensures named { (question : Question) (met : List (List ℕ)) (root : NodeData) (number : ℕ)
        → first_deciding question met root ≡ Some number → IsMadeBy question met root number }
{}

/// The first child that settles an algorithm decides for all children.
pub fn settled_children_decide()
    ensures { (algorithm : Algorithm) (before : List Decision) (decision : Decision)
        (after : List Decision) → list_any (is_settled algorithm) before ≡ false
        → is_settled algorithm decision ≡ true
        → combined algorithm (before ++ decision ∷ after) ≡ decision }
{}
