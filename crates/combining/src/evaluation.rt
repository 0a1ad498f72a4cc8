//! What a document decides.

ghost use Rattle.combining.specs.Deciding.{Answers};

use crate::deciding::decide_node;
use crate::decisions::Verdict;
use crate::questions::Question;
use crate::zones::met_zones;
use policy_documents::Document;
use std::alloc::Allocator;

/// The decision of the document's root for a question, after XACML 3.0, section 7 and appendix C,
/// with the number of the first rule, in document order, that made it. A rule made the decision if
/// it applies and has that effect, all sets and policies around it have that decision, and within
/// first-applicable no earlier child was applicable. `rule` is `None` for NotApplicable, and for a
/// Permit or a Deny that an algorithm gives by default. Allocates nothing.
///
/// The world rules by a compiled document (`decision::Decider`); this is the plain way, with which
/// tests compare it.
pub fn evaluate<A: Allocator>(document: &Document<A>, question: &Question) -> Verdict
    ensures { Answers document.now question.now result }
{
    let root = document.root();
    let met = met_zones(document, &question.shape, question.class);
    decide_node(question, met.as_slice(), root, 1)
}
