//! Policy documents as JSON: a reader and a printer for the types of `policy_documents`.
#![tactic(auto)]

mod areas;
mod faults;
mod fields;
mod laws;
mod paths;
mod printing;
mod reading;
mod targets;
mod terms;
mod texts;
mod values;
mod words;

pub use faults::TextFault;
pub use laws::{faults_compare_exactly, faults_lead_to_values, printed_is_read, read_is_document};
pub use paths::{MemberName, Path, PathPart};
pub use policy_documents::{
    Algorithm, AllOf, AnyOf, Atom, Conditions, Document, Effect, Items, Match, Node, Rule, Target,
    Term, ZONE_LIMIT, Zone,
};
pub use printing::{document_value, print_document};
pub use texts::{document_of_value, read_document};
