//! Laws of the definitions that the contracts of the reader and the printer use. The functions have
//! empty bodies: each is its contract.

ghost use Rattle.std.specs.Prelude.{◌≡◌, ◌↔◌, IsTrue, Ok, Err};
ghost use Rattle.serde_json.specs.Data.{Data};
ghost use Rattle.policy_documents.specs.Documents.{DocumentData, IsDocument};
ghost use Rattle.policy_text.specs.FaultPaths.{LeadsTo};
ghost use Rattle.policy_text.specs.Reading.{document_in};
ghost use Rattle.policy_text.specs.Printed.{document_data};
ghost use Rattle.policy_text.specs.contracts.faults.TextFaultPartialEq.TheImpl as comparing;

use crate::faults::TextFault;

/// A JSON value that can be read gives a valid document: within the limits, names distinct, and
/// each zone that it names present.
pub fn read_is_document()
    ensures { (value : Data) (d : DocumentData) → document_in value ≡ Ok d → IsDocument d }
{}

/// The JSON value of a document is read as that document.
pub fn printed_is_read()
    ensures { (d : DocumentData) → IsDocument d → document_in (document_data d) ≡ Ok d }
{}

/// The path of a JSON value's first fault leads to the value at fault.
pub fn faults_lead_to_values()
    ensures { (value : Data) (fault : TextFault) → document_in value ≡ Err fault
        → LeadsTo fault value }
{}

/// `==` on faults is exact: the same kind, path, name and fault of a shape.
pub fn faults_compare_exactly()
    ensures { (a b : TextFault) → IsTrue (comparing.eq-value.it a b) ↔ (a ≡ b) }
{}
