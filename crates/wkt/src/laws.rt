//! Laws of the definitions that the contracts of the reader and the printer use. The functions have
//! empty bodies: each is its contract.

ghost use Rattle.std.specs.Prelude.{◌≡◌, ℕ, Ok, Err, Some, List};
ghost use Rattle.plane.specs.declared.point.Point.{Point};
ghost use Rattle.plane.specs.Canonical.{IsCanonical};
ghost use Rattle.wkt.specs.declared.fault.WktFault.{WktFault};
ghost use Rattle.wkt.specs.FirstFaults.{place_of, FirstFault};
ghost use Rattle.wkt.specs.Reading.{shape_of};
ghost use Rattle.wkt.specs.Spelling.{Spells};
ghost use Rattle.wkt.specs.Printing.{printed};

/// A text is read as a shape exactly if it spells that shape by the definition by cases, `Spells`,
/// and no text spells two shapes. The corners that are read are canonical: 1 to 16 in range, the
/// least one first, and listing them gives that very shape.
pub fn read_is_spelled()
    ensures found { (text : List ℕ) (corners : List Point) → shape_of text ≡ Ok corners
        → Spells text corners }
    ensures only { (text : List ℕ) (corners : List Point) → Spells text corners
        → shape_of text ≡ Ok corners }
    ensures one { (text : List ℕ) (a b : List Point) → Spells text a → Spells text b → a ≡ b }
    ensures canonical { (text : List ℕ) (corners : List Point) → shape_of text ≡ Ok corners
        → IsCanonical corners }
{}

/// The text that `shape_text` prints for a shape is read as that shape, and spells it.
pub fn printed_is_read()
    ensures read { (corners : List Point) → IsCanonical corners
        → shape_of (printed corners) ≡ Ok corners }
    ensures spells { (corners : List Point) → IsCanonical corners
        → Spells (printed corners) corners }
{}

/// A fault that has a place is at the first token with which the text is no longer the beginning of
/// one that lists points: the tokens before it begin such a text, and with it they begin none. At
/// the text's end, all tokens begin such a text, but list no points themselves.
pub fn fault_is_first()
    ensures { (text : List ℕ) (fault : WktFault) (at : ℕ) → shape_of text ≡ Err fault
        → place_of fault ≡ Some at → FirstFault text at }
{}
