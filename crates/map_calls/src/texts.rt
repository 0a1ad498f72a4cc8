//! The texts of answers: lines of a piece, rulings, numbers, places.

ghost use Rattle.std.specs.Prelude.{◌≡◌, ◌++◌, IfOk, OnOk, codes, decimal, map, string_bytes};
ghost use Rattle.map_calls.specs.Rolling.{ended, lines_text};
ghost use Rattle.map_calls.specs.Texts.{decision_part, edition_part, edition_text, no_rule, piece_part, piece_address, place_member, records_part, rule_part, rule_text, ruling_text, taken_text, trail_part};
ghost use Rattle.policy_text.specs.Pointers.{part_text, path_text};

use features::Name;
use map_answers::{put, put_number, put_string};
use memory::NoMemory;
use policy_text::{Path, PathPart};
use std::alloc::{Allocator, Global};

/// Appends a line and its end.
fn put_ended(text: &mut Vec<u8>, line: &[u8]) -> Result<(), NoMemory>
    ensures { OnOk result (text.new.items ≡ text.old.items ++ ended line.now) }
{
    put(text, line)?;
    put(text, b"\n")
}

/// Appends lines.
fn put_lines<A: Allocator>(text: &mut Vec<u8>, lines: &[String<A>]) -> Result<(), NoMemory>
    ensures { OnOk result
        (text.new.items ≡ text.old.items ++ lines_text (map string_bytes lines.now)) }
{
    for line in lines {
        put_ended(text, line.as_bytes())?;
    }
    Ok(())
}

/// The text of these lines.
pub(crate) fn lines_text<A: Allocator>(
    heap: Global,
    lines: &[String<A>],
) -> Result<Vec<u8>, NoMemory>
    ensures { IfOk result (λ text. text.items ≡ lines_text (map string_bytes lines.now)) }
{
    let mut text = Vec::new(heap);
    put_lines(&mut text, lines)?;
    Ok(text)
}

#[tactic(auto, unfolding(crate::specs::Texts::no_rule))]
fn put_no_rule(text: &mut Vec<u8>) -> Result<(), NoMemory>
    ensures { OnOk result (text.new.items ≡ text.old.items ++ no_rule) }
{
    put(text, b"null")
}

/// Appends the name of a rule, or that there is none.
fn put_rule(text: &mut Vec<u8>, rule: &Option<Name>) -> Result<(), NoMemory>
    ensures { OnOk result (text.new.items ≡ text.old.items ++ rule_text rule.now) }
{
    match rule {
        Some(name) => put_string(text, name.as_bytes()),
        None => put_no_rule(text),
    }
}

#[tactic(auto, unfolding(crate::specs::Texts::decision_part))]
fn put_decision(text: &mut Vec<u8>, decision: &str) -> Result<(), NoMemory>
    ensures { OnOk result (text.new.items ≡ text.old.items ++ decision_part decision.now) }
{
    put(text, b"{\"decision\":")?;
    put_string(text, decision.as_bytes())
}

#[tactic(auto, unfolding(crate::specs::Texts::rule_part))]
fn put_rule_part(text: &mut Vec<u8>, rule: &Option<Name>) -> Result<(), NoMemory>
    ensures { OnOk result (text.new.items ≡ text.old.items ++ rule_part rule.now) }
{
    put(text, b",\"rule\":")?;
    put_rule(text, rule)
}

#[tactic(auto, unfolding(crate::specs::Texts::edition_part))]
fn put_edition_part(text: &mut Vec<u8>, edition: u64) -> Result<(), NoMemory>
    ensures { OnOk result (text.new.items ≡ text.old.items ++ edition_part edition) }
{
    put(text, b",\"edition\":")?;
    put_number(text, edition)?;
    put(text, b"}")
}

/// Appends what the policy says.
pub(crate) fn put_ruling(
    text: &mut Vec<u8>,
    decision: &str,
    rule: &Option<Name>,
    edition: u64,
) -> Result<(), NoMemory>
    ensures { OnOk result
        (text.new.items ≡ text.old.items ++ ruling_text decision.now rule.now edition) }
{
    put_decision(text, decision)?;
    put_rule_part(text, rule)?;
    put_edition_part(text, edition)
}

/// Appends which edition is in force.
#[tactic(auto, unfolding(crate::specs::Texts::edition_text))]
pub(crate) fn put_edition(text: &mut Vec<u8>, edition: u64) -> Result<(), NoMemory>
    ensures { OnOk result (text.new.items ≡ text.old.items ++ edition_text edition) }
{
    put(text, b"{\"edition\":")?;
    put_number(text, edition)?;
    put(text, b"}")
}

#[tactic(auto, unfolding(crate::specs::Texts::piece_part))]
fn put_piece_part(text: &mut Vec<u8>, piece: u64) -> Result<(), NoMemory>
    ensures { OnOk result (text.new.items ≡ text.old.items ++ piece_part piece) }
{
    put(text, b"{\"piece\":")?;
    put_number(text, piece)
}

#[tactic(auto, unfolding(crate::specs::Texts::records_part))]
fn put_records_part(text: &mut Vec<u8>, records: u64) -> Result<(), NoMemory>
    ensures { OnOk result (text.new.items ≡ text.old.items ++ records_part records) }
{
    put(text, b",\"records\":")?;
    put_number(text, records)?;
    put(text, b"}")
}

/// Appends which piece was taken out, and how many records it has.
pub(crate) fn put_taken(text: &mut Vec<u8>, piece: u64, records: u64) -> Result<(), NoMemory>
    ensures { OnOk result (text.new.items ≡ text.old.items ++ taken_text piece records) }
{
    put_piece_part(text, piece)?;
    put_records_part(text, records)
}

#[tactic(auto, unfolding(crate::specs::Texts::trail_part))]
fn put_trail_part(text: &mut Vec<u8>, piece: u64) -> Result<(), NoMemory>
    ensures { OnOk result (text.new.items ≡ text.old.items ++ trail_part piece) }
{
    put(text, b"/trail/")?;
    put_number(text, piece)
}

/// The address of a piece.
pub(crate) fn piece_address(heap: Global, base: &[u8], piece: u64) -> Result<Vec<u8>, NoMemory>
    ensures { IfOk result (λ address. address.items ≡ piece_address base.now piece) }
{
    let mut address = Vec::new(heap);
    put(&mut address, base)?;
    put_trail_part(&mut address, piece)?;
    Ok(address)
}

fn put_key(text: &mut Vec<u8>, key: &str) -> Result<(), NoMemory>
    ensures { OnOk result (text.new.items ≡ text.old.items ++ (codes "/" ++ key.now)) }
{
    put(text, b"/")?;
    put(text, key.as_bytes())
}

fn put_index(text: &mut Vec<u8>, index: usize) -> Result<(), NoMemory>
    ensures { OnOk result (text.new.items ≡ text.old.items ++ (codes "/" ++ decimal index)) }
{
    put(text, b"/")?;
    put_number(text, index as u64)
}

/// Appends a part of a place in a document.
fn put_part(text: &mut Vec<u8>, part: &PathPart) -> Result<(), NoMemory>
    ensures { OnOk result (text.new.items ≡ text.old.items ++ part_text part.now) }
{
    match part {
        PathPart::Member(key) => put_key(text, (*key).text()),
        PathPart::Item(index) => put_index(text, *index),
    }
}

/// Appends a place in a document, as a JSON pointer (RFC 6901, 3).
fn put_path(text: &mut Vec<u8>, path: &Path) -> Result<(), NoMemory>
    ensures { OnOk result (text.new.items ≡ text.old.items ++ path_text path.now) }
{
    for part in path.as_slice() {
        put_part(text, part)?;
    }
    Ok(())
}

/// A place in a document, as a JSON pointer.
fn path_text(heap: Global, path: &Path) -> Result<Vec<u8>, NoMemory>
    ensures { IfOk result (λ text. text.items ≡ path_text path.now) }
{
    let mut text = Vec::new(heap);
    put_path(&mut text, path)?;
    Ok(text)
}

/// Appends the member that tells of a place.
#[tactic(auto, unfolding(crate::specs::Texts::place_member))]
fn put_place_member(text: &mut Vec<u8>, place: &[u8]) -> Result<(), NoMemory>
    ensures { OnOk result (text.new.items ≡ text.old.items ++ place_member place.now) }
{
    put(text, b",\"place\":")?;
    put_string(text, place)
}

/// The member that tells of a place in a document.
pub(crate) fn place_member(heap: Global, path: &Path) -> Result<Vec<u8>, NoMemory>
    ensures { IfOk result (λ text. text.items ≡ place_member (path_text path.now)) }
{
    let place = path_text(heap, path)?;
    let mut text = Vec::new(heap);
    put_place_member(&mut text, place.as_slice())?;
    Ok(text)
}
