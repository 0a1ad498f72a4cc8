//! Members of problems that tell of a change.

ghost use Rattle.std.specs.Prelude.{◌≡◌, ◌++◌, OnOk};
ghost use Rattle.map_edits.specs.Members.{current_member, index_part, index_text, no_rule, place_member, place_text, rule_member, rule_text, spot_text};

use features::Name;
use geojson::{FeatureFault, Spot};
use map_answers::{put, put_number, put_string};
use memory::NoMemory;
use std::alloc::Allocator;

/// Appends an index as one more part of a JSON pointer (RFC 6901, 3).
#[tactic(auto, unfolding(crate::specs::Members::index_part))]
pub fn put_index_part<A: Allocator>(text: &mut Vec<u8, A>, n: usize) -> Result<(), NoMemory>
    ensures { OnOk result (text.new.items ≡ text.old.items ++ index_part n) }
{
    put(text, b"/")?;
    put_number(text, n as u64)
}

fn put_index<A: Allocator>(text: &mut Vec<u8, A>, index: Option<usize>) -> Result<(), NoMemory>
    ensures { OnOk result (text.new.items ≡ text.old.items ++ index_text index) }
{
    match index {
        Some(n) => put_index_part(text, n),
        None => Ok(()),
    }
}

fn put_spot<A: Allocator>(text: &mut Vec<u8, A>, spot: Spot) -> Result<(), NoMemory>
    ensures { OnOk result (text.new.items ≡ text.old.items ++ spot_text spot) }
{
    put_index(text, spot.polygon)?;
    put_index(text, spot.path)?;
    put_index(text, spot.point)?;
    put_index(text, spot.axis)
}

/// Appends where in a text of GeoJSON a fault is, as a JSON pointer.
pub(crate) fn put_place<A: Allocator>(
    text: &mut Vec<u8, A>,
    fault: &FeatureFault,
) -> Result<(), NoMemory>
    ensures { OnOk result (text.new.items ≡ text.old.items ++ place_text fault.now) }
{
    put(text, fault.member.pointer().as_bytes())?;
    put_spot(text, fault.spot)
}

/// Appends the member that tells of a place.
#[tactic(auto, unfolding(crate::specs::Members::place_member))]
pub(crate) fn put_place_member<A: Allocator>(
    text: &mut Vec<u8, A>,
    place: &[u8],
) -> Result<(), NoMemory>
    ensures { OnOk result (text.new.items ≡ text.old.items ++ place_member place.now) }
{
    put(text, b",\"place\":")?;
    put_string(text, place)
}

#[tactic(auto, unfolding(crate::specs::Members::no_rule))]
fn put_no_rule<A: Allocator>(text: &mut Vec<u8, A>) -> Result<(), NoMemory>
    ensures { OnOk result (text.new.items ≡ text.old.items ++ no_rule) }
{
    put(text, b"null")
}

fn put_rule<A: Allocator>(text: &mut Vec<u8, A>, rule: &Option<Name>) -> Result<(), NoMemory>
    ensures { OnOk result (text.new.items ≡ text.old.items ++ rule_text rule.now) }
{
    match rule {
        Some(name) => put_string(text, name.as_bytes()),
        None => put_no_rule(text),
    }
}

/// Appends the member that tells of the rule that decides.
#[tactic(auto, unfolding(crate::specs::Members::rule_member))]
pub fn put_rule_member<A: Allocator>(
    text: &mut Vec<u8, A>,
    rule: &Option<Name>,
) -> Result<(), NoMemory>
    ensures { OnOk result (text.new.items ≡ text.old.items ++ rule_member rule.now) }
{
    put(text, b",\"rule\":")?;
    put_rule(text, rule)
}

/// Appends the member that tells of the version that a feature has.
#[tactic(auto, unfolding(crate::specs::Members::current_member))]
pub fn put_current_member<A: Allocator>(text: &mut Vec<u8, A>, version: u64) -> Result<(), NoMemory>
    ensures { OnOk result (text.new.items ≡ text.old.items ++ current_member version) }
{
    put(text, b",\"current\":")?;
    put_number(text, version)
}
