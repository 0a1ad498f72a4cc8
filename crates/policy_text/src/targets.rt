//! Reads the parts of targets and conditions from JSON values.

ghost use Rattle.std.specs.Prelude.{◌≡◌, ◌+◌, ◌<◌, ◌≤◌, ℕ, suc, length, map, List, Result};
ghost use Rattle.serde_json.specs.Data.{Data};
ghost use Rattle.serde_json.specs.View.{view, items_view};
ghost use Rattle.policy_documents.specs.Views.{zone_of};
ghost use Rattle.policy_text.specs.Reading.{Gives, Shows, items_in, each_at, row_at};
ghost use Rattle.policy_text.specs.declared.faults.TextFault.{TextFault};
ghost use Rattle.policy_text.specs.declared.paths.PathPart.{PathPart};
ghost use Rattle.policy_documents.specs.declared.zones.Zone.{Zone};

use crate::faults::TextFault;
use crate::paths::{PART_LIMIT, Path, PathPart};
use memory::GrowVec;
use policy_documents::{Items, Zones};
use serde_json::Value;
use std::alloc::Allocator;

/// A part of a target or of conditions: a match, an atom, or a list of parts.
pub(crate) trait Part<A: Allocator + Copy>: Drop {
    /// What a value is read as under these zones, with the count of matches and atoms after it, or
    /// its first fault.
    ghost reads: { List Zone → List PathPart → ℕ → Data → Result (Self × ℕ) TextFault };

    /// How many parts a path has at most from here to a fault.
    ghost depth: { ℕ };

    /// Reads the part at `path`; `tests` counts the matches and atoms before it.
    fn read<B: Allocator>(
        alloc: A,
        zones: &Zones<B>,
        value: &Value,
        path: Path,
        tests: u32,
    ) -> Result<(Self, u32), TextFault>
        requires { length path + depth ≤ PART_LIMIT }
        ensures { Gives (λ r. (r.0, r.1)) result
            (reads (map zone_of zones.now.entries) path tests (view value.now)) };
}

/// The items of an array; `Form` if the value is no array, or an empty one.
fn items_in(value: &Value, path: Path) -> Result<&[Value], TextFault>
    ensures { Shows (λ items. items_view items.now) result (items_in path (view value.now)) }
{
    let Some(items) = value.as_array() else {
        return Err(TextFault::Form(path));
    };
    if items.is_empty() {
        return Err(TextFault::Form(path));
    }
    Ok(items)
}

/// Reads the parts of an array, and returns them with the count of matches and atoms after them.
pub(crate) fn parts_at<T: Part<A>, A: Allocator + Copy, B: Allocator>(
    alloc: A,
    zones: &Zones<B>,
    items: &[Value],
    path: Path,
    tests: u32,
) -> Result<(Items<T, A>, u32), TextFault>
    requires { length path + T.depth < PART_LIMIT }
    ensures { Gives (λ r. (r.0, r.1)) result
        (each_at (T.reads (map zone_of zones.now.entries)) path 0 tests (items_view items.now)) }
{
    let mut parts = Vec::new(alloc);
    let mut tests = tests;
    for (index, value) in items.iter().enumerate() {
        let (part, after) = T::read(alloc, zones, value, path.with(PathPart::Item(index)), tests)?;
        parts.try_push(part)?;
        tests = after;
    }
    Ok((Items::from_vec(parts), tests))
}

impl<T: Part<A>, A: Allocator + Copy> Part<A> for Items<T, A> {
    ghost reads = { λ zones. row_at (T.reads zones) };

    ghost depth = { suc T.depth };

    fn read<B: Allocator>(
        alloc: A,
        zones: &Zones<B>,
        value: &Value,
        path: Path,
        tests: u32,
    ) -> Result<(Self, u32), TextFault> {
        let items = items_in(value, path)?;
        parts_at(alloc, zones, items, path, tests)
    }
}
