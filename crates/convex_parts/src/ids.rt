//! The ids of parts.

ghost use Rattle.std.specs.Prelude.{◌≡◌, ◌+◌, ◌*◌, ◌<◌, ◌^◌, nat_lt, if◌then◌else◌, Some, None};

use crate::faults::PART_LIMIT;

/// The id of a part, counted from 0, of the feature with this id: `1000 * id + part`. `None` where
/// that is no number of 64 bits.
pub fn part_id(id: u64, part: usize) -> Option<u64>
    requires { part < PART_LIMIT }
    ensures { result ≡ (if nat_lt (1000 * id + part) (2 ^ 64) then Some (1000 * id + part) else None) }
{
    id.checked_mul(1_000)?.checked_add(part as u64)
}
