//! What was read of a server's counts.

use crate::bounds::TIME_COUNT;
use crate::requests::STATUS_COUNT;

/// What a server has counted since its start.
#[derive(Clone, Copy, Debug)]
pub struct Readings {
    /// How many requests got a response of each status, in the order of `STATUSES`.
    pub responses: [u64; STATUS_COUNT],
    /// How many requests took at most the time of each bound and more than that of the one before,
    /// in the order of `BOUNDS`; and at last how many took longer.
    pub times: [u64; TIME_COUNT],
    /// How many microseconds all of them took together.
    pub micros: u64,
    /// Searches that were answered.
    pub searches: u64,
    /// Lists of changes that were applied.
    pub commits: u64,
    /// Lists that were held, since an open search looks for what they would place.
    pub held: u64,
    /// Lists that the policy denied.
    pub denied: u64,
    /// Policies that were put in force.
    pub policies: u64,
    /// Records that were added to the trail.
    pub records: u64,
    /// How many bytes of its memory were in RAM when that was measured last; 0 before.
    pub memory: u64,
}
