//! Where a world's numbers start, and its limits.

ghost use Rattle.std.specs.Prelude.{◌≡◌, ◌≤◌, ◌↔◌, IsSome, IfSome};
ghost use Rattle.audit_trail.specs.declared.trails.TheConstants.{RECORD_LIMIT};
ghost use Rattle.feature_store.specs.declared.tables.TheConstants.{FEATURE_LIMIT};

use audit_trail::{FIRST_LIMIT, RECORD_LIMIT};
use feature_store::FEATURE_LIMIT;
use tree_answers::MAX_STEPS;

/// Where the numbers of a world start.
#[derive(Clone, Copy, Debug, PartialEq, Eq)]
pub struct Starts {
    /// The generation at which each slot of the index starts.
    pub generation: u32,
    /// The index's counter.
    pub counter: u64,
    /// The number of the first search.
    pub search: u64,
    /// The version before the first list.
    pub version: u64,
    /// The edition of the opening document.
    pub edition: u64,
    /// How many records were rolled out before.
    pub rolled: u64,
}

impl Starts {
    /// A world with nothing before it: searches and editions start at 1, all else at 0.
    pub const FIRST: Starts = Starts {
        generation: 0,
        counter: 0,
        search: 1,
        version: 0,
        edition: 1,
        rolled: 0,
    };
}

/// The limits of a world.
#[derive(Clone, Copy, Debug, PartialEq, Eq)]
pub struct Limits {
    /// The most steps of one search or walk.
    pub steps: u32,
    /// The most records of a trail; those that were rolled out do not count.
    pub records: u32,
    /// The most features that there may be after an addition.
    pub features: u32,
}

impl Limits {
    /// The limits of a world where nothing else is said.
    pub const USUAL: Limits = Limits {
        steps: STEP_LIMIT,
        records: RECORD_LIMIT,
        features: USUAL_FEATURES,
    };

    /// The greatest limits that a world may have.
    pub const GREATEST: Limits = Limits {
        steps: STEP_LIMIT,
        records: RECORD_LIMIT,
        features: FEATURE_LIMIT as u32,
    };
}

/// The most features of a world where nothing else is said.
pub const USUAL_FEATURES: u32 = 100_000;

/// The most features that a world is asked to have: `FEATURE_LIMIT` at most.
#[derive(Clone, Copy, Debug)]
pub struct FeatureLimit {
    pub number: u32,
    pub ghost most: { number ≤ FEATURE_LIMIT },
}

impl FeatureLimit {
    /// The limit where nothing else is said.
    pub fn usual() -> Self
        ensures { result.number ≡ USUAL_FEATURES }
    {
        FeatureLimit {
            number: USUAL_FEATURES,
        }
    }

    /// A limit of this number; none where it is above `FEATURE_LIMIT`.
    pub fn new(number: u32) -> Option<Self>
        ensures taken { IsSome result ↔ (number ≤ FEATURE_LIMIT) }
        ensures value { IfSome result (λ limit. limit.number ≡ number) }
    {
        if number > FEATURE_LIMIT as u32 {
            return None;
        }
        Some(FeatureLimit { number })
    }

    /// The usual limits, but this one of features.
    pub fn limits(self) -> Limits
        ensures value { result
            ≡ record { steps = STEP_LIMIT; records = RECORD_LIMIT; features = self.number } }
        ensures within { result.features ≤ FEATURE_LIMIT }
    {
        Limits {
            features: self.number,
            ..Limits::USUAL
        }
    }
}

/// The most seats that a world gives in its life.
pub const SEAT_LIMIT: usize = 1_024;

/// The most searches that are open at once.
pub const SEARCH_LIMIT: usize = 16;

/// How many transactions are open at once at most.
pub const TRANSACTION_LIMIT: usize = 64;

/// How many changes a list has at most.
pub const CHANGE_LIMIT: usize = 16;

/// How many steps a search or a walk makes at most.
pub const STEP_LIMIT: u32 = MAX_STEPS as u32;

/// The most records that may be rolled out in the life of a world, so that each record's number
/// fits.
pub const ROLLED_LIMIT: u64 = FIRST_LIMIT - 1;
