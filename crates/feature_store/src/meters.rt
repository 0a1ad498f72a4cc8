//! Meters of the features that are read.

ghost use Rattle.std.specs.Prelude.{◌≡◌};
ghost use Rattle.feature_store.specs.Ticks.{ticked_by};

use std::marker::Model;

/// Counts the features that are read from a store, one tick each, up to `u64::MAX`. A contract sees
/// the number of ticks.
#[derive(Clone, Copy, Debug, PartialEq, Eq)]
pub struct Meter {
    ticks: u64,
}

impl Model for Meter {
    ghost use Rattle.std.specs.Prelude.{ℕ};

    ghost Value = { ℕ };

    ghost view = { λ m. m.ticks };

    ghost inverse = { λ n. record { ticks = n } };
}

impl Meter {
    /// A meter at 0.
    pub fn new() -> Meter
        ensures { result ≡ 0 }
    {
        Meter { ticks: 0 }
    }

    /// How many ticks were counted.
    pub fn ticks(&self) -> u64
        ensures { result ≡ self.now }
    {
        self.ticks
    }

    /// Counts this many more ticks.
    pub fn tick(&mut self, count: u64)
        ensures { self.new ≡ ticked_by count self.old }
    {
        self.ticks = self.ticks.saturating_add(count);
    }
}

impl Default for Meter {
    ghost is_default = { λ m. m ≡ 0 };

    fn default() -> Self {
        Self::new()
    }
}
