//! Pseudo-random numbers, for events in a random order.
use crate::listed_world::SEATS;

/// Pseudo-random numbers, from a linear congruence.
#[derive(Drop)]
pub struct Dice {
    state: u64,
}

impl Dice {
    /// The numbers that follow from this state.
    pub fn new(state: u64) -> Self {
        Dice { state }
    }

    /// A number below `sides`, or 0 if that is 0.
    pub fn below(&mut self, sides: u32) -> u32 {
        self.state = self
            .state
            .wrapping_mul(6_364_136_223_846_793_005)
            .wrapping_add(1_442_695_040_888_963_407);
        let number = (self.state >> 33)
            .checked_rem(u64::from(sides))
            .unwrap_or(0);
        u32::try_from(number).unwrap_or(0)
    }

    /// The number of a policy, in six of ten cases that of the one that permits all.
    pub fn policy(&mut self) -> u32 {
        let drawn = self.below(10);
        if drawn < 5 { drawn } else { 0 }
    }

    /// A seat, or rarely one that was not given.
    pub fn seat(&mut self) -> u32 {
        self.below(SEATS + 1).saturating_add(1)
    }

    /// How often an event is repeated, from 1 to 6.
    pub fn a_few(&mut self) -> u32 {
        self.below(6).saturating_add(1)
    }

    /// How much wider than 1 a window is, from 0 to 9.
    pub fn side(&mut self) -> i32 {
        i32::try_from(self.below(10)).unwrap_or(0)
    }

    /// A coordinate, from 0 to 63.
    pub fn place(&mut self) -> i32 {
        i32::try_from(self.below(64)).unwrap_or(0)
    }
}
