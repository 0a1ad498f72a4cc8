//! The parts of a number's text.

ghost use Rattle.std.specs.Prelude.{◌≡◌, ◌+◌, ◌≤◌, ◌<◌, true, length};
ghost use Rattle.std.specs.Str.{all_ascii_digits};
ghost use Rattle.grid.specs.declared.parts.TheConstants.{NUMBER_LIMIT, EXPONENT_LIMIT};

/// The most bytes of a number's text.
pub const NUMBER_LIMIT: usize = 1_024;

/// An exponent is below it, whatever its sign.
pub const EXPONENT_LIMIT: u32 = 10_000;

/// The exponent of a number.
#[derive(Clone, Copy)]
pub(crate) struct Exponent {
    pub negative: bool,
    pub value: u32,
    ghost below: { value < EXPONENT_LIMIT },
}

/// The parts of a number's text: its value is that of the digits, times 10^up, divided by 10^down.
#[derive(Clone, Copy)]
pub(crate) struct Parts<'a> {
    pub negative: bool,
    /// The digits before the point.
    pub whole: &'a [u8],
    /// The digits behind it.
    pub fraction: &'a [u8],
    pub up: usize,
    pub down: usize,
    ghost whole_digits: { all_ascii_digits whole.now ≡ true },
    ghost fraction_digits: { all_ascii_digits fraction.now ≡ true },
    ghost short: { length whole.now + length fraction.now ≤ NUMBER_LIMIT },
    ghost few_up: { up < EXPONENT_LIMIT },
    ghost few_down: { down < EXPONENT_LIMIT + NUMBER_LIMIT },
}

/// Digits that lie in two places, one behind the other.
#[derive(Clone, Copy)]
pub(crate) struct Digits<'a> {
    pub first: &'a [u8],
    pub second: &'a [u8],
    ghost first_digits: { all_ascii_digits first.now ≡ true },
    ghost second_digits: { all_ascii_digits second.now ≡ true },
}
