//! The value of digits, up to a cap.

ghost use Rattle.std.specs.Prelude.{◌≡◌, ◌+◌, ◌*◌, ◌/◌, ◌%◌, ◌^◌, ◌==◌, ◌<◌, ◌≤◌, ◌++◌, Bool, true, false, min, nat_le, length, take, drop};
ghost use Rattle.std.specs.List.{list_all};
ghost use Rattle.std.specs.Str.{all_ascii_digits};
ghost use Rattle.std.specs.Str.Parse.{digits_value, digits_value_after};
ghost use Rattle.grid.specs.Digits.{begins_with_five, shown};

/// Every value is capped at it at most: no origin and no coordinate is as far from 0, and a digit
/// more still fits 64 bits.
pub(crate) const CAP: u64 = 1_800_000_000_000_000_000;

/// The value of digits behind a number, capped.
pub(crate) fn value_after(cap: u64, before: u64, digits: &[u8]) -> u64
    requires cap { cap ≤ CAP }
    requires before { before ≤ cap }
    requires digits { all_ascii_digits digits.now ≡ true }
    ensures value { result ≡ min (digits_value_after 10 before digits.now) cap }
    ensures capped { result ≤ cap }
{
    let mut value = before;
    for digit in digits {
        value = (value * 10 + (*digit - b'0') as u64).min(cap);
    }
    value
}

/// The value of digits, capped.
pub(crate) fn capped_value(cap: u64, digits: &[u8]) -> u64
    requires cap { cap ≤ CAP }
    requires digits { all_ascii_digits digits.now ≡ true }
    ensures { result ≡ min (digits_value 10 digits.now) cap }
{
    value_after(cap, 0, digits)
}
