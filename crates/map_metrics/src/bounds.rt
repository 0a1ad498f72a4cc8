//! The bounds by which times are sorted.

ghost use Rattle.std.specs.Prelude.{◌≡◌, ◌≤◌, length};
ghost use Rattle.std.specs.List.{prefix_len};
ghost use Rattle.map_metrics.specs.Times.{bound_micros, bound_text, bounds, is_above};

/// How many numbers of times there are: one for each bound, and one for what is above all of them.
pub const TIME_COUNT: usize = 13;

/// A time that some requests take at most.
#[derive(Clone, Copy, Debug, PartialEq, Eq)]
pub enum Bound {
    HalfMilli,
    OneMilli,
    TwoMilli,
    FiveMilli,
    TenMilli,
    TwentyMilli,
    FiftyMilli,
    Tenth,
    Quarter,
    Half,
    One,
    Two,
}

/// All bounds, by rising time.
pub const BOUNDS: [Bound; 12] = [
    Bound::HalfMilli,
    Bound::OneMilli,
    Bound::TwoMilli,
    Bound::FiveMilli,
    Bound::TenMilli,
    Bound::TwentyMilli,
    Bound::FiftyMilli,
    Bound::Tenth,
    Bound::Quarter,
    Bound::Half,
    Bound::One,
    Bound::Two,
];

impl Bound {
    /// The time in microseconds.
    pub fn micros(self) -> u64
        ensures { result ≡ bound_micros self }
    {
        match self {
            Bound::HalfMilli => 500,
            Bound::OneMilli => 1_000,
            Bound::TwoMilli => 2_500,
            Bound::FiveMilli => 5_000,
            Bound::TenMilli => 10_000,
            Bound::TwentyMilli => 25_000,
            Bound::FiftyMilli => 50_000,
            Bound::Tenth => 100_000,
            Bound::Quarter => 250_000,
            Bound::Half => 500_000,
            Bound::One => 1_000_000,
            Bound::Two => 2_500_000,
        }
    }

    /// The time in seconds, as it is written.
    pub fn text(self) -> &'static str
        ensures { result.now ≡ bound_text self }
    {
        match self {
            Bound::HalfMilli => "0.0005",
            Bound::OneMilli => "0.001",
            Bound::TwoMilli => "0.0025",
            Bound::FiveMilli => "0.005",
            Bound::TenMilli => "0.01",
            Bound::TwentyMilli => "0.025",
            Bound::FiftyMilli => "0.05",
            Bound::Tenth => "0.1",
            Bound::Quarter => "0.25",
            Bound::Half => "0.5",
            Bound::One => "1",
            Bound::Two => "2.5",
        }
    }
}

/// Among which times one of so many microseconds is counted: how many bounds are below it.
pub fn bucket_of(micros: u64) -> usize
    ensures { result ≡ prefix_len (is_above micros) bounds }
{
    BOUNDS
        .iter()
        .take_while(|bound| bound.micros() < micros)
        .count()
}
