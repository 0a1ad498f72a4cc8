//! How large frames are.

ghost use Rattle.std.specs.Prelude.{◌≡◌, ◌≤◌};
ghost use Rattle.plane.specs.Coordinates.{IsCoordinate};
ghost use Rattle.frame_keys.specs.Measures.{width, height, area, margin, shared, overlap};

use plane::Frame;

/// How far a frame reaches from left to right.
pub fn width(frame: Frame) -> u64
    ensures value { result ≡ width frame }
    ensures most { result ≤ 20000000 }
{
    let (low, high) = (frame.x0(), frame.x1());
    u64::from((high - low).unsigned_abs())
}

/// How far a frame reaches from below to above.
pub fn height(frame: Frame) -> u64
    ensures value { result ≡ height frame }
    ensures most { result ≤ 20000000 }
{
    // Fact for the checker: `x0` states that the ends are in order and in range.
    let (_, low, high) = (frame.x0(), frame.y0(), frame.y1());
    u64::from((high - low).unsigned_abs())
}

/// How much of the plane a frame takes.
pub fn area(frame: Frame) -> u64
    ensures value { result ≡ area frame }
    ensures most { result ≤ 400000000000000 }
{
    width(frame) * height(frame)
}

/// The margin of a frame: half its perimeter.
pub fn margin(frame: Frame) -> u64
    ensures value { result ≡ margin frame }
    ensures most { result ≤ 40000000 }
{
    width(frame) + height(frame)
}

/// The length that two stretches of an axis share; 0 where they share nothing.
fn shared(low: i32, high: i32, other_low: i32, other_high: i32) -> u64
    requires low { IsCoordinate low }
    requires high { IsCoordinate high }
    requires other_low { IsCoordinate other_low }
    requires other_high { IsCoordinate other_high }
    ensures value { result ≡ shared low high other_low other_high }
    ensures most { result ≤ 20000000 }
{
    let from = low.max(other_low);
    let to = high.min(other_high);
    u64::from((to.max(from) - from).unsigned_abs())
}

/// How much of the plane two frames share.
pub fn overlap(frame: Frame, other: Frame) -> u64
    ensures value { result ≡ overlap frame other }
    ensures most { result ≤ 400000000000000 }
{
    let across = shared(frame.x0(), frame.x1(), other.x0(), other.x1());
    let up = shared(frame.y0(), frame.y1(), other.y0(), other.y1());
    across * up
}
