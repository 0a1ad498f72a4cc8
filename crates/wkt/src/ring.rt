//! The points of a ring.

ghost use Rattle.std.specs.Prelude.{◌≡◌, ◌+◌, ◌++◌, ◌∷◌, [], Ok, IfOk, length, take};
ghost use Rattle.wkt.specs.Tokens.{tokens};
ghost use Rattle.wkt.specs.Kept.{kept};
ghost use Rattle.wkt.specs.Reading.{Gives, ring_at};

use crate::fault::WktFault;
use crate::fields::{more, pair};
use crate::tokens::Rest;
use arrayvec::ArrayVec;
use plane::{LISTED_LIMIT, Point};

/// How many points of a ring are kept: one more than a ring may list, which is enough to find that
/// a longer ring has too many.
pub(crate) const KEPT: usize = LISTED_LIMIT + 1;

/// Appends a point, or drops it if `KEPT` points are there.
fn keep(listed: &mut ArrayVec<Point, KEPT>, point: Point)
    ensures { listed.new.items ≡ take KEPT (listed.old.items ++ point ∷ []) }
{
    if listed.len() < KEPT {
        listed.push(point);
    }
}

/// Reads the points of a ring, up to its closing bracket. Of a longer ring, only the first `KEPT`
/// points are kept.
pub(crate) fn ring(text: Rest<'_>) -> Result<(ArrayVec<Point, KEPT>, Rest<'_>), WktFault>
    ensures gives { Gives (λ r. (r.0.items, tokens r.1.at r.1.bytes.now)) result
        (kept (ring_at (text.entry.at + length text.entry.bytes.now)
        (tokens text.entry.at text.entry.bytes.now))) }
    ensures rest { IfOk result
        (λ r. r.1.at + length r.1.bytes.now ≡ text.entry.at + length text.entry.bytes.now) }
{
    let mut listed = ArrayVec::new();
    let mut text = text;
    'pairs: loop {
        let (point, after) = pair(text)?;
        keep(&mut listed, point);
        let (is_more, rest) = more(after)?;
        if !is_more {
            return Ok((listed, rest));
        }
        text = rest;
    }
}
