//! Fourier-Motzkin elimination of x from a list of rows, and the point that it finds.
//!
//! Rows in x and y have a common fraction point exactly if the rows in y that remain after removing
//! x have one: the rows without x, and one for each pair of a row that bounds x from above and a
//! row that bounds it from below.

ghost use Rattle.std.specs.Prelude.{◌≡◌, ◌≤◌, ℤ, pos, ◌≤ℤ◌, ◌<ℤ◌, ◌*ℤ◌, ◌-ℤ◌, ◌+ℤ◌, neg_ℤ, All, IfSome, IfNone, IsTrue, ◌↔◌, unsigned_abs};
ghost use Rattle.plane.specs.Bounds.{IsSmallRow};
ghost use Rattle.plane.specs.Rows.{Satisfies};
ghost use Rattle.plane.specs.Elimination.{Holds, HoldsIn, Allows, Narrows, IsNowhere, PairAllows, RowAllows, CrossesBoth, CrossesAll, HasFrame, reach, IsCloser, IsBest};

use crate::bounds::{Bound, Gap, Height, Level};
use crate::fraction::Fraction;
use crate::rows::Row;

/// Whether the first of two bounds on one unknown is at least as tight as the second.
fn is_tighter(first: Bound, second: Bound) -> bool
    ensures { IsTrue result ↔ ((first.most *ℤ second.scale) ≤ℤ (second.most *ℤ first.scale)) }
{
    first.most * second.scale <= second.most * first.scale
}

/// The tighter of two bounds on one unknown.
fn tighter(first: Bound, second: Bound) -> Bound
    ensures first { (t w : ℤ) → pos 0 <ℤ w → Holds result t w → Holds first t w }
    ensures second { (t w : ℤ) → pos 0 <ℤ w → Holds result t w → Holds second t w }
    ensures both { (t w : ℤ) → Holds first t w → Holds second t w → Holds result t w }
{
    if is_tighter(first, second) {
        first
    } else {
        second
    }
}

/// A level with b above 0, as a bound on y/w.
fn bound_above(level: Level) -> Bound
    requires { pos 0 <ℤ level.b }
    ensures scale { result.scale ≡ level.b }
    ensures most { result.most ≡ level.c }
{
    Bound {
        scale: level.b,
        most: level.c,
    }
}

/// A level with b below 0, as a bound on -y/w.
fn bound_below(level: Level) -> Bound
    requires { level.b <ℤ pos 0 }
    ensures scale { result.scale ≡ neg_ℤ level.b }
    ensures most { result.most ≡ level.c }
{
    Bound {
        scale: -level.b,
        most: level.c,
    }
}

/// The part of the gap that the level allows; `None` if it allows no height at all.
fn narrowed(gap: Gap, level: Level) -> Option<Gap>
    ensures some { IfSome result (Narrows (Allows level) (Allows level) gap) }
    ensures none { IfNone result (IsNowhere (Allows level)) }
{
    if level.b > 0 {
        let upper = tighter(gap.upper, bound_above(level));
        Some(Gap {
            lower: gap.lower,
            upper,
        })
    } else if level.b < 0 {
        let lower = tighter(gap.lower, bound_below(level));
        Some(Gap {
            lower,
            upper: gap.upper,
        })
    } else if level.c < 0 {
        None
    } else {
        Some(gap)
    }
}

/// Whether `y/w` is within the bound.
fn is_within(bound: Bound, height: Height) -> bool
    ensures { IsTrue result ↔ Holds bound height.y height.w }
{
    bound.scale * height.y <= bound.most * height.w
}

/// The least height that the gap's lower bound allows.
fn foot(gap: Gap) -> Height
    ensures y { result.y ≡ neg_ℤ gap.lower.most }
    ensures w { result.w ≡ gap.lower.scale }
{
    Height {
        y: -gap.lower.most,
        w: gap.lower.scale,
    }
}

/// The least height in the gap; `None` if it has none.
fn lowest(gap: Gap) -> Option<Height>
    ensures some { IfSome result (λ height. HoldsIn gap height.y height.w) }
    ensures none { IfNone result ((y w : ℤ) → pos 0 <ℤ w → HoldsIn gap y w → ⊥) }
{
    let height = foot(gap);
    if is_within(gap.upper, height) {
        Some(height)
    } else {
        None
    }
}

/// A row without x.
fn flat_level(row: Row) -> Level
    requires { IsSmallRow row }
    ensures b { result.b ≡ row.b }
    ensures c { result.c ≡ row.c }
{
    Level { b: row.b, c: row.c }
}

/// The row that remains of two rows when x is removed. The first bounds x from above, the second
/// from below.
fn combined(first: Row, second: Row) -> Level
    requires first { IsSmallRow first }
    requires second { IsSmallRow second }
    ensures b { result.b ≡ first.a *ℤ second.b -ℤ second.a *ℤ first.b }
    ensures c { result.c ≡ first.a *ℤ second.c -ℤ second.a *ℤ first.c }
{
    Level {
        b: first.a * second.b - second.a * first.b,
        c: first.a * second.c - second.a * first.c,
    }
}

/// The part of the gap that two rows allow, the first of which bounds x from above.
fn narrowed_by_pair(gap: Gap, first: Row, second: Row) -> Option<Gap>
    requires first { IsSmallRow first }
    requires second { IsSmallRow second }
    requires above { pos 0 <ℤ first.a }
    ensures some { IfSome result
        (Narrows (PairAllows first second) (CrossesBoth first second) gap) }
    ensures none { IfNone result (IsNowhere (CrossesBoth first second)) }
{
    if second.a < 0 {
        narrowed(gap, combined(first, second))
    } else {
        Some(gap)
    }
}

/// The part of the gap that a row, which bounds x from above, allows together with each of the
/// others.
fn narrowed_by_pairs(mut gap: Gap, row: Row, rows: &[Row]) -> Option<Gap>
    requires row { IsSmallRow row }
    requires rows { All IsSmallRow rows.now }
    requires above { pos 0 <ℤ row.a }
    ensures some { IfSome result
        (Narrows (λ y w. All (λ other. PairAllows row other y w) rows.now) (CrossesAll row rows.now)
        gap) }
    ensures none { IfNone result (IsNowhere (CrossesAll row rows.now)) }
{
    for other in rows {
        match narrowed_by_pair(gap, row, *other) {
            Some(narrower) => gap = narrower,
            None => return None,
        }
    }
    Some(gap)
}

/// The part of the gap that a row allows together with the others.
fn narrowed_by_row(gap: Gap, row: Row, rows: &[Row]) -> Option<Gap>
    requires row { IsSmallRow row }
    requires rows { All IsSmallRow rows.now }
    ensures some { IfSome result (Narrows (RowAllows rows.now row) (CrossesAll row rows.now) gap) }
    ensures none { IfNone result (IsNowhere (CrossesAll row rows.now)) }
{
    if row.a > 0 {
        narrowed_by_pairs(gap, row, rows)
    } else if row.a < 0 {
        Some(gap)
    } else {
        narrowed(gap, flat_level(row))
    }
}

/// The heights that the frame at the front of the rows allows.
fn first_gap(rows: &[Row]) -> Gap
    requires small { All IsSmallRow rows.now }
    requires frame { HasFrame rows.now }
    ensures { (x y w : ℤ) → pos 0 <ℤ w → All (Satisfies x y w) rows.now → HoldsIn result y w }
{
    Gap {
        lower: bound_below(flat_level(rows[3])),
        upper: bound_above(flat_level(rows[2])),
    }
}

/// A height at which some point satisfies the rows; `None` if there is none.
fn height(rows: &[Row]) -> Option<Height>
    requires small { All IsSmallRow rows.now }
    requires frame { HasFrame rows.now }
    ensures some { IfSome result
        (λ found. All (λ row. RowAllows rows.now row found.y found.w) rows.now) }
    ensures none { IfNone result ((x y w : ℤ) → pos 0 <ℤ w → All (Satisfies x y w) rows.now → ⊥) }
{
    let mut gap = first_gap(rows);
    for row in rows {
        match narrowed_by_row(gap, *row, rows) {
            Some(narrower) => gap = narrower,
            None => return None,
        }
    }
    lowest(gap)
}

/// The greatest value of `a x` that a row allows for a point x/w, y/w at this height.
fn reach(row: Row, height: Height) -> i128
    requires { IsSmallRow row }
    ensures value { result ≡ reach row height.y height.w }
    ensures size { unsigned_abs result ≤ 640000000000000000000000000000 }
{
    row.c * height.w - row.b * height.y
}

/// Whether the first of two rows that bound x from above allows no greater x than the second.
fn is_closer(first: Row, second: Row, height: Height) -> bool
    requires first { IsSmallRow first }
    requires second { IsSmallRow second }
    ensures { IsTrue result ↔ IsCloser first second height.y height.w }
{
    reach(first, height) * second.a <= reach(second, height) * first.a
}

/// The closer of the best row so far, which bounds x from above, and one more row, if that bounds x
/// from above too.
fn closer(best: Row, row: Row, height: Height) -> Row
    requires best { IsSmallRow best }
    requires row { IsSmallRow row }
    requires above { pos 0 <ℤ best.a }
    ensures { IsBest best row height.y height.w result }
{
    if row.a > 0 {
        if is_closer(best, row, height) {
            best
        } else {
            row
        }
    } else {
        best
    }
}

/// The rightmost point at a height that a row allows.
fn point_at(row: Row, height: Height) -> Fraction
    requires small { IsSmallRow row }
    requires above { pos 0 <ℤ row.a }
    ensures x { result.x ≡ reach row height.y height.w }
    ensures y { result.y ≡ height.y *ℤ row.a }
    ensures w { result.w ≡ height.w *ℤ row.a }
{
    Fraction {
        x: reach(row, height),
        y: height.y * row.a,
        w: height.w * row.a,
    }
}

/// The rightmost point at a height that the rows allow.
fn furthest(rows: &[Row], height: Height) -> Fraction
    requires small { All IsSmallRow rows.now }
    requires frame { HasFrame rows.now }
    requires allowed { All (λ row. RowAllows rows.now row height.y height.w) rows.now }
    ensures { All (Satisfies result.x result.y result.w) rows.now }
{
    let mut best = rows[0];
    for row in rows {
        best = closer(best, *row, height);
    }
    point_at(best, height)
}

/// A fraction point that satisfies all rows; `None` if there is none.
pub fn solution(rows: &[Row]) -> Option<Fraction>
    requires small { All IsSmallRow rows.now }
    requires frame { HasFrame rows.now }
    ensures some { IfSome result (λ p. All (Satisfies p.x p.y p.w) rows.now) }
    ensures none { IfNone result ((x y w : ℤ) → pos 0 <ℤ w → All (Satisfies x y w) rows.now → ⊥) }
{
    match height(rows) {
        Some(found) => Some(furthest(rows, found)),
        None => None,
    }
}
