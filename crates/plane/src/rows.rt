//! Rows: the half planes that a shape is made of.

/// A row `a x + b y <= c`: a closed half plane.
#[derive(Clone, Copy, Debug, Default, PartialEq, Eq)]
pub struct Row {
    pub a: i128,
    pub b: i128,
    pub c: i128,
}
