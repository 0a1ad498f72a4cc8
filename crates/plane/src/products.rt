//! Differences of coordinates and their products. Both fit into 64 bits.

ghost use Rattle.std.specs.Prelude.{◌≡◌, ◌≤◌, ◌-ℤ◌, ◌*ℤ◌, unsigned_abs};
ghost use Rattle.plane.specs.Coordinates.{IsCoordinate};

/// The coordinate `to` minus the coordinate `from`.
pub fn difference(from: i32, to: i32) -> i64
    requires from { IsCoordinate from }
    requires to { IsCoordinate to }
    ensures value { result ≡ to -ℤ from }
    ensures size { unsigned_abs result ≤ 20000000 }
{
    i64::from(to) - i64::from(from)
}

/// `a b - c d`.
pub fn cross(a: i64, b: i64, c: i64, d: i64) -> i64
    requires a { unsigned_abs a ≤ 20000000 }
    requires b { unsigned_abs b ≤ 20000000 }
    requires c { unsigned_abs c ≤ 20000000 }
    requires d { unsigned_abs d ≤ 20000000 }
    ensures { result ≡ a *ℤ b -ℤ c *ℤ d }
{
    a * b - c * d
}
