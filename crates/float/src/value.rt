// Tests of a value, its size, the smaller of two, and a value brought into a range. The tests and the
// size are the library's, under the definitions that the clauses of the crates above cite.
ghost use Rattle.std.specs.Prelude.{◌≡◌};
ghost use Rattle.std.specs.Float.{binary64};
ghost use Rattle.float.specs.Value.{is_finite, is_normal, magnitude, minimum, clamped};

use crate::bits::{canonical32, canonical64};

// Neither a NaN nor an infinity.
pub fn is_finite64(x: f64) -> bool
    ensures { result ≡ is_finite x }
{
    x.is_finite()
}

// Neither a NaN nor an infinity.
pub fn is_finite32(x: f32) -> bool
    ensures { result ≡ is_finite x }
{
    x.is_finite()
}

// Finite, not zero and not subnormal: 2^-1022 is the smallest such size.
pub fn is_normal64(x: f64) -> bool
    ensures { result ≡ is_normal binary64 x }
{
    x.is_normal()
}

// |x|: -0.0 gives 0.0, and a NaN 7FC00000.
pub fn abs32(x: f32) -> f32
    ensures { result ≡ magnitude x }
{
    canonical32(x.abs())
}

// The smaller of the two: a NaN yields to a number, and of two equal values, a zero of either sign
// among them, it is a. Two NaNs give 7FF8000000000000. The library's `min` may answer either of two
// equal values.
pub fn min64(a: f64, b: f64) -> f64
    ensures { result ≡ minimum a b }
{
    if a != a {
        return canonical64(b);
    }
    if b < a {
        return b;
    }
    a
}

// Rust's `x.clamp(lo, hi)` where lo <= hi, and by the same tests for any lo and hi: lo where x is
// below it, else hi where x is above it, else x. So -0.0 stays as it is between 0.0 and 1.0, and a
// NaN gives 7FF8000000000000. The library's `clamp` requires lo <= hi.
pub fn clamp64(x: f64, lo: f64, hi: f64) -> f64
    ensures { result ≡ clamped lo hi x }
{
    if x < lo {
        return lo;
    }
    if x > hi {
        return hi;
    }
    canonical64(x)
}
