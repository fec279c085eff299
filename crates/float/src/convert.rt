// Conversions between the two float formats and the integers.
ghost use Rattle.std.specs.Prelude.{◌≡◌, ◌^◌, ◌<◌, ◌≤◌, pos};
ghost use Rattle.std.specs.Float.{binary32, binary64};
ghost use Rattle.std.specs.Float.Ieee.{of_int};
ghost use Rattle.std.specs.Float.Ieee.Nearest.{closest};
ghost use Rattle.float.specs.Convert.{narrowed, is_exact, ceiling};

use crate::bits::bits64;

// An f64 as an f32, and whether nothing was lost: the two are equal, which a NaN never is. The f32 is wanted where
// something was lost too, so this is no Option.
#[derive(Clone, Copy)]
pub struct Narrowed {
    pub value: f32,
    pub exact: bool,
}

// Rust's `x as f32`, and `(x as f32) as f64 == x`. The nearest f32, of two as near the one with an
// even last digit: what rounds to 2^128 or more is an infinity, a zero keeps its sign, and a NaN
// gives 7FC00000.
pub fn narrow(x: f64) -> Narrowed
    ensures value_value { result.value ≡ narrowed x }
    ensures exact_value { result.exact ≡ is_exact x }
{
    let value = nearest_f32(x);
    let wide = widen(value);
    Narrowed {
        value,
        exact: wide == x,
    }
}

// The f32 of `narrow`. A size from 2^-126 to below 2^128 is rounded here, by its digits: the library, which rounds the
// rest, takes a quarter longer.
fn nearest_f32(x: f64) -> f32
    ensures { result ≡ narrowed x }
{
    let b = bits64(x);
    let e = b % 0x8000_0000_0000_0000 / 0x10_0000_0000_0000;
    if e < 897 || 1150 < e {
        return std::num::nearest_f64_to_f32_with_nan(x);
    }
    let p = (e - 897) * 0x80_0000
        + shift_right_nearest(0x10_0000_0000_0000 + b % 0x10_0000_0000_0000, 29);
    if b < 0x8000_0000_0000_0000 {
        return f32::from_bits(p as u32);
    }
    f32::from_bits((0x8000_0000 + p) as u32)
}

// v / 2^h to the nearest whole number, a tie to the even one.
fn shift_right_nearest(v: u64, h: u64) -> u64
    requires { (1 ≤ h) × (h < 63) }
    ensures { result ≡ closest v (2 ^ h) }
{
    let u: u64 = 1 << h;
    let q: u64 = v >> h;
    let r: u64 = (v & (u - 1)) * 2;
    if r < u {
        return q;
    }
    if u < r {
        return q + 1;
    }
    q + q % 2
}

// x as an f64, which holds every f32. A NaN gives 7FF8000000000000.
pub fn widen(x: f32) -> f64
    ensures { result ≡ x }
{
    f64::from(x)
}

// Rust's `x.ceil() as u32`: x rounded up to a whole number; 0 for a NaN and for what is negative,
// 4,294,967,295 for what is above that. By the whole part: the library's `ceil` takes half as long again.
pub fn ceil_to_u32(x: f32) -> u32
    ensures { result ≡ ceiling 32 x }
{
    if x > 0.0 {
        if x < 4294967296.0 {
            let t: u64 = std::num::truncating_f32_to_u64(x);
            if (t as f64) < x as f64 {
                if t < 4294967295 {
                    return (t + 1) as u32;
                }
                return 4294967295;
            }
            return t as u32;
        }
        return 4294967295;
    }
    0
}

// Rust's `n as f64`, which is exact.
pub fn u32_to_f64(n: u32) -> f64
    ensures { result ≡ of_int binary64 (pos n) }
{
    f64::from(n)
}

// Rust's `n as f32`: the nearest f32, of two as near the one with an even last digit.
pub fn u32_to_f32(n: u32) -> f32
    ensures { result ≡ of_int binary32 (pos n) }
{
    std::num::nearest_u32_to_f32(n)
}
