// The one NaN, and bit patterns. The logic has one NaN with no bits, compiled code one for each
// payload and sign: here every NaN is written as 7FF8000000000000, at f32 as 7FC00000, and every
// NaN pattern is read as it. A function for each format: the library's names for patterns are two,
// and a bound with a NaN and its law would be longer than the two bodies of `canonical`.
ghost use Rattle.std.specs.Prelude.{◌≡◌, from_bits, to_bits};
ghost use Rattle.std.specs.Float.{binary32, binary64};

// x, with the one NaN for any NaN. Whatever is stored to an output or returned goes through it.
pub fn canonical64(x: f64) -> f64
    ensures { result ≡ x }
{
    if x != x {
        return 0.0 / 0.0;
    }
    x
}

// x, with the one NaN for any NaN.
pub fn canonical32(x: f32) -> f32
    ensures { result ≡ x }
{
    if x != x {
        return 0.0 / 0.0;
    }
    x
}

// x's bit pattern.
pub fn bits64(x: f64) -> u64
    ensures { result ≡ to_bits binary64 x }
{
    std::num::f64_to_bits_with_nan(x)
}

// x's bit pattern.
pub fn bits32(x: f32) -> u32
    ensures { result ≡ to_bits binary32 x }
{
    std::num::f32_to_bits_with_nan(x)
}

// The f64 with the pattern b.
pub fn from_bits64(b: u64) -> f64
    ensures { result ≡ from_bits binary64 b }
{
    std::num::f64_from_bits_with_nan(b)
}

// The f32 with the pattern b.
pub fn from_bits32(b: u32) -> f32
    ensures { result ≡ from_bits binary32 b }
{
    std::num::f32_from_bits_with_nan(b)
}
