// Functions that return a float under C names, for a test of the bits of a NaN in compiled code, and one that says
// whether a narrowing was exact.
#![tactic(auto)]

ghost use Rattle.std.specs.Prelude.{◌≡◌};
ghost use Rattle.std.specs.Float.{binary32, binary64};
ghost use Rattle.std.specs.Float.Ieee.{of_bits};
ghost use Rattle.float.specs.Convert.{narrowed, is_exact};
ghost use Rattle.float.specs.Value.{magnitude, minimum, clamped};
ghost use Rattle.regression.specs.Regression.{dot};

#[unsafe(no_mangle)]
pub extern "C" fn zk_canonical64(x: f64) -> f64
    ensures { result ≡ x }
{
    float::canonical64(x)
}

#[unsafe(no_mangle)]
pub extern "C" fn zk_canonical32(x: f32) -> f32
    ensures { result ≡ x }
{
    float::canonical32(x)
}

#[unsafe(no_mangle)]
pub extern "C" fn zk_narrow(x: f64) -> f32
    ensures { result ≡ narrowed x }
{
    float::narrow(x).value
}

#[unsafe(no_mangle)]
pub extern "C" fn zk_narrow_exact(x: f64) -> bool
    ensures { result ≡ is_exact x }
{
    float::narrow(x).exact
}

#[unsafe(no_mangle)]
pub extern "C" fn zk_widen(x: f32) -> f64
    ensures { result ≡ x }
{
    float::widen(x)
}

#[unsafe(no_mangle)]
pub extern "C" fn zk_abs32(x: f32) -> f32
    ensures { result ≡ magnitude x }
{
    float::abs32(x)
}

#[unsafe(no_mangle)]
pub extern "C" fn zk_min64(a: f64, b: f64) -> f64
    ensures { result ≡ minimum a b }
{
    float::min64(a, b)
}

#[unsafe(no_mangle)]
pub extern "C" fn zk_clamp64(x: f64, lo: f64, hi: f64) -> f64
    ensures { result ≡ clamped lo hi x }
{
    float::clamp64(x, lo, hi)
}

#[unsafe(no_mangle)]
pub extern "C" fn zk_from_bits64(b: u64) -> f64
    ensures { result ≡ of_bits binary64 b }
{
    float::from_bits64(b)
}

#[unsafe(no_mangle)]
pub extern "C" fn zk_from_bits32(b: u32) -> f32
    ensures { result ≡ of_bits binary32 b }
{
    float::from_bits32(b)
}

#[unsafe(no_mangle)]
pub extern "C" fn zk_predict(row: &[f64], beta: &[f64]) -> f64
    ensures { result ≡ dot row.now beta.now }
{
    regression::predict(row, beta)
}
