// Floats: conversions, tests, the one NaN, bit patterns and their hex digits, each equal to a
// definition over IEEE 754's values.
#![tactic(auto)]

mod convert; // narrow, widen, ceil_to_u32, u32_to_f64, u32_to_f32
mod value; // is_finite64, is_finite32, is_normal64, abs32, min64, clamp64
mod bits; // canonical64, canonical32, bits64, bits32, from_bits64, from_bits32
mod hex; // hex_digit, digit_value, write_hex, read_hex

pub use bits::{bits32, bits64, canonical32, canonical64, from_bits32, from_bits64};
pub use convert::{Narrowed, ceil_to_u32, narrow, u32_to_f32, u32_to_f64, widen};
pub use hex::{digit_value, hex_digit, read_hex, write_hex};
pub use value::{abs32, clamp64, is_finite32, is_finite64, is_normal64, min64};
