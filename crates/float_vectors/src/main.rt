// Replays stored answers of the Rust for the functions of `float`: each line of standard input names
// a function and has its arguments' patterns, and each line of standard output is the result's.
#![tactic(auto)]

use std::io;
use vectors::Record;

fn f32_of(v: u64) -> f32 {
    float::from_bits32(vectors::low32(v))
}

fn answer(r: Record) -> u64 {
    let op = r.op;
    let a = r.a;
    let x = float::from_bits64(a);
    let y = f32_of(a);
    match op {
        1 => float::bits32(float::narrow(x).value) as u64,
        2 => float::ceil_to_u32(y) as u64,
        3 => float::bits64(float::u32_to_f64(vectors::low32(a))),
        4 => float::bits32(float::u32_to_f32(vectors::low32(a))) as u64,
        5 => float::is_finite64(x) as u64,
        6 => float::is_normal64(x) as u64,
        7 => float::bits32(float::abs32(y)) as u64,
        8 => float::bits64(float::min64(x, float::from_bits64(r.b))),
        9 => float::bits64(float::clamp64(x, float::from_bits64(r.b), float::from_bits64(r.c))),
        10 => float::bits32(y) as u64,
        11 => float::bits64(x),
        12 => float::bits64(float::widen(y)),
        13 => float::is_finite32(y) as u64,
        14 => float::narrow(x).exact as u64,
        // No stored record has another number.
        _ => 0xffff_ffff_ffff_ffff,
    }
}

fn main(rt: HostRuntime) -> io::Result<()> {
    vectors::replay(&rt, &mut rt.reader(), answer)
}
