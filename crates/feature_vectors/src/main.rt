// Replays stored answers of the Rust's test of a training row: a label as the bits of an i32, and the pattern of q.
#![tactic(auto)]

use std::io;
use vectors::Record;

fn answer(r: Record) -> u64 {
    feature::trains(
        vectors::low32(r.a).cast_signed(),
        float::from_bits32(vectors::low32(r.b)),
    ) as u64
}

fn main(rt: HostRuntime) -> io::Result<()> {
    vectors::replay(&rt, &mut rt.reader(), answer)
}
