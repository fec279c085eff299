// Replays stored answers of the Rust for the functions of `mass`: 01 is the column of a letter from A to Z, 02 the
// residue of a column.
#![tactic(auto)]

use std::io;
use vectors::Record;

// The answer where there is none. (The stored answers have it.)
const NONE: u64 = 0xffff_ffff_ffff_ffff;

fn column(v: u64) -> u64 {
    let letter = (v % 256) as u8;
    if mass::is_letter(letter) {
        mass::column(letter) as u64
    } else {
        NONE
    }
}

fn residue(v: u64) -> u64 {
    mass::residue_at(v as usize).map_or(NONE, u64::from)
}

fn answer(r: Record) -> u64 {
    match r.op {
        1 => column(r.a),
        2 => residue(r.a),
        _ => NONE,
    }
}

fn main(rt: HostRuntime) -> io::Result<()> {
    vectors::replay(&rt, &mut rt.reader(), answer)
}
