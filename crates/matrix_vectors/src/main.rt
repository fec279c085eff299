// Replays stored answers of the Rust's `Matrix::get`: a row, a column and a shape, for a matrix whose cells hold
// their own places.
#![tactic(auto)]

use std::io;
use vectors::Record;

// The answer where there is none. (The stored answers have it.)
const NONE: u64 = 0xffff_ffff_ffff_ffff;

// A cell of the matrix that lies in the first cells.
fn cell(cells: &[f64], rows: u32, cols: u32, row: u32, col: u32) -> u64 {
    if rows > 1024 || cols > 1024 {
        return NONE;
    }
    let Some(matrix) = cells.get(..(rows * cols) as usize) else {
        return NONE;
    };
    matrix::get(matrix, rows, cols, row, col).map_or(NONE, |x| float::bits64(x))
}

fn answer(cells: &[f64], r: Record) -> u64 {
    let shape = r.c;
    cell(
        cells,
        vectors::low32(shape / 4294967296),
        vectors::low32(shape),
        vectors::low32(r.a),
        vectors::low32(r.b),
    )
}

// Each cell holds the number of its place.
fn main(rt: HostRuntime) -> io::Result<()> {
    let mut cells = [0.0f64; 1024];
    for i in 0..1024 {
        cells[i as usize] = float::u32_to_f64(i);
    }
    vectors::replay(&rt, &mut rt.reader(), |r| answer(&cells, r))
}
