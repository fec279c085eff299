// Calls of the solver.
ghost use Rattle.std.specs.Prelude.{◌≤◌};

use held::{CELL, CELLS, WORKSPACE};
use status::Refusal;
use std::io;

// The number of an answer.
fn number(answer: Result<Option<f64>, Refusal>) -> u64 {
    match answer {
        Ok(Some(_)) => 0,
        Ok(None) => u64::from(status::NOT_SOLVED),
        Err(refusal) => u64::from(refusal.number()),
    }
}

// Writes what a call answers and leaves, whose workspace and solution have so many cells: by what differs from case to
// case (a struct would name it again).
fn solve(
    out: &impl Print,
    left: &[f64],
    right: &[f64],
    n: usize,
    c: usize,
    cells: usize,
    outputs: usize,
) -> io::Result<()>
    requires { (cells ≤ 15350) × (outputs ≤ 101) }
{
    let mut workspace = [CELL; WORKSPACE];
    let mut solution = [CELL; CELLS];
    let answer = gauss::solve(
        left,
        right,
        n,
        c,
        &mut workspace[..cells],
        &mut solution[..outputs],
    );
    vectors::write_token(out, number(answer))?;
    held::write_workspace(out, &workspace)?;
    vectors::write_token(out, held::changed(0, &solution, CELL))
}

// A system of order 1.
fn one(out: &impl Print, left: f64, right: f64, cells: usize, outputs: usize) -> io::Result<()>
    requires { (cells ≤ 15350) × (outputs ≤ 101) }
{
    solve(out, &[left], &[right], 1, 1, cells, outputs)
}

// 0: just the needed room; more of it. 3: a workspace, and a solution, that is a cell too short.
fn room(out: &impl Print) -> io::Result<()> {
    one(out, -1E-8, 5.0, 2, 1)?;
    one(out, -1E-8, 5.0, 16, 16)?;
    one(out, -1E-8, 5.0, 1, 1)?;
    one(out, -1E-8, 5.0, 2, 0)
}

// 1: two left cells for order 1; one right cell for two columns; a left cell for order 0, which is 2 too.
fn lengths(out: &impl Print) -> io::Result<()> {
    let left = [1.0; 2];
    let right = [1.0];
    solve(out, &left, &right, 1, 1, 16, 16)?;
    solve(out, &left[..1], &right, 1, 2, 16, 16)?;
    solve(out, &left[..1], &right[..0], 0, 1, 16, 16)
}

// 2: order 0; no right column; 9 right columns; order 101, for which the room is too short as well. Within the limits:
// 8 right columns, which are 0, and order 100, which is 3.
fn limits(out: &impl Print) -> io::Result<()> {
    let left = [1.0; 10201];
    let right = [1.0; 101];
    solve(out, &left[..0], &right[..0], 0, 1, 16, 16)?;
    solve(out, &left[..1], &right[..0], 1, 0, 16, 16)?;
    solve(out, &left[..1], &right[..9], 1, 9, 16, 16)?;
    solve(out, &left, &right, 101, 1, 16, 16)?;
    solve(out, &left[..1], &right[..8], 1, 8, 16, 16)?;
    solve(out, &left[..10000], &right[..100], 100, 1, 16, 16)
}

// 9: a NaN; the diagonal (-1, 1). A NaN in too short a workspace is 3.
fn unsolved(out: &impl Print) -> io::Result<()> {
    let nan = 0.0 / 0.0;
    one(out, nan, 1.0, 16, 16)?;
    let diagonal = [-1.0, 0.0, 0.0, 1.0];
    let ones = [1.0; 2];
    solve(out, &diagonal, &ones, 2, 1, 16, 16)?;
    one(out, nan, 1.0, 1, 1)
}

pub(crate) fn calls(out: &impl Print) -> io::Result<()> {
    room(out)?;
    lengths(out)?;
    limits(out)?;
    unsolved(out)
}
