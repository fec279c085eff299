// Replays stored answers of the Rust's `Gauss::solve`. Standard input is the number of systems, then for each its
// order, its number of right columns, and the cells of its left and its right side. Standard output is 9 for each
// that no ridge solves, else 0, the ridge and the solution's cells.
#![tactic(auto)]

ghost use Rattle.std.specs.Prelude.{◌≡◌, length, IfOk, IfSome, ◌*◌, ◌≤◌};

use status::Refusal;
use std::io;
use std::io::Read;

// The next line's number, if it is at most `most`.
fn number(input: &mut impl Read, most: u64) -> io::Result<Option<u64>>
    ensures { IfOk result (λ o. IfSome o (λ n. n ≤ most)) }
{
    Ok(vectors::read_token(input)?.filter(|v| *v <= most))
}

// The cells of n rows of c.
fn cells(n: usize, c: usize) -> usize
    requires { (n ≤ 100) × (c ≤ 100) }
    ensures { result ≤ 100 * c }
{
    matrix::cell_count(n, c)
}

// So many cells. The `ensures` gives only the length, which lending a part needs.
fn blank_cells<const N: usize>() -> [f64; N]
    ensures { N ≡ length result }
{
    [0.0; N]
}

// Writes what a call answered.
fn report(
    out: &impl Print,
    answer: Result<Option<f64>, Refusal>,
    solution: &[f64],
) -> io::Result<()> {
    match answer {
        Ok(Some(ridge)) => {
            vectors::write_token(out, 0)?;
            vectors::write(out, ridge)?;
            vectors::write_all(out, solution)
        }
        Ok(None) => vectors::write_token(out, status::NOT_SOLVED as u64),
        Err(refusal) => vectors::write_token(out, refusal.number() as u64),
    }
}

// Answers one system of order n with c right columns, and says whether its cells were all there. The parts are those
// of the program's arrays, as many as `gauss::solve` takes.
fn solve(
    out: &impl Print,
    input: &mut impl Read,
    left: &mut [f64],
    right: &mut [f64],
    n: usize,
    c: usize,
    workspace: &mut [f64],
    solution: &mut [f64],
) -> io::Result<bool> {
    if !vectors::read_all(input, left)? || !vectors::read_all(input, right)? {
        return Ok(false);
    }
    let answer = gauss::solve(left, right, n, c, workspace, solution);
    report(out, answer, solution)?;
    Ok(true)
}

// Answers the next system, and says whether there was one.
fn replay(out: &impl Print, input: &mut impl Read) -> io::Result<bool> {
    let (Some(n), Some(c)) = (number(input, 100)?, number(input, 8)?) else {
        return Ok(false);
    };
    if n < 1 {
        return Ok(false);
    }
    let n = n as usize;
    let c = c as usize;
    let mut left = blank_cells::<10000>();
    let mut right = blank_cells::<800>();
    let mut workspace = blank_cells::<10800>();
    let mut solution = blank_cells::<800>();
    let lefts = cells(n, n);
    let outputs = cells(n, c);
    solve(
        out,
        input,
        &mut left[..lefts],
        &mut right[..outputs],
        n,
        c,
        &mut workspace,
        &mut solution[..outputs],
    )
}

fn main(rt: HostRuntime) -> io::Result<()> {
    vectors::replay_counted(&mut rt.reader(), |input, _| replay(&rt, input))
}
