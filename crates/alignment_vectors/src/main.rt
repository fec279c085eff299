// Replays stored alignments of the Rust. Standard input is the number of batches and then, for each, the numbers of
// files, peptides and rows and the columns file, peptide, label, q and rt; standard output is, for each, the status
// and the columns max_rt, slope, intercept, used, max_rt_exact, slope_exact, intercept_exact and aligned.
#![tactic(auto)]

ghost use Rattle.std.specs.Prelude.{◌≤◌};

use retention_alignment::{FileColumns, Observations};
use std::io;
use std::io::Read;

// The stored batches are within these.
const FILES: usize = 4096;

const ROWS: usize = 1024;

const CELLS: usize = 8192;

// Aligns the rows, and writes what the call leaves in the slices.
fn answer(out: &impl Print, observed: Observations<'_>) -> io::Result<()> {
    let mut workspace = [0.0f64; CELLS];
    let mut max_rt = [0.0f32; FILES];
    let mut slope = [0.0f32; FILES];
    let mut intercept = [0.0f32; FILES];
    let mut used = [0u32; FILES];
    let mut max_rt_exact = [false; FILES];
    let mut slope_exact = [false; FILES];
    let mut intercept_exact = [false; FILES];
    let mut aligned = [0.0f32; ROWS];
    let mut columns = FileColumns {
        max_rt: &mut max_rt,
        slope: &mut slope,
        intercept: &mut intercept,
        used: &mut used,
        max_rt_exact: &mut max_rt_exact,
        slope_exact: &mut slope_exact,
        intercept_exact: &mut intercept_exact,
    };
    let done = retention_alignment::global_alignment(
        observed,
        &mut workspace,
        &mut columns,
        &mut aligned,
    );
    if let Err(refusal) = done {
        return vectors::write_token(out, u64::from(refusal.number()));
    }
    vectors::write_token(out, 0)?;
    held::write_records(out, &columns, observed.files)?;
    vectors::write_first(out, &aligned, observed.file.len())
}

// Answers a batch of so many rows, and says whether its columns were there.
fn replay_rows(
    out: &impl Print,
    input: &mut impl Read,
    files: usize,
    peptides: usize,
    rows: usize,
) -> io::Result<bool>
    requires { rows ≤ ROWS }
{
    let mut file = [0u32; ROWS];
    let mut peptide = [0u32; ROWS];
    let mut label = [0i32; ROWS];
    let mut q = [0.0f32; ROWS];
    let mut rt = [0.0f32; ROWS];
    let there = vectors::read_all(input, &mut file[..rows])?
        && vectors::read_all(input, &mut peptide[..rows])?
        && vectors::read_all(input, &mut label[..rows])?
        && vectors::read_all(input, &mut q[..rows])?
        && vectors::read_all(input, &mut rt[..rows])?;
    if there {
        let observed = Observations {
            file: &file[..rows],
            peptide: &peptide[..rows],
            label: &label[..rows],
            q: &q[..rows],
            rt: &rt[..rows],
            files,
            peptides,
        };
        answer(out, observed)?;
    }
    Ok(there)
}

// Answers one batch, and says whether there was one.
fn replay(out: &impl Print, input: &mut impl Read) -> io::Result<bool> {
    let Some(sizes) = vectors::read_tokens::<3>(input)? else {
        return Ok(false);
    };
    let [files, peptides, rows] = sizes;
    if rows > ROWS as u64 {
        return Ok(false);
    }
    replay_rows(out, input, files as usize, peptides as usize, rows as usize)
}

fn main(rt: HostRuntime) -> io::Result<()> {
    vectors::replay_counted(&mut rt.reader(), |input, _| replay(&rt, input))
}
