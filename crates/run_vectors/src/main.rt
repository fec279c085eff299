// Replays stored runs of the Rust. Standard input is the number of batches and then, for each, the numbers of files,
// peptides, letters and rows, the peptide table (offsets, letters, masses, logs) and the columns file, peptide,
// label, q, rt, charge and mobility. Standard output is, for each, the status, the columns max_rt, slope, intercept,
// used, max_rt_exact, slope_exact, intercept_exact and aligned, what each model answers, and the predictions and errors
// of each that solves.
#![tactic(auto)]

ghost use Rattle.std.specs.Prelude.{◌≤◌};

use models::PredictOutcome;
use run::{Batch, FileColumns, Outputs, Table};
use std::io;
use std::io::Read;

// The stored batches are within these.
const FILES: usize = 8;

const PEPTIDES: usize = 128;

const LETTERS: usize = 2048;

const ROWS: usize = 512;

// The workspace of the mobility fit, which is more than the files times the peptides.
const CELLS: usize = regression::MAX_WORKSPACE;

// Writes the status 8, 9 or 0 and the count of predictions that narrowing changed, and with 0 the ridge, r2, n and the
// coefficients; says whether the fit solved.
fn write_fit(out: &impl Print, outcome: PredictOutcome, beta: &[f64]) -> io::Result<bool> {
    let inexact = outcome.inexact;
    match outcome.fit {
        Err(why) => {
            vectors::write_token(out, why as u64)?;
            vectors::write(out, inexact)?;
            Ok(false)
        }
        Ok(fit) => {
            vectors::write_token(out, 0)?;
            vectors::write(out, inexact)?;
            vectors::write(out, fit.ridge)?;
            vectors::write(out, fit.r2)?;
            vectors::write(out, fit.n)?;
            vectors::write_all(out, beta)?;
            Ok(true)
        }
    }
}

// Writes the first rows of a model's predictions and errors, if it solved.
fn write_model(
    out: &impl Print,
    solved: bool,
    predicted: &[f32],
    error: &[f32],
    rows: usize,
) -> io::Result<()> {
    if solved {
        vectors::write_first(out, predicted, rows)?;
        vectors::write_first(out, error, rows)?;
    }
    Ok(())
}

// Runs a batch, and writes what the call leaves in the slices. They hold `held` before it, which the answers don't
// depend on.
fn answer(out: &impl Print, batch: Batch<'_>, held: f32) -> io::Result<()> {
    let (files, rows) = (batch.files, batch.file.len());
    let wide = float::widen(held);
    let flag = held > 100.0;
    let mut workspace = [wide; CELLS];
    let mut max_rt = [held; FILES];
    let mut slope = [held; FILES];
    let mut intercept = [held; FILES];
    let mut used = [float::ceil_to_u32(held); FILES];
    let mut max_rt_exact = [flag; FILES];
    let mut slope_exact = [flag; FILES];
    let mut intercept_exact = [flag; FILES];
    let mut aligned = [held; ROWS];
    let mut retention_beta = [wide; embedding::RETENTION_FEATURES];
    let mut retention_predicted = [held; ROWS];
    let mut retention_error = [held; ROWS];
    let mut mobility_beta = [wide; embedding::MOBILITY_FEATURES];
    let mut mobility_predicted = [held; ROWS];
    let mut mobility_error = [held; ROWS];
    let mut records = FileColumns {
        max_rt: &mut max_rt,
        slope: &mut slope,
        intercept: &mut intercept,
        used: &mut used,
        max_rt_exact: &mut max_rt_exact,
        slope_exact: &mut slope_exact,
        intercept_exact: &mut intercept_exact,
    };
    let retention = Outputs {
        beta: &mut retention_beta,
        predicted: &mut retention_predicted,
        error: &mut retention_error,
    };
    let mobility = Outputs {
        beta: &mut mobility_beta,
        predicted: &mut mobility_predicted,
        error: &mut mobility_error,
    };
    let ran = match run::run(
        batch,
        &mut workspace,
        &mut records,
        &mut aligned,
        retention,
        mobility,
    ) {
        Ok(ran) => ran,
        Err(refusal) => return vectors::write_token(out, u64::from(refusal.number())),
    };
    vectors::write_token(out, 0)?;
    held::write_records(out, &records, files)?;
    vectors::write_first(out, &aligned, rows)?;
    let r = write_fit(out, ran.retention, &retention_beta)?;
    let m = write_fit(out, ran.mobility, &mobility_beta)?;
    write_model(out, r, &retention_predicted, &retention_error, rows)?;
    write_model(out, m, &mobility_predicted, &mobility_error, rows)
}

// How much of the program's arrays a batch takes, and how many files it has.
#[derive(Clone, Copy)]
struct Sizes {
    files: usize,
    peptides: usize,
    letters: usize,
    rows: usize,
    ghost within: { (peptides ≤ 128) × (letters ≤ 2048) × (rows ≤ 512) },
}

// The next batch's sizes; None where there is none, or it is past the arrays.
fn read_sizes(input: &mut impl Read) -> io::Result<Option<Sizes>> {
    let Some(sizes) = vectors::read_tokens::<4>(input)? else {
        return Ok(None);
    };
    let [files, peptides, letters, rows] = sizes;
    if peptides > PEPTIDES as u64 || letters > LETTERS as u64 || rows > ROWS as u64 {
        return Ok(None);
    }
    Ok(Some(Sizes {
        files: files as usize,
        peptides: peptides as usize,
        letters: letters as usize,
        rows: rows as usize,
    }))
}

// Answers a batch of these sizes, and says whether it was there.
fn replay_sized(
    out: &impl Print,
    input: &mut impl Read,
    sizes: Sizes,
    held: f32,
) -> io::Result<bool> {
    let Sizes {
        files,
        peptides,
        letters: count,
        rows,
    } = sizes;
    let mut offsets = [0u32; PEPTIDES + 1];
    let mut letters = [0u8; LETTERS];
    let mut masses = [0.0f32; PEPTIDES];
    let mut logs = [0.0f64; PEPTIDES];
    let mut file = [0u32; ROWS];
    let mut peptide = [0u32; ROWS];
    let mut label = [0i32; ROWS];
    let mut q = [0.0f32; ROWS];
    let mut rt = [0.0f32; ROWS];
    let mut charge = [0u8; ROWS];
    let mut mobility = [0.0f32; ROWS];
    let there = vectors::read_all(input, &mut offsets[..peptides + 1])?
        && vectors::read_all(input, &mut letters[..count])?
        && vectors::read_all(input, &mut masses[..peptides])?
        && vectors::read_all(input, &mut logs[..peptides])?
        && vectors::read_all(input, &mut file[..rows])?
        && vectors::read_all(input, &mut peptide[..rows])?
        && vectors::read_all(input, &mut label[..rows])?
        && vectors::read_all(input, &mut q[..rows])?
        && vectors::read_all(input, &mut rt[..rows])?
        && vectors::read_all(input, &mut charge[..rows])?
        && vectors::read_all(input, &mut mobility[..rows])?;
    if !there {
        return Ok(false);
    }
    let table = Table {
        letters: &letters[..count],
        offsets: &offsets[..peptides + 1],
        masses: &masses[..peptides],
        logs: &logs[..peptides],
    };
    let batch = Batch {
        file: &file[..rows],
        peptide: &peptide[..rows],
        label: &label[..rows],
        q: &q[..rows],
        rt: &rt[..rows],
        charge: &charge[..rows],
        mobility: &mobility[..rows],
        files,
        table,
    };
    answer(out, batch, held)?;
    Ok(true)
}

// Answers the next batch, and says whether there was one.
fn replay(out: &impl Print, input: &mut impl Read, held: f32) -> io::Result<bool> {
    match read_sizes(input)? {
        Some(sizes) => replay_sized(out, input, sizes, held),
        None => Ok(false),
    }
}

fn main(rt: HostRuntime) -> io::Result<()> {
    vectors::replay_counted(&mut rt.reader(), |input, left| {
        replay(&rt, input, float::u32_to_f32(vectors::low32(left)))
    })
}
