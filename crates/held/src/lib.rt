// For the programs that make calls: what a call left in the slices; and, for those whose calls are refused, what the
// slices hold before a call, and what a call changed in them. They are parts of arrays, which are looked at whole.
#![tactic(auto)]

use models::PredictOutcome;
use regression::FitOutcome;
use rt_matrix::FileColumns;
use std::io;

// What every cell, every value, every count and every flag holds before a call.
pub const CELL: f64 = 7.5;

pub const VALUE: f32 = 7.5;

pub const COUNT: u32 = 7;

pub const FLAG: bool = false;

// The lengths of the workspace, of an output of f64, and of any other output.
pub const WORKSPACE: usize = 15350;

pub const CELLS: usize = 101;

pub const VALUES: usize = 4;

// How many cells at the front are +0.0.
fn front_zeros(cells: &[f64]) -> usize {
    let front = cells.iter().position(|cell| float::bits64(*cell) != 0);
    front.unwrap_or(cells.len())
}

// n, and one more for each cell that is not what it was before. The sum may wrap, and so asks for no bound.
pub fn changed<T: PartialEq + Copy>(n: u64, cells: &[T], before: T) -> u64 {
    let mut count = n;
    for &cell in cells {
        if cell != before {
            count = count.wrapping_add(1);
        }
    }
    count
}

// How many cells changed of the columns of the files' records, which may be shared ones.
pub fn changed_columns(
    max_rt: &[f32],
    slope: &[f32],
    intercept: &[f32],
    used: &[u32],
    max_rt_exact: &[bool],
    slope_exact: &[bool],
    intercept_exact: &[bool],
) -> u64 {
    let longest = changed(0, max_rt, VALUE);
    let slopes = changed(longest, slope, VALUE);
    let lines = changed(slopes, intercept, VALUE);
    let counts = changed(lines, used, COUNT);
    let exact = changed(counts, max_rt_exact, FLAG);
    let exact = changed(exact, slope_exact, FLAG);
    changed(exact, intercept_exact, FLAG)
}

// How many fields of the files' records changed.
pub fn changed_records(records: &FileColumns<'_>) -> u64 {
    changed_columns(
        &records.max_rt[..],
        &records.slope[..],
        &records.intercept[..],
        &records.used[..],
        &records.max_rt_exact[..],
        &records.slope_exact[..],
        &records.intercept_exact[..],
    )
}

// Writes the records of the first files, column by column.
pub fn write_records(out: &impl Print, records: &FileColumns<'_>, files: usize) -> io::Result<()> {
    vectors::write_first(out, records.max_rt, files)?;
    vectors::write_first(out, records.slope, files)?;
    vectors::write_first(out, records.intercept, files)?;
    vectors::write_first(out, records.used, files)?;
    vectors::write_first(out, records.max_rt_exact, files)?;
    vectors::write_first(out, records.slope_exact, files)?;
    vectors::write_first(out, records.intercept_exact, files)
}

// n, and how many cells of a model's outputs changed. (Three slices: a call takes its Outputs by value.)
pub fn changed_model(
    n: u64,
    beta: &[f64; CELLS],
    predicted: &[f32; VALUES],
    error: &[f32; VALUES],
) -> u64 {
    changed(
        changed(changed(n, beta, CELL), predicted, VALUE),
        error,
        VALUE,
    )
}

// Writes what a call left in a workspace.
pub fn write_workspace(out: &impl Print, workspace: &[f64; WORKSPACE]) -> io::Result<()> {
    vectors::write_token(out, front_zeros(workspace) as u64)?;
    vectors::write_token(out, changed(0, workspace, CELL))
}

// The number of a fit's outcome.
fn number(fit: FitOutcome) -> u64 {
    match fit {
        Ok(_) => 0,
        Err(why) => why as u64,
    }
}

// Writes the number of a prediction's outcome, and how many predictions narrowing changed.
pub fn write_outcome(out: &impl Print, outcome: PredictOutcome) -> io::Result<()> {
    let fit = outcome.fit;
    vectors::write_token(out, number(fit))?;
    vectors::write_token(out, outcome.inexact as u64)
}
