// Calls of the alignment. Each output has four cells.
ghost use Rattle.std.specs.Prelude.{◌≤◌};

use held::{CELL, COUNT, FLAG, VALUE, VALUES, WORKSPACE};
use retention_alignment::{FileColumns, Observations};
use status::Refusal;
use std::io;

// The number of an answer.
fn number(answer: Result<(), Refusal>) -> u64 {
    match answer {
        Ok(()) => 0,
        Err(refusal) => u64::from(refusal.number()),
    }
}

// Writes what a call answers and leaves, whose workspace has so many cells.
fn align(out: &impl Print, observed: Observations<'_>, cells: usize) -> io::Result<()>
    requires { cells ≤ 15350 }
{
    let mut workspace = [CELL; WORKSPACE];
    let mut max_rt = [VALUE; VALUES];
    let mut slope = [VALUE; VALUES];
    let mut intercept = [VALUE; VALUES];
    let mut used = [COUNT; VALUES];
    let mut max_rt_exact = [FLAG; VALUES];
    let mut slope_exact = [FLAG; VALUES];
    let mut intercept_exact = [FLAG; VALUES];
    let mut aligned = [VALUE; VALUES];
    let mut columns = FileColumns {
        max_rt: &mut max_rt,
        slope: &mut slope,
        intercept: &mut intercept,
        used: &mut used,
        max_rt_exact: &mut max_rt_exact,
        slope_exact: &mut slope_exact,
        intercept_exact: &mut intercept_exact,
    };
    let answer = retention_alignment::global_alignment(
        observed,
        &mut workspace[..cells],
        &mut columns,
        &mut aligned,
    );
    vectors::write_token(out, number(answer))?;
    held::write_workspace(out, &workspace)?;
    let records = held::changed_records(&columns);
    vectors::write_token(out, held::changed(records, &aligned, VALUE))
}

// A row with the time 10.0, by what differs from case to case (a struct would name it again).
fn one(
    out: &impl Print,
    file: u32,
    peptide: u32,
    label: i32,
    files: usize,
    peptides: usize,
    cells: usize,
) -> io::Result<()>
    requires { cells ≤ 15350 }
{
    let observed = Observations {
        file: &[file],
        peptide: &[peptide],
        label: &[label],
        q: &[0.0],
        rt: &[10.0],
        files,
        peptides,
    };
    align(out, observed, cells)
}

// Two rows.
fn two(
    out: &impl Print,
    file: &[u32],
    peptide: &[u32],
    rt: &[f32],
    files: usize,
    peptides: usize,
) -> io::Result<()> {
    let observed = Observations {
        file,
        peptide,
        label: &[1, 1],
        q: &[0.0; 2],
        rt,
        files,
        peptides,
    };
    align(out, observed, 8)
}

// 0: one row, one file; no training row; just the needed workspace.
fn accepted(out: &impl Print) -> io::Result<()> {
    one(out, 0, 0, 1, 1, 1, 8)?;
    one(out, 0, 0, -1, 1, 1, 8)?;
    one(out, 0, 0, 1, 2, 3, 6)
}

// 0: no row, no peptide. 3: five rows, for which the output by row is too short.
fn rows(out: &impl Print) -> io::Result<()> {
    let none = Observations {
        file: &[],
        peptide: &[],
        label: &[],
        q: &[],
        rt: &[],
        files: 1,
        peptides: 0,
    };
    let five = Observations {
        file: &[0; 5],
        peptide: &[0; 5],
        label: &[1; 5],
        q: &[0.0; 5],
        rt: &[10.0; 5],
        files: 1,
        peptides: 1,
    };
    align(out, none, 8)?;
    align(out, five, 8)
}

// 1: two file numbers, one time; with no file, which is 2 too.
fn lengths(out: &impl Print) -> io::Result<()> {
    two(out, &[0, 0], &[0, 0], &[10.0], 1, 1)?;
    two(out, &[0, 0], &[0, 0], &[10.0], 0, 1)
}

// 2: no file; and, with the room too short as well, 4,097 files, 1,048,577 peptides, 1,048,576 peptides in 17 files,
// and 4,097 peptides in 4,096 files.
fn limits(out: &impl Print) -> io::Result<()> {
    one(out, 0, 0, 1, 0, 1, 8)?;
    one(out, 0, 0, 1, 4097, 1, 8)?;
    one(out, 0, 0, 1, 1, 1048577, 8)?;
    one(out, 0, 0, 1, 17, 1048576, 8)?;
    one(out, 0, 0, 1, 4096, 4097, 8)
}

// 3: a workspace of 5 cells for 3 peptides and 2 files; with file 2 of 2, which is 4 too; outputs too short for 5
// files; 4,096 files with a peptide and with 4,096, and 1,048,576 peptides in 16 files, which are within the limits.
fn room(out: &impl Print) -> io::Result<()> {
    one(out, 0, 0, 1, 2, 3, 5)?;
    one(out, 2, 0, 1, 2, 3, 5)?;
    one(out, 0, 0, 1, 5, 1, 8)?;
    one(out, 0, 0, 1, 4096, 1, 8)?;
    one(out, 0, 0, 1, 4096, 4096, 8)?;
    one(out, 0, 0, 1, 16, 1048576, 8)
}

// 4: file 2 of 2; with peptide 1 of 1, which is 5 too, in the same row and in an earlier one. 5: peptide 1 of 1.
fn numbers(out: &impl Print) -> io::Result<()> {
    one(out, 2, 0, 1, 2, 1, 8)?;
    one(out, 2, 1, 1, 2, 1, 8)?;
    two(out, &[0, 1], &[1, 0], &[10.0; 2], 1, 1)?;
    one(out, 0, 1, 1, 1, 1, 8)
}

pub(crate) fn calls(out: &impl Print) -> io::Result<()> {
    accepted(out)?;
    rows(out)?;
    lengths(out)?;
    limits(out)?;
    room(out)?;
    numbers(out)
}
