// Calls of the run. The row has the q 0.0, the time 10.0, charge 1 and the mobility 0.5. An output by file or by row
// has four cells.
ghost use Rattle.std.specs.Prelude.{◌≤◌};

use held::{CELL, CELLS, COUNT, FLAG, VALUE, VALUES, WORKSPACE};
use run::{Batch, FileColumns, Outputs, Ran, Table};
use status::Refusal;
use std::io;

fn write_numbers(out: &impl Print, answer: Result<Ran, Refusal>) -> io::Result<()> {
    match answer {
        Err(refusal) => vectors::write_token(out, u64::from(refusal.number())),
        Ok(ran) => {
            vectors::write_token(out, 0)?;
            held::write_outcome(out, ran.retention)?;
            held::write_outcome(out, ran.mobility)
        }
    }
}

// Writes what a call answers and leaves, whose workspace has so many cells, by what differs from case to case (a struct
// would name it again).
fn run(
    out: &impl Print,
    file: &[u32],
    peptide: u32,
    label: i32,
    files: usize,
    table: Table<'_>,
    cells: usize,
) -> io::Result<()>
    requires { cells ≤ 15350 }
{
    let batch = Batch {
        file,
        peptide: &[peptide],
        label: &[label],
        q: &[0.0],
        rt: &[10.0],
        charge: &[1],
        mobility: &[0.5],
        files,
        table,
    };
    let mut workspace = [CELL; WORKSPACE];
    let mut max_rt = [VALUE; VALUES];
    let mut slope = [VALUE; VALUES];
    let mut intercept = [VALUE; VALUES];
    let mut used = [COUNT; VALUES];
    let mut max_rt_exact = [FLAG; VALUES];
    let mut slope_exact = [FLAG; VALUES];
    let mut intercept_exact = [FLAG; VALUES];
    let mut aligned = [VALUE; VALUES];
    let mut retention_beta = [CELL; CELLS];
    let mut retention_predicted = [VALUE; VALUES];
    let mut retention_error = [VALUE; VALUES];
    let mut mobility_beta = [CELL; CELLS];
    let mut mobility_predicted = [VALUE; VALUES];
    let mut mobility_error = [VALUE; VALUES];
    let mut columns = FileColumns {
        max_rt: &mut max_rt,
        slope: &mut slope,
        intercept: &mut intercept,
        used: &mut used,
        max_rt_exact: &mut max_rt_exact,
        slope_exact: &mut slope_exact,
        intercept_exact: &mut intercept_exact,
    };
    let retention = Outputs {
        beta: &mut retention_beta,
        predicted: &mut retention_predicted,
        error: &mut retention_error,
    };
    let mobility = Outputs {
        beta: &mut mobility_beta,
        predicted: &mut mobility_predicted,
        error: &mut mobility_error,
    };
    let answer = run::run(
        batch,
        &mut workspace[..cells],
        &mut columns,
        &mut aligned,
        retention,
        mobility,
    );
    write_numbers(out, answer)?;
    held::write_workspace(out, &workspace)?;
    let records = held::changed_records(&columns);
    let times = held::changed(records, &aligned, VALUE);
    let n = held::changed_model(
        times,
        &retention_beta,
        &retention_predicted,
        &retention_error,
    );
    vectors::write_token(
        out,
        held::changed_model(n, &mobility_beta, &mobility_predicted, &mobility_error),
    )
}

// A training row, and a table of one peptide of one letter whose offsets are 0 and `end`, likewise.
fn one(
    out: &impl Print,
    file: u32,
    peptide: u32,
    files: usize,
    letter: u8,
    end: u32,
    cells: usize,
) -> io::Result<()>
    requires { cells ≤ 15350 }
{
    let table = Table {
        letters: &[letter],
        offsets: &[0, end],
        masses: &[0.0],
        logs: &[0.0],
    };
    run(out, &[file], peptide, 1, files, table, cells)
}

// A training row in file 0 of 1, and a table of two peptides with the offsets 0, b and c.
fn two(out: &impl Print, letters: &[u8], b: u32, c: u32) -> io::Result<()> {
    let table = Table {
        letters,
        offsets: &[0, b, c],
        masses: &[0.0; 2],
        logs: &[0.0; 2],
    };
    run(out, &[0], 0, 1, 1, table, 15350)
}

// The peptide A, in file 0 of 1.
fn fitted(out: &impl Print, label: i32, mass: f32, log: f64, cells: usize) -> io::Result<()>
    requires { cells ≤ 15350 }
{
    let table = Table {
        letters: b"A",
        offsets: &[0, 1],
        masses: &[mass],
        logs: &[log],
    };
    run(out, &[0], 0, label, 1, table, cells)
}

// 0: both fits 0, with just the needed workspace and with more; no training row, so both fits 8; 9 for retention, for
// mobility, and for both.
fn accepted(out: &impl Print) -> io::Result<()> {
    let nan = 0.0f32 / 0.0;
    fitted(out, 1, 0.0, 0.0, 15250)?;
    fitted(out, 1, 0.0, 0.0, 15350)?;
    fitted(out, -1, 0.0, 0.0, 15350)?;
    fitted(out, 1, 0.0, 0.0 / 0.0, 15350)?;
    fitted(out, 1, nan, 0.0, 15350)?;
    fitted(out, 1, nan, 0.0 / 0.0, 15350)
}

// 1: two file numbers, one time; with no file, which is 2 too; no log for a mass.
fn lengths(out: &impl Print) -> io::Result<()> {
    let table = Table {
        letters: b"A",
        offsets: &[0, 1],
        masses: &[0.0],
        logs: &[0.0],
    };
    run(out, &[0, 0], 0, 1, 1, table, 15350)?;
    run(out, &[0, 0], 0, 1, 0, table, 15350)?;
    let unlogged = Table { logs: &[], ..table };
    run(out, &[0], 0, 1, 1, unlogged, 15350)
}

// 2: no file; 4,097 files, for which the room is too short as well. 3: a workspace a cell too short; with offsets past
// the letters, which is 7 too, and with file 2 of 2, which is 4 too; outputs too short for 5 files; 4,096 files, which
// are within the limits.
fn limits(out: &impl Print) -> io::Result<()> {
    one(out, 0, 0, 0, b'A', 1, 15350)?;
    one(out, 0, 0, 4097, b'A', 1, 15350)?;
    one(out, 0, 0, 1, b'A', 1, 15249)?;
    one(out, 0, 0, 1, b'A', 2, 15249)?;
    one(out, 2, 0, 2, b'A', 1, 15249)?;
    one(out, 0, 0, 5, b'A', 1, 15350)?;
    one(out, 0, 0, 4096, b'A', 1, 15350)
}

// 7: the offsets 0, 2, 1; with a lower-case letter, which is 6 too; a peptide of 256 letters.
fn offsets(out: &impl Print) -> io::Result<()> {
    let long = [65u8; 256];
    two(out, b"A", 2, 1)?;
    two(out, b"a", 2, 1)?;
    two(out, &long, 256, 256)
}

// 6: a lower-case letter; with file 2 of 2, which is 4 too, and with peptide 1 of 1, which is 5 too. 4: file 2 of 2;
// with peptide 1 of 1. 5: peptide 1 of 1.
fn numbers(out: &impl Print) -> io::Result<()> {
    one(out, 0, 0, 1, b'a', 1, 15350)?;
    one(out, 2, 0, 2, b'a', 1, 15350)?;
    one(out, 0, 1, 1, b'a', 1, 15350)?;
    one(out, 2, 0, 2, b'A', 1, 15350)?;
    one(out, 2, 1, 2, b'A', 1, 15350)?;
    one(out, 0, 1, 1, b'A', 1, 15350)
}

pub(crate) fn calls(out: &impl Print) -> io::Result<()> {
    accepted(out)?;
    lengths(out)?;
    limits(out)?;
    offsets(out)?;
    numbers(out)
}
