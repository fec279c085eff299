// Calls of `fit` and `predict` of both models. A row has the q 0.0, charge 1, and observes 0.5: an aligned time or a
// mobility.
ghost use Rattle.std.specs.Prelude.{◌≤◌};

use embedding::Model;
use held::{CELL, CELLS, VALUE, VALUES, WORKSPACE};
use model_fit::{Input, Rows, Table};
use models::{Outputs, PredictOutcome, mobility_model, retention_model};
use regression::FitOutcome;
use status::Refusal;
use std::io;

// A call of a model's `fit` or `predict`.
#[derive(Clone, Copy)]
pub(crate) enum Call {
    Fit(Model),
    Predict(Model),
}

// A fit's answer as that of a prediction of no row.
fn no_rows(answer: Result<FitOutcome, Refusal>) -> Result<PredictOutcome, Refusal> {
    let fit = answer?;
    Ok(PredictOutcome { fit, inexact: 0 })
}

impl Call {
    fn make(
        self,
        input: Input,
        workspace: &mut [f64],
        beta: &mut [f64],
        predicted: &mut [f32],
        error: &mut [f32],
    ) -> Result<PredictOutcome, Refusal> {
        let model = match self {
            Call::Fit(Model::Retention) => {
                return no_rows(retention_model::fit(input, workspace, beta));
            }
            Call::Fit(Model::Mobility) => {
                return no_rows(mobility_model::fit(input, workspace, beta));
            }
            Call::Predict(model) => model,
        };
        let outputs = Outputs {
            beta,
            predicted,
            error,
        };
        match model {
            Model::Retention => retention_model::predict(input, workspace, outputs),
            Model::Mobility => mobility_model::predict(input, workspace, outputs),
        }
    }
}

// How many cells the slices of a call have.
#[derive(Clone, Copy)]
struct Room {
    workspace: usize,
    beta: usize,
    predicted: usize,
    error: usize,
    ghost within: { (workspace ≤ 15350) × (beta ≤ 101) × (predicted ≤ 4) × (error ≤ 4) },
}

fn room_of(workspace: usize, beta: usize, predicted: usize, error: usize) -> Room
    requires { (workspace ≤ 15350) × (beta ≤ 101) × (predicted ≤ 4) × (error ≤ 4) }
{
    Room {
        workspace,
        beta,
        predicted,
        error,
    }
}

// More than each model needs.
fn enough() -> Room {
    room_of(WORKSPACE, CELLS, VALUES, VALUES)
}

fn write_answer(out: &impl Print, answer: Result<PredictOutcome, Refusal>) -> io::Result<()> {
    match answer {
        Ok(outcome) => held::write_outcome(out, outcome),
        Err(refusal) => vectors::write_token(out, refusal.number() as u64),
    }
}

// Writes what a call answers and leaves.
fn fit(
    out: &impl Print,
    call: Call,
    peptide: &[u32],
    label: i32,
    table: Table,
    room: Room,
) -> io::Result<()> {
    let label = [label];
    let rows = Rows {
        peptide,
        label: &label,
        q: &[0.0],
        charge: &[1],
        observed: &[0.5],
    };
    let mut workspace = [CELL; WORKSPACE];
    let mut beta = [CELL; CELLS];
    let mut predicted = [VALUE; VALUES];
    let mut error = [VALUE; VALUES];
    let answer = call.make(
        Input { rows, table },
        &mut workspace[..room.workspace],
        &mut beta[..room.beta],
        &mut predicted[..room.predicted],
        &mut error[..room.error],
    );
    write_answer(out, answer)?;
    held::write_workspace(out, &workspace)?;
    vectors::write_token(out, held::changed_model(0, &beta, &predicted, &error))
}

// A row of the peptide A whose offsets are 0 and `end`, with slices of so many cells.
fn within(out: &impl Print, call: Call, end: u32, room: Room) -> io::Result<()> {
    let table = Table {
        letters: b"A",
        offsets: &[0, end],
        masses: &[0.0],
        logs: &[0.0],
    };
    fit(out, call, &[0], 1, table, room)
}

// A row, and a table of one peptide of one letter, by what differs from case to case (a struct would name it again).
fn one(
    out: &impl Print,
    call: Call,
    peptide: u32,
    label: i32,
    letter: u8,
    mass: f32,
    log: f64,
) -> io::Result<()> {
    let table = Table {
        letters: &[letter],
        offsets: &[0, 1],
        masses: &[mass],
        logs: &[log],
    };
    fit(out, call, &[peptide], label, table, enough())
}

// A row of peptide 0, and a table of two with the offsets 0, b and c and these logs.
fn two(
    out: &impl Print,
    call: Call,
    letters: &[u8],
    b: u32,
    c: u32,
    logs: &[f64],
) -> io::Result<()> {
    let table = Table {
        letters,
        offsets: &[0, b, c],
        masses: &[0.0; 2],
        logs,
    };
    fit(out, call, &[0], 1, table, enough())
}

// 0: the peptide A with mass 0.0, whose log is 0.0; its design row is zeros and ones, so the ridge 1.0 solves the fit
// if none before it does. 8: no training row. 9: a NaN, as log for retention and as mass for mobility; it fills a row
// of the equations, whose cell on the diagonal is NaN then. The other model does not read it. 8: a NaN for either in a
// row that does not train.
fn fitted(out: &impl Print, call: Call) -> io::Result<()> {
    let nan = 0.0f32 / 0.0;
    one(out, call, 0, 1, b'A', 0.0, 0.0)?;
    one(out, call, 0, -1, b'A', 0.0, 0.0)?;
    one(out, call, 0, 1, b'A', 0.0, 0.0 / 0.0)?;
    one(out, call, 0, 1, b'A', nan, 0.0)?;
    one(out, call, 0, -1, b'A', nan, 0.0 / 0.0)
}

// 1: two peptide numbers, one label; with a lower-case letter, which is 6 too; one log for two masses, which is 0 for
// mobility.
fn lengths(out: &impl Print, call: Call) -> io::Result<()> {
    let table = Table {
        letters: b"A",
        offsets: &[0, 1],
        masses: &[0.0],
        logs: &[0.0],
    };
    let lower = Table {
        letters: b"a",
        ..table
    };
    fit(out, call, &[0, 0], 1, table, enough())?;
    fit(out, call, &[0, 0], 1, lower, enough())?;
    two(out, call, b"A", 1, 1, &[0.0])
}

// 3: a cell less of workspace than retention needs, and than mobility needs, which is 0 for retention; the same for
// the coefficients; no room for the prediction, and for the error, which is 0 for `fit`; a workspace too short with
// offsets past the letters, which is 7 too.
fn short(out: &impl Print, call: Call) -> io::Result<()> {
    within(out, call, 1, room_of(7313, 101, 4, 4))?;
    within(out, call, 1, room_of(15249, 101, 4, 4))?;
    within(out, call, 1, room_of(15350, 68, 4, 4))?;
    within(out, call, 1, room_of(15350, 99, 4, 4))?;
    within(out, call, 1, room_of(15350, 101, 0, 4))?;
    within(out, call, 1, room_of(15350, 101, 4, 0))?;
    within(out, call, 2, room_of(7313, 101, 4, 4))
}

// 7: the offsets 0, 2, 1; with a lower-case letter, which is 6 too; a peptide of 256 letters.
fn offsets(out: &impl Print, call: Call) -> io::Result<()> {
    two(out, call, b"A", 2, 1, &[0.0, 0.0])?;
    two(out, call, b"a", 2, 1, &[0.0, 0.0])?;
    two(out, call, &[b'A'; 256], 256, 256, &[0.0, 0.0])
}

// 6: a lower-case letter; in a peptide without a row; with peptide 1 of 1, which is 5 too. 5: peptide 1 of 1; in a row
// that does not train, which is 8 too.
fn letters(out: &impl Print, call: Call) -> io::Result<()> {
    one(out, call, 0, 1, b'a', 0.0, 0.0)?;
    two(out, call, b"Aa", 1, 2, &[0.0, 0.0])?;
    one(out, call, 1, 1, b'a', 0.0, 0.0)?;
    one(out, call, 1, 1, b'A', 0.0, 0.0)?;
    one(out, call, 1, -1, b'A', 0.0, 0.0)
}

// Makes the calls, each by `call`.
pub(crate) fn calls(out: &impl Print, call: Call) -> io::Result<()> {
    fitted(out, call)?;
    lengths(out, call)?;
    short(out, call)?;
    offsets(out, call)?;
    letters(out, call)
}
