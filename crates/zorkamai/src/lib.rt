// The library for hosts: the entry points under C names, but for the align program's `align_text`. A slice is passed
// as a pointer and a length; an answer is a status of document 01's table, alone or in a struct beside what the call
// gives. Each function takes whatever is handed in, and does what its entry point does.
#![tactic(auto)]

ghost use Rattle.std.specs.Prelude.{◌≡◌};
ghost use Rattle.embedding.specs.declared.Model.{Model};
ghost use Rattle.gauss.specs.Solve.{system_of, slices_of as solveSlices};
ghost use Rattle.matrix.specs.Cells.{step_of};
ghost use Rattle.models.specs.Call.{retention_input, mobility_input, outputs_of, predict_slices};
ghost use Rattle.regression.specs.Workspace.{fit_slices};
ghost use Rattle.records.specs.Record.{record_of, time_by};
ghost use Rattle.retention_alignment.specs.Call.{input_of as align_input, slices_of as align_slices};
ghost use Rattle.rt_matrix.specs.Columns.{file_columns_of};
ghost use Rattle.run.specs.Call.{input_of as runInput, slices_of as runSlices};
ghost use Rattle.zorkamai.specs.Answers.{
  of_found,
  of_time,
  of_step,
  SolveExported,
  AlignExported,
  FitExported,
  PredictExported,
  RunExported,
};

mod answers;

use model_fit::{Input, Rows, Table};
use models::{Outputs, mobility_model, retention_model};
use records::Alignment;
use retention_alignment::{FileColumns, Observations};
use run::Batch;

// The answer of the solver, of a fit or of a prediction: its status and, if that is 0, the ridge, the fit's r2 and the
// number of training rows, and of how many rows narrowing changed the prediction. What a call does not give is 0.
#[repr(C)]
#[derive(Clone, Copy)]
pub struct Answer {
    pub status: u8,
    pub ridge: f64,
    pub r2: f64,
    pub n: u32,
    pub inexact: u32,
}

// The answer of a run: its status, and the answer of each model's prediction.
#[repr(C)]
#[derive(Clone, Copy)]
pub struct RunReport {
    pub status: u8,
    pub retention: Answer,
    pub mobility: Answer,
}

// The answer of a lookup: its status and, if that is 0, the record.
#[repr(C)]
#[derive(Clone, Copy)]
pub struct RecordAnswer {
    pub status: u8,
    pub max_rt: f32,
    pub slope: f32,
    pub intercept: f32,
    pub used: u32,
    pub max_rt_exact: bool,
    pub slope_exact: bool,
    pub intercept_exact: bool,
}

// A row's aligned time, if the status is 0.
#[repr(C)]
#[derive(Clone, Copy)]
pub struct TimeAnswer {
    pub status: u8,
    pub aligned: f32,
}

// A cell of a column, where there is one, and the row below it.
#[repr(C)]
#[derive(Clone, Copy)]
pub struct CellAnswer {
    pub found: bool,
    pub value: f64,
    pub row: u32,
}

// Solves left · x = right, left n rows of n cells and right n rows of c (`gauss::solve`).
#[unsafe(no_mangle)]
pub extern "C" fn zorkamai_solve(
    left: &[f64],
    right: &[f64],
    n: usize,
    c: usize,
    workspace: &mut [f64],
    solution: &mut [f64],
) -> Answer
    ensures { SolveExported (system_of left right n c) (solveSlices workspace solution) result }
{
    Answer::from(gauss::solve(left, right, n, c, workspace, solution))
}

// Aligns the rows' times (`retention_alignment::global_alignment`).
#[unsafe(no_mangle)]
pub extern "C" fn zorkamai_align(
    file: &[u32],
    peptide: &[u32],
    label: &[i32],
    q: &[f32],
    rt: &[f32],
    files: usize,
    peptides: usize,
    workspace: &mut [f64],
    max_rt: &mut [f32],
    slope: &mut [f32],
    intercept: &mut [f32],
    used: &mut [u32],
    max_rt_exact: &mut [bool],
    slope_exact: &mut [bool],
    intercept_exact: &mut [bool],
    aligned: &mut [f32],
) -> u8
    ensures { AlignExported
        (align_input file peptide label q rt files peptides)
        (align_slices workspace
        (file_columns_of max_rt slope intercept used max_rt_exact slope_exact intercept_exact)
        aligned)
        result }
{
    let observed = Observations {
        file,
        peptide,
        label,
        q,
        rt,
        files,
        peptides,
    };
    let mut records = FileColumns {
        max_rt,
        slope,
        intercept,
        used,
        max_rt_exact,
        slope_exact,
        intercept_exact,
    };
    answers::status_of(retention_alignment::global_alignment(
        observed,
        workspace,
        &mut records,
        aligned,
    ))
}

// Fits the aligned times of the training rows (`models::retention_model::fit`).
#[unsafe(no_mangle)]
pub extern "C" fn zorkamai_retention_fit(
    peptide: &[u32],
    label: &[i32],
    q: &[f32],
    aligned: &[f32],
    letters: &[u8],
    offsets: &[u32],
    masses: &[f32],
    logs: &[f64],
    workspace: &mut [f64],
    beta: &mut [f64],
) -> Answer
    ensures { FitExported Model.Retention
        (retention_input peptide label q aligned letters offsets masses logs)
        (fit_slices workspace beta)
        result }
{
    let rows = Rows {
        peptide,
        label,
        q,
        charge: b"",
        observed: aligned,
    };
    let table = Table {
        letters,
        offsets,
        masses,
        logs,
    };
    Answer::from(retention_model::fit(Input { rows, table }, workspace, beta))
}

// Fits them and predicts every row (`models::retention_model::predict`).
#[unsafe(no_mangle)]
pub extern "C" fn zorkamai_retention_predict(
    peptide: &[u32],
    label: &[i32],
    q: &[f32],
    aligned: &[f32],
    letters: &[u8],
    offsets: &[u32],
    masses: &[f32],
    logs: &[f64],
    workspace: &mut [f64],
    beta: &mut [f64],
    predicted: &mut [f32],
    error: &mut [f32],
) -> Answer
    ensures { PredictExported Model.Retention
        (retention_input peptide label q aligned letters offsets masses logs)
        (predict_slices workspace (outputs_of beta predicted error))
        result }
{
    let rows = Rows {
        peptide,
        label,
        q,
        charge: b"",
        observed: aligned,
    };
    let table = Table {
        letters,
        offsets,
        masses,
        logs,
    };
    let outputs = Outputs {
        beta,
        predicted,
        error,
    };
    Answer::from(retention_model::predict(Input { rows, table }, workspace, outputs))
}

// Fits the mobilities of the training rows (`models::mobility_model::fit`).
#[unsafe(no_mangle)]
pub extern "C" fn zorkamai_mobility_fit(
    peptide: &[u32],
    label: &[i32],
    q: &[f32],
    charge: &[u8],
    mobility: &[f32],
    letters: &[u8],
    offsets: &[u32],
    masses: &[f32],
    workspace: &mut [f64],
    beta: &mut [f64],
) -> Answer
    ensures { FitExported Model.Mobility
        (mobility_input peptide label q charge mobility letters offsets masses)
        (fit_slices workspace beta)
        result }
{
    let rows = Rows {
        peptide,
        label,
        q,
        charge,
        observed: mobility,
    };
    let table = Table {
        letters,
        offsets,
        masses,
        logs: &[],
    };
    Answer::from(mobility_model::fit(Input { rows, table }, workspace, beta))
}

// Fits them and predicts every row (`models::mobility_model::predict`).
#[unsafe(no_mangle)]
pub extern "C" fn zorkamai_mobility_predict(
    peptide: &[u32],
    label: &[i32],
    q: &[f32],
    charge: &[u8],
    mobility: &[f32],
    letters: &[u8],
    offsets: &[u32],
    masses: &[f32],
    workspace: &mut [f64],
    beta: &mut [f64],
    predicted: &mut [f32],
    error: &mut [f32],
) -> Answer
    ensures { PredictExported Model.Mobility
        (mobility_input peptide label q charge mobility letters offsets masses)
        (predict_slices workspace (outputs_of beta predicted error))
        result }
{
    let rows = Rows {
        peptide,
        label,
        q,
        charge,
        observed: mobility,
    };
    let table = Table {
        letters,
        offsets,
        masses,
        logs: &[],
    };
    let outputs = Outputs {
        beta,
        predicted,
        error,
    };
    Answer::from(mobility_model::predict(Input { rows, table }, workspace, outputs))
}

// The alignment, both fits on it, and the predictions and errors of each model that fits (`run::run`).
#[unsafe(no_mangle)]
pub extern "C" fn zorkamai_run(
    file: &[u32],
    peptide: &[u32],
    label: &[i32],
    q: &[f32],
    rt: &[f32],
    charge: &[u8],
    mobility: &[f32],
    files: usize,
    letters: &[u8],
    offsets: &[u32],
    masses: &[f32],
    logs: &[f64],
    workspace: &mut [f64],
    max_rt: &mut [f32],
    slope: &mut [f32],
    intercept: &mut [f32],
    used: &mut [u32],
    max_rt_exact: &mut [bool],
    slope_exact: &mut [bool],
    intercept_exact: &mut [bool],
    aligned: &mut [f32],
    retention_beta: &mut [f64],
    retention_predicted: &mut [f32],
    retention_error: &mut [f32],
    mobility_beta: &mut [f64],
    mobility_predicted: &mut [f32],
    mobility_error: &mut [f32],
) -> RunReport
    ensures { RunExported
        (runInput file peptide label q rt charge mobility files letters offsets masses logs)
        (runSlices workspace
        (file_columns_of max_rt slope intercept used max_rt_exact slope_exact intercept_exact)
        aligned
        (outputs_of retention_beta retention_predicted retention_error)
        (outputs_of mobility_beta mobility_predicted mobility_error))
        result }
{
    let table = Table {
        letters,
        offsets,
        masses,
        logs,
    };
    let batch = Batch {
        file,
        peptide,
        label,
        q,
        rt,
        charge,
        mobility,
        files,
        table,
    };
    let mut records = FileColumns {
        max_rt,
        slope,
        intercept,
        used,
        max_rt_exact,
        slope_exact,
        intercept_exact,
    };
    let retention = Outputs {
        beta: retention_beta,
        predicted: retention_predicted,
        error: retention_error,
    };
    let mobility = Outputs {
        beta: mobility_beta,
        predicted: mobility_predicted,
        error: mobility_error,
    };
    RunReport::from(run::run(batch, workspace, &mut records, aligned, retention, mobility))
}

// The cell in a row of a column of a matrix of rows × cols cells (`column::step_at`).
#[unsafe(no_mangle)]
pub extern "C" fn zorkamai_column_step(
    cells: &[f64],
    rows: u32,
    cols: u32,
    row: u32,
    col: u32,
) -> CellAnswer
    ensures { result ≡ of_step (step_of rows cols (record { row = row; col = col }) cells.now) }
{
    CellAnswer::from(column::step_at(cells, rows, cols, row, col))
}

// The record of a file in a list of records (`records::record_of`).
#[unsafe(no_mangle)]
pub extern "C" fn zorkamai_record_of(records: &[Alignment], file: u32) -> RecordAnswer
    ensures { result ≡ of_found (record_of records.now file) }
{
    RecordAnswer::from(records::record_of(records, file))
}

// The aligned time of a row with this file and this time, by a list of records (`records::aligned`).
#[unsafe(no_mangle)]
pub extern "C" fn zorkamai_aligned_time(records: &[Alignment], file: u32, rt: f32) -> TimeAnswer
    ensures { result ≡ of_time (time_by (record_of records.now file) rt) }
{
    TimeAnswer::from(records::aligned(records, file, rt))
}
