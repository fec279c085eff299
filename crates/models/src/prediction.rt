// Predictions and errors, each written by a function of its own, and the two calls that the entry points of both models
// make.
ghost use Rattle.std.specs.Prelude.{◌≡◌, true, ◌≤◌, length};
ghost use mathlib.Core.List.{map, zip_with};
ghost use Rattle.regression.specs.Regression.{sse};
ghost use Rattle.regression.specs.Workspace.{fit_slices};
ghost use Rattle.model_fit.specs.Input.{input_at, table_at, queries, fit_room};
ghost use Rattle.model_fit.specs.Samples.{training_samples};
ghost use Rattle.matrix.specs.Lists.{overwritten};
ghost use Rattle.model_fit.specs.Shared.{Checked};
ghost use Rattle.models.specs.Prediction.{largest, prediction_of, error_of, inexact_in};
ghost use Rattle.models.specs.Call.{
  outputs_of,
  predict_at,
  predict_slices,
  predict_room,
  predict_room_in,
  FittedWithin,
  SolvedWithin,
  PredictedWithin,
  FitCall,
  PredictCall,
};

use crate::PredictOutcome;
use embedding::Model;
use model_fit::Input;
use model_fit::checks::{check, fit_room};
use model_fit::training::{
    Coefficients, Scratch, Solved, add_square_at, outcome, solve_checked, sum_squares,
};
use regression::{FitOutcome, Unfitted};
use status::Refusal;

// What a pass over the rows finds besides their predictions: how many of them narrowing changed, and the sum of the
// squared errors of the training rows.
#[derive(Clone, Copy)]
struct Written {
    inexact: u32,
    sse: f64,
}

// The largest prediction of a model.
fn largest(model: Model) -> f64
    ensures { result ≡ largest model }
{
    match model {
        Model::Retention => 1.0,
        Model::Mobility => 2.0,
    }
}

// Writes each row's prediction into the first cells of `predicted`, counts those that narrowing changed, and sums the
// squared errors of the training rows.
fn write_predictions(input: Input, fitted: Coefficients, predicted: &mut [f32]) -> Written
    requires checked { Checked (input_at input) }
    requires peptide_in_bounds { length input.rows.peptide.now ≤ length predicted.old }
    ensures predicted_after { let i = input_at input.entry in
        predicted.new ≡ overwritten
        (map (prediction_of fitted.entry.model i.table fitted.entry.beta.now) (queries i.peptides i.charges))
        predicted.old }
    ensures inexact_value { let i = input_at input.entry in
        result.inexact ≡ inexact_in fitted.entry.model i.table fitted.entry.beta.now (queries i.peptides i.charges) }
    ensures sse_value { result.sse ≡ sse fitted.entry.beta.now (training_samples fitted.entry.model (input_at input.entry)) }
{
    let rows = input.rows;
    let hi = largest(fitted.model);
    let mut written = Written {
        inexact: 0,
        sse: 0.0,
    };
    let mut cells = Scratch::new();
    for i in 0..rows.peptide.len() {
        let x = fitted.predict_row(input, i, &mut cells);
        let clamped = float::clamp64(x, 0.0, hi);
        let bounded = float::narrow(clamped);
        predicted[i] = bounded.value;
        written.inexact += !bounded.exact as u32;
        written.sse = add_square_at(written.sse, x, rows, i);
    }
    written
}

// |observed - predicted|.
fn error_of(observed: f32, predicted: f32) -> f32
    ensures { result ≡ error_of observed predicted }
{
    float::abs32(observed - predicted)
}

// Writes each row's error into the first cells of `error`.
pub(crate) fn write_errors(observed: &[f32], predicted: &[f32], error: &mut [f32])
    requires observed_in_bounds { length observed.now ≤ length predicted.now }
    requires observed_in_bounds_2 { length observed.now ≤ length error.old }
    ensures { error.new ≡ overwritten
        (zip_with error_of observed.now predicted.now)
        error.old }
{
    for i in 0..observed.len() {
        error[i] = error_of(observed[i], predicted[i]);
    }
}

// Fits the coefficients of a call that passed the checks, on the first cells of `workspace` and `beta`.
fn solve_accepted(
    model: Model,
    input: Input,
    workspace: &mut [f64],
    beta: &mut [f64],
) -> Result<Solved, Unfitted>
    requires checked { Checked (input_at input) }
    requires beta_value { fit_room model (length workspace.old) (length beta.old) ≡ true }
    ensures { SolvedWithin model (input_at input.entry) (fit_slices workspace beta) result }
{
    let d = model.order();
    let cells = regression::workspace_cells(d);
    solve_checked(model, input, &mut workspace[..cells], &mut beta[..d])
}

// Fits the model of a call that passed the checks, on the first cells of `workspace` and `beta`.
fn fit_accepted(model: Model, input: Input, workspace: &mut [f64], beta: &mut [f64]) -> FitOutcome
    requires checked { Checked (input_at input) }
    requires beta_value { fit_room model (length workspace.old) (length beta.old) ≡ true }
    ensures { FittedWithin model (input_at input.entry) (fit_slices workspace beta) result }
{
    let solved = solve_accepted(model, input, workspace, beta)?;
    let fitted = Coefficients::new(model, &beta[..model.order()]);
    Ok(solved.fit(sum_squares(input, fitted)))
}

// Checks a call and fits the model.
pub(crate) fn fit(
    model: Model,
    input: Input,
    workspace: &mut [f64],
    beta: &mut [f64],
) -> Result<FitOutcome, Refusal>
    ensures { FitCall model (input_at input.entry) (fit_slices workspace beta) result }
{
    let room = fit_room(model, workspace.len(), beta.len());
    check(model, input, room)?;
    Ok(fit_accepted(model, input, workspace, beta))
}

// Whether all that a prediction of so many rows writes is long enough, by the lengths of its outputs.
fn predict_room(
    model: Model,
    rows: usize,
    workspace: usize,
    beta: usize,
    predicted: usize,
    error: usize,
) -> bool
    ensures { result ≡ predict_room model rows workspace beta predicted error }
{
    fit_room(model, workspace, beta) && rows <= predicted && rows <= error
}

// Fits the model of a call that passed the checks and, where that is solved, writes predictions and errors.
// The outputs stay apart here: of a struct of `&mut` that is passed on whole, the proof loses what the slices hold.
pub(crate) fn predict_accepted(
    model: Model,
    input: Input,
    workspace: &mut [f64],
    beta: &mut [f64],
    predicted: &mut [f32],
    error: &mut [f32],
) -> PredictOutcome
    requires checked { Checked (input_at input) }
    requires error_value { predict_room_in model
        (input_at input)
        (predict_at workspace beta predicted error)
        ≡ true }
    ensures { PredictedWithin model
        (input_at input.entry)
        (predict_slices workspace (outputs_of beta predicted error))
        result }
{
    let solving = solve_accepted(model, input, workspace, beta);
    let Ok(_) = solving else {
        return PredictOutcome {
            fit: outcome(solving, 0.0),
            inexact: 0,
        };
    };
    let fitted = Coefficients::new(model, &beta[..model.order()]);
    let written = write_predictions(input, fitted, predicted);
    write_errors(input.rows.observed, predicted, error);
    PredictOutcome {
        fit: outcome(solving, written.sse),
        inexact: written.inexact,
    }
}

// Checks a call, fits the model and, where that is solved, writes predictions and errors.
pub(crate) fn predict(
    model: Model,
    input: Input,
    workspace: &mut [f64],
    beta: &mut [f64],
    predicted: &mut [f32],
    error: &mut [f32],
) -> Result<PredictOutcome, Refusal>
    ensures { PredictCall model
        (input_at input.entry)
        (predict_slices workspace (outputs_of beta predicted error))
        result }
{
    let room = predict_room(
        model,
        input.rows.peptide.len(),
        workspace.len(),
        beta.len(),
        predicted.len(),
        error.len(),
    );
    check(model, input, room)?;
    Ok(predict_accepted(model, input, workspace, beta, predicted, error))
}
