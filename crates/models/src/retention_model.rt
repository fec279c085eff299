// Retention: a linear model of the aligned time from 69 columns of a peptide.
ghost use Rattle.std.specs.Prelude.{◌≡◌, true};
ghost use Rattle.embedding.specs.declared.Model.{Model};
ghost use Rattle.regression.specs.Workspace.{fit_slices};
ghost use Rattle.model_fit.specs.Input.{input_at};
ghost use Rattle.model_fit.specs.Shared.{Checked};
ghost use Rattle.models.specs.Call.{
  retention_at,
  outputs_change,
  predict_held,
  predict_slices,
  predict_room_in,
  PredictedWithin,
  FitCall,
  PredictCall,
};

use crate::{Outputs, PredictOutcome, prediction};
use embedding::Model;
use model_fit::{Input, Rows};
use regression::FitOutcome;
use status::Refusal;

// The input without its charges, which the model does not read.
fn read(input: Input<'_>) -> Input<'_>
    ensures { input_at result ≡ retention_at input.entry }
{
    Input {
        rows: Rows {
            charge: b"",
            ..input.rows
        },
        ..input
    }
}

// Fits the aligned times, which are observed, of the training rows. `beta` gets the 69 coefficients of a fit that is
// solved. The first 7,314 cells of `workspace` are used, and end as +0.0 once the checks have passed.
pub fn fit(input: Input, workspace: &mut [f64], beta: &mut [f64]) -> Result<FitOutcome, Refusal>
    ensures { FitCall Model.Retention (retention_at input.entry) (fit_slices workspace beta) result }
{
    prediction::fit(Model::Retention, read(input), workspace, beta)
}

// Fits as `fit` does and, where that is solved, writes each row's prediction, clamped to 0..1, and
// |aligned - prediction|. The answer says how many predictions narrowing changed.
pub fn predict(
    input: Input,
    workspace: &mut [f64],
    outputs: Outputs,
) -> Result<PredictOutcome, Refusal>
    ensures { PredictCall Model.Retention
        (retention_at input.entry)
        (predict_slices workspace (outputs_change outputs.entry outputs.exit))
        result }
{
    let Outputs {
        beta,
        predicted,
        error,
    } = outputs;
    prediction::predict(
        Model::Retention,
        read(input),
        workspace,
        beta,
        predicted,
        error,
    )
}

// `predict` behind its checks. For a caller that has checked the rows, the table and the room itself.
pub fn predict_accepted(input: Input, workspace: &mut [f64], outputs: Outputs) -> PredictOutcome
    requires checked { Checked (retention_at input) }
    requires error_value { predict_room_in Model.Retention
        (retention_at input)
        (predict_held workspace outputs)
        ≡ true }
    ensures { PredictedWithin Model.Retention
        (retention_at input.entry)
        (predict_slices workspace (outputs_change outputs.entry outputs.exit))
        result }
{
    let Outputs {
        beta,
        predicted,
        error,
    } = outputs;
    prediction::predict_accepted(
        Model::Retention,
        read(input),
        workspace,
        beta,
        predicted,
        error,
    )
}
