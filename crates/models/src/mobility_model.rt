// Mobility: a linear model of the ion mobility from 100 columns of a peptide and a charge.
ghost use Rattle.std.specs.Prelude.{◌≡◌, true};
ghost use Rattle.embedding.specs.declared.Model.{Model};
ghost use Rattle.regression.specs.Workspace.{fit_slices};
ghost use Rattle.model_fit.specs.Input.{input_at};
ghost use Rattle.model_fit.specs.Shared.{Checked};
ghost use Rattle.models.specs.Call.{
  mobility_at,
  outputs_change,
  predict_held,
  predict_slices,
  predict_room_in,
  PredictedWithin,
  FitCall,
  PredictCall,
};

use crate::{Outputs, PredictOutcome, prediction};
use embedding::Model;
use model_fit::{Input, Table};
use regression::FitOutcome;
use status::Refusal;

// The input without its logs, which the model does not read.
fn read(input: Input<'_>) -> Input<'_>
    ensures { input_at result ≡ mobility_at input.entry }
{
    Input {
        table: Table {
            logs: &[],
            ..input.table
        },
        ..input
    }
}

// Fits the mobilities, which are observed, of the training rows. `beta` gets the 100 coefficients of a fit that is
// solved. The first 15,250 cells of `workspace` are used, and end as +0.0 once the checks have passed.
pub fn fit(input: Input, workspace: &mut [f64], beta: &mut [f64]) -> Result<FitOutcome, Refusal>
    ensures { FitCall Model.Mobility (mobility_at input.entry) (fit_slices workspace beta) result }
{
    prediction::fit(Model::Mobility, read(input), workspace, beta)
}

// Fits as `fit` does and, where that is solved, writes each row's prediction, clamped to 0..2, and
// |mobility - prediction|. The answer says how many predictions narrowing changed.
pub fn predict(
    input: Input,
    workspace: &mut [f64],
    outputs: Outputs,
) -> Result<PredictOutcome, Refusal>
    ensures { PredictCall Model.Mobility
        (mobility_at input.entry)
        (predict_slices workspace (outputs_change outputs.entry outputs.exit))
        result }
{
    let Outputs {
        beta,
        predicted,
        error,
    } = outputs;
    prediction::predict(
        Model::Mobility,
        read(input),
        workspace,
        beta,
        predicted,
        error,
    )
}

// `predict` behind its checks. For a caller that has checked the rows, the table and the room itself.
pub fn predict_accepted(input: Input, workspace: &mut [f64], outputs: Outputs) -> PredictOutcome
    requires checked { Checked (mobility_at input) }
    requires error_value { predict_room_in Model.Mobility
        (mobility_at input)
        (predict_held workspace outputs)
        ≡ true }
    ensures { PredictedWithin Model.Mobility
        (mobility_at input.entry)
        (predict_slices workspace (outputs_change outputs.entry outputs.exit))
        result }
{
    let Outputs {
        beta,
        predicted,
        error,
    } = outputs;
    prediction::predict_accepted(
        Model::Mobility,
        read(input),
        workspace,
        beta,
        predicted,
        error,
    )
}
