// A whole run over a batch: the alignment of retention times, the retention fit on the aligned times, the mobility
// fit, and the predictions and errors of each model that fits.
#![tactic(auto)]

ghost use Rattle.std.specs.Prelude.{◌≡◌, true};
ghost use Rattle.embedding.specs.declared.Model.{Model};
ghost use Rattle.model_fit.specs.Shared.{Checked};
ghost use Rattle.rt_matrix.specs.Columns.{changed_columns, SameSlices};
ghost use Rattle.retention_alignment.specs.Call.{held_input};
ghost use Rattle.models.specs.Call.{
  retention_at,
  mobility_at,
  outputs_of,
  outputs_change,
  predict_at,
  predict_room_in,
  predict_slices,
  PredictedWithin,
};
ghost use Rattle.run.specs.Call.{input_at, slices_of, RunCall};
ghost use Rattle.run.specs.Parts.{align_input, retention_input, mobility_input};

use model_fit::{Input, Rows};
use models::{PredictOutcome, mobility_model, retention_model};
use retention_alignment::{Observations, align_accepted};
use status::Refusal;

mod checks; // the checks, in document 01's order

pub use model_fit::Table;
pub use models::Outputs;
pub use retention_alignment::FileColumns;

// What a run reads: the columns of the rows, the number of files, and the peptide table.
#[derive(Clone, Copy)]
pub struct Batch<'a> {
    pub file: &'a [u32],
    pub peptide: &'a [u32],
    pub label: &'a [i32],
    pub q: &'a [f32],
    pub rt: &'a [f32],
    pub charge: &'a [u8],
    pub mobility: &'a [f32],
    pub files: usize,
    pub table: Table<'a>,
}

impl<'a> Batch<'a> {
    // What the alignment reads: of the peptide table only how many peptides it has.
    fn observations(self) -> Observations<'a>
        ensures { held_input result ≡ align_input (input_at self.entry) }
    {
        Observations {
            file: self.file,
            peptide: self.peptide,
            label: self.label,
            q: self.q,
            rt: self.rt,
            files: self.files,
            peptides: self.table.masses.len(),
        }
    }

    // What a model is fitted to: what it observes of each row, and the peptide table.
    fn observing(self, observed: &'a [f32]) -> Input<'a>
        ensures retention { retention_at result ≡ retention_input (input_at self.entry) observed.entry.now }
        ensures mobility { observed.entry.now ≡ self.entry.mobility.now
            → mobility_at result ≡ mobility_input (input_at self.entry) }
    {
        let rows = Rows {
            peptide: self.peptide,
            label: self.label,
            q: self.q,
            charge: self.charge,
            observed,
        };
        Input {
            rows,
            table: self.table,
        }
    }
}

// What a run answers: the outcome of each model's prediction.
#[derive(Clone, Copy)]
pub struct Ran {
    pub retention: PredictOutcome,
    pub mobility: PredictOutcome,
}

// Retention's prediction behind its checks. (Its slices come one by one: an `Outputs` that is passed on whole loses what
// its slices hold, and two that are made in one function the borrow checker has no rule for.)
fn predict_retention(
    input: Input<'_>,
    workspace: &mut [f64],
    beta: &mut [f64],
    predicted: &mut [f32],
    error: &mut [f32],
) -> PredictOutcome
    requires checked { Checked (retention_at input) }
    requires long { predict_room_in Model.Retention
        (retention_at input)
        (predict_at workspace beta predicted error)
        ≡ true }
    ensures { PredictedWithin Model.Retention
        (retention_at input.entry)
        (predict_slices workspace (outputs_of beta predicted error))
        result }
{
    let outputs = Outputs {
        beta,
        predicted,
        error,
    };
    retention_model::predict_accepted(input, workspace, outputs)
}

// Mobility's: a function of its own, since each calls its own model's, under that model's contract.
fn predict_mobility(
    input: Input<'_>,
    workspace: &mut [f64],
    beta: &mut [f64],
    predicted: &mut [f32],
    error: &mut [f32],
) -> PredictOutcome
    requires checked { Checked (mobility_at input) }
    requires long { predict_room_in Model.Mobility
        (mobility_at input)
        (predict_at workspace beta predicted error)
        ≡ true }
    ensures { PredictedWithin Model.Mobility
        (mobility_at input.entry)
        (predict_slices workspace (outputs_of beta predicted error))
        result }
{
    let outputs = Outputs {
        beta,
        predicted,
        error,
    };
    mobility_model::predict_accepted(input, workspace, outputs)
}

// Runs a batch. Of the workspace it needs the larger of peptides × files and 15,250 cells, of each field of the files'
// records one for each file, of aligned, of the predictions and of the errors one for each row, and 69 and 100
// coefficients. What is longer keeps its rest, a refused call leaves every slice as it was, and the outputs of a
// model that does not fit keep what they held. Behind the one check the parts run without theirs. (What it writes is
// five parameters: the borrow checker has no rule for a struct that holds structs of `&mut` slices.)
pub fn run(
    batch: Batch<'_>,
    workspace: &mut [f64],
    records: &mut FileColumns<'_>,
    aligned: &mut [f32],
    retention: Outputs<'_>,
    mobility: Outputs<'_>,
) -> Result<Ran, Refusal>
    ensures same { SameSlices records }
    ensures called { RunCall
        (input_at batch.entry)
        (slices_of workspace
        (changed_columns records)
        aligned
        (outputs_change retention.entry retention.exit)
        (outputs_change mobility.entry mobility.exit))
        result }
{
    checks::check(batch, workspace, records, aligned, &retention, &mobility)?;
    align_accepted(batch.observations(), workspace, records, aligned);
    let times = &aligned[..batch.file.len()];
    let Outputs {
        beta,
        predicted,
        error,
    } = retention;
    let input = batch.observing(times);
    let retention = predict_retention(input, workspace, beta, predicted, error);
    let Outputs {
        beta,
        predicted,
        error,
    } = mobility;
    let input = batch.observing(batch.mobility);
    let mobility = predict_mobility(input, workspace, beta, predicted, error);
    Ok(Ran {
        retention,
        mobility,
    })
}
