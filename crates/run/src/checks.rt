// The checks of a run, in document 01's order.
ghost use Rattle.std.specs.Prelude.{◌≡◌, ◌&&◌, [], ◌∷◌, leb, length};
ghost use Rattle.status.specs.Status.{checked};
ghost use Rattle.models.specs.Call.{outputs_held};
ghost use Rattle.rt_matrix.specs.Columns.{held_columns};
ghost use Rattle.run.specs.Call.{
  input_at,
  slices_held,
  columns_agree,
  needed_cells,
  model_room,
  model_long,
  status,
};

use crate::Batch;
use embedding::Model;
use models::Outputs;
use retention_alignment::FileColumns;
use status::Refusal;

// Whether the columns belong together, and the logs to the masses.
fn columns_agree(batch: Batch<'_>) -> bool
    ensures { result ≡ columns_agree (input_at batch.entry) }
{
    let rows = batch.file.len();
    let first = status::same_lengths(
        rows,
        batch.peptide.len(),
        batch.label.len(),
        batch.q.len(),
        batch.rt.len(),
    );
    let others = (batch.charge.len() == rows) & (batch.mobility.len() == rows);
    first & others & (batch.table.logs.len() == batch.table.masses.len())
}

// Whether a workspace has the cells of the alignment and those of either fit: mobility's are more.
fn workspace_fits(files: usize, peptides: usize, workspace: usize) -> bool
    ensures { result ≡ leb (needed_cells files peptides) workspace }
{
    regression::workspace_cells(Model::Mobility.order()) <= workspace
        && status::cells_fit(peptides, files, workspace)
}

// Whether a model's outputs are long enough.
fn model_long(model: Model, rows: usize, outputs: &Outputs<'_>) -> bool
    ensures { result ≡ model_long model rows (model_room (outputs_held outputs.now)) }
{
    model.order() <= outputs.beta.len()
        && rows <= outputs.predicted.len()
        && rows <= outputs.error.len()
}

// The checks of a call: 1, 2, 3, 7, 6, 4 or 5 where one fails. Each goes over the whole input, and the first that
// fails is answered.
pub(crate) fn check(
    batch: Batch<'_>,
    workspace: &[f64],
    records: &FileColumns<'_>,
    aligned: &[f32],
    retention: &Outputs<'_>,
    mobility: &Outputs<'_>,
) -> Result<(), Refusal>
    ensures { result
        ≡ checked
        (status
        (input_at batch.entry)
        (slices_held workspace.entry
        (held_columns records.now)
        aligned.entry
        (outputs_held retention.now)
        (outputs_held mobility.now))) }
{
    let rows = batch.file.len();
    let peptides = batch.table.masses.len();
    let long = workspace_fits(batch.files, peptides, workspace.len())
        & records.hold(batch.files)
        & (rows <= aligned.len())
        & model_long(Model::Retention, rows, retention)
        & model_long(Model::Mobility, rows, mobility);
    status::first_failing(
        columns_agree(batch),
        status::limits(batch.files, rows, peptides),
        long,
        peptide::check_table(batch.table.letters, batch.table.offsets, peptides),
        status::all_below(batch.file, batch.files),
        status::all_below(batch.peptide, peptides),
    )
}
