// The checks of a call, in document 01's order, for both models and for fits and predictions.
ghost use Rattle.std.specs.Prelude.{◌≡◌};
ghost use Rattle.status.specs.Status.{checked};
ghost use Rattle.model_fit.specs.Input.{input_at, lengths_right, fit_room, status_by};

use crate::Input;
use embedding::Model;
use status::Refusal;

// Whether a workspace and a coefficient list of these lengths are long enough for a fit.
pub fn fit_room(model: Model, workspace: usize, beta: usize) -> bool
    ensures { result ≡ fit_room model workspace beta }
{
    let d = model.order();
    regression::workspace_cells(d) <= workspace && d <= beta
}

// Whether the columns that belong together have one length: check 1.
fn lengths_agree(model: Model, input: Input) -> bool
    ensures { result ≡ lengths_right model (input_at input.entry) }
{
    let Input { rows, table } = input;
    let n = rows.peptide.len();
    let labels = rows.label.len();
    let qs = rows.q.len();
    let observed = rows.observed.len();
    match model {
        Model::Retention => {
            status::same_lengths(n, labels, qs, observed, n)
                && table.logs.len() == table.masses.len()
        }
        Model::Mobility => status::same_lengths(n, labels, qs, rows.charge.len(), observed),
    }
}

// The checks of a call: 1, 2, 3 (not `room`), 7, 6 or 5 where one fails. Each goes over the whole input, and the first
// that fails is answered.
pub fn check(model: Model, input: Input, room: bool) -> Result<(), Refusal>
    ensures { result ≡ checked (status_by model (input_at input.entry) room) }
{
    let Input { rows, table } = input;
    let peptides = table.masses.len();
    let lengths = lengths_agree(model, input);
    let limits = status::row_limits(rows.peptide.len(), peptides);
    let table_right = peptide::check_table(table.letters, table.offsets, peptides);
    let peptides_right = status::all_below(rows.peptide, peptides);
    status::first_failing(lengths, limits, room, table_right, true, peptides_right)
}
