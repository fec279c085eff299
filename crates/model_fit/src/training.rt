// The fit: one pass over the training rows for the normal equations, the solver, and the squared errors, in a pass of
// their own or in the pass that predicts every row.
ghost use Rattle.std.specs.Prelude.{◌≡◌, cond, [], ◌+◌, ◌<◌, ◌≤◌, pos, length, get_or, take};
ghost use Rattle.std.specs.Float.{nan};
ghost use Rattle.feature.specs.Feature.{trains};
ghost use Rattle.embedding.specs.Design.{order_of};
ghost use Rattle.embedding.specs.Row.{row_of};
ghost use Rattle.matrix.specs.Nonzero.{Nonzeros};
ghost use Rattle.regression.specs.Regression.{extended, normal, dot, sse};
ghost use Rattle.packed_rows.specs.Falling.{RowStarts};
ghost use Rattle.regression.specs.Sparse.{add_visited, all_finite};
ghost use Rattle.regression.specs.Workspace.{Workspace, stored, with_stored, holding, fit_slices};
ghost use Rattle.model_fit.specs.Input.{input_at, table_at, query_of};
ghost use Rattle.model_fit.specs.Samples.{design_of, training_samples};
ghost use Rattle.model_fit.specs.Shared.{
  Numbered,
  Checked,
  Accumulated,
  sample_at,
  blank_scratch,
  plus_square,
  solved_fit,
  outcome_of,
  SolvedRows,
};

use crate::{Input, Rows};
use embedding::{Ion, Model};
use matrix::PeptideIx;
use regression::{Fit, FitOutcome, Sums, Unfitted};

// A fit without its squared errors: the ridge that solves it, and the sums of the targets.
#[derive(Clone, Copy)]
pub struct Solved {
    pub ridge: f64,
    pub sums: Sums,
}

impl Solved {
    // The fit, by the squared errors of its coefficients.
    pub fn fit(self, sse: f64) -> Fit
        ensures { result ≡ solved_fit self sse }
    {
        let Solved { ridge, sums } = self;
        Fit {
            ridge,
            r2: regression::r2(sums, sse),
            n: sums.n,
        }
    }
}

// How many cells a sample has at most: its design row's and the target.
pub const SAMPLE: usize = status::MAX_ORDER + 1;

// Room for a sample's cells: for the first ones of its design row, and for the places and the values of those that are
// not zero.
#[derive(Drop)]
pub struct Scratch {
    head: [f64; embedding::MAX_HEAD],
    places: [usize; SAMPLE],
    values: [f64; SAMPLE],
}

impl Scratch {
    // With +0.0 and 0 in each cell.
    pub fn new() -> Scratch
        ensures { result ≡ blank_scratch }
    {
        Scratch {
            head: [0.0; embedding::MAX_HEAD],
            places: [0; SAMPLE],
            values: [0.0; SAMPLE],
        }
    }
}

// A row that trains: the ion that it is of, and its target.
#[derive(Clone, Copy)]
struct Sample<'a> {
    model: Model,
    ion: Ion<'a>,
    y: f64,
}

impl<'a> Sample<'a> {
    // Writes its design row and then the target into the first cells of `row`.
    fn put(self, row: &mut [f64])
        requires { order_of self.model < length row.old }
        ensures { take (order_of self.entry.model + 1) row.new ≡ extended (sample_at self.entry) }
    {
        self.model.embed(self.ion, row);
        row[self.model.order()] = self.y;
    }

    // Lists its cells that are not zero, the design row's and then the target's. Answers how many they are.
    fn list(self, cells: &mut Scratch) -> usize
        ensures upper_bound { result ≤ order_of self.entry.model + 1 }
        ensures nonzeros { Nonzeros 0
            (extended (sample_at self.entry))
            (take result cells.new.places)
            (take result cells.new.values) }
    {
        let n = self
            .model
            .list(self.ion, &mut cells.places, &mut cells.values);
        cells.places[n] = self.model.order();
        cells.values[n] = self.y;
        if self.y == 0.0 {
            return n;
        }
        n + 1
    }

    // Whether no cell is a NaN or an infinity, where the cells that are not zero are listed. Retention's other cells
    // are whole numbers, so that the log and the target alone can be one.
    fn is_finite(self, places: &[usize], values: &[f64]) -> bool
        requires { Nonzeros 0 (extended (sample_at self)) places.now values.now }
        ensures { result ≡ all_finite values.now }
    {
        match self.model {
            Model::Retention => float::is_finite64(self.ion.log) && float::is_finite64(self.y),
            Model::Mobility => regression::all_finite(values),
        }
    }

    // Adds it to the normal equations in `workspace`, with all cells of its design row written out. `starts` has the
    // starts of the stored rows.
    fn add_whole(self, cells: &mut Scratch, starts: &[usize], workspace: &mut [f64])
        requires starts { RowStarts (order_of self.model) starts.now }
        requires workspace { Workspace (order_of self.model) workspace.old }
        ensures { let d = order_of self.entry.model in
            workspace.new ≡ with_stored d
            (add_visited (stored d workspace.old) (extended (sample_at self.entry)))
            workspace.old }
    {
        let mut row = [0.0f64; SAMPLE];
        self.put(&mut row);
        let d = self.model.order();
        regression::add_row_sparse(workspace, d, &row[..d + 1], &mut cells.places, starts);
    }

    // Adds it to the normal equations in `workspace`. `starts` has the starts of the stored rows.
    fn add(self, cells: &mut Scratch, starts: &[usize], workspace: &mut [f64])
        requires starts { RowStarts (order_of self.model) starts.now }
        requires workspace { Workspace (order_of self.model) workspace.old }
        ensures { let d = order_of self.entry.model in
            workspace.new ≡ with_stored d
            (add_visited (stored d workspace.old) (extended (sample_at self.entry)))
            workspace.old }
    {
        let n = self.list(cells);
        if !self.is_finite(&cells.places[..n], &cells.values[..n]) {
            self.add_whole(cells, starts, workspace);
            return;
        }
        let d = self.model.order();
        let (places, values) = (&cells.places[..n], &cells.values[..n]);
        regression::add_row_listed(workspace, d, self.y, places, values, starts);
    }
}

// Sums the normal equations of the training rows in `workspace`, which is cleared.
fn accumulate(model: Model, input: Input, workspace: &mut [f64]) -> Sums
    requires checked { Checked (input_at input) }
    requires workspace_value { workspace.old ≡ holding (order_of model) (normal (order_of model) []) }
    ensures { Accumulated model (input_at input.entry) workspace.new result }
{
    let Input { rows, table } = input;
    let mut cells = Scratch::new();
    let mut starts = [0usize; status::MAX_ORDER];
    regression::put_starts(&mut starts, model.order());
    let mut sums = Sums::zero();
    for i in 0..rows.peptide.len() {
        if !rows.trains(i) {
            continue;
        }
        let y = float::widen(rows.observed[i]);
        let ion = table.ion(model, PeptideIx(rows.peptide[i]), rows.charge_at(i));
        Sample { model, ion, y }.add(&mut cells, &starts, workspace);
        sums = sums.add(y);
    }
    sums
}

// The coefficients of a fit, and whether all of them are finite.
#[derive(Clone, Copy)]
pub struct Coefficients<'a> {
    pub model: Model,
    beta: &'a [f64],
    finite: bool,
    ghost long: { length beta.now ≡ order_of model },
    ghost known: { finite ≡ all_finite beta.now },
}

impl<'a> Coefficients<'a> {
    // One for each column of the model's design rows.
    pub fn new(model: Model, beta: &'a [f64]) -> Coefficients<'a>
        requires { length beta.now ≡ order_of model }
        ensures { (result.model ≡ model) × (result.beta ≡ beta.entry) }
    {
        Coefficients {
            model,
            beta,
            finite: regression::all_finite(beta),
        }
    }

    // The prediction for an ion, with all cells of its design row written out.
    fn predict_whole(self, ion: Ion) -> f64
        ensures { result ≡ dot (row_of self.entry.model ion.entry) self.entry.beta.now }
    {
        let mut row = [0.0f64; status::MAX_ORDER];
        self.model.embed(ion, &mut row);
        regression::predict(&row[..self.model.order()], self.beta)
    }

    // The prediction for an ion, before it is clamped.
    fn predict(self, ion: Ion, cells: &mut Scratch) -> f64
        ensures { result ≡ dot (row_of self.entry.model ion.entry) self.entry.beta.now }
    {
        if !self.finite {
            return self.predict_whole(ion);
        }
        let n = self
            .model
            .split(ion, &mut cells.head, &mut cells.places, &mut cells.values);
        let head = &cells.head[..self.model.head()];
        regression::predict_listed(head, &cells.places[..n], &cells.values[..n], self.beta)
    }

    // Row i's prediction, before it is clamped. For this crate and the models, which have checked the table.
    pub fn predict_row(self, input: Input, i: usize, cells: &mut Scratch) -> f64
        requires numbered { Numbered (table_at input.table) input.rows.peptide.now }
        requires i_in_bounds { i < length input.rows.peptide.now }
        ensures { let rows = input.entry.rows in
            result ≡ dot
            (design_of self.entry.model (table_at input.entry.table)
            (query_of (get_or rows.peptide.now i 0) (get_or rows.charge.now i 0)))
            self.entry.beta.now }
    {
        let Input { rows, table } = input;
        let ion = table.ion(self.model, PeptideIx(rows.peptide[i]), rows.charge_at(i));
        self.predict(ion, cells)
    }
}

// The squared errors `sum` and that of one row more, its prediction less its target, squared.
fn add_square(sum: f64, prediction: f64, y: f64) -> f64
    ensures { result ≡ plus_square sum prediction y }
{
    let residual = prediction - y;
    sum + residual * residual
}

// The squared errors `sum`, and that of a row where it trains. For the models, which predict every row.
pub fn add_square_at(sum: f64, prediction: f64, rows: Rows, row: usize) -> f64
    requires row_in_bounds { (row < length rows.label.now) × (row < length rows.q.now) }
    requires row_in_bounds_2 { row < length rows.observed.now }
    ensures { result ≡ cond
        (trains (get_or rows.entry.label.now row (pos 0)) (get_or rows.entry.q.now row nan))
        (plus_square sum prediction (get_or rows.entry.observed.now row nan))
        sum }
{
    if !rows.trains(row) {
        return sum;
    }
    add_square(sum, prediction, float::widen(rows.observed[row]))
}

// The sum of the squared errors of the training rows. For the models, which have checked the rows and the table.
pub fn sum_squares(input: Input, fitted: Coefficients) -> f64
    requires { Checked (input_at input) }
    ensures { result ≡ sse fitted.entry.beta.now (training_samples fitted.entry.model (input_at input.entry)) }
{
    let rows = input.rows;
    let mut cells = Scratch::new();
    let mut sse = 0.0;
    for k in 0..rows.peptide.len() {
        if !rows.trains(k) {
            continue;
        }
        let x = fitted.predict_row(input, k, &mut cells);
        sse = add_square(sse, x, float::widen(rows.observed[k]));
    }
    sse
}

// Fits the coefficients to the training rows. `workspace` and `beta` have just the cells that it needs: the workspace
// ends as +0.0, and `beta` gets the coefficients where a ridge solves it. For the models, which have checked the rows
// and the table.
pub fn solve_checked(
    model: Model,
    input: Input,
    workspace: &mut [f64],
    beta: &mut [f64],
) -> Result<Solved, Unfitted>
    requires checked { Checked (input_at input) }
    requires workspace { Workspace (order_of model) workspace.old }
    requires beta_len { length beta.old ≡ order_of model }
    ensures { SolvedRows model (input_at input.entry) (fit_slices workspace beta) result }
{
    regression::clear(workspace);
    let sums = accumulate(model, input, workspace);
    if sums.n == 0 {
        return Err(Unfitted::NoTrainingRows);
    }
    match regression::solve(workspace, model.order(), beta) {
        Some(ridge) => Ok(Solved { ridge, sums }),
        None => Err(Unfitted::NotSolved),
    }
}

// The outcome of a fit by the squared errors of its coefficients, which only a solved one has.
pub fn outcome(solving: Result<Solved, Unfitted>, sse: f64) -> FitOutcome
    ensures { result ≡ outcome_of solving sse }
{
    let solved = solving?;
    Ok(solved.fit(sse))
}
