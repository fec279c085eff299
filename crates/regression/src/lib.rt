// Streaming least squares: the normal equations are summed row by row, without the design matrix, and
// solved with the first ridge that does. The steps here are called by the loops of both models, for any
// order D. The equations are D rows of D + 1 cells, [cov | b]. Since cov is symmetric to the bit, each row is stored
// from its diagonal on, in the fit's workspace: where, and what else is in it, is this crate's own. Rows of falling
// width have no iterator, so their starts are stepped by hand; the cells and d stay apart, as C lends them
// (`zk_add_row`).
#![tactic(auto)]

ghost use Rattle.std.specs.Prelude.{◌≡◌, true, List, ◌++◌, ◌+◌, ◌-◌, ◌≤◌, ◌<◌, length, take, Float};
ghost use Rattle.std.proofs.Math.ListN.{drop};
ghost use Rattle.matrix.specs.Rows.{flat};
ghost use Rattle.matrix.specs.Lists.{zipped, tabulate};
ghost use Rattle.status.specs.Limits.{max_order, max_rows};
ghost use Rattle.packed_rows.specs.Falling.{falling_rows, falling_start, RowStarts};
ghost use Rattle.packed_rows.specs.Added.{plus_scaled};
ghost use Rattle.regression.specs.Triangle.{add_triangle, mirrored, unfolded};
ghost use Rattle.regression.specs.Sparse.{
  all_finite,
  ListedRow,
  SplitRow,
  add_visited,
  visited,
};
ghost use Rattle.regression.specs.Workspace.{
  Workspace,
  workspace_cells,
  system_length,
  stored,
  equations,
  with_stored,
  with_equations,
  cleared,
  fit_slices,
};
ghost use Rattle.regression.specs.Solve.{Attempted, Found, SolvedBy, solution_in};
ghost use Rattle.regression.specs.Regression.{
  add_row,
  dot,
  no_sums,
  plus_target,
  r2_of,
};

mod sparse; // a sample whose zeros are skipped

pub use sparse::all_finite;

// A solved fit: the ridge that solved the normal equations, r2 and the number of training rows.
#[derive(Clone, Copy, Debug, PartialEq)]
pub struct Fit {
    pub ridge: f64,
    pub r2: f64,
    pub n: u32,
}

// Why a model has no fit: there is no training row, or no ridge solves the normal equations. The numbers are the
// statuses that say so.
#[derive(Clone, Copy, Debug, PartialEq, Eq)]
pub enum Unfitted {
    NoTrainingRows = 8,
    NotSolved = 9,
}

// What a fit answers.
pub type FitOutcome = Result<Fit, Unfitted>;

// Adds `factor` times `src`, which is at least as long as `dst`, to `dst`, cell by cell.
fn add_scaled(dst: &mut [f64], src: &[f64], factor: f64)
    requires { length dst.old ≤ length src.now }
    ensures { dst.new ≡ zipped (plus_scaled factor) dst.old src.now }
{
    for (k, cell) in dst.iter_mut().enumerate() {
        *cell = *cell + factor * src[k];
    }
}

// Adds to row j of `acc`, whose rows begin on the diagonal, `ext[j]` times `ext` from column j on. Row 0 is as long as
// `ext`, and each row one cell shorter than the row before it, down to two cells.
fn add_to_rows(acc: &mut [f64], ext: &[f64])
    requires { length acc.old ≡ falling_start (length ext.now) (length ext.now - 1) }
    ensures { let w = length ext.now in
        acc.new ≡ flat (add_triangle (falling_rows w (w - 1) acc.old) ext.now) }
{
    let w = ext.len();
    let mut start = 0;
    for j in 0..w.saturating_sub(1) {
        let end = start + (w - j);
        add_scaled(&mut acc[start..end], &ext[j..], ext[j]);
        start = end;
    }
}

// The cells of d augmented rows.
fn system_length(d: usize) -> usize
    requires { d ≤ max_order }
    ensures { result ≡ system_length d }
{
    matrix::cell_count(d, d + 1)
}

// The cells of the workspace of a fit of the largest order, for arrays.
pub const MAX_WORKSPACE: usize = status::MAX_ORDER * status::MAX_ORDER
    + status::MAX_ORDER * (status::MAX_ORDER + 1) / 2
    + 2 * status::MAX_ORDER;

// How many cells the workspace of a fit has: a system, and for the stored equations half as many and one more for each
// row. For the models, whose order d is at most 100.
pub fn workspace_cells(d: usize) -> usize
    requires { d ≤ max_order }
    ensures { result ≡ workspace_cells d }
{
    let system = system_length(d);
    system + system / 2 + d
}

// Clears a workspace: it then holds the normal equations of no sample.
pub fn clear(workspace: &mut [f64])
    ensures { workspace.new ≡ cleared workspace.old }
{
    matrix::zeros(workspace);
}

// Adds a sample to the normal equations in a workspace: `ext` is its design row of d cells, and then its target.
// For the models.
pub fn add_row(workspace: &mut [f64], d: usize, ext: &[f64])
    requires { Workspace d workspace.old × (length ext.now ≡ d + 1) }
    ensures { workspace.new ≡ with_equations d
        (add_row (equations d workspace.old) ext.now)
        workspace.old }
{
    let split = system_length(d);
    add_to_rows(&mut workspace[split..], ext);
}

// Fills `starts` with the starts of the d stored rows, which `add_row_sparse` reads. For the models.
pub fn put_starts(starts: &mut [usize], d: usize)
    requires { (d ≤ max_order) × (d ≤ length starts.old) }
    ensures { RowStarts d starts.new }
{
    let mut start = 0;
    for j in 0..d {
        starts[j] = start;
        start = start + (d + 1 - j);
    }
}

// Adds a sample as `add_row` does and skips its zeros: only the pairs of columns that are not zero are visited, and
// each such column's pair with a target that is not zero. Answers how many pairs of columns are visited:
// k * (k + 1) / 2 for k such columns. `places` and `values` list the sample's cells that are not zero, which are
// finite; the last of its d + 1 cells is `target`. To sums of samples, which began at +0.0, it does what `add_row`
// does. For the models. (Two slices, since C lends the places alone: `zk_add_row_sparse`.)
pub fn add_row_listed(
    workspace: &mut [f64],
    d: usize,
    target: f64,
    places: &[usize],
    values: &[f64],
    starts: &[usize],
) -> u32
    requires workspace { Workspace d workspace.old × RowStarts d starts.now }
    requires values_value { all_finite values.now ≡ true }
    requires listed_row { (ext : List Float) × ListedRow (d + 1) target places.now values.now ext }
    ensures workspace_after { (ext : List Float) → ListedRow (d + 1) target places.now values.now ext
        → workspace.new ≡ with_stored d
        (add_visited (stored d workspace.old) ext)
        workspace.old }
    ensures value { (ext : List Float) → ListedRow (d + 1) target places.now values.now ext
        → result ≡ visited ext }
{
    let split = system_length(d);
    let columns = sparse::add_listed(
        &mut workspace[split..],
        d + 1,
        target,
        places,
        values,
        starts,
    );
    sparse::pairs(columns)
}

// Adds a sample as `add_row` does: where all its cells are finite as `add_row_listed` does, and else by `add_row`, with
// d * (d + 1) / 2 for an answer. `places` is room for a number a cell of `ext`. For the models.
pub fn add_row_sparse(
    workspace: &mut [f64],
    d: usize,
    ext: &[f64],
    places: &mut [usize],
    starts: &[usize],
) -> u32
    requires workspace { Workspace d workspace.old × (length ext.now ≡ d + 1) }
    requires d_in_bounds { (d < length places.old) × RowStarts d starts.now }
    ensures workspace_after { workspace.new ≡ with_stored d
        (add_visited (stored d workspace.old) ext.now)
        workspace.old }
    ensures value { result ≡ visited ext.now }
{
    if !all_finite(ext) {
        add_row(workspace, d, ext);
        return sparse::pairs(d);
    }
    let mut values = [0.0f64; status::MAX_ORDER + 1];
    let n = sparse::gather(ext, places, &mut values);
    add_row_listed(workspace, d, ext[d], &places[..n], &values[..n], starts)
}

// The number of samples, the sum of their targets and of the targets' squares.
#[derive(Clone, Copy, Debug, PartialEq)]
pub struct Sums {
    pub n: u32,
    pub sum_y: f64,
    pub sum_y2: f64,
}

impl Sums {
    // Of no sample. (The edit n_off_by_one holds its line, so no `Default` is derived.)
    pub fn zero() -> Sums
        ensures { result ≡ no_sums }
    {
        Sums {
            n: 0,
            sum_y: 0.0,
            sum_y2: 0.0,
        }
    }

    // With one target more. For the models, whose rows are within the limit.
    pub fn add(self, y: f64) -> Sums
        requires { self.n < max_rows }
        ensures { result ≡ plus_target self y }
    {
        Sums {
            n: self.n + 1,
            sum_y: self.sum_y + y,
            sum_y2: self.sum_y2 + y * y,
        }
    }
}

// The sum of `row[k] * beta[k]` in column order, as far as both reach.
fn sum_products(row: &[f64], beta: &[f64]) -> f64
    ensures { result ≡ dot row.now beta.now }
{
    let mut sum = 0.0;
    // (a `zip` of the two takes a fifth longer)
    for k in 0..row.len().min(beta.len()) {
        sum = sum + row[k] * beta[k];
    }
    sum
}

// The prediction: the sum of `row[k] * beta[k]` in column order, as far as both reach.
pub fn predict(row: &[f64], beta: &[f64]) -> f64
    ensures { result ≡ dot row.now beta.now }
{
    float::canonical64(sum_products(row, beta))
}

// The prediction of a row by its first cells, which are those of `head`, and by the others that are not zero, which
// `places` and `values` list, where no coefficient is a NaN or an infinity: a zero times a finite number adds nothing
// to a sum that began at +0.0.
pub fn predict_listed(head: &[f64], places: &[usize], values: &[f64], beta: &[f64]) -> f64
    requires beta_value { all_finite beta.now ≡ true }
    requires split_row { (row : List Float) × SplitRow (length beta.now) head.now places.now values.now row }
    ensures { (row : List Float)
        → SplitRow (length beta.now) head.now places.now values.now row
        → result ≡ dot row beta.now }
{
    let mut sum = sum_products(head, beta);
    // (a `zip` of the two takes a fifth more instructions)
    for (p, &place) in places.iter().enumerate() {
        sum = sum + values[p] * beta[place];
    }
    float::canonical64(sum)
}

// The share of the targets' variance that a fit with this sum of squared errors explains. It may be
// negative, infinite or a NaN.
pub fn r2(sums: Sums, sse: f64) -> f64
    ensures { result ≡ r2_of sums sse }
{
    let nf = float::u32_to_f64(sums.n);
    let y_mean = sums.sum_y / nf;
    let y_var = sums.sum_y2 - nf * y_mean * y_mean;
    float::canonical64(1.0 - sse / y_var)
}

// Writes the first j cells of the full row j: column j of the stored rows before row j. Row k starts at `start`.
// Answers where row j starts.
fn unfold_column(row: &mut [f64], stored: &[f64], d: usize, j: usize) -> usize
    requires j_lt_d { (j < d) × (d ≤ max_order) }
    requires cells { (length row.old ≡ d + 1) × (length stored.now ≡ falling_start (d + 1) d) }
    ensures value { result ≡ falling_start (d + 1) j }
    ensures row_after { row.new
        ≡ take j (tabulate (d + 1) (mirrored (falling_rows (d + 1) d stored.now) j)) ++ drop j row.old }
{
    let mut start = 0;
    for k in 0..j {
        row[k] = stored[start + (j - k)];
        start += d + 1 - k;
    }
    start
}

// Writes the full row j, of d + 1 cells: column j of the stored rows before row j, and then row j.
fn unfold_row(row: &mut [f64], stored: &[f64], d: usize, j: usize)
    requires j_lt_d { (j < d) × (d ≤ max_order) }
    requires cells { (length row.old ≡ d + 1) × (length stored.now ≡ falling_start (d + 1) d) }
    ensures { row.new ≡ tabulate (d + 1) (mirrored (falling_rows (d + 1) d stored.now) j) }
{
    let start = unfold_column(row, stored, d, j);
    elimination::copy(&mut row[j..], &stored[start..start + (d + 1 - j)]);
}

// Unfolds the stored equations into the d full rows of d + 1 cells.
fn unfold(full: &mut [f64], stored: &[f64], d: usize)
    requires d_le_max_order { d ≤ max_order }
    requires cells { (length full.old ≡ system_length d) × (length stored.now ≡ falling_start (d + 1) d) }
    ensures { full.new ≡ flat (unfolded d (falling_rows (d + 1) d stored.now)) }
{
    let mut start = 0;
    for j in 0..d {
        let end = start + (d + 1);
        unfold_row(&mut full[start..end], stored, d, j);
        start = end;
    }
}

// One try: eliminates the full rows of the normal equations with the ridge `eps` and says whether that solves
// them.
fn attempt(workspace: &mut [f64], d: usize, eps: f64) -> bool
    requires { Workspace d workspace.old }
    ensures { Attempted d eps workspace.old workspace.new result }
{
    let (full, stored) = workspace.split_at_mut(system_length(d));
    unfold(full, stored, d);
    elimination::solve_inner(full, d, 1, eps)
}

// Tries the ridges 1E-8, 1E-7 and so on up to 1.0, and answers the first that solves the system. (gauss walks the same
// ridges on sides of its own; the laws are shared.)
fn first_solved(workspace: &mut [f64], d: usize, beta: &mut [f64]) -> Option<f64>
    requires { Workspace d workspace.old × (length beta.old ≡ d) }
    ensures { Found
        (solution_in d workspace.old)
        beta.old
        beta.new
        result }
{
    let split = system_length(d);
    let mut eps = 1E-8;
    while eps <= 1.0 {
        if attempt(workspace, d, eps) {
            elimination::right_side(beta, &workspace[..split], d, 1);
            return Some(eps);
        }
        eps = eps * 10.0;
    }
    None
}

// Solves the normal equations in `workspace` with the first ridge that does, and answers that ridge: `beta` gets the
// coefficients, or keeps what it held where none does. The workspace ends as +0.0. For the models.
pub fn solve(workspace: &mut [f64], d: usize, beta: &mut [f64]) -> Option<f64>
    requires { Workspace d workspace.old × (length beta.old ≡ d) }
    ensures { SolvedBy d (fit_slices workspace beta) result }
{
    let ridge = first_solved(workspace, d, beta);
    matrix::zeros(workspace);
    ridge
}
