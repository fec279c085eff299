// Rows of falling width, stored one after the other: the packed upper triangle. They gain a sample by its cells that
// are not zero: four rows at a time, column after column, so that a place and its value are read once for the four, or
// one alone. A row's column c lies c cells past the row's base. Places and values are two slices, since C lends the
// places alone (`zk_add_row_sparse`).
#![tactic(auto)]

ghost use Rattle.std.specs.Prelude.{◌≡◌, List, ℕ, ◌+◌, ◌≤◌, ◌<◌, length, get_or, Float};
ghost use Rattle.std.specs.List.{All};
ghost use Rattle.packed_rows.specs.Added.{
  cell_added,
  column_added,
  columns_added,
  run_added,
  runs_added,
  row_at,
  rows_at,
  Addable,
  RunLong,
  RunFrom,
  Gained,
};

// A row that gains a sample: where its column 0 would be, and what is multiplied with the columns' values.
#[derive(Clone, Copy)]
struct Row {
    base: usize,
    factor: f64,
}

// Adds x * v to a cell.
fn add_cell(acc: &mut [f64], at: usize, x: f64, v: f64)
    requires { at < length acc.old }
    ensures { acc.new ≡ cell_added at x v acc.old }
{
    acc[at] = acc[at] + x * v;
}

// Adds to column k of some rows, `v` being the sample's cell there.
fn add_column(acc: &mut [f64], k: usize, v: f64, rows: &[Row])
    requires { All (λ r. r.base + k < length acc.old) rows.now }
    ensures { acc.new ≡ column_added rows.now k v acc.old }
{
    for row in rows {
        add_cell(acc, row.base + k, row.factor, v);
    }
}

// Adds to each column that is listed of some rows.
fn add_columns(acc: &mut [f64], places: &[usize], values: &[f64], rows: &[Row])
    requires { All (λ k. All (λ r. r.base + k < length acc.old) rows.now) places.now }
    ensures { acc.new ≡ columns_added rows.now places.now values.now acc.old }
{
    for (&place, &value) in places.iter().zip(values) {
        add_column(acc, place, value, rows);
    }
}

// Adds x * a to a cell, and x * b to the next one.
fn add_two(acc: &mut [f64], at: usize, x: f64, a: f64, b: f64)
    requires { at + 1 < length acc.old }
    ensures { acc.new ≡ cell_added (at + 1) x b (cell_added at x a acc.old) }
{
    acc[at] = acc[at] + x * a;
    acc[at + 1] = acc[at + 1] + x * b;
}

// Adds x times the values, which are 4, 6 or 8, to cells side by side. (A loop over them takes longer.)
fn add_run(acc: &mut [f64], at: usize, x: f64, values: &[f64])
    requires { RunLong (length values.now) × (at + length values.now ≤ length acc.old) }
    ensures { acc.new ≡ run_added at x values.now acc.old }
{
    add_two(acc, at, x, values[0], values[1]);
    add_two(acc, at + 2, x, values[2], values[3]);
    if values.len() == 4 {
        return;
    }
    add_two(acc, at + 4, x, values[4], values[5]);
    if values.len() == 6 {
        return;
    }
    add_two(acc, at + 6, x, values[6], values[7]);
}

// Adds to the columns from k on of some rows, `values` being the sample's cells there.
fn add_runs(acc: &mut [f64], k: usize, values: &[f64], rows: &[Row])
    requires run_long { RunLong (length values.now) }
    requires in_bounds { All (λ r. r.base + k + length values.now ≤ length acc.old) rows.now }
    ensures { acc.new ≡ runs_added rows.now k values.now acc.old }
{
    for row in rows {
        add_run(acc, row.base + k, row.factor, values);
    }
}

// The row of the column at place m: it begins with that column.
fn row_at(places: &[usize], values: &[f64], starts: &[usize], m: usize) -> Row
    requires m_in_bounds { (m < length places.now) × (m < length values.now) }
    requires start { let j = get_or places.now m 0 in
        (j < length starts.now) × (j ≤ get_or starts.now j 0) }
    ensures { result ≡ row_at places.now values.now starts.now m }
{
    let j = places[m];
    Row {
        base: starts[j] - j,
        factor: values[m],
    }
}

// The rows of the columns at four places, from place m on.
fn four_at(places: &[usize], values: &[f64], starts: &[usize], m: usize) -> [Row; 4]
    requires m_in_bounds { (m + 3 < length places.now) × (m + 3 < length values.now) }
    requires by_index { (p : ℕ) → m ≤ p → p < m + 4
        → (get_or places.now p 0 < length starts.now)
        × (get_or places.now p 0 ≤ get_or starts.now (get_or places.now p 0) 0) }
    ensures { result ≡ rows_at places.now values.now starts.now 4 m }
{
    [
        row_at(places, values, starts, m),
        row_at(places, values, starts, m + 1),
        row_at(places, values, starts, m + 2),
        row_at(places, values, starts, m + 3),
    ]
}

// How many places lie before the run at their end: 4, 6 or 8 places side by side up to the last of w, or none. For
// `regression`, whose places are below w. (No Option: it is a place to split at, the end where there is no run.)
pub fn run_from(places: &[usize], w: usize) -> usize
    requires { (p : ℕ) → p < length places.now → get_or places.now p 0 < w }
    ensures { RunFrom w places.now result }
{
    let n = places.len();
    if 8 <= n && w - places[n - 8] == 8 {
        return n - 8;
    }
    if 6 <= n && w - places[n - 6] == 6 {
        return n - 6;
    }
    if 4 <= n && w - places[n - 4] == 4 {
        return n - 4;
    }
    n
}

// Adds a sample to the stored rows of the columns at four places, from place m on. The places from number h on lie side
// by side, as `run_from` has them. A row has no cell before its own column, so the columns of the first three are
// added to the rows up to theirs. For `regression`, which knows the sample's places and where the rows start.
pub fn add_four_rows(
    acc: &mut [f64],
    places: &[usize],
    values: &[f64],
    starts: &[usize],
    m: usize,
    h: usize,
)
    requires { (ext : List Float)
        × Addable ext acc.old places.now values.now starts.now
        × RunFrom (length ext) places.now h
        × (m + 3 < length places.now)
        × (get_or places.now (m + 3) 0 + 1 < length ext) }
    ensures { (ext : List Float)
        → Addable ext acc.old places.now values.now starts.now
        → RunFrom (length ext) places.now h
        → get_or places.now (m + 3) 0 + 1 < length ext
        → Gained ext
        (get_or places.now m 0)
        (get_or places.now (m + 3) 0 + 1)
        acc.old
        acc.new }
{
    let rows = four_at(places, values, starts, m);
    add_column(acc, places[m], values[m], &rows[..1]);
    add_column(acc, places[m + 1], values[m + 1], &rows[..2]);
    add_column(acc, places[m + 2], values[m + 2], &rows[..3]);
    let from = m + 3;
    if from < h && h < places.len() {
        add_columns(acc, &places[from..h], &values[from..h], &rows);
        add_runs(acc, places[h], &values[h..], &rows);
        return;
    }
    add_columns(acc, &places[from..], &values[from..], &rows);
}

// Adds a sample to the stored row of the column at place m. For `regression`, as `add_four_rows`.
pub fn add_one_row(acc: &mut [f64], places: &[usize], values: &[f64], starts: &[usize], m: usize)
    requires { (ext : List Float)
        × Addable ext acc.old places.now values.now starts.now
        × (m < length places.now)
        × (get_or places.now m 0 + 1 < length ext) }
    ensures { (ext : List Float)
        → Addable ext acc.old places.now values.now starts.now
        → get_or places.now m 0 + 1 < length ext
        → Gained ext
        (get_or places.now m 0)
        (get_or places.now m 0 + 1)
        acc.old
        acc.new }
{
    let row = [row_at(places, values, starts, m)];
    add_columns(acc, &places[m..], &values[m..], &row);
}
