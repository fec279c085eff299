// A sample whose zeros are skipped: the places of its cells that are not zero are gathered, and the rows of the stored
// equations that are such places are visited at the places from there on.
ghost use Rattle.std.specs.Prelude.{◌≡◌, cond, List, ◌-◌, ◌≤◌, length, take, Float};
ghost use Rattle.float.specs.Value.{is_zero};
ghost use Rattle.matrix.specs.Rows.{flat};
ghost use Rattle.status.specs.Limits.{max_order};
ghost use Rattle.packed_rows.specs.Falling.{falling_rows, falling_start, RowStarts};
ghost use Rattle.packed_rows.specs.Added.{plus_nonzero};
ghost use Rattle.regression.specs.Triangle.{add_triangle_by};
ghost use Rattle.matrix.specs.Nonzero.{nonzeros, Nonzeros};
ghost use Rattle.regression.specs.Sparse.{
  all_finite,
  ListedRow,
  pairs,
  nonzero_columns,
};

use packed_rows::{add_four_rows, add_one_row, run_from};

// Whether no cell is a NaN or an infinity. (No cell ends the loop, so that it is vectorized.)
pub fn all_finite(cells: &[f64]) -> bool
    ensures { result ≡ all_finite cells.now }
{
    let mut finite = true;
    for &cell in cells {
        if !float::is_finite64(cell) {
            finite = false;
        }
    }
    finite
}

// How many pairs j <= k of n columns there are.
pub(crate) fn pairs(n: usize) -> u32
    requires { n ≤ max_order }
    ensures { result ≡ pairs n }
{
    let k = n as u32;
    k * (k + 1) / 2
}

// Lists the cells of `ext` that are not zero, their places in `places` and what they are in `values`, and answers how
// many they are.
pub(crate) fn gather(ext: &[f64], places: &mut [usize], values: &mut [f64]) -> usize
    requires { (length ext.now ≤ length places.old) × (length ext.now ≤ length values.old) }
    ensures value { result ≡ length (nonzeros 0 ext.now) }
    ensures nonzeros { Nonzeros 0 ext.now (take result places.new) (take result values.new) }
{
    let mut n = 0;
    for (j, &cell) in ext.iter().enumerate() {
        places[n] = j;
        values[n] = cell;
        if cell != 0.0 {
            n += 1;
        }
    }
    n
}

// How many of n gathered places are columns': the target's is the last of them where it is not zero.
fn columns(n: usize, target: f64) -> usize
    requires { cond (is_zero target) 0 1 ≤ n }
    ensures { result ≡ n - cond (is_zero target) 0 1 }
{
    if target == 0.0 {
        return n;
    }
    n - 1
}

// Adds to the rows of `acc`, which are as `add_to_rows` has them, the products of two cells that are not zero of a
// sample of w cells, which is listed, and whose last cell is `target`: four rows at a time, and the last ones alone.
// Answers how many columns are not zero. `starts` says where each row starts.
pub(crate) fn add_listed(
    acc: &mut [f64],
    w: usize,
    target: f64,
    places: &[usize],
    values: &[f64],
    starts: &[usize],
) -> usize
    requires listed_row { (ext : List Float) × ListedRow w target places.now values.now ext }
    requires acc_len { length acc.old ≡ falling_start w (w - 1) }
    requires row_starts { RowStarts (w - 1) starts.now }
    ensures acc_after { (ext : List Float) → ListedRow w target places.now values.now ext
        → acc.new ≡ flat (add_triangle_by plus_nonzero (falling_rows w (w - 1) acc.old) ext) }
    ensures value { (ext : List Float) → ListedRow w target places.now values.now ext
        → result ≡ length (nonzero_columns ext) }
{
    let k = columns(places.len(), target);
    let h = run_from(places, w);
    // (a step is four places or one, so that no range or iterator gives the next m)
    let mut m = 0;
    while m < k {
        if m + 4 <= k {
            add_four_rows(acc, places, values, starts, m, h);
            m += 4;
        } else {
            add_one_row(acc, places, values, starts, m);
            m += 1;
        }
    }
    k
}
