// Operations on one row.
ghost use Rattle.std.specs.Prelude.{◌≡◌, map, position, true, not, ◌&&◌, ◌≤◌, ◌<◌, length};
ghost use Rattle.std.specs.Float.Ieee.{eq};
ghost use Rattle.float.specs.Number.{zero64};
ghost use Rattle.float.specs.Value.{is_finite, not_minus_zero};
ghost use Rattle.matrix.specs.Lists.{zipped};
ghost use Rattle.elimination.specs.Elimination.{
  less_scaled,
  divided_by,
  cleared,
  divided,
  less_multiple,
};
ghost use Rattle.elimination.specs.Plain.{Plain, Zeros};

// Subtracts `factor` times `src` from `dst`, cell by cell, each product and each difference rounded once. By index:
// after a zip with `iter_mut` a proof knows no cell.
pub(crate) fn subtract_scaled(dst: &mut [f64], src: &[f64], factor: f64)
    requires { length dst.old ≤ length src.now }
    ensures { dst.new ≡ zipped (less_scaled factor) dst.old src.now }
{
    for j in 0..dst.len() {
        dst[j] -= src[j] * factor;
    }
}

// Divides every cell by x.
fn divide(dst: &mut [f64], x: f64)
    ensures { dst.new ≡ map (divided_by x) dst.old }
{
    for cell in dst.iter_mut() {
        *cell /= x;
    }
}

// The place of the first cell that is not zero. A NaN is not zero.
pub(crate) fn first_nonzero(row: &[f64]) -> Option<usize>
    ensures { result ≡ position (λ x. not (eq x zero64)) row.now }
{
    row.iter().position(|x| *x != 0.0)
}

// Clears column k of a row below the pivot row; cells left of k stay.
pub(crate) fn clear_column(row: &mut [f64], pivot: &[f64], k: usize)
    requires { (k < length row.old) × (length row.old ≡ length pivot.now) }
    ensures { row.new ≡ cleared k pivot.now row.old }
{
    let factor = row[k] / pivot[k];
    row[k] = 0.0;
    let j = k + 1;
    subtract_scaled(&mut row[j..], &pivot[j..], factor);
}

// Divides a row by its first nonzero cell among the first n, from there rightwards.
pub(crate) fn divide_row(row: &mut [f64], n: usize)
    requires { n ≤ length row.old }
    ensures { row.new ≡ divided n row.old }
{
    if let Some(j) = first_nonzero(&row[..n]) {
        let x = row[j];
        divide(&mut row[j..], x);
    }
}

// Whether x is -0.0.
fn is_minus_zero(x: f64) -> bool
    ensures { result ≡ not (not_minus_zero x) }
{
    x == 0.0 && float::bits64(x) != 0
}

// Whether no cell is -0.0.
pub(crate) fn is_plain(row: &[f64]) -> bool
    ensures { result ≡ true → Plain (length row.now) row.now }
{
    row.iter().all(|x| !is_minus_zero(*x))
}

// Whether `factor` times zeros, subtracted from cells, leaves them as they are: a finite factor gives zeros, which
// change only -0.0. `plain` says that no cell is that.
fn keeps_cells(plain: bool, factor: f64) -> bool
    ensures { result ≡ (plain && is_finite factor) }
{
    plain && float::is_finite64(factor)
}

// Subtracts from a row the multiple of `by` that clears column j, the first cell of `by` that is not zero. `plain`
// says that no cell of the row before j is -0.0. The two ways are apart so that where the cells lie doesn't wait for
// the factor.
pub(crate) fn subtract_multiple(row: &mut [f64], by: &[f64], j: usize, plain: bool)
    requires { (j < length row.old) × (length row.old ≡ length by.now)
        × Zeros j by.now
        × (plain ≡ true → Plain j row.old) }
    ensures { row.new ≡ less_multiple j by.now row.old }
{
    let factor = row[j] / by[j];
    if keeps_cells(plain, factor) {
        subtract_scaled(&mut row[j..], &by[j..], factor);
    } else {
        subtract_scaled(row, by, factor);
    }
}
