// From echelon form to reduced form, and whether the left side is solved.
ghost use Rattle.std.specs.Prelude.{◌≡◌, ◌*◌, ◌<◌, length};
ghost use Rattle.matrix.specs.Rows.{rows_of};
ghost use Rattle.elimination.specs.Elimination.{
  reduce,
  clear_above,
  backfill,
  cell_solved,
  row_solved,
  left_solved,
};
ghost use Rattle.elimination.specs.Plain.{PlainRows};

use crate::cells::row_copy;
use crate::row::{divide_row, first_nonzero, is_plain, subtract_multiple};
use crate::size::Size;
use crate::walk::each_row;

// Divides each row by its first nonzero left cell.
pub(crate) fn reduce(cells: &mut [f64], size: Size)
    requires { length cells.old ≡ size.n * size.w }
    ensures { rows_of size.w size.n cells.new ≡ reduce size.n (rows_of size.w size.n cells.old) }
{
    each_row(cells, size.n, size.w, |_i, row| divide_row(row, size.n));
}

// For each row, whether no left cell is -0.0; false past the last row. (A place for each row of the largest system:
// there is no heap.)
fn plain_rows(cells: &[f64], size: Size) -> [bool; status::MAX_ORDER]
    requires { length cells.now ≡ size.n * size.w }
    ensures { PlainRows size.n size.n result (rows_of size.w size.n cells.now) }
{
    let mut plain = [false; status::MAX_ORDER];
    let mut at = 0;
    for i in 0..size.n {
        plain[i] = is_plain(&cells[at..at + size.n]);
        at += size.w;
    }
    plain
}

// Clears the column of row i's first nonzero left cell above row i, which starts at `start`. `plain` says of a row
// that no left cell is -0.0.
fn clear_above(
    cells: &mut [f64],
    size: Size,
    i: usize,
    start: usize,
    plain: &[bool; status::MAX_ORDER],
)
    requires { (length cells.old ≡ size.n * size.w) × (i < size.n) × (start ≡ i * size.w)
        × PlainRows size.n size.n plain.now (rows_of size.w size.n cells.old) }
    ensures { rows_of size.w size.n cells.new ≡ clear_above size.n i (rows_of size.w size.n cells.old) }
{
    let own = row_copy(&cells[start..start + size.w]);
    let by = &own[..size.w];
    if let Some(j) = first_nonzero(&own[..size.n]) {
        each_row(
            &mut cells[..start],
            i,
            size.w,
            |r, row| subtract_multiple(row, by, j, plain[r]),
        );
    }
}

// Clears above, from the last row up. A row without -0.0 never gets one, so the rows are looked through once.
pub(crate) fn backfill(cells: &mut [f64], size: Size)
    requires { length cells.old ≡ size.n * size.w }
    ensures { rows_of size.w size.n cells.new ≡ backfill size.n (rows_of size.w size.n cells.old) }
{
    let plain = plain_rows(&cells[..], size);
    let mut at = cells.len();
    for i in (0..size.n).rev() {
        at -= size.w;
        clear_above(cells, size, i, at, &plain);
    }
}

// 1.0 or 0.0 on the diagonal, nothing above 1E-8 elsewhere.
fn cell_solved(diagonal: bool, x: f64) -> bool
    ensures { result ≡ cell_solved diagonal x }
{
    if diagonal {
        x == 1.0 || x == 0.0
    } else {
        !(x > 1E-8)
    }
}

// The left cells of row i.
fn row_solved(row: &[f64], i: usize) -> bool
    ensures { result ≡ row_solved i 0 row.now }
{
    row.iter().enumerate().all(|(j, x)| cell_solved(i == j, *x))
}

// Whether the left side is the identity, or has zeros on its diagonal in place of ones.
pub(crate) fn left_solved(cells: &[f64], size: Size) -> bool
    requires { length cells.now ≡ size.n * size.w }
    ensures { result ≡ left_solved size.n (rows_of size.w size.n cells.now) }
{
    let mut at = 0;
    for i in 0..size.n {
        if !row_solved(&cells[at..at + size.n], i) {
            return false;
        }
        at += size.w;
    }
    true
}
