// The ridge on the diagonal and the echelon form.
ghost use Rattle.std.specs.Prelude.{◌≡◌, ◌*◌, ◌≤◌, ◌<◌, length};
ghost use Rattle.matrix.specs.Rows.{rows_of};
ghost use Rattle.elimination.specs.Elimination.{fill_zero, pivot_row, clear_below, echelon};

use crate::cells::row_copy;
use crate::row::clear_column;
use crate::size::Size;
use crate::walk::each_row;

// Adds eps to the left diagonal.
pub(crate) fn fill_zero(cells: &mut [f64], size: Size, eps: f64)
    requires { length cells.old ≡ size.n * size.w }
    ensures { rows_of size.w size.n cells.new ≡ fill_zero eps (rows_of size.w size.n cells.old) }
{
    let mut at = 0;
    for i in 0..size.n {
        cells[at + i] += eps;
        at += size.w;
    }
}

// The row with the largest value in column k from row h down, the last of equals; row 0 where there is none, which is
// the Rust's row (`pivot_row`), and so no Option. Row h starts at `start`.
fn pivot(cells: &[f64], size: Size, h: usize, start: usize, k: usize) -> usize
    requires { (length cells.now ≡ size.n * size.w) × (h ≤ size.n) × (start ≡ h * size.w) × (k < size.n) }
    ensures { result ≡ pivot_row h k (rows_of size.w size.n cells.now) }
{
    let mut best = 0;
    let mut max = f64::MIN;
    let mut at = start;
    for i in h..size.n {
        let x = cells[at + k];
        at += size.w;
        if x >= max {
            best = i;
            max = x;
        }
    }
    best
}

// Clears column k below row h, which starts at `start`.
fn clear_below(cells: &mut [f64], size: Size, h: usize, start: usize, k: usize)
    requires { (length cells.old ≡ size.n * size.w) × (h < size.n) × (start ≡ h * size.w) × (k < size.n) }
    ensures { rows_of size.w size.n cells.new ≡ clear_below h k (rows_of size.w size.n cells.old) }
{
    let end = start + size.w;
    let own = row_copy(&cells[start..end]);
    let pivot = &own[..size.w];
    each_row(
        &mut cells[end..],
        size.n - h - 1,
        size.w,
        |_i, row| clear_column(row, pivot, k),
    );
}

// Brings the left side into echelon form, column by column: the pivot row comes to row h, and the column is cleared
// below it. Row h is walked, and starts at `at_h`; the pivot row is reached out of turn.
pub(crate) fn echelon(cells: &mut [f64], size: Size)
    requires { length cells.old ≡ size.n * size.w }
    ensures { rows_of size.w size.n cells.new ≡ echelon size.n (rows_of size.w size.n cells.old) }
{
    let w = size.w;
    let mut h = 0;
    let mut at_h = 0;
    for k in 0..size.n {
        let i = pivot(&cells[..], size, h, at_h, k);
        let at_i = matrix::cell_count(i, w);
        if cells[at_i + k] == 0.0 {
            continue;
        }
        matrix::swap_rows_at(cells, w, at_h, at_i);
        clear_below(cells, size, h, at_h, k);
        at_h += w;
        h += 1;
    }
}
