// A system's two sides: brought together in rows, and the right side taken out again.
ghost use Rattle.std.specs.Prelude.{◌≡◌, ◌++◌, ◌+◌, ◌*◌, length};
ghost use Rattle.matrix.specs.Rows.{rows_of};
ghost use Rattle.elimination.specs.Rows.{augmented};
ghost use Rattle.elimination.specs.Ridge.{right_side};

use crate::cells::{copy, copy_canonical};

// The row becomes the left cells followed by the right ones.
fn join(row: &mut [f64], left: &[f64], right: &[f64])
    requires { length row.old ≡ length left.now + length right.now }
    ensures { row.new ≡ left.now ++ right.now }
{
    let n = left.len();
    copy(&mut row[..n], left);
    copy(&mut row[n..], right);
}

// The rows [left | right]. For crate gauss.
pub fn augment(cells: &mut [f64], left: &[f64], right: &[f64], n: usize, c: usize)
    requires { (length cells.old ≡ n * (n + c))
        × (length left.now ≡ n * n)
        × (length right.now ≡ n * c) }
    ensures { rows_of (n + c) n cells.new
        ≡ augmented (rows_of n n left.now) (rows_of c n right.now) }
{
    let mut at = 0;
    let mut l = 0;
    let mut r = 0;
    for _i in 0..n {
        let next_at = at + n + c;
        let next_l = l + n;
        let next_r = r + c;
        join(&mut cells[at..next_at], &left[l..next_l], &right[r..next_r]);
        at = next_at;
        l = next_l;
        r = next_r;
    }
}

// Writes the right side of the rows, row by row, with the one NaN for any NaN. For the crates gauss and regression.
// (`augment` steps three starts and this two: one walk for both would take more parameters than it has lines.)
pub fn right_side(solution: &mut [f64], cells: &[f64], n: usize, c: usize)
    requires { (length solution.old ≡ n * c) × (length cells.now ≡ n * (n + c)) }
    ensures { solution.new ≡ right_side n (rows_of (n + c) n cells.now) }
{
    let mut at = 0;
    let mut s = 0;
    for _i in 0..n {
        let right = at + n;
        let next_at = right + c;
        let next_s = s + c;
        copy_canonical(&mut solution[s..next_s], &cells[right..next_at]);
        at = next_at;
        s = next_s;
    }
}
