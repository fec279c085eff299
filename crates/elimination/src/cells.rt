// Cells copied.
ghost use Rattle.std.specs.Prelude.{◌≡◌, ◌≤◌, length, take};
ghost use Rattle.elimination.specs.Rows.{max_width};

// The cells of the widest row, left and right.
pub(crate) const MAX_WIDTH: usize = status::MAX_ORDER + status::MAX_COLUMNS;

// `dst` becomes `src`. For the crate regression too. A loop: `copy_from_slice` of two slices that are lent calls
// memmove, which a host would then have to bring.
pub fn copy(dst: &mut [f64], src: &[f64])
    requires { length dst.old ≡ length src.now }
    ensures { dst.new ≡ src.now }
{
    for j in 0..dst.len() {
        dst[j] = src[j];
    }
}

// `dst` becomes `src`, with the one NaN for any NaN. By index: after a zip with `iter_mut` a proof knows no cell.
pub(crate) fn copy_canonical(dst: &mut [f64], src: &[f64])
    requires { length dst.old ≡ length src.now }
    ensures { dst.new ≡ src.now }
{
    for j in 0..dst.len() {
        dst[j] = float::canonical64(src[j]);
    }
}

// A row of zeros of the greatest width. The `ensures` gives only the length, which lending a part of it needs.
fn blank_row() -> [f64; MAX_WIDTH]
    ensures { length result ≡ max_width }
{
    [0.0; MAX_WIDTH]
}

// A copy of a row in an array of its own, so that the row can be read while other rows are written.
pub(crate) fn row_copy(row: &[f64]) -> [f64; MAX_WIDTH]
    requires { length row.now ≤ max_width }
    ensures { (take (length row.now) result ≡ row.now) × (length result ≡ max_width) }
{
    let w = row.len();
    let mut own = blank_row();
    own[..w].copy_from_slice(row);
    own
}
