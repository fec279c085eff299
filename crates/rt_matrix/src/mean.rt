// A peptide's times in the files as shares of the files' longest times, and their mean.
ghost use Rattle.std.specs.Prelude.{◌≡◌, ◌<◌, ◌^◌, length};
ghost use Rattle.std.specs.Float.{binary64};
ghost use Rattle.std.specs.Float.Ieee.{div};
ghost use Rattle.float.specs.Number.{number};
ghost use Rattle.rt_matrix.specs.Line.{mean};
ghost use Rattle.rt_matrix.specs.Cells.{shares_of};

// The cell of a peptide that has no time in a file: 1E300, which no f32 equals. A mark and no Option, since
// the cells lie in the caller's workspace of f64.
pub const ABSENT: f64 = 1e300;

// A time as a share of its file's longest time.
pub(crate) fn share(cell: f64, max: u32) -> f64
    ensures { result ≡ div binary64 cell (number max) }
{
    cell / float::u32_to_f64(max)
}

// The mean of a peptide's row over the files in which it has a time.
pub(crate) fn row_mean(row: &[f64], max: &[u32]) -> f64
    requires { (length row.now ≡ length max.now) × (length max.now < 2 ^ 32) }
    ensures { result ≡ mean (shares_of max.now row.now) }
{
    let mut sum = 0.0f64;
    let mut n = 0u32;
    for f in 0..row.len() {
        if row[f] != ABSENT {
            sum = sum + share(row[f], max[f]);
            n += 1;
        }
    }
    sum / float::u32_to_f64(n)
}
