// The files' points, taken a peptide at a time: what each file gathers from its own, whatever that is.
ghost use Rattle.std.specs.Prelude.{◌≡◌, ℕ, ◌+◌, ◌*◌, ◌<◌, ◌≤◌, ◌^◌, length, Float, All};
ghost use mathlib.Core.List.{foldl};
ghost use Rattle.rt_matrix.specs.Line.{share};
ghost use Rattle.matrix.specs.Lists.{zipped};
ghost use Rattle.rt_matrix.specs.Cells.{decode, shares_of, row_shares, at_cell, after_row};

use crate::mean;

// What a file gathers from its points, one after the other.
pub(crate) trait Gather: Copy {
    ghost step: { Self → Float → Float → Self };

    // How many points it has counted, where it counts them.
    ghost count: { Self → ℕ };

    // With one point more: a peptide's time in the file as a share, and the peptide's mean.
    fn with_point(self, x: f64, y: f64) -> Self
        requires { count self + 1 < 2 ^ 32 }
        ensures { result ≡ step self x y };

    ghost counted: { (s : Self) → (x y : Float) → count (step s x y) ≤ count s + 1 };
}

// A file's state after the cell of a peptide with the mean y.
fn add_cell<T: Gather>(state: &mut T, cell: f64, max: u32, y: f64)
    requires { T.count state.old + 1 < 2 ^ 32 }
    ensures { state.new ≡ at_cell T.step y state.old (share max (decode cell)) }
{
    if cell != mean::ABSENT {
        *state = state.with_point(mean::share(cell, max), y);
    }
}

// The files' states after the row of a peptide with the mean y.
fn add_row<T: Gather>(states: &mut [T], row: &[f64], max: &[u32], y: f64)
    requires lengths { (length row.now ≡ length max.now) × (length states.old ≡ length max.now) }
    requires room { All (λ s. T.count s + 1 < 2 ^ 32) states.old }
    ensures { states.new ≡ zipped (at_cell T.step y) states.old (shares_of max.now row.now) }
{
    for f in 0..row.len() {
        add_cell(&mut states[f], row[f], max[f], y);
    }
}

// The files' states after a peptide's row: a peptide whose mean is not a normal number is dropped.
fn add_peptide<T: Gather>(states: &mut [T], row: &[f64], max: &[u32])
    requires lengths { (length row.now ≡ length max.now)
        × (length states.old ≡ length max.now)
        × (length max.now < 2 ^ 32) }
    requires room { All (λ s. T.count s + 1 < 2 ^ 32) states.old }
    ensures { states.new ≡ after_row T.step states.old (shares_of max.now row.now) }
{
    let y = mean::row_mean(row, max);
    if float::is_normal64(y) {
        add_row(states, row, max, y);
    }
}

// The files' states after the rows of all peptides. (`chunks_exact` asks for rows of a cell at least, and there may be
// no file.)
pub(crate) fn add_peptides<T: Gather>(states: &mut [T], cells: &[f64], max: &[u32], peptides: usize)
    requires lengths { (length cells.now ≡ peptides * length max.now)
        × (length states.old ≡ length max.now)
        × (length max.now < 2 ^ 32) }
    requires room { All (λ s. T.count s + peptides < 2 ^ 32) states.old }
    ensures { states.new ≡ foldl (after_row T.step) states.old (row_shares max.now peptides cells.now) }
{
    let mut left = cells;
    for p in 0..peptides {
        let (row, rest) = left.split_at(max.len());
        add_peptide(states, row, max);
        left = rest;
    }
}
