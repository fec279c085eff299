// The longest time of each file, and the smallest time of each peptide in each file.
ghost use Rattle.std.specs.Prelude.{◌≡◌, List, map, true, ℕ, ◌*◌, ◌<◌, ◌^◌, length, replicate};
ghost use Rattle.status.specs.Checks.{all_below};
ghost use Rattle.matrix.specs.Rows.{rows_of};
ghost use Rattle.rt_matrix.specs.Cells.{absent, decode};
ghost use Rattle.retention_alignment.specs.Observation.{max_rts, smaller, min_rts};
ghost use Rattle.retention_alignment.specs.Call.{held_input, rows, training_rows, SameRows};

use crate::Observations;
use matrix::{FileIx, PeptideIx};
use rt_matrix::ABSENT;

// The longest time of each file, over all rows; max is handed in as zeros. The peptides' numbers are not read.
pub(crate) fn max_rt_by_file(observed: Observations<'_>, max: &mut [u32])
    requires same_rows { SameRows (held_input observed) }
    requires fresh { (all_below (length max.old) observed.file.now ≡ true)
        × (max.old ≡ replicate (length max.old) 0) }
    ensures { max.new ≡ max_rts (length max.old) (rows (held_input observed.entry)) }
{
    for i in 0..observed.file.len() {
        let f = observed.file[i] as usize;
        max[f] = max[f].max(float::ceil_to_u32(observed.rt[i]));
    }
}

// A cell after one time more.
fn earliest(cell: f64, t: f32) -> f64
    ensures { decode result ≡ smaller (decode cell) t }
{
    if cell == ABSENT {
        return float::widen(t);
    }
    float::min64(cell, float::widen(t))
}

// The smallest time of each peptide in each file, over the training rows: a row of cells for each peptide, a cell for
// each file.
pub(crate) fn mean_rt_by_file(observed: Observations<'_>, cells: &mut [f64])
    requires same_rows { SameRows (held_input observed) }
    requires in_range { (all_below observed.files observed.file.now ≡ true)
        × (all_below observed.peptides observed.peptide.now ≡ true)
        × (length cells.old ≡ observed.peptides * observed.files)
        × (observed.files < 2 ^ 32)
        × (observed.peptides * observed.files < 2 ^ 32) }
    ensures { map (map decode) (rows_of observed.entry.files observed.entry.peptides cells.new)
        ≡ min_rts observed.entry.files observed.entry.peptides (training_rows (held_input observed.entry)) }
{
    cells.fill(ABSENT);
    let files = observed.files as u32;
    for i in 0..observed.file.len() {
        if feature::trains(observed.label[i], observed.q[i]) {
            let p = PeptideIx(observed.peptide[i]);
            let f = FileIx(observed.file[i]);
            let at = matrix::place(p, f, files);
            cells[at] = earliest(cells[at], observed.rt[i]);
        }
    }
}
