// The lines of the alignment, after rt_matrix and global_alignment of sage's retention_alignment.rs. The matrix has a
// row of cells for each peptide and in it a cell for each file: the peptide's smallest time there, or ABSENT. No room
// is given for the peptides' means, so a file's sums are kept in local arrays while the peptides go by, and each pass
// works out the means anew.
#![tactic(auto)]

ghost use Rattle.std.specs.Prelude.{◌≡◌, ◌≤◌, ◌+◌, length};
ghost use Rattle.status.specs.Limits.{max_files};
ghost use Rattle.rt_matrix.specs.Line.{finite_or, line_of};
ghost use Rattle.rt_matrix.specs.Cells.{records_from, ShapedAt, LinesIn};
ghost use Rattle.rt_matrix.specs.Columns.{
  EachFrom,
  each_long,
  file_room,
  held_columns,
  changed_columns,
  columns_of,
  written_over,
  stored_at,
  SameSlices,
};

mod mean;
mod points;
mod squares;
mod sums;

pub use mean::ABSENT;
use squares::Squares;
use status::MAX_FILES;
use sums::Sums;

// Up to so many files the sums take small arrays: clearing large ones takes longer than the lines of a small batch.
const FEW_FILES: usize = 256;

// A file's record: its longest time, its line, how many kept peptides carry the line, and whether each of the three
// f32 equals the f64 that it was narrowed from. Hosts pass lists of it, hence the layout of C.
#[repr(C)]
#[derive(Clone, Copy)]
pub struct Alignment {
    pub max_rt: f32,
    pub slope: f32,
    pub intercept: f32,
    pub used: u32,
    pub max_rt_exact: bool,
    pub slope_exact: bool,
    pub intercept_exact: bool,
}

// The slices that take the files' records, one for each field, as hosts lend them.
#[derive(Drop)]
pub struct FileColumns<'a> {
    pub max_rt: &'a mut [f32],
    pub slope: &'a mut [f32],
    pub intercept: &'a mut [f32],
    pub used: &'a mut [u32],
    pub max_rt_exact: &'a mut [bool],
    pub slope_exact: &'a mut [bool],
    pub intercept_exact: &'a mut [bool],
}

impl FileColumns<'_> {
    // Whether each of the columns has a cell for each file.
    pub fn hold(&self, files: usize) -> bool
        ensures { result ≡ each_long files (file_room (held_columns self.now)) }
    {
        (files <= self.max_rt.len())
            & (files <= self.slope.len())
            & (files <= self.intercept.len())
            & (files <= self.used.len())
            & (files <= self.max_rt_exact.len())
            & (files <= self.slope_exact.len())
            & (files <= self.intercept_exact.len())
    }

    // Writes a file's record.
    fn store(&mut self, file: usize, a: Alignment)
        requires { EachFrom (file + 1) (held_columns self.old) }
        ensures same { SameSlices self }
        ensures stored { held_columns self.new ≡ stored_at file a (held_columns self.old) }
    {
        self.max_rt[file] = a.max_rt;
        self.slope[file] = a.slope;
        self.intercept[file] = a.intercept;
        self.used[file] = a.used;
        self.max_rt_exact[file] = a.max_rt_exact;
        self.slope_exact[file] = a.slope_exact;
        self.intercept_exact[file] = a.intercept_exact;
    }
}

// x, or d where x is not finite.
fn finite_or(x: f64, d: f64) -> f64
    ensures { result ≡ finite_or d x }
{
    if float::is_finite64(x) { x } else { d }
}

// The record of a file with the longest time max, from the sums over its points: the intercept from the raw slope. The
// one place that works a record out.
fn fit_line(max: u32, s: Sums, sx2: f64) -> Alignment
    ensures { result ≡ line_of max s.len s.dot s.sum_x s.sum_y sx2 }
{
    let n = float::u32_to_f64(s.len);
    let x_mean = s.sum_x / n;
    let y_mean = s.sum_y / n;
    let raw = (s.dot - n * x_mean * y_mean) / sx2;
    let slope = finite_or(raw, 1.0);
    let intercept = finite_or(y_mean - raw * x_mean, 0.0);
    let max_rt = float::narrow(float::u32_to_f64(max));
    let narrow_slope = float::narrow(slope);
    let narrow_intercept = float::narrow(intercept);
    Alignment {
        max_rt: max_rt.value,
        slope: narrow_slope.value,
        intercept: narrow_intercept.value,
        used: s.len,
        max_rt_exact: max_rt.exact,
        slope_exact: narrow_slope.exact,
        intercept_exact: narrow_intercept.exact,
    }
}

// Writes the record of each file. No NaN is stored but the one that `narrow` gives.
fn store_alignments(max: &[u32], sums: &[Sums], squares: &[Squares], columns: &mut FileColumns<'_>)
    requires { (length sums.now ≡ length max.now)
        × (length squares.now ≡ length max.now)
        × EachFrom (length max.now) (held_columns columns.old) }
    ensures same { SameSlices columns }
    ensures records { held_columns columns.new
        ≡ written_over (columns_of (records_from max.now sums.now squares.now)) (held_columns columns.old) }
{
    for f in 0..max.len() {
        columns.store(f, fit_line(max[f], sums[f], squares[f].sx2));
    }
}

// `fit_lines` with local arrays of N files.
fn fit_with<const N: usize>(
    cells: &[f64],
    max: &[u32],
    peptides: usize,
    columns: &mut FileColumns<'_>,
)
    requires fits { (length max.now ≤ N) × (N ≤ max_files) }
    requires shaped { ShapedAt cells max peptides (held_columns columns.old) }
    ensures same { SameSlices columns }
    ensures lines { LinesIn cells max peptides (changed_columns columns) }
{
    let files = max.len();
    let mut sums = [Sums::START; N];
    points::add_peptides(&mut sums[..files], cells, max, peptides);
    let mut squares = [Squares::START; N];
    squares::set_means(&mut squares[..files], &sums[..files]);
    points::add_peptides(&mut squares[..files], cells, max, peptides);
    store_alignments(max, &sums[..files], &squares[..files], columns);
}

// Writes the record of each file, from the files' longest times and, peptide by peptide, the smallest time in each file
// or ABSENT. Columns that are longer keep their rest. For `retention_alignment`, which knows the lengths.
pub fn fit_lines(cells: &[f64], max: &[u32], peptides: usize, columns: &mut FileColumns<'_>)
    requires { ShapedAt cells max peptides (held_columns columns.old) }
    ensures same { SameSlices columns }
    ensures lines { LinesIn cells max peptides (changed_columns columns) }
{
    if max.len() <= FEW_FILES {
        fit_with::<FEW_FILES>(cells, max, peptides, columns);
    } else {
        fit_with::<MAX_FILES>(cells, max, peptides, columns);
    }
}
