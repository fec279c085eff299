// Global retention time alignment, after sage's retention_alignment.rs: a line for each file that takes its times, as
// shares of the file's longest time, to the peptides' mean shares over all files.
#![tactic(auto)]

ghost use Rattle.std.specs.Prelude.{◌≡◌, true, map, length};
ghost use Rattle.status.specs.Checks.{all_below};
ghost use Rattle.status.specs.Status.{accepted, checked};
ghost use Rattle.rt_matrix.specs.Columns.{EachFrom, held_columns, changed_columns, SameSlices};
ghost use Rattle.retention_alignment.specs.Alignments.{on_line, aligned_in};
ghost use Rattle.retention_alignment.specs.Call.{
  held_input,
  held_slices,
  slices_at,
  slices_of,
  rows,
  status,
  SameRows,
  Filled,
  Aligned,
};

mod times;

pub use rt_matrix::{Alignment, FileColumns};
use status::{MAX_FILES, Refusal};

// The rows that are aligned, column by column, as hosts lend them: the number of each row's file and of its peptide, its
// label and its q value, which say whether it trains, and its time; and how many files and peptides there are. No
// invariant says that the columns are of one length: `global_alignment` refuses those that are not.
#[derive(Clone, Copy)]
pub struct Observations<'a> {
    pub file: &'a [u32],
    pub peptide: &'a [u32],
    pub label: &'a [i32],
    pub q: &'a [f32],
    pub rt: &'a [f32],
    pub files: usize,
    pub peptides: usize,
}

// A time by the three numbers of a file's record, each operation rounded in f32.
pub fn aligned_time(max_rt: f32, slope: f32, intercept: f32, rt: f32) -> f32
    ensures { result ≡ on_line max_rt slope intercept rt }
{
    float::canonical32(rt / max_rt * slope + intercept)
}

// Writes each row's aligned time, by its file's longest time, slope and intercept. The peptides' numbers are not read.
fn align_rows(observed: Observations<'_>, columns: &FileColumns<'_>, aligned: &mut [f32])
    requires same_rows { SameRows (held_input observed) }
    requires lengths { EachFrom observed.files (held_columns columns.now)
        × (all_below observed.files observed.file.now ≡ true)
        × (length aligned.old ≡ length observed.file.now) }
    ensures { aligned.new
        ≡ map
        (aligned_in
        columns.entry.now.max_rt.now
        columns.entry.now.slope.now
        columns.entry.now.intercept.now)
        (rows (held_input observed.entry)) }
{
    for i in 0..observed.file.len() {
        let f = observed.file[i] as usize;
        aligned[i] = aligned_time(
            columns.max_rt[f],
            columns.slope[f],
            columns.intercept[f],
            observed.rt[i],
        );
    }
}

// The first check that fails. Each goes over the whole input.
fn check(
    observed: Observations<'_>,
    workspace: &[f64],
    columns: &FileColumns<'_>,
    aligned: &[f32],
) -> Result<(), Refusal>
    ensures { result
        ≡ checked (status (held_input observed.entry) (held_slices workspace.entry columns.entry aligned.entry)) }
{
    let Observations {
        file,
        peptide,
        label,
        q,
        rt,
        files,
        peptides,
    } = observed;
    let rows = file.len();
    status::first_failing(
        status::same_lengths(rows, peptide.len(), label.len(), q.len(), rt.len()),
        status::limits(files, rows, peptides),
        status::cells_fit(peptides, files, workspace.len())
            & columns.hold(files)
            & (rows <= aligned.len()),
        Ok(()),
        status::all_below(file, files),
        status::all_below(peptide, peptides),
    )
}

// An accepted call, on slices that may be longer than it needs. For a caller that has made the checks itself.
pub fn align_accepted(
    observed: Observations<'_>,
    workspace: &mut [f64],
    columns: &mut FileColumns<'_>,
    aligned: &mut [f32],
)
    requires { status
        (held_input observed)
        (slices_at workspace (held_columns columns.old) aligned)
        ≡ accepted }
    ensures same { SameSlices columns }
    ensures filled { Filled
        (held_input observed.entry)
        (slices_of workspace (changed_columns columns) aligned) }
{
    let files = observed.files;
    let mut max = [0u32; MAX_FILES];
    times::max_rt_by_file(observed, &mut max[..files]);
    let cells = &mut workspace[..matrix::cell_count(observed.peptides, files)];
    times::mean_rt_by_file(observed, cells);
    rt_matrix::fit_lines(cells, &max[..files], observed.peptides, columns);
    cells.fill(0.0);
    align_rows(observed, columns, &mut aligned[..observed.file.len()]);
}

// The alignment. Of the workspace it needs peptides × files cells, of each field of the files' records one for each
// file, and of aligned one for each row; what is longer keeps its rest, and a refused call leaves every slice as it
// was.
pub fn global_alignment(
    observed: Observations<'_>,
    workspace: &mut [f64],
    columns: &mut FileColumns<'_>,
    aligned: &mut [f32],
) -> Result<(), Refusal>
    ensures same { SameSlices columns }
    ensures aligned { Aligned
        (held_input observed.entry)
        (slices_of workspace (changed_columns columns) aligned)
        result }
{
    check(observed, workspace, columns, aligned)?;
    align_accepted(observed, workspace, columns, aligned);
    Ok(())
}
