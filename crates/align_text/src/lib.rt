// The align program, from the bytes of its input to the bytes of its output.
#![tactic(auto)]

ghost use Rattle.std.specs.Prelude.{◌≡◌, ◌+◌, ◌≤◌, ◌++◌, length, OnOk, OnErr};
ghost use Rattle.status.specs.Status.{status_of};
ghost use Rattle.retention_alignment.specs.Call.{held_input};
ghost use Rattle.align_text.specs.AlignText.{
  max_files,
  within_limits,
  columns_status,
  columns_text,
  text_status,
  align_text,
  written_in,
  written_by_number,
  Answered,
};
ghost use Rattle.align_text.specs.Ready.{Ready};

use align_input::{Columns, Sizes};
use align_output::{Files, write_accepted, write_status};
use retention_alignment::{FileColumns, Observations};
use status::Refusal;
use text::Buffer;

// The program's limits.
pub const FILES_MAX: usize = 16;

pub const PEPTIDES_MAX: usize = 64;

pub const ROWS_MAX: usize = 256;

// Cells of the alignment's workspace.
const CELLS_MAX: usize = 1024;

// Bytes of the buffer that an answer is made in. An answer has at most 5,650.
const TEXT_MAX: usize = 8192;

// A call that wrote no alignment.
#[derive(Clone, Copy, Debug, PartialEq, Eq)]
pub struct Refused {
    // The text's status, or TooShort where the text is accepted and its answer does not fit.
    pub status: Refusal,
    // How many bytes of the output the line of the text's status has: 0 where nothing is written, since it does not
    // fit or the text is accepted.
    pub written: usize,
}

// How many bytes of the output a call wrote.
pub fn written(answer: Result<usize, Refused>) -> usize
    ensures { result ≡ written_in answer }
{
    match answer {
        Ok(n) => n,
        Err(refused) => refused.written,
    }
}

// The same for who has statuses that are numbers of any kind: a refusal is the status, and how many bytes of the output
// its line has.
pub fn written_by_number(answer: Result<usize, (u8, usize)>) -> usize
    ensures { result ≡ written_by_number answer }
{
    match answer {
        Ok(n) => n,
        Err((_, n)) => n,
    }
}

// Whether numbers of files, peptides and rows are within the program's limits.
fn limits(sizes: Sizes) -> bool
    ensures { result ≡ within_limits max_files sizes.files sizes.peptides sizes.rows }
{
    1 <= sizes.files
        && sizes.files as usize <= FILES_MAX
        && sizes.peptides as usize <= PEPTIDES_MAX
        && sizes.rows <= ROWS_MAX
}

// Aligns rows that are within the program's limits, and appends the answer if the alignment is accepted.
fn answer_rows(observed: Observations<'_>, out: &mut Buffer<TEXT_MAX>) -> Result<(), Refusal>
    requires ready { Ready (held_input observed) }
    requires room { length out.old + 5650 ≤ 8192 }
    ensures number { status_of result ≡ columns_status (held_input observed.entry) }
    ensures accepted { OnOk result (out.new ≡ out.old ++ columns_text (held_input observed.entry)) }
    ensures refused { OnErr result (out.new ≡ out.old) }
{
    let files = observed.files;
    let rows = observed.file.len();
    let mut workspace = [0.0f64; CELLS_MAX];
    let mut max_rt = [0.0f32; FILES_MAX];
    let mut slope = [0.0f32; FILES_MAX];
    let mut intercept = [0.0f32; FILES_MAX];
    let mut used = [0u32; FILES_MAX];
    let mut max_rt_exact = [false; FILES_MAX];
    let mut slope_exact = [false; FILES_MAX];
    let mut intercept_exact = [false; FILES_MAX];
    let mut aligned = [0.0f32; ROWS_MAX];
    let mut columns = FileColumns {
        max_rt: &mut max_rt,
        slope: &mut slope,
        intercept: &mut intercept,
        used: &mut used,
        max_rt_exact: &mut max_rt_exact,
        slope_exact: &mut slope_exact,
        intercept_exact: &mut intercept_exact,
    };
    let answer = retention_alignment::global_alignment(
        observed,
        &mut workspace,
        &mut columns,
        &mut aligned,
    );
    if answer.is_err() {
        return answer;
    }
    let FileColumns {
        max_rt,
        slope,
        intercept,
        used,
        ..
    } = columns;
    let printed = Files {
        max_rt: &max_rt[..files],
        slope: &slope[..files],
        intercept: &intercept[..files],
        used: &used[..files],
    };
    write_accepted(out, printed, &aligned[..rows]);
    Ok(())
}

// Reads a text, and appends its answer if it is accepted.
fn answer_text(input: &[u8], out: &mut Buffer<TEXT_MAX>) -> Result<(), Refusal>
    requires { length out.old + 5650 ≤ 8192 }
    ensures number { status_of result ≡ text_status input.now }
    ensures accepted { OnOk result (out.new ≡ out.old ++ align_text input.now) }
    ensures refused { OnErr result (out.new ≡ out.old) }
{
    let mut file = [0u32; ROWS_MAX];
    let mut peptide = [0u32; ROWS_MAX];
    let mut label = [0i32; ROWS_MAX];
    let mut q = [0.0f32; ROWS_MAX];
    let mut rt = [0.0f32; ROWS_MAX];
    let mut columns = Columns {
        file: &mut file,
        peptide: &mut peptide,
        label: &mut label,
        q: &mut q,
        rt: &mut rt,
    };
    let Some(sizes) = align_input::read_input(input, &mut columns) else {
        return Err(Refusal::Malformed);
    };
    if !limits(sizes) {
        return Err(Refusal::PastLimit);
    }
    let rows = sizes.rows;
    let Columns {
        file,
        peptide,
        label,
        q,
        rt,
    } = columns;
    let observed = Observations {
        file: &file[..rows],
        peptide: &peptide[..rows],
        label: &label[..rows],
        q: &q[..rows],
        rt: &rt[..rows],
        files: sizes.files as usize,
        peptides: sizes.peptides as usize,
    };
    answer_rows(observed, out)
}

// Reads a text, and appends its answer, which for a refused text is the line of its status.
fn write_answer(input: &[u8], out: &mut Buffer<TEXT_MAX>) -> Result<(), Refusal>
    requires { length out.old + 5650 ≤ 8192 }
    ensures number { status_of result ≡ text_status input.now }
    ensures text { out.new ≡ out.old ++ align_text input.now }
{
    let Err(refusal) = answer_text(input, out) else {
        return Ok(());
    };
    write_status(out, refusal.number());
    Err(refusal)
}

// The program: reads a text and writes its answer at the start of output. Where the answer is longer than output,
// nothing is written. No answer is longer than 5,650 bytes.
pub fn align_text(input: &[u8], output: &mut [u8]) -> Result<usize, Refused>
    ensures { Answered input.now output.old result output.new }
{
    let mut buffer = Buffer::<TEXT_MAX>::new();
    let answer = write_answer(input, &mut buffer);
    let text = buffer.as_bytes();
    let n = text.len();
    if output.len() < n {
        return match answer {
            Ok(()) => Err(Refused {
                status: Refusal::TooShort,
                written: 0,
            }),
            Err(status) => Err(Refused { status, written: 0 }),
        };
    }
    output[..n].copy_from_slice(text);
    match answer {
        Ok(()) => Ok(n),
        Err(status) => Err(Refused { status, written: n }),
    }
}
