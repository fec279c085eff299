// Writing the answer of the align program. Each function asks for room for what it appends, and is for `align_text`.
#![tactic(auto)]

ghost use Rattle.std.specs.Prelude.{◌≡◌, ◌+◌, ◌<◌, ◌≤◌, ◌++◌, length};
ghost use Rattle.align_output.specs.Output.{
  status_text,
  float_line,
  printed_at,
  printed_from,
  file_text,
  files_text,
  aligned_text,
  accepted_text,
};

mod files;

pub use files::Files;
use text::Buffer;

// What is printed of a file's record.
#[derive(Clone, Copy, Debug, PartialEq)]
pub struct Printed {
    pub max_rt: f32,
    pub slope: f32,
    pub intercept: f32,
    pub used: u32,
}

// Appends the line of a status. A number, and no Refusal: what is accepted has one too.
pub fn write_status<const N: usize>(out: &mut Buffer<N>, status: u8)
    requires { length out.old + length (status_text status) ≤ N }
    ensures { out.new ≡ out.old ++ status_text status }
{
    out.push_decimal_line(b"status=", status as u32);
}

// Appends a line with x's pattern.
fn write_float<const N: usize>(out: &mut Buffer<N>, key: &[u8], x: f32)
    requires { length out.old + length (float_line key.now x) ≤ N }
    ensures { out.new ≡ out.old ++ float_line key.now x }
{
    out.push_hex_line(key, float::bits32(x) as u64, 8);
}

// Appends the lines of a file.
fn write_file<const N: usize>(out: &mut Buffer<N>, i: u32, a: Printed)
    requires { length out.old + length (file_text i a) ≤ N }
    ensures { out.new ≡ out.old ++ file_text i a }
{
    out.push_decimal_line(b"file=", i);
    write_float(out, b"max=", a.max_rt);
    write_float(out, b"slope=", a.slope);
    write_float(out, b"intercept=", a.intercept);
    out.push_decimal_line(b"used=", a.used);
}

// Appends the lines of the files.
fn write_files<const N: usize>(out: &mut Buffer<N>, files: Files<'_>)
    requires { length out.old + length (files_text 0 (printed_at files)) ≤ N }
    ensures { out.new ≡ out.old ++ files_text 0 (printed_from files) }
{
    for i in 0..files.count() {
        let a = files.get(i);
        write_file(out, i as u32, a);
    }
}

// Appends the lines of the rows.
fn write_aligned<const N: usize>(out: &mut Buffer<N>, aligned: &[f32])
    requires { length out.old + length (aligned_text aligned.now) ≤ N }
    ensures { out.new ≡ out.old ++ aligned_text aligned.now }
{
    for time in aligned {
        write_float(out, b"aligned=", *time);
    }
}

// Appends the answer to an accepted input.
pub fn write_accepted<const N: usize>(out: &mut Buffer<N>, files: Files<'_>, aligned: &[f32])
    requires { length out.old + length (accepted_text (printed_at files) aligned.now) ≤ N }
    ensures { out.new ≡ out.old ++ accepted_text (printed_from files) aligned.now }
{
    write_status(out, status::ACCEPTED);
    write_files(out, files);
    write_aligned(out, aligned);
}
