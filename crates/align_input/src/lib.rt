// Reading the input of the align program: exactly the texts of the grammar, and the rows into columns.
#![tactic(auto)]

ghost use Rattle.std.specs.Prelude.{◌≡◌, List, Some, drop, length, set};
ghost use Rattle.std.specs.Option.{option_map};
ghost use Rattle.text.specs.Answer.{line_at};
ghost use Rattle.align_input.specs.declared.TextRow.{TextRow as TextRow·};
ghost use Rattle.align_input.specs.Input.{Input};
ghost use Rattle.align_input.specs.Parse.{row_read, rows_of, head_read, parse};
ghost use Rattle.align_input.specs.Columns.{sizes_of, held_rows, SameSlices, Same, stored_row, stored};

use text::{Line, read_decimal_line, read_hex_line, read_signed_line};

// The number of bytes that a text may have, 64 KiB.
pub const BYTES_MAX: usize = 65536;

// A row as the text has it: q and rt are the patterns of two f32.
#[derive(Clone, Copy, Debug, PartialEq, Eq)]
pub struct TextRow {
    pub file: u32,
    pub peptide: u32,
    pub label: i32,
    pub q: u32,
    pub rt: u32,
}

// What the two lines before the rows say.
#[derive(Clone, Copy, Debug, PartialEq, Eq)]
pub struct Head {
    pub files: u32,
    pub peptides: u32,
}

// What a text says, without its rows: how many files, peptides and rows there are.
#[derive(Clone, Copy, Debug, PartialEq, Eq)]
pub struct Sizes {
    pub files: u32,
    pub peptides: u32,
    pub rows: usize,
}

// The slices that take the rows, one for each field. They may be of different lengths.
#[derive(Drop)]
pub struct Columns<'a> {
    pub file: &'a mut [u32],
    pub peptide: &'a mut [u32],
    pub label: &'a mut [i32],
    pub q: &'a mut [f32],
    pub rt: &'a mut [f32],
}

impl Columns<'_> {
    // Stores a row in the i-th cells, if there are such cells.
    fn put(&mut self, i: usize, row: TextRow)
        ensures same { SameSlices self }
        ensures stored { held_rows self.new ≡ stored_row (held_rows self.old) i row }
    {
        store(self.file, i, row.file);
        store(self.peptide, i, row.peptide);
        store(self.label, i, row.label);
        store(self.q, i, float::from_bits32(row.q));
        store(self.rt, i, float::from_bits32(row.rt));
    }
}

// Stores x in the i-th cell, if there is one.
fn store<T: Copy>(column: &mut [T], i: usize, x: T)
    ensures { column.new ≡ set column.old i x }
{
    if i < column.len() {
        column[i] = x;
    }
}

// The five lines that begin at `at`.
pub fn read_row(input: &[u8], at: usize) -> Option<Line<TextRow>>
    ensures { result ≡ line_at at (row_read (drop at input.now)) }
{
    let file = read_decimal_line(input, at, b"file=", u32::MAX)?;
    let peptide = read_decimal_line(input, file.next, b"peptide=", u32::MAX)?;
    let label = read_signed_line(input, peptide.next, b"label=")?;
    let q = read_hex_line(input, label.next, b"q=", 8)?;
    let rt = read_hex_line(input, q.next, b"rt=", 8)?;
    Some(Line {
        value: TextRow {
            file: file.value,
            peptide: peptide.value,
            label: label.value,
            q: q.value as u32,
            rt: rt.value as u32,
        },
        next: rt.next,
    })
}

// The lines `files=` and `peptides=` at the start of a text.
pub fn read_head(input: &[u8]) -> Option<Line<Head>>
    ensures { result ≡ line_at 0 (head_read input.now) }
{
    let files = read_decimal_line(input, 0, b"files=", u32::MAX)?;
    let peptides = read_decimal_line(input, files.next, b"peptides=", u32::MAX)?;
    Some(Line {
        value: Head {
            files: files.value,
            peptides: peptides.value,
        },
        next: peptides.next,
    })
}

// The number of the rows from `at` to the end of a text. As many as there is room for are stored. Each column keeps its
// length, whatever is answered.
fn read_rows(input: &[u8], at: usize, columns: &mut Columns<'_>) -> Option<usize>
    ensures same { SameSlices columns }
    ensures lengths { Same (held_rows columns.old) (held_rows columns.new) }
    ensures answer { result ≡ option_map length (rows_of (drop at input.now)) }
    ensures columns { (rows : List TextRow·) → rows_of (drop at input.now) ≡ Some rows
        → held_rows columns.new ≡ stored (held_rows columns.old) 0 rows }
{
    let mut next = at;
    let mut rows = 0;
    // A `while`: where a row ends shows only as it is read.
    while next < input.len() {
        let row = read_row(input, next)?;
        columns.put(rows, row.value);
        next = row.next;
        rows += 1;
    }
    Some(rows)
}

// What a text says. As many rows as there is room for are stored. Each column keeps its length, whatever is answered.
pub fn read_input(input: &[u8], columns: &mut Columns<'_>) -> Option<Sizes>
    ensures same { SameSlices columns }
    ensures lengths { Same (held_rows columns.old) (held_rows columns.new) }
    ensures answer { result ≡ option_map sizes_of (parse input.now) }
    ensures columns { (d : Input) → parse input.now ≡ Some d
        → held_rows columns.new ≡ stored (held_rows columns.old) 0 d.rows }
{
    if input.len() > BYTES_MAX {
        return None;
    }
    let head = read_head(input)?;
    let rows = read_rows(input, head.next, columns)?;
    Some(Sizes {
        files: head.value.files,
        peptides: head.value.peptides,
        rows,
    })
}
