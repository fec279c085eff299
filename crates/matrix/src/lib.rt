// Matrices that lie row by row in a slice, after sage's matrix.rs: the place of a cell, a row as a part, a checked
// read, two rows exchanged, and the column cursor. The shape stands beside the slice, as the C interface has it. A
// place is always worked out in 32 bits; who walks the rows in turn adds a row's length instead.
#![tactic(auto)]

ghost use Rattle.std.specs.Prelude.{◌≡◌, ◌+◌, ◌*◌, ◌^◌, ◌≤◌, ◌<◌, length, replicate};
ghost use Rattle.float.specs.Number.{zero64};
ghost use Rattle.matrix.specs.Rows.{place_of, row_at, rows_of, flat, swapped, TwoRows};
ghost use Rattle.matrix.specs.Cells.{cell_of, step_of};

// A peptide's number, and a file's: a row and a column of the matrix of times.
#[derive(Clone, Copy)]
pub struct PeptideIx(pub u32);

#[derive(Clone, Copy)]
pub struct FileIx(pub u32);

// The place of a peptide's cell for a file, in a matrix with a column for each file. For the crates above: within the
// limits of document 01 the place is below 2^24.
pub fn place(row: PeptideIx, col: FileIx, files: u32) -> usize
    requires { row.0 * files + col.0 < 2 ^ 32 }
    ensures { result ≡ place_of files row.0 col.0 }
{
    (row.0 * files + col.0) as usize
}

// The cells of so many rows, which is the place of the first cell after them. For the crates above, within whose limits
// it is below 2^32.
pub fn cell_count(rows: usize, cols: usize) -> usize
    requires { (rows < 2 ^ 32) × (cols < 2 ^ 32) × (rows * cols < 2 ^ 32) }
    ensures { result ≡ rows * cols }
{
    ((rows as u32) * (cols as u32)) as usize
}

// A row as a part of the slice (Rust's row_slice). For the crates above, which know that the row is there.
pub fn row_slice(cells: &[f64], row: u32, cols: u32) -> &[f64]
    requires { (row * cols < 2 ^ 32) × (row * cols + cols ≤ length cells.now) }
    ensures { result.now ≡ row_at cols row cells.now }
{
    let start = (row * cols) as usize;
    let end = start + cols as usize;
    &cells[start..end]
}

// The cell in a row and a column of a matrix of rows × cols cells (Rust's Matrix::get), for any numbers: none
// where the matrix has no such row or column or the slice ends before it, or the cell's place does not fit 32 bits.
pub fn get(cells: &[f64], rows: u32, cols: u32, row: u32, col: u32) -> Option<f64>
    ensures { result ≡ cell_of rows cols row col cells.now }
{
    if rows <= row || cols <= col {
        return None;
    }
    let at = row.checked_mul(cols)?.checked_add(col)?;
    let cell = cells.get(at as usize)?;
    Some(float::canonical64(*cell))
}

// A cursor that walks down a column (Rust's Iter over Col): the row that it reads next, and the column.
#[derive(Clone, Copy)]
pub struct Col {
    pub row: u32,
    pub col: u32,
}

impl Col {
    // The cursor at the top of a column.
    pub fn new(col: u32) -> Self
        ensures { result ≡ record { row = 0; col = col } }
    {
        Self { row: 0, col }
    }

    // The cell at the cursor, in a matrix of rows × cols cells, and the cursor one row further down; none at the
    // column's end.
    pub fn next(self, cells: &[f64], rows: u32, cols: u32) -> Option<(f64, Col)>
        ensures { result ≡ step_of rows cols self cells.now }
    {
        let row = self.row;
        let col = self.col;
        let value = get(cells, rows, cols, row, col)?;
        Some((value, Col { row: row + 1, col }))
    }
}

// Exchanges the two rows that start at a and b, in a matrix with rows of cols cells. For the elimination, which knows
// both starts.
pub fn swap_rows_at(cells: &mut [f64], cols: usize, a: usize, b: usize)
    requires { TwoRows cols a b (length cells.old) }
    ensures { (t : TwoRows cols a b (length cells.old))
        → cells.new ≡ flat (swapped t.i t.j (rows_of cols t.rows cells.old)) }
{
    for k in 0..cols {
        cells.swap(a + k, b + k);
    }
}

// Exchanges rows i and j of a matrix of rows × cols cells (gauss.rs's swap_rows). For a caller who knows that the rows
// are there.
pub fn swap_rows(cells: &mut [f64], rows: u32, cols: u32, i: u32, j: u32)
    requires { (length cells.old ≡ rows * cols) × (rows * cols < 2 ^ 32) × (i < rows) × (j < rows) }
    ensures { cells.new ≡ flat (swapped i j (rows_of cols rows cells.old)) }
{
    let a = (i * cols) as usize;
    let b = (j * cols) as usize;
    swap_rows_at(cells, cols as usize, a, b);
}

// Sets every cell to +0.0.
pub fn zeros(cells: &mut [f64])
    ensures { cells.new ≡ replicate (length cells.old) zero64 }
{
    cells.fill(0.0);
}
