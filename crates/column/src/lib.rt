// A walker down a column of a matrix (Rust's Iter over Col), which holds the slice that the matrix lies in: thin
// functions over the cursor `matrix::Col`.
#![tactic(auto)]

ghost use Rattle.std.specs.Prelude.{◌≡◌};
ghost use Rattle.matrix.specs.Cells.{step_of};

use matrix::Col;

// A matrix of rows × cols cells, and the cursor in it: the row that is read next, and the column.
#[derive(Clone, Copy)]
pub struct Column<'a> {
    pub cells: &'a [f64],
    pub rows: u32,
    pub cols: u32,
    pub at: Col,
}

impl<'a> Column<'a> {
    // The walker whose cursor stands there.
    pub fn new(cells: &'a [f64], rows: u32, cols: u32, at: Col) -> Self
        ensures { result ≡ record { cells = cells.entry; rows = rows; cols = cols; at = at } }
    {
        Self {
            cells,
            rows,
            cols,
            at,
        }
    }

    // The cell that the walker stands at, with the cursor one row further down; none at the column's end.
    pub fn next(self) -> Option<(f64, Col)>
        ensures { result ≡ step_of self.entry.rows self.entry.cols self.entry.at self.entry.cells.now }
    {
        self.at.next(self.cells, self.rows, self.cols)
    }
}

// The same for a matrix that is handed in: the cell in that row of that column, and the cursor below it.
pub fn step_at(cells: &[f64], rows: u32, cols: u32, row: u32, col: u32) -> Option<(f64, Col)>
    ensures { result ≡ step_of rows cols (record { row = row; col = col }) cells.now }
{
    Column::new(cells, rows, cols, Col { row, col }).next()
}
