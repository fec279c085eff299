// The rows of a system, in turn. Here and in the other walks a row's start is stepped: `chunks_exact` asks for rows of
// a cell at least, which a system of order 0 may not have, and after `chunks_exact_mut` a proof knows no cell.
ghost use Rattle.std.specs.Prelude.{◌≡◌, ◌*◌, length};
ghost use Rattle.std.specs.Fork.{AcceptsEach, ChangesEach};
ghost use Rattle.matrix.specs.Rows.{rows_of};

// Calls `change` with the number of each of the m rows of w cells, and with the row.
pub(crate) fn each_row<F: Fn(usize, &mut [f64])>(cells: &mut [f64], m: usize, w: usize, change: F)
    requires count { length cells.old ≡ m * w }
    requires accepts { AcceptsEach F.Fn change (rows_of w m cells.old) }
    ensures { ChangesEach F.Fn change (rows_of w m cells.old) (rows_of w m cells.new) }
{
    let mut at = 0;
    for i in 0..m {
        let end = at + w;
        change(i, &mut cells[at..end]);
        at = end;
    }
}
