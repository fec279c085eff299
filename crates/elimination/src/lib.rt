// The elimination of gauss.rs on the rows [left | right] of a system: the ridge on the diagonal, echelon form,
// reduced form, and whether the left side is solved. The crates above walk the ridges: gauss on a copy of the two
// sides, regression on its own workspace.
#![tactic(auto)]

ghost use Rattle.std.specs.Prelude.{◌+◌};
ghost use Rattle.elimination.specs.Rows.{Shape};
ghost use Rattle.elimination.specs.Elimination.{Tried};

mod cells;
mod echelon;
mod reduced;
mod row;
mod size;
mod system;
mod walk;

use crate::size::Size;
pub use cells::copy;
pub use system::{augment, right_side};

// One try on the rows [left | right] of n + c cells each: adds the ridge `eps` to the left diagonal, eliminates, and
// says whether the left side is solved; then the right side holds the solution. For crates gauss and regression.
pub fn solve_inner(cells: &mut [f64], n: usize, c: usize, eps: f64) -> bool
    requires { Shape n (n + c) cells.old }
    ensures { Tried n c eps cells.old cells.new result }
{
    let size = Size { n, w: n + c };
    echelon::fill_zero(cells, size, eps);
    echelon::echelon(cells, size);
    reduced::reduce(cells, size);
    reduced::backfill(cells, size);
    reduced::left_solved(&cells[..], size)
}
