// The checks of a call, in document 01's order.
ghost use Rattle.std.specs.Prelude.{◌≡◌, ◌&&◌, ◌*◌, ◌≤◌, eqb, leb};
ghost use Rattle.status.specs.Limits.{max_order, max_columns};
ghost use Rattle.status.specs.Status.{checked};
ghost use Rattle.gauss.specs.Solve.{needed, outputs, status_by};

use status::Refusal;

// Whether `len` is a times b, whatever the two.
fn is_product(len: usize, a: usize, b: usize) -> bool
    ensures { result ≡ eqb len (a * b) }
{
    if a == 0 {
        len == 0
    } else {
        len % a == 0 && len / a == b
    }
}

// Whether the sides have n * n and n * c cells.
fn sides_fit(left: usize, right: usize, n: usize, c: usize) -> bool
    ensures { result ≡ (eqb left (n * n) && eqb right (n * c)) }
{
    is_product(left, n, n) & is_product(right, n, c)
}

// Whether the workspace and the output are long enough.
fn has_room(n: usize, c: usize, workspace: usize, solution: usize) -> bool
    requires { (n ≤ max_order) × (c ≤ max_columns) }
    ensures { result ≡ (leb (needed n c) workspace && leb (outputs n c) solution) }
{
    let outputs = matrix::cell_count(n, c);
    let needed = matrix::cell_count(n, n) + outputs;
    (needed <= workspace) & (outputs <= solution)
}

// The first check that fails. What room a call needs is worked out for numbers within the limits alone.
pub(crate) fn check(
    left: usize,
    right: usize,
    n: usize,
    c: usize,
    workspace: usize,
    solution: usize,
) -> Result<(), Refusal>
    ensures { result ≡ checked (status_by left right n c workspace solution) }
{
    let lengths = sides_fit(left, right, n, c);
    let limits = status::system_limits(n, c);
    let room = limits && has_room(n, c, workspace, solution);
    status::first_failing(lengths, limits, room, Ok(()), true, true)
}
