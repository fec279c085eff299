// Gauss::solve of gauss.rs: Gauss-Jordan elimination with a rising ridge.
#![tactic(auto)]

ghost use Rattle.gauss.specs.Solve.{system_at, system_of, slices_at, slices_of, Solves, Accepted, Searched};

mod checks; // the checks, in document 01's order

use status::Refusal;

// The first ridge that solves the system; the solution is written only then. `cells` is the needed workspace and ends
// as +0.0. (regression walks the same ridges: what is made anew for each try differs, and the laws are shared.)
fn first_solved(
    left: &[f64],
    right: &[f64],
    n: usize,
    c: usize,
    cells: &mut [f64],
    solution: &mut [f64],
) -> Option<f64>
    requires { Accepted (system_at left right n c) (slices_at cells solution) }
    ensures { Searched (system_of left right n c) (slices_of cells solution) result }
{
    let mut eps = 1E-8;
    while eps <= 1.0 {
        elimination::augment(cells, left, right, n, c);
        if elimination::solve_inner(cells, n, c, eps) {
            elimination::right_side(solution, &cells[..], n, c);
            matrix::zeros(cells);
            return Some(eps);
        }
        eps *= 10.0;
    }
    matrix::zeros(cells);
    None
}

// Solves left · x = right, left n rows of n cells and right n rows of c, and answers the ridge that solved it: none
// where no ridge does. Once the checks have passed, the first n * n + n * c cells of `workspace` end as +0.0.
// `solution` gets the n * c cells of x if a ridge solves the system, and keeps what it held otherwise.
pub fn solve(
    left: &[f64],
    right: &[f64],
    n: usize,
    c: usize,
    workspace: &mut [f64],
    solution: &mut [f64],
) -> Result<Option<f64>, Refusal>
    ensures { Solves (system_of left right n c) (slices_of workspace solution) result }
{
    checks::check(
        left.len(),
        right.len(),
        n,
        c,
        workspace.len(),
        solution.len(),
    )?;
    let outputs = matrix::cell_count(n, c);
    let needed = matrix::cell_count(n, n) + outputs;
    Ok(first_solved(
        left,
        right,
        n,
        c,
        &mut workspace[..needed],
        &mut solution[..outputs],
    ))
}
