// The two steps that add a sample to the stored normal equations, and the starts that one of them reads, under C names,
// for tests of the compiled code. A C name needs a function of its own, so each repeats a signature.
#![tactic(auto)]

ghost use Rattle.std.specs.Prelude.{◌≡◌, ◌+◌, ◌≤◌, ◌<◌, length};
ghost use Rattle.status.specs.Limits.{max_order};
ghost use Rattle.regression.specs.Regression.{add_row};
ghost use Rattle.packed_rows.specs.Falling.{RowStarts};
ghost use Rattle.regression.specs.Sparse.{add_visited, visited};
ghost use Rattle.regression.specs.Workspace.{
  Workspace,
  stored,
  equations,
  with_stored,
  with_equations,
};

#[unsafe(no_mangle)]
pub extern "C" fn zk_add_row(workspace: &mut [f64], d: usize, ext: &[f64])
    requires { Workspace d workspace.old × (length ext.now ≡ d + 1) }
    ensures { workspace.new ≡ with_equations d
        (add_row (equations d workspace.old) ext.now)
        workspace.old }
{
    regression::add_row(workspace, d, ext);
}

#[unsafe(no_mangle)]
pub extern "C" fn zk_put_starts(starts: &mut [usize], d: usize)
    requires { (d ≤ max_order) × (d ≤ length starts.old) }
    ensures { RowStarts d starts.new }
{
    regression::put_starts(starts, d);
}

#[unsafe(no_mangle)]
pub extern "C" fn zk_add_row_sparse(
    workspace: &mut [f64],
    d: usize,
    ext: &[f64],
    places: &mut [usize],
    starts: &[usize],
) -> u32
    requires workspace { Workspace d workspace.old × (length ext.now ≡ d + 1) }
    requires d_in_bounds { (d < length places.old) × RowStarts d starts.now }
    ensures workspace_after { workspace.new ≡ with_stored d
        (add_visited (stored d workspace.old) ext.now)
        workspace.old }
    ensures value { result ≡ visited ext.now }
{
    regression::add_row_sparse(workspace, d, ext, places, starts)
}
