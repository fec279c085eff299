// The sizes of a system.
ghost use Rattle.std.specs.Prelude.{◌≤◌};
ghost use Rattle.status.specs.Limits.{max_order};
ghost use Rattle.elimination.specs.Rows.{max_width};

// A system of n equations in rows of w cells, the n left ones first. A system's cells are n rows, one after the other.
// They are no field: a fact over a `&mut` has to hold at each write through it.
#[derive(Clone, Copy)]
pub(crate) struct Size {
    pub(crate) n: usize,
    pub(crate) w: usize,
    ghost order: { n ≤ max_order },
    ghost wide: { w ≤ max_width },
    ghost left: { n ≤ w },
}
