// The sums of a file's points.
ghost use Rattle.std.specs.Prelude.{◌≡◌};
ghost use Rattle.rt_matrix.specs.Cells.{add_point, add_point_counts};

use crate::points::Gather;

// A file's points: how many, and the sums of x times y, of x and of y.
#[derive(Clone, Copy)]
pub(crate) struct Sums {
    pub(crate) len: u32,
    pub(crate) dot: f64,
    pub(crate) sum_x: f64,
    pub(crate) sum_y: f64,
}

impl Sums {
    // Of no points.
    pub(crate) const START: Sums = Sums {
        len: 0,
        dot: 0.0,
        sum_x: 0.0,
        sum_y: 0.0,
    };
}

impl Gather for Sums {
    ghost step = { add_point };

    ghost count = { λ s. s.len };

    ghost counted = { add_point_counts };

    fn with_point(self, x: f64, y: f64) -> Sums {
        Sums {
            len: self.len + 1,
            dot: self.dot + x * y,
            sum_x: self.sum_x + x,
            sum_y: self.sum_y + y,
        }
    }
}
