// The squares of the distances of a file's times from their mean.
ghost use Rattle.std.specs.Prelude.{◌≡◌, length};
ghost use Rattle.rt_matrix.specs.Cells.{add_square, add_square_counts, with_means};

use crate::points::Gather;
use crate::sums::Sums;

// The mean of a file's times, and the sum of the squares of their distances from it.
#[derive(Clone, Copy)]
pub(crate) struct Squares {
    pub(crate) x_mean: f64,
    pub(crate) sx2: f64,
}

impl Squares {
    // The sum before the first point, beside a mean that is still to be set.
    pub(crate) const START: Squares = Squares {
        x_mean: 0.0,
        sx2: 1e-8,
    };
}

impl Gather for Squares {
    ghost step = { add_square };

    ghost count = { λ s. 0 };

    ghost counted = { add_square_counts };

    // It goes by no peptide's mean.
    fn with_point(self, x: f64, _y: f64) -> Squares {
        let d = x - self.x_mean;
        Squares {
            x_mean: self.x_mean,
            sx2: self.sx2 + d * d,
        }
    }
}

// Sets the mean of each file's times.
pub(crate) fn set_means(squares: &mut [Squares], sums: &[Sums])
    requires { length squares.old ≡ length sums.now }
    ensures { squares.new ≡ with_means squares.old sums.now }
{
    for f in 0..sums.len() {
        squares[f].x_mean = sums[f].sum_x / float::u32_to_f64(sums[f].len);
    }
}
