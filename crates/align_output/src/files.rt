// What is printed of the files' records, column by column.
ghost use Rattle.std.specs.Prelude.{◌≡◌, ◌<◌, ◌≤◌, length};

use crate::Printed;

// A cell of each column for each file. No more files than an alignment takes.
#[derive(Clone, Copy)]
pub struct Files<'a> {
    pub max_rt: &'a [f32],
    pub slope: &'a [f32],
    pub intercept: &'a [f32],
    pub used: &'a [u32],
    ghost slopes: { length slope.now ≡ length max_rt.now },
    ghost intercepts: { length intercept.now ≡ length max_rt.now },
    ghost counts: { length used.now ≡ length max_rt.now },
    ghost few: { length max_rt.now ≤ 4096 },
}

impl Files<'_> {
    ghost use Rattle.align_output.specs.Output.{cells_at};

    // How many files there are.
    pub fn count(&self) -> usize
        ensures number { result ≡ length self.now.max_rt.now }
        ensures few { result ≤ 4096 }
    {
        self.max_rt.len()
    }

    // What is printed of the i-th file.
    pub fn get(&self, i: usize) -> Printed
        requires { i < length self.now.max_rt.now }
        ensures { result ≡ cells_at self.now i }
    {
        Printed {
            max_rt: self.max_rt[i],
            slope: self.slope[i],
            intercept: self.intercept[i],
            used: self.used[i],
        }
    }
}
