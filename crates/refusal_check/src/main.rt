// Calls the solver, the alignment and the run on the examples of document 01's table of numbers, and with two faults at
// once; fit_check calls the fits. Every slice that a call may write holds 7.5 before it, one of counts 7. For each call
// the program writes, a line each:
// - its number, and where a run's is 0 the numbers of its retention and of its mobility fit;
// - how many cells at the front of the workspace are +0.0;
// - how many cells of the workspace no longer hold 7.5;
// - how many cells of the outputs no longer hold 7.5, or 7.
// What it must write, in `stdout`, was worked out by hand from document 01: 1 to 7 change no slice; with 0, 8 and 9 the
// needed workspace is +0.0 and the rest of it is as it was; 8 and 9 change no output, and a run with 0 changes those of
// the alignment and of each model whose fit is 0. Not tried is 2 for 1,048,577 rows or masses: that takes slices of so
// many.
#![tactic(auto)]

mod alignment;
mod runs;
mod solver;

use std::io;

fn main(rt: HostRuntime) -> io::Result<()> {
    solver::calls(&rt)?;
    alignment::calls(&rt)?;
    runs::calls(&rt)
}
