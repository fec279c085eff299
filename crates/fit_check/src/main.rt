// Calls `fit` and `predict` of both models on the examples of document 01's table of numbers, and with two faults at
// once, as refusal_check does for the solver, the alignment and the run, and writes the same of each call. What it must
// write, in `stdout`, was worked out by hand from document 01. Not tried is 2, which takes slices of 1,048,577 rows or
// masses.
#![tactic(auto)]

mod fits;

use embedding::Model;
use fits::Call;
use std::io;

fn main(rt: HostRuntime) -> io::Result<()> {
    fits::calls(&rt, Call::Fit(Model::Retention))?;
    fits::calls(&rt, Call::Predict(Model::Retention))?;
    fits::calls(&rt, Call::Fit(Model::Mobility))?;
    fits::calls(&rt, Call::Predict(Model::Mobility))
}
