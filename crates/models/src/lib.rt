// The retention and the mobility model of sage's retention_model.rs and mobility_model.rs: each is fitted by linear
// regression to the rows that train, and predicts every row. Both run the same loops, over the enum that names the
// model.
#![tactic(auto)]

use regression::FitOutcome;

mod prediction; // predictions and errors
// A module for each model, as in the Rust and in the README; each names its model and drops what that does not read.
pub mod retention_model; // fit, predict, predict_accepted
pub mod mobility_model; // fit, predict, predict_accepted

// The outcome of a prediction's fit, and how many rows' predictions lost something as they were narrowed to an f32, a
// NaN among them: 0 where the fit is not solved.
#[derive(Clone, Copy)]
pub struct PredictOutcome {
    pub fit: FitOutcome,
    pub inexact: u32,
}

// What a prediction writes besides its workspace, as C lends it: the coefficients, and each row's prediction and error.
#[derive(Drop)]
pub struct Outputs<'a> {
    pub beta: &'a mut [f64],
    pub predicted: &'a mut [f32],
    pub error: &'a mut [f32],
}
