// The fit of either model to the rows that train: the checks of a call, a row's design row, the normal equations, the
// solver and the squared errors. Both models run the same loops, over the enum that names the model.
#![tactic(auto)]

pub mod checks; // the checks before a fit, in document 01's order
pub mod design; // what the models read of a row and its peptide
pub mod training; // the normal equations, the squared errors and the fit

// The peptides: the letters of all of them, the places where each begins and ends, and each one's mass and the natural
// log of one plus it. Mobility has no logs. A slice for each field, as C lends them; so have the rows.
#[derive(Clone, Copy)]
pub struct Table<'a> {
    pub letters: &'a [u8],
    pub offsets: &'a [u32],
    pub masses: &'a [f32],
    pub logs: &'a [f64],
}

// The columns of the rows. Retention observes aligned times and has no charges; mobility observes mobilities.
#[derive(Clone, Copy)]
pub struct Rows<'a> {
    pub peptide: &'a [u32],
    pub label: &'a [i32],
    pub q: &'a [f32],
    pub charge: &'a [u8],
    pub observed: &'a [f32],
}

// What a model is fitted to.
#[derive(Clone, Copy)]
pub struct Input<'a> {
    pub rows: Rows<'a>,
    pub table: Table<'a>,
}
