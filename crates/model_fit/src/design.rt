// What the models read of a row and its peptide.
ghost use Rattle.std.specs.Prelude.{◌≡◌, ◌<◌, length, get_or, List, ℕ, Float, pos};
ghost use Rattle.std.specs.Float.{nan};
ghost use Rattle.feature.specs.Feature.{trains};
ghost use Rattle.embedding.specs.Design.{design};
ghost use Rattle.embedding.specs.Row.{row_of};
ghost use Rattle.model_fit.specs.Input.{table_at, query_of};
ghost use Rattle.model_fit.specs.Samples.{design_of};
ghost use Rattle.model_fit.specs.Shared.{Listed};

use crate::{Rows, Table};
use embedding::{Ion, Model};
use matrix::PeptideIx;

impl<'a> Rows<'a> {
    // Whether row i trains.
    pub fn trains(self, i: usize) -> bool
        requires { (i < length self.label.now) × (i < length self.q.now) }
        ensures { result ≡ trains (get_or self.entry.label.now i (pos 0)) (get_or self.entry.q.now i nan) }
    {
        feature::trains(self.label[i], self.q[i])
    }

    // The charge of row i; 0 where the model has no charges.
    pub fn charge_at(self, i: usize) -> u8
        ensures { result ≡ get_or self.entry.charge.now i 0 }
    {
        match self.charge.get(i) {
            Some(charge) => *charge,
            None => 0,
        }
    }
}

impl<'a> Table<'a> {
    // The log of a peptide's mass, with the one NaN for every NaN, and where the model has no logs.
    pub fn log_at(self, p: PeptideIx) -> f64
        ensures { result ≡ get_or self.entry.logs.now p.0 nan }
    {
        match self.logs.get(p.0 as usize) {
            Some(log) => float::canonical64(*log),
            None => 0.0 / 0.0,
        }
    }

    // A peptide's mass as far as the model's design row reads it: retention's does not, and what is not read is not
    // fetched. For this crate, which has checked the peptide's number.
    pub fn mass_at(self, model: Model, p: PeptideIx) -> f32
        requires { p.0 < length self.masses.now }
        ensures { (letters : List ℕ) (log : Float) (charge : ℕ)
            → design model letters log result charge
            ≡ design model letters log (get_or self.entry.masses.now p.0 nan) charge }
    {
        match model {
            Model::Retention => 0.0,
            Model::Mobility => self.masses[p.0 as usize],
        }
    }

    // A peptide with a charge, as far as the model's design row reads it. For this crate, which has checked the
    // peptide's number.
    pub fn ion(self, model: Model, p: PeptideIx, charge: u8) -> Ion<'a>
        requires { Listed (table_at self) p.0 }
        ensures { row_of model result ≡ design_of model (table_at self.entry) (query_of p.0 charge) }
    {
        Ion {
            letters: peptide::sequence(self.letters, self.offsets, p),
            log: self.log_at(p),
            mass: self.mass_at(model, p),
            charge,
        }
    }
}
