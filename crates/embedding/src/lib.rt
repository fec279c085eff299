// The design rows of sage's retention_model.rs and mobility_model.rs: what a fit and a prediction read of a
// peptide, 69 or 100 columns, so that both models share the loops above.
#![tactic(auto)]

ghost use Rattle.std.specs.Prelude.{◌≡◌, ◌++◌, ◌≤◌, ◌<◌, ◌^◌, length, take, drop};
ghost use Rattle.matrix.specs.Nonzero.{Nonzeros};

mod listing;
mod mobility_model;
mod residues;
mod retention_model;

use listing::Listing;

// Which columns a row has. An enum, and no trait with two impls: the definitions `design` and `order_of`, and the
// contracts of both models, go over its values.
#[derive(Clone, Copy, Debug, PartialEq, Eq)]
pub enum Model {
    Retention,
    Mobility,
}

// What a row is made of: a peptide's letters, the natural log of one plus its mass, its mass, and a charge. Retention
// reads the letters and the log, mobility the letters, the mass and the charge.
#[derive(Clone, Copy)]
pub struct Ion<'a> {
    pub letters: &'a [u8],
    pub log: f64,
    pub mass: f32,
    pub charge: u8,
    pub ghost short: { length letters.now < 2 ^ 32 },
}

// How many columns a model's row has, for arrays of coefficients.
pub const RETENTION_FEATURES: usize = retention_model::FEATURES;

pub const MOBILITY_FEATURES: usize = mobility_model::FEATURES;

// The largest of the models' heads, for arrays.
pub const MAX_HEAD: usize = retention_model::HEAD;

impl Model {
    ghost use Rattle.embedding.specs.Design.{order_of, head_of};
    ghost use Rattle.embedding.specs.Row.{row_of};
    ghost use Rattle.embedding.specs.Appending.{HasRoom, IsLent, Listed};

    // How many columns a model's row has.
    pub fn order(self) -> usize
        ensures { result ≡ order_of self }
    {
        match self {
            Model::Retention => retention_model::FEATURES,
            Model::Mobility => mobility_model::FEATURES,
        }
    }

    // How many of a row's first cells `split` writes out: retention's counts, and none of mobility's.
    pub fn head(self) -> usize
        ensures { result ≡ head_of self }
    {
        match self {
            Model::Retention => retention_model::HEAD,
            Model::Mobility => 0,
        }
    }

    // Writes the design row of an ion into the first cells of `row`; the rest is unchanged.
    // For `model_fit`, whose rows have at least the model's columns.
    #[tactic(auto, unfolding(crate::specs::Design::design))]
    pub fn embed(self, ion: Ion<'_>, row: &mut [f64])
        requires { order_of self ≤ length row.old }
        ensures { row.new ≡ row_of self ion.entry ++ drop (order_of self) row.old }
    {
        match self {
            Model::Retention => retention_model::embed(ion, row),
            Model::Mobility => mobility_model::embed(ion, row),
        }
    }

    // Lists an ion's design row, where nothing is listed yet.
    #[tactic(auto, unfolding(crate::specs::Design::design))]
    fn list_row(self, ion: Ion<'_>, listing: &mut Listing<'_>)
        requires first { listing.old.len ≡ 0 }
        requires room { HasRoom (order_of self) listing.old }
        ensures lent { IsLent listing.old listing.new }
        ensures listed { Listed 0 (row_of self ion.entry) listing.old listing.new }
    {
        match self {
            Model::Retention => retention_model::list(ion, listing),
            Model::Mobility => mobility_model::list(ion, listing),
        }
    }

    // Lists the cells of an ion's design row that are not zero, in column order: their columns in `places`, and what
    // they are in `values`. Answers how many they are; what stands behind them in the two is of no meaning.
    // For `model_fit`, as `embed`, where a sum over the listed cells stands for one over the row.
    pub fn list(self, ion: Ion<'_>, places: &mut [usize], values: &mut [f64]) -> usize
        requires { (order_of self ≤ length places.old) × (order_of self ≤ length values.old) }
        ensures upper_bound { result ≤ order_of self }
        ensures nonzeros { Nonzeros 0
            (row_of self ion.entry)
            (take result places.new)
            (take result values.new) }
    {
        let mut listing = Listing::new(places, values);
        self.list_row(ion, &mut listing);
        listing.len
    }

    // Writes the first cells of an ion's design row into those of `head`, and lists the others, where nothing is listed
    // yet.
    #[tactic(auto, unfolding(crate::specs::Design::design))]
    fn split_row(self, ion: Ion<'_>, head: &mut [f64], listing: &mut Listing<'_>)
        requires head_in_bounds { head_of self ≤ length head.old }
        requires first { listing.old.len ≡ 0 }
        requires room { HasRoom (order_of self) listing.old }
        ensures head_after { take (head_of self) head.new ≡ take (head_of self) (row_of self ion.entry) }
        ensures lent { IsLent listing.old listing.new }
        ensures listed { Listed (head_of self)
            (drop (head_of self) (row_of self ion.entry)) listing.old listing.new }
    {
        match self {
            Model::Retention => retention_model::split(ion, head, listing),
            Model::Mobility => mobility_model::list(ion, listing),
        }
    }

    // Writes the first cells of an ion's design row into those of `head`, and lists the others that are not zero, as
    // `list` does. Answers how many are listed. For `model_fit`, as `list`, where a loop over all of retention's
    // counts, whose turns are always as many, is faster than one over those that are not zero.
    pub fn split(
        self,
        ion: Ion<'_>,
        head: &mut [f64],
        places: &mut [usize],
        values: &mut [f64],
    ) -> usize
        requires head_in_bounds { head_of self ≤ length head.old }
        requires in_bounds { (order_of self ≤ length places.old) × (order_of self ≤ length values.old) }
        ensures upper_bound { result ≤ order_of self }
        ensures head_after { take (head_of self) head.new ≡ take (head_of self) (row_of self ion.entry) }
        ensures nonzeros { Nonzeros (head_of self)
            (drop (head_of self) (row_of self ion.entry))
            (take result places.new)
            (take result values.new) }
    {
        let mut listing = Listing::new(places, values);
        self.split_row(ion, head, &mut listing);
        listing.len
    }
}
