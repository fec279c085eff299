// The 69 columns of sage's retention_model.rs.
ghost use Rattle.std.specs.Prelude.{◌≡◌, ◌++◌, ◌∷◌, [], ◌≤◌, ◌<◌, ◌^◌, ◌+◌};
ghost use lib.ListN.{length, take, drop};
ghost use Rattle.float.specs.Number.{number};
ghost use Rattle.embedding.specs.Design.{chosen, c_terminal, retention_row};
ghost use Rattle.embedding.specs.Appending.{HasRoom, IsLent, Listed};
ghost use Rattle.embedding.specs.declared.Model.{Model};

use crate::Ion;
use crate::listing::Listing;
use crate::residues::{count, n_terminal, put_counts, two_before};

pub(crate) const FEATURES: usize = 69;

// The counts of all letters, the first columns.
pub(crate) const HEAD: usize = 22;

// The residues at positions c and c + 1, c being the length less 3, that are not N-terminal: the last one is
// excluded.
fn c_terminal(letters: &[u8]) -> &[u8]
    ensures part { result.now ≡ chosen (c_terminal Model.Retention) letters.now }
    ensures at_most_two { length result.now ≤ 2 }
{
    two_before(letters, letters.len().saturating_sub(1))
}

// The columns after the counts: length, logged mass, intercept.
#[tactic(auto, using(crate::proofs::Rows::one))]
fn scalars(ion: Ion<'_>) -> [f64; 3]
    ensures { result ≡ number (length ion.entry.letters.now) ∷ ion.entry.log ∷ number 1 ∷ [] }
{
    [float::u32_to_f64(ion.letters.len() as u32), ion.log, 1.0]
}

// Writes an ion's row into the first 69 cells of `row`.
pub(crate) fn embed(ion: Ion<'_>, row: &mut [f64])
    requires { 69 ≤ length row.old }
    ensures { row.new ≡ retention_row ion.entry.letters.now ion.entry.log ++ drop 69 row.old }
{
    put_counts(ion.letters, &mut row[0..22]);
    put_counts(n_terminal(ion.letters), &mut row[22..44]);
    put_counts(c_terminal(ion.letters), &mut row[44..66]);
    row[66..69].copy_from_slice(&scalars(ion));
}

// Lists the columns after the counts of all letters.
#[tactic(auto, using(crate::proofs::Appending::length_counted))]
#[inline(always)]
fn list_rest(ion: Ion<'_>, listing: &mut Listing<'_>)
    requires { HasRoom 47 listing.old }
    ensures lent { IsLent listing.old listing.new }
    ensures listed { Listed 22 (drop 22 (retention_row ion.entry.letters.now ion.entry.log)) listing.old listing.new }
{
    listing.push_part(22, n_terminal(ion.letters));
    listing.push_part(44, c_terminal(ion.letters));
    listing.push_all(66, &scalars(ion));
}

// Lists an ion's row, where nothing is listed yet.
pub(crate) fn list(ion: Ion<'_>, listing: &mut Listing<'_>)
    requires first { listing.old.len ≡ 0 }
    requires room { HasRoom 69 listing.old }
    ensures lent { IsLent listing.old listing.new }
    ensures listed { Listed 0 (retention_row ion.entry.letters.now ion.entry.log) listing.old listing.new }
{
    let mut counts = [0.0f64; 22];
    let seen = count(ion.letters, &mut counts);
    listing.push_counts(seen, &counts);
    list_rest(ion, listing);
}

// Writes the counts of all letters into the first cells of `head`, and lists the columns after them.
pub(crate) fn split(ion: Ion<'_>, head: &mut [f64], listing: &mut Listing<'_>)
    requires head_in_bounds { 22 ≤ length head.old }
    requires room { HasRoom 69 listing.old }
    ensures head_after { take 22 head.new ≡ take 22 (retention_row ion.entry.letters.now ion.entry.log) }
    ensures lent { IsLent listing.old listing.new }
    ensures listed { Listed 22 (drop 22 (retention_row ion.entry.letters.now ion.entry.log)) listing.old listing.new }
{
    put_counts(ion.letters, head);
    list_rest(ion, listing);
}
