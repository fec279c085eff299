// The 100 columns of sage's mobility_model.rs.
ghost use Rattle.std.specs.Prelude.{◌≡◌, ◌++◌, map, ◌≤◌, ◌<◌, ◌^◌, ◌+◌};
ghost use lib.ListN.{length, drop, get_or, replicate};
ghost use Rattle.float.specs.Number.{number, zero64};
ghost use Rattle.embedding.specs.Design.{
  n_terminal,
  c_terminal,
  chosen,
  column_counts,
  share,
  block,
  mobility_scalars,
  mobility_row,
};
ghost use Rattle.embedding.specs.Classes.{class_sum, class_sums};
ghost use Rattle.embedding.specs.Appending.{HasRoom, IsLent, Listed};
ghost use Rattle.embedding.specs.declared.Model.{Model};

use crate::Ion;
use crate::listing::Listing;
use crate::residues::{count, n_terminal, put_counts, put_shares, two_before};

pub(crate) const FEATURES: usize = 100;

// The classes of residues, in the order of their columns, as places in the alphabet, as the Rust has them, that are
// tested against columns: branched, tiny, uncharged polar, bulky, positive, negative.
const CLASSES: [&[usize]; 6] = [
    &[11, 8, 21],
    &[6, 0, 18],
    &[18, 19, 13, 16],
    &[11, 21, 8, 5, 22, 24],
    &[17, 10, 7],
    &[3, 4],
];

// The residues at the positions above c, the length less 3, that are not N-terminal: other ones than retention's.
fn c_terminal(letters: &[u8]) -> &[u8]
    ensures part { result.now ≡ chosen (c_terminal Model.Mobility) letters.now }
    ensures at_most_two { length result.now ≤ 2 }
{
    two_before(letters, letters.len())
}

// The sum of the counts at the numbers of a class, 0.0 standing for the count at a number that has none.
fn class_sum(counts: &[f64], class: &[usize]) -> f64
    ensures { result ≡ class_sum counts.now class.now }
{
    let mut sum = 0.0;
    for k in class {
        sum += counts.get(*k).copied().unwrap_or(0.0);
    }
    sum
}

// The sums of the six classes.
fn class_sums(counts: &[f64]) -> [f64; 6]
    ensures { result ≡ class_sums counts.now }
{
    let mut sums = [0.0; 6];
    for (i, class) in CLASSES.iter().enumerate() {
        sums[i] = class_sum(counts, class);
    }
    sums
}

// The columns after the counts.
fn scalars(ion: Ion<'_>) -> [f64; 6]
    ensures { result ≡ mobility_scalars (length ion.entry.letters.now) ion.entry.mass ion.entry.charge }
{
    let z = float::u32_to_f64(ion.charge as u32);
    let m = float::widen(ion.mass);
    [
        1.0 / z,
        z,
        m / z / 1000.0,
        float::u32_to_f64(ion.letters.len() as u32),
        m / 1000.0,
        1.0,
    ]
}

// Writes an ion's row into the first 100 cells of `row`.
pub(crate) fn embed(ion: Ion<'_>, row: &mut [f64])
    requires { 100 ≤ length row.old }
    ensures { row.new
        ≡ mobility_row ion.entry.letters.now ion.entry.mass ion.entry.charge ++ drop 100 row.old }
{
    let letters = ion.letters;
    let mut counts = [0.0f64; 22];
    count(letters, &mut counts);
    row[0..22].copy_from_slice(&counts);
    put_shares(&counts, letters.len() as u32, &mut row[22..44]);
    put_counts(n_terminal(letters), &mut row[44..66]);
    put_counts(c_terminal(letters), &mut row[66..88]);
    row[88..94].copy_from_slice(&class_sums(&counts));
    row[94..100].copy_from_slice(&scalars(ion));
}

// Lists a row that is written out first: the empty peptide's, whose shares are not its counts' but NaN.
fn list_written(ion: Ion<'_>, listing: &mut Listing<'_>)
    requires { HasRoom 100 listing.old }
    ensures lent { IsLent listing.old listing.new }
    ensures listed { Listed 0 (mobility_row ion.entry.letters.now ion.entry.mass ion.entry.charge)
        listing.old listing.new }
{
    let mut row = [0.0f64; 100];
    embed(ion, &mut row);
    listing.push_all(0, &row);
}

// Lists the counts of a peptide that has letters, and their shares, where nothing is listed yet. The counts are left in
// `counts`, which are zero.
fn list_composition(letters: &[u8], counts: &mut [f64], listing: &mut Listing<'_>)
    requires letters_nonzero { (0 < length letters.now) × (length letters.now < 2 ^ 32) }
    requires counts_value { counts.old ≡ replicate 22 zero64 }
    requires first { listing.old.len ≡ 0 }
    requires room { HasRoom 44 listing.old }
    ensures counts_after { counts.new ≡ map number (column_counts letters.now) }
    ensures lent { IsLent listing.old listing.new }
    ensures listed { let cs = column_counts letters.now in
        Listed 0 (map number cs ++ map (share (length letters.now)) cs) listing.old listing.new }
{
    let seen = count(letters, counts);
    listing.push_counts(seen, counts);
    listing.push_shares(float::u32_to_f64(letters.len() as u32));
}

// Lists the row of a peptide that has letters, where nothing is listed yet.
#[tactic(auto, using(crate::proofs::Classes::block_lengths))]
fn list_blocks(ion: Ion<'_>, listing: &mut Listing<'_>)
    requires letters_nonzero { 0 < length ion.letters.now }
    requires first { listing.old.len ≡ 0 }
    requires room { HasRoom 100 listing.old }
    ensures lent { IsLent listing.old listing.new }
    ensures listed { Listed 0 (mobility_row ion.entry.letters.now ion.entry.mass ion.entry.charge)
        listing.old listing.new }
{
    let letters = ion.letters;
    let mut counts = [0.0f64; 22];
    list_composition(letters, &mut counts, listing);
    listing.push_part(44, n_terminal(letters));
    listing.push_part(66, c_terminal(letters));
    listing.push_all(88, &class_sums(&counts));
    listing.push_all(94, &scalars(ion));
}

// Lists an ion's row, where nothing is listed yet.
pub(crate) fn list(ion: Ion<'_>, listing: &mut Listing<'_>)
    requires first { listing.old.len ≡ 0 }
    requires room { HasRoom 100 listing.old }
    ensures lent { IsLent listing.old listing.new }
    ensures listed { Listed 0 (mobility_row ion.entry.letters.now ion.entry.mass ion.entry.charge)
        listing.old listing.new }
{
    if ion.letters.is_empty() {
        list_written(ion, listing);
    } else {
        list_blocks(ion, listing);
    }
}
