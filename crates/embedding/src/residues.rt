// Counting a peptide's residues, as both models do.
ghost use Rattle.std.specs.Prelude.{◌≡◌, ◌++◌, map, ◌≤◌, ◌<◌, ◌^◌, ◌+◌, ◌-◌};
ghost use lib.ListN.{length, take, drop, replicate};
ghost use Rattle.matrix.specs.Lists.{overwritten};
ghost use Rattle.float.specs.Number.{number, zero64};
ghost use Rattle.embedding.specs.Design.{chosen, n_terminal, column_counts, share_of};
ghost use Rattle.embedding.specs.Listing.{seen_in};

// Counts the letters of each of the 22 columns, in cells that are zero. Answers a bit for each column that has one.
// A struct that holds counts and bits was tried: it costs a copy of the counts, a fifth of the time of a list.
pub(crate) fn count(letters: &[u8], counts: &mut [f64]) -> u32
    requires letters_len_bound { length letters.now < 2 ^ 32 }
    requires counts_value { counts.old ≡ replicate 22 zero64 }
    ensures counts_after { counts.new ≡ map number (column_counts letters.now) }
    ensures value { result ≡ seen_in counts.new }
{
    let mut seen = 0u32;
    for letter in letters {
        let k = mass::column(*letter);
        counts[k] += 1.0;
        seen |= 1u32 << (k as u32);
    }
    seen
}

// Writes how many letters of a part have each of the 22 columns into the first cells of `row`.
pub(crate) fn put_counts(part: &[u8], row: &mut [f64])
    requires part_len_bound { length part.now < 2 ^ 32 }
    requires in_bounds { 22 ≤ length row.old }
    ensures { row.new
        ≡ map number (column_counts part.now) ++ drop 22 row.old }
{
    let cells = &mut row[..22];
    matrix::zeros(cells);
    count(part, cells);
}

// Writes the counts' shares of `length` letters into the first cells of `row`.
pub(crate) fn put_shares(counts: &[f64], length: u32, row: &mut [f64])
    requires { lib.ListN.length counts.now ≤ lib.ListN.length row.old }
    ensures { row.new
        ≡ overwritten (map (share_of length) counts.now) row.old }
{
    let whole = float::u32_to_f64(length);
    for (k, x) in counts.iter().enumerate() {
        row[k] = *x / whole;
    }
}

// The residues at positions 0 and 1.
pub(crate) fn n_terminal(letters: &[u8]) -> &[u8]
    ensures part { result.now ≡ chosen n_terminal letters.now }
    ensures at_most_two { length result.now ≤ 2 }
{
    &letters[..letters.len().min(2)]
}

// The residues at the two positions before `end`, but for those at positions 0 and 1.
pub(crate) fn two_before(letters: &[u8], end: usize) -> &[u8]
    requires { end ≤ length letters.now }
    ensures part { result.now ≡ drop (2 + (end - 4)) (take end letters.now) }
    ensures at_most_two { length result.now ≤ 2 }
{
    let start = 2 + end.saturating_sub(4);
    &letters[start.min(end)..end]
}
