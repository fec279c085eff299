// Listing the cells of a row that are not zero: their places, and what they are, one block of the row after the other.
ghost use Rattle.std.specs.Prelude.{◌≡◌, ◌++◌, ◌∷◌, [], map, ◌≤◌, ◌<◌, ◌+◌, false, length, take, slice_index, ℕ};
ghost use Rattle.float.specs.Number.{number};
ghost use Rattle.float.specs.Value.{is_zero};
ghost use Rattle.embedding.specs.Count.{range, tallied};
ghost use Rattle.embedding.specs.Design.{column_counts};
ghost use Rattle.embedding.specs.Listing.{divided, seen_in};
ghost use Rattle.embedding.specs.Appending.{HasRoom, IsLent, Listed};

// What is listed: the first `len` of the places and of the values. What stands behind them is of no meaning. (Two
// slices: a sum goes over the values alone, and C lends the places alone.)
#[derive(Drop)]
pub(crate) struct Listing<'a> {
    pub(crate) places: &'a mut [usize],
    pub(crate) values: &'a mut [f64],
    pub(crate) len: usize,
}

// What lists a few cells is inlined: a call would keep the length in memory from one cell to the next.
impl<'a> Listing<'a> {
    // Nothing is listed.
    pub(crate) fn new(places: &'a mut [usize], values: &'a mut [f64]) -> Listing<'a>
        ensures { result ≡ record { places = places.entry; values = values.entry; len = 0 } }
    {
        Listing {
            places,
            values,
            len: 0,
        }
    }

    // Lists the cell at place `at`, unless it is zero.
    #[inline(always)]
    pub(crate) fn push(&mut self, at: usize, x: f64)
        requires { HasRoom 1 self.old }
        ensures lent { IsLent self.old self.new }
        ensures listed { Listed at (x ∷ []) self.old self.new }
    {
        self.places[self.len] = at;
        self.values[self.len] = x;
        if x != 0.0 {
            self.len += 1;
        }
    }

    // Lists a cell that is not zero, with no test of it.
    #[inline(always)]
    fn push_some(&mut self, at: usize, x: f64)
        requires room { HasRoom 1 self.old }
        requires some { is_zero x ≡ false }
        ensures lent { IsLent self.old self.new }
        ensures listed { Listed at (x ∷ []) self.old self.new }
    {
        self.places[self.len] = at;
        self.values[self.len] = x;
        self.len += 1;
    }

    // Lists cells, the first of them at place `at`, but for those that are zero.
    #[inline(always)]
    pub(crate) fn push_all(&mut self, at: usize, cells: &[f64])
        requires room { HasRoom (length cells.now) self.old }
        requires at_bound { at ≤ 100 }
        ensures lent { IsLent self.old self.new }
        ensures listed { Listed at cells.now self.old self.new }
    {
        for (k, x) in cells.iter().enumerate() {
            self.push(at + k, *x);
        }
    }

    // Lists the counts whose bits are in `seen`, from the lowest bit on, as a row's first block.
    pub(crate) fn push_counts(&mut self, seen: u32, counts: &[f64])
        requires seen_value { (seen ≡ seen_in counts.now) × (length counts.now ≡ 22) }
        requires first { self.old.len ≡ 0 }
        requires room { HasRoom 22 self.old }
        ensures lent { IsLent self.old self.new }
        ensures listed { Listed 0 counts.now self.old self.new }
    {
        // No for and no chain: bits have no iterator in the library, and one for this loop would be the longer text.
        let mut n = 0;
        let mut left = seen;
        while left != 0 {
            let k = u32::trailing_zeros(left) as usize;
            self.places[n] = k;
            self.values[n] = counts[k];
            left = left & (left - 1);
            n += 1;
        }
        self.len = n;
    }

    // Lists the share of each cell that is listed, 22 places further on: what it is, divided by `whole`.
    pub(crate) fn push_shares(&mut self, whole: f64)
        requires room { HasRoom self.old.len self.old }
        requires places_bound { (k : ℕ) → k < self.old.len → slice_index self.old.places.now k ≤ 100 }
        ensures lent { IsLent self.old self.new }
        ensures twice { self.new.len ≡ self.old.len + self.old.len }
        ensures places_after { let shown = take self.old.len self.old.places.now in
            take self.new.len self.new.places.now ≡ shown ++ map (λ p. 22 + p) shown }
        ensures values_after { let shown = take self.old.len self.old.values.now in
            take self.new.len self.new.values.now ≡ shown ++ divided whole shown }
    {
        let n = self.len;
        for i in 0..n {
            self.places[n + i] = 22 + self.places[i];
            self.values[n + i] = self.values[i] / whole;
        }
        self.len = n + n;
    }

    // Lists the counts of two letters that have these columns: the smaller column first, and 2.0 where both are one.
    #[inline(always)]
    fn push_two(&mut self, at: usize, a: usize, b: usize)
        requires columns { (a < 22) × (b < 22) × (at ≤ 100) }
        requires room { HasRoom 2 self.old }
        ensures lent { IsLent self.old self.new }
        ensures listed { Listed at (map number (tallied (range 0 22) (a ∷ b ∷ []))) self.old self.new }
    {
        if a == b {
            self.push_some(at + a, 2.0);
        } else {
            self.push_some(at + a.min(b), 1.0);
            self.push_some(at + a.max(b), 1.0);
        }
    }

    // Lists the counts of at most two letters. The first column is at place `at`.
    #[inline(always)]
    pub(crate) fn push_part(&mut self, at: usize, part: &[u8])
        requires part_bound { (length part.now ≤ 2) × (at ≤ 100) }
        requires room { HasRoom 2 self.old }
        ensures lent { IsLent self.old self.new }
        ensures listed { Listed at (map number (column_counts part.now)) self.old self.new }
    {
        match part {
            [] => {}
            [a] => self.push_some(at + mass::column(*a), 1.0),
            [a, b, ..] => self.push_two(at, mass::column(*a), mass::column(*b)),
        }
    }
}
