// The statuses and the limits of document 01, and the checks that several entry points make: no other crate has
// numbers of its own for them.
#![tactic(auto)]

ghost use Rattle.std.specs.Prelude.{◌≡◌, [], ◌∷◌, ◌*◌, cond, eqb, leb, Ok, Err};
ghost use Rattle.status.specs.Checks.{all_below, lengths_agree};
ghost use Rattle.status.specs.Limits.{within_limits, within_row_limits, within_system_limits};
ghost use Rattle.status.specs.Status.{
  accepted,
  bad_lengths,
  past_limit,
  too_short,
  bad_file,
  bad_peptide,
  checked,
  first_failing,
  number_of,
  status_of,
};

// The status of an accepted call, the first of document 01's table. Numbers: the C interface tells them.
pub const ACCEPTED: u8 = 0;

// Why a call is refused, by its number in the table.
#[derive(Clone, Copy, Debug, PartialEq, Eq)]
pub enum Refusal {
    // Columns that belong together, or a solver's sides, differ in length.
    BadLengths = 1,
    // A limit other than peptide length is passed.
    PastLimit = 2,
    // Workspace or an output too short.
    TooShort = 3,
    // A file number not below files.
    BadFile = 4,
    // A peptide number not below peptides.
    BadPeptide = 5,
    // A letter outside A to Z.
    BadLetter = 6,
    // Offsets malformed, or a peptide over 255 letters.
    BadOffsets = 7,
    // Program text malformed.
    Malformed = 10,
}

// No training row: the status of a fit that has none. A number, as C is told.
pub const NO_TRAINING: u8 = 8;

// No ridge solves it: the status of a fit or a system that is not solved. A number, as C is told.
pub const NOT_SOLVED: u8 = 9;

impl Refusal {
    // Its number in the table.
    pub fn number(self) -> u8
        ensures { result ≡ number_of self }
    {
        self as u8
    }
}

// The largest numbers of files, rows, peptides, and peptides × files.
pub const MAX_FILES: usize = 4096;

pub const MAX_ROWS: usize = 1048576;

pub const MAX_PEPTIDES: usize = 1048576;

pub const MAX_CELLS: usize = 16777216;

// The most letters that a peptide may have.
pub const MAX_LETTERS: usize = 255;

// The largest order of a system, and the most right columns.
pub const MAX_ORDER: usize = 100;

pub const MAX_COLUMNS: usize = 8;

// Whether each of the lengths of columns that belong together is n.
pub fn same_lengths(n: usize, a: usize, b: usize, c: usize, d: usize) -> bool
    ensures { result ≡ lengths_agree n (a ∷ b ∷ c ∷ d ∷ []) }
{
    [a, b, c, d].iter().all(|length| *length == n)
}

// Whether each of the numbers is below n.
pub fn all_below(xs: &[u32], n: usize) -> bool
    ensures { result ≡ all_below n xs.now }
{
    xs.iter().all(|x| (*x as usize) < n)
}

// Whether peptides × files cells are at most so many, whatever the numbers.
pub fn cells_fit(peptides: usize, files: usize, cells: usize) -> bool
    ensures { result ≡ leb (peptides * files) cells }
{
    files == 0 || peptides <= cells / files
}

// Whether numbers of rows and of peptides are within the limits.
pub fn row_limits(rows: usize, peptides: usize) -> bool
    ensures { result ≡ within_row_limits rows peptides }
{
    rows <= MAX_ROWS && peptides <= MAX_PEPTIDES
}

// Whether numbers of files, rows and peptides are within the limits.
pub fn limits(files: usize, rows: usize, peptides: usize) -> bool
    ensures { result ≡ within_limits files rows peptides }
{
    1 <= files
        && files <= MAX_FILES
        && row_limits(rows, peptides)
        && cells_fit(peptides, files, MAX_CELLS)
}

// Whether the order n and the number of right columns c of a system are within the limits.
pub fn system_limits(n: usize, c: usize) -> bool
    ensures { result ≡ within_system_limits n c }
{
    1 <= n && n <= MAX_ORDER && 1 <= c && c <= MAX_COLUMNS
}

// Ok where the fact holds, else the refusal.
pub fn require(fact: bool, refusal: Refusal) -> Result<(), Refusal>
    ensures { result ≡ cond fact (Ok tt) (Err refusal) }
{
    if fact { Ok(()) } else { Err(refusal) }
}

// The first check that fails, `table` being the peptide table's own. A call without them passes Ok for the table and
// true for files and peptides.
pub fn first_failing(
    lengths: bool,
    limits: bool,
    room: bool,
    table: Result<(), Refusal>,
    files: bool,
    peptides: bool,
) -> Result<(), Refusal>
    ensures { result ≡ checked
        (first_failing
        ((bad_lengths, lengths)
        ∷ (past_limit, limits)
        ∷ (too_short, room)
        ∷ (status_of table, eqb (status_of table) accepted)
        ∷ (bad_file, files)
        ∷ (bad_peptide, peptides)
        ∷ [])) }
{
    require(lengths, Refusal::BadLengths)?;
    require(limits, Refusal::PastLimit)?;
    require(room, Refusal::TooShort)?;
    table?;
    require(files, Refusal::BadFile)?;
    require(peptides, Refusal::BadPeptide)
}

// The number of the first check that fails, or that of an accepted call, `table` being a number of any kind: for who
// checks a table with numbers of its own.
pub fn first_failing_number(
    lengths: bool,
    limits: bool,
    room: bool,
    table: u8,
    files: bool,
    peptides: bool,
) -> u8
    ensures { result ≡ first_failing
        ((bad_lengths, lengths)
        ∷ (past_limit, limits)
        ∷ (too_short, room)
        ∷ (table, eqb table accepted)
        ∷ (bad_file, files)
        ∷ (bad_peptide, peptides)
        ∷ []) }
{
    if let Err(refusal) = first_failing(lengths, limits, room, Ok(()), true, true) {
        return refusal.number();
    }
    if table != ACCEPTED {
        return table;
    }
    match first_failing(true, true, true, Ok(()), files, peptides) {
        Ok(()) => ACCEPTED,
        Err(refusal) => refusal.number(),
    }
}
