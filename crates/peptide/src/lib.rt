// The peptide table: the letters of all peptides in one slice, and offsets that say where each peptide's begin and
// the last's end. Two slices, as the C interface lends them: a table that is refused is no pair of them that belongs
// together, so they are not one value.
#![tactic(auto)]

ghost use Rattle.std.specs.Prelude.{◌≡◌};
ghost use Rattle.status.specs.Status.{checked};
ghost use Rattle.peptide.specs.Table.{offsets_right, letters_right, table_status, sequence_of, HasPeptide};

use matrix::PeptideIx;
use status::Refusal;

// Whether the offsets are those of so many peptides with so many letters: check 7.
fn check_offsets(offsets: &[u32], peptides: usize, letters: usize) -> bool
    ensures { result ≡ offsets_right peptides letters offsets.now }
{
    let [0, rest @ ..] = offsets else {
        return false;
    };
    if rest.len() != peptides {
        return false;
    }
    let mut start = 0;
    for offset in rest {
        let next = *offset as usize;
        if next < start {
            return false;
        }
        if start + status::MAX_LETTERS < next {
            return false;
        }
        start = next;
    }
    start == letters
}

// Whether every letter is A to Z: check 6.
fn check_letters(letters: &[u8]) -> bool
    ensures { result ≡ letters_right letters.now }
{
    letters.iter().all(|letter| mass::is_letter(*letter))
}

// The checks of a table with so many peptides: 7 or 6 where one fails, of both the first.
pub fn check_table(letters: &[u8], offsets: &[u32], peptides: usize) -> Result<(), Refusal>
    ensures { result ≡ checked (table_status letters.now offsets.now peptides) }
{
    let offsets_right = check_offsets(offsets, peptides, letters.len());
    status::require(offsets_right, Refusal::BadOffsets)?;
    status::require(check_letters(letters), Refusal::BadLetter)
}

// A peptide's letters. For the models, which call it on a table that has passed and a peptide's number below its
// peptides.
pub fn sequence<'a>(letters: &'a [u8], offsets: &[u32], p: PeptideIx) -> &'a [u8]
    requires { HasPeptide letters.now offsets.now p.0 }
    ensures { result.now ≡ sequence_of letters.now offsets.now p.0 }
{
    let i = p.0 as usize;
    let start = offsets[i] as usize;
    let end = offsets[i + 1] as usize;
    &letters[start..end]
}
