// Checks peptide tables and writes the status of each, and the lengths of peptides of tables that pass. What it must
// write, in `stdout`, was worked out by hand from document 01: offsets one more than the peptides, from 0, never
// falling, ending at the letters' length, no peptide over 255 letters, else 7; then each letter A to Z, else 6. 999
// stands for no length.
#![tactic(auto)]

use matrix::PeptideIx;
use std::io;

// Writes the status of a table.
fn check(out: &impl Print, letters: &[u8], offsets: &[u32], peptides: usize) -> io::Result<()> {
    let status = match peptide::check_table(letters, offsets, peptides) {
        Ok(()) => status::ACCEPTED,
        Err(refusal) => refusal.number(),
    };
    vectors::write_token(out, u64::from(status))
}

// Tables that pass: one peptide; B, J, X and Z; the ends of the alphabet; an empty peptide; two peptides; no peptide.
fn accepted(out: &impl Print) -> io::Result<()> {
    check(out, b"ACDK", &[0, 4], 1)?;
    check(out, b"BJXZ", &[0, 4], 1)?;
    check(out, b"AZ", &[0, 2], 1)?;
    check(out, b"", &[0, 0], 1)?;
    check(out, b"ACDKUO", &[0, 4, 6], 2)?;
    check(out, b"", &[0], 0)
}

// Offsets that fall, once with a right end; that end before or past the letters; far too large.
fn offsets(out: &impl Print) -> io::Result<()> {
    check(out, b"A", &[0, 2, 1], 2)?;
    check(out, b"ACD", &[0, 2, 1, 3], 3)?;
    check(out, b"ACD", &[0, 2], 1)?;
    check(out, b"AC", &[0, 3], 1)?;
    check(out, b"A", &[0, 4294967295], 1)?;
    check(out, b"A", &[0, 4294967295, 1], 2)
}

// Too few offsets, and too many; no offset; the first offset not 0.
fn counts(out: &impl Print) -> io::Result<()> {
    check(out, b"AC", &[0, 2], 2)?;
    check(out, b"AC", &[0, 2], 0)?;
    check(out, b"ACD", &[], 0)?;
    check(out, b"ACD", &[1, 3], 1)
}

// A lower-case letter; the bytes before A and after Z; in a later peptide; and where the offsets are wrong too.
fn letters(out: &impl Print) -> io::Result<()> {
    check(out, b"AcD", &[0, 3], 1)?;
    check(out, b"@", &[0, 1], 1)?;
    check(out, b"[", &[0, 1], 1)?;
    check(out, b"ACx", &[0, 2, 3], 2)?;
    check(out, b"ac", &[0, 1], 1)
}

// The ends of a byte.
fn bytes(out: &impl Print) -> io::Result<()> {
    check(out, &[0], &[0, 1], 1)?;
    check(out, &[255], &[0, 1], 1)
}

// 255 letters pass and 256 do not, whatever stands before them.
fn long(out: &impl Print) -> io::Result<()> {
    let letters = [b'A'; 256];
    check(out, &letters[..255], &[0, 255], 1)?;
    check(out, &letters, &[0, 256], 1)?;
    check(out, &letters, &[0, 1, 256], 2)?;
    check(out, &letters, &[0, 0, 256], 2)
}

// The last of 255 letters is looked at.
fn last(out: &impl Print) -> io::Result<()> {
    let mut letters = [b'A'; 255];
    letters[254] = b'a';
    check(out, &letters, &[0, 255], 1)
}

// The length of a peptide, or 999 where the table is refused or has no such peptide. (The stored answers have it.)
fn length(letters: &[u8], offsets: &[u32], peptides: usize, p: u32) -> u64 {
    let Ok(()) = peptide::check_table(letters, offsets, peptides) else {
        return 999;
    };
    if peptides <= p as usize {
        return 999;
    }
    peptide::sequence(letters, offsets, PeptideIx(p)).len() as u64
}

// The length of a peptide of ACDKUO with the offsets 0, b, c and 6.
fn write_length(out: &impl Print, b: u32, c: u32, p: u32) -> io::Result<()> {
    vectors::write_token(out, length(b"ACDKUO", &[0, b, c, 6], 3, p))
}

// Each peptide of a table, one past its end, and one of a table that is refused.
fn lengths(out: &impl Print) -> io::Result<()> {
    write_length(out, 4, 4, 0)?;
    write_length(out, 4, 4, 1)?;
    write_length(out, 4, 4, 2)?;
    write_length(out, 4, 4, 3)?;
    write_length(out, 4, 4, 4294967295)?;
    write_length(out, 4, 3, 0)
}

fn main(rt: HostRuntime) -> io::Result<()> {
    accepted(&rt)?;
    offsets(&rt)?;
    counts(&rt)?;
    letters(&rt)?;
    bytes(&rt)?;
    long(&rt)?;
    last(&rt)?;
    lengths(&rt)
}
