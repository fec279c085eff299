// The residues of sage's mass.rs: `VALID_AA`, and the column that a letter has in an embedding.
#![tactic(auto)]

ghost use Rattle.std.specs.Prelude.{◌≡◌, ◌+◌, ◌≤◌};
ghost use Rattle.mass.specs.Mass.{column_of, is_letter, residue_at};

// The residues that have a column of their own, in the order of their columns.
pub const VALID_AA: [u8; 22] = *b"ACDEFGHIKLMNPQRSTVWYUO";

// Whether a byte is a letter from A to Z.
pub fn is_letter(byte: u8) -> bool
    ensures { result ≡ is_letter byte }
{
    byte.is_ascii_uppercase()
}

// A letter's place in the alphabet, A's being 0, and Z's for a byte that is no letter: neither has a column of its own,
// so no Option: `column` has one answer for both.
fn alphabet_place(byte: u8) -> u8
    ensures { (result ≤ 25) × (column_of (65 + result) ≡ column_of byte) }
{
    if is_letter(byte) {
        return byte - b'A';
    }
    b'Z' - b'A'
}

// The column of a residue's letter, its place in VALID_AA: below 22 for every byte, and 0 for one that is not in it.
// Each place of the alphabet but Y's is an arm: compiled code then looks every letter up in one table, which it never
// lays out, and no letter takes a branch of its own.
pub fn column(letter: u8) -> usize
    ensures { result ≡ column_of letter }
{
    match alphabet_place(letter) {
        0 => 0, // A
        1 => 0, // B
        2 => 1, // C
        3 => 2, // D
        4 => 3, // E
        5 => 4, // F
        6 => 5, // G
        7 => 6, // H
        8 => 7, // I
        9 => 0, // J
        10 => 8, // K
        11 => 9, // L
        12 => 10, // M
        13 => 11, // N
        14 => 21, // O
        15 => 12, // P
        16 => 13, // Q
        17 => 14, // R
        18 => 15, // S
        19 => 16, // T
        20 => 20, // U
        21 => 17, // V
        22 => 18, // W
        23 => 0, // X
        25 => 0, // Z
        _ => 19, // Y
    }
}

// The residue that a column stands for, where there is one.
pub fn residue_at(column: usize) -> Option<u8>
    ensures { result ≡ residue_at column }
{
    VALID_AA.get(column).copied()
}
