// A text that is made in a buffer of N bytes. Each function asks for room for what it appends.
ghost use Rattle.std.specs.Prelude.{◌≡◌, ℕ, ◌+◌, ◌≤◌, List, [], ◌++◌, length, take};

use std::marker::Model;

// The bytes that are written so far, at most N.
#[derive(Drop)]
pub struct Buffer<const N: usize> {
    bytes: [u8; N],
    len: usize,
}

// Clauses see the written bytes.
impl<const N: usize> Model for Buffer<N> {
    ghost Value = { List ℕ };

    ghost view = { λ b. take b.len b.bytes };

    ghost invariant = { λ b. b.len ≤ N };
}

impl<const N: usize> Buffer<N> {
    ghost use Rattle.float.specs.Hex.{hex_of};
    ghost use Rattle.text.specs.Decimal.{decimal_of};
    ghost use Rattle.text.specs.Line.{line};

    // A buffer with nothing written.
    pub fn new() -> Self
        ensures { result ≡ [] }
    {
        Buffer {
            bytes: [0; N],
            len: 0,
        }
    }

    // What is written.
    pub fn as_bytes(&self) -> &[u8]
        ensures { result.now ≡ self.now }
    {
        &self.bytes[..self.len]
    }

    // Appends s.
    pub fn push_bytes(&mut self, s: &[u8])
        requires { length self.old + length s.now ≤ N }
        ensures { self.new ≡ self.old ++ s.now }
    {
        let end = self.len + s.len();
        let bytes = &mut self.bytes[..];
        bytes[self.len..end].copy_from_slice(s);
        self.len = end;
    }

    // Appends n's digits. (No Display: a `fmt::Write` answers a Result, for what is proved to fit.)
    pub fn push_decimal(&mut self, n: u32)
        requires { length self.old + length (decimal_of n) ≤ N }
        ensures { self.new ≡ self.old ++ decimal_of n }
    {
        let mut digits = [0u8; 10];
        let mut first: usize = 9;
        let mut rest = n;
        // A `while`: how many digits there are shows only as they are made.
        while rest >= 10 {
            digits[first] = (48 + rest % 10) as u8;
            rest /= 10;
            first -= 1;
        }
        digits[first] = (48 + rest) as u8;
        self.push_bytes(&digits[first..]);
    }

    // Appends v's last `digits` hex digits.
    fn push_hex(&mut self, v: u64, digits: usize)
        requires { length self.old + digits ≤ N }
        ensures { self.new ≡ self.old ++ hex_of digits v }
    {
        let end = self.len + digits;
        let bytes = &mut self.bytes[..];
        float::write_hex(v, &mut bytes[self.len..end]);
        self.len = end;
    }

    // Appends a line, key and n's digits.
    pub fn push_decimal_line(&mut self, key: &[u8], n: u32)
        requires { length self.old + length (line key.now (decimal_of n)) ≤ N }
        ensures { self.new ≡ self.old ++ line key.now (decimal_of n) }
    {
        self.push_bytes(key);
        self.push_decimal(n);
        self.push_bytes(b"\n");
    }

    // Appends a line, key and v's last `digits` hex digits.
    pub fn push_hex_line(&mut self, key: &[u8], v: u64, digits: usize)
        requires { length self.old + length (line key.now (hex_of digits v)) ≤ N }
        ensures { self.new ≡ self.old ++ line key.now (hex_of digits v) }
    {
        self.push_bytes(key);
        self.push_hex(v, digits);
        self.push_bytes(b"\n");
    }
}
