// Lines of a text, at a place of it.
ghost use Rattle.std.specs.Prelude.{◌≡◌, ◌==◌, ℕ, Option, List, drop};
ghost use Rattle.std.specs.List.{position};
ghost use Rattle.std.specs.Borrow.{Bor};
ghost use Rattle.text.specs.Line.{line_of, first_line, keyed, decimal_line, signed_line, hex_line, read_hex_digits};
ghost use Rattle.text.specs.Answer.{line_end, line_at, ValueLine};

use crate::decimal::{read_decimal, read_signed};

// What a line says, and the place after the line.
#[derive(Clone, Copy, Debug, PartialEq, Eq)]
pub struct Line<T> {
    pub value: T,
    pub next: usize,
}

// How many bytes stand before the first LF, if there is one.
fn line_length(s: &[u8]) -> Option<usize>
    ensures { result ≡ position (λ c. c == 10) s.now }
{
    s.iter().position(|c| *c == b'\n')
}

// The place of the LF that ends the line that begins at `at`, if one does.
pub fn line_end(text: &[u8], at: usize) -> Option<usize>
    ensures { result ≡ line_end at (line_of (drop at text.now)) }
{
    let length = line_length(text.get(at..)?)?;
    Some(at + length)
}

// What stands behind key in the line that begins at `at`, which must be closed and begin with key.
pub fn find_value<'a>(text: &'a [u8], at: usize, key: &[u8]) -> Option<Line<&'a [u8]>>
    ensures { ValueLine text.now at key.now result }
{
    let end = line_end(text, at)?;
    let value = text[at..end].strip_prefix(key)?;
    Some(Line {
        value,
        next: end + 1,
    })
}

// The line that begins at `at`: key and what read makes a value of.
fn read_line<T, F: Fn(&[u8]) -> Option<T>>(
    text: &[u8],
    at: usize,
    key: &[u8],
    read: F,
) -> Option<Line<T>>
    requires { F.IsAlwaysCallable read }
    ensures { (reading : List ℕ → Option T)
        → ((s : Bor (List ℕ)) (answer : Option T) → F.post read s answer → answer ≡ reading s.now)
        → result ≡ line_at at (first_line (keyed key.now reading) (drop at text.now)) }
{
    let line = find_value(text, at, key)?;
    let value = read(line.value)?;
    Some(Line {
        value,
        next: line.next,
    })
}

// The line that begins at `at`: key and a number that is at most max.
pub fn read_decimal_line(text: &[u8], at: usize, key: &[u8], max: u32) -> Option<Line<u32>>
    ensures { result ≡ line_at at (decimal_line key.now max (drop at text.now)) }
{
    read_line(text, at, key, |s| read_decimal(s, max))
}

// The line that begins at `at`: key and an i32.
pub fn read_signed_line(text: &[u8], at: usize, key: &[u8]) -> Option<Line<i32>>
    ensures { result ≡ line_at at (signed_line key.now (drop at text.now)) }
{
    read_line(text, at, key, read_signed)
}

// The number that s is, of exactly `digits` upper-case hex digits, 1 to 16.
fn read_hex_digits(s: &[u8], digits: usize) -> Option<u64>
    ensures { result ≡ read_hex_digits digits s.now }
{
    if s.len() == digits {
        float::read_hex(s)
    } else {
        None
    }
}

// The line that begins at `at`: key and exactly `digits` upper-case hex digits, 1 to 16.
pub fn read_hex_line(text: &[u8], at: usize, key: &[u8], digits: usize) -> Option<Line<u64>>
    ensures { result ≡ line_at at (hex_line key.now digits (drop at text.now)) }
{
    read_line(text, at, key, |s| read_hex_digits(s, digits))
}
