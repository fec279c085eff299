// Records of fixed width from a program's input, and answers to its output, for the programs that
// replay stored answers. All numbers are upper-case hex digits. What is read or written no contract
// can say, so the contracts here say no more than what a number is made of; each function is proved safe.
// A function that reads or writes answers an error where that fails.
#![tactic(auto)]

ghost use Rattle.std.specs.Prelude.{◌≡◌, ◌%◌, ◌^◌, ℕ, pos, from_bits, to_bits, cond};
ghost use Rattle.std.specs.Float.{binary32, binary64};
ghost use Rattle.std.specs.Int.{cast_signed, w32};

use std::io;
use std::io::{ErrorKind, Read};

// A case of a leaf function: which function, and its arguments.
#[derive(Clone, Copy)]
pub struct Record {
    pub op: u64,
    pub a: u64,
    pub b: u64,
    pub c: u64,
}

// A value that a token gives: of a float its pattern, and of a short number the lowest bits.
pub trait FromToken {
    ghost of_token: { ℕ → Self };

    fn from_token(v: u64) -> Self
        ensures { result ≡ of_token v };
}

impl FromToken for u8 {
    ghost of_token = { λ v. v % 2 ^ 8 };

    fn from_token(v: u64) -> u8 {
        (v % 256) as u8
    }
}

impl FromToken for u32 {
    ghost of_token = { λ v. v % 2 ^ 32 };

    fn from_token(v: u64) -> u32 {
        low32(v)
    }
}

impl FromToken for u64 {
    ghost of_token = { λ v. v };

    fn from_token(v: u64) -> u64 {
        v
    }
}

impl FromToken for i32 {
    ghost of_token = { λ v. cast_signed w32 (v % 2 ^ 32) };

    fn from_token(v: u64) -> i32 {
        low32(v).cast_signed()
    }
}

impl FromToken for f32 {
    ghost of_token = { λ v. from_bits binary32 (v % 2 ^ 32) };

    fn from_token(v: u64) -> f32 {
        float::from_bits32(low32(v))
    }
}

impl FromToken for f64 {
    ghost of_token = { λ v. from_bits binary64 v };

    fn from_token(v: u64) -> f64 {
        float::from_bits64(v)
    }
}

// A value that is written as a token: a float as its pattern, true as 1 and false as 0.
pub trait ToToken {
    ghost token_of: { Self → ℕ };

    fn to_token(self) -> u64
        ensures { result ≡ token_of self };
}

impl ToToken for u32 {
    ghost token_of = { λ n. n };

    fn to_token(self) -> u64 {
        u64::from(self)
    }
}

impl ToToken for bool {
    ghost token_of = { λ b. cond b 1 0 };

    fn to_token(self) -> u64 {
        self as u64
    }
}

impl ToToken for f32 {
    ghost token_of = { λ x. to_bits binary32 x };

    fn to_token(self) -> u64 {
        u64::from(float::bits32(self))
    }
}

impl ToToken for f64 {
    ghost token_of = { λ x. to_bits binary64 x };

    fn to_token(self) -> u64 {
        float::bits64(self)
    }
}

// Fills buf with the next bytes, and says whether there were enough of them.
pub fn read_full(input: &mut impl Read, buf: &mut [u8]) -> io::Result<bool> {
    match input.read_exact(buf) {
        Ok(()) => Ok(true),
        Err(e) if e.kind() == ErrorKind::UnexpectedEof => Ok(false),
        Err(e) => Err(e),
    }
}

// The numbers of a line of 2, 16, 16 and 16 digits with a space between them.
fn record_of(line: &[u8; 54]) -> Option<Record> {
    Some(Record {
        op: float::read_hex(&line[0..2])?,
        a: float::read_hex(&line[3..19])?,
        b: float::read_hex(&line[20..36])?,
        c: float::read_hex(&line[37..53])?,
    })
}

// The next line's record. None is also the answer for a line that is malformed: the program then stops, and what it
// wrote is too short.
pub fn read_record(input: &mut impl Read) -> io::Result<Option<Record>> {
    let mut line = [0u8; 54];
    if !read_full(input, &mut line)? {
        return Ok(None);
    }
    Ok(record_of(&line))
}

// The number of the next line, of 16 digits.
pub fn read_token(input: &mut impl Read) -> io::Result<Option<u64>> {
    let mut line = [0u8; 17];
    if !read_full(input, &mut line)? {
        return Ok(None);
    }
    Ok(float::read_hex(&line[0..16]))
}

// The pattern of an f32, a u32 or an i32, which stands in a token or a record with zeros in front.
pub fn low32(v: u64) -> u32
    ensures { result ≡ v % 4294967296 }
{
    (v % 4294967296) as u32
}

// Fills out with the next lines' values, and answers whether there were enough of them.
pub fn read_all<T: FromToken + Copy>(input: &mut impl Read, out: &mut [T]) -> io::Result<bool> {
    for x in out {
        let Some(v) = read_token(input)? else {
            return Ok(false);
        };
        *x = T::from_token(v);
    }
    Ok(true)
}

// The numbers of the next N lines.
pub fn read_tokens<const N: usize>(input: &mut impl Read) -> io::Result<Option<[u64; N]>> {
    let mut tokens = [0; N];
    let there = read_all(input, &mut tokens)?;
    Ok(there.then_some(tokens))
}

// Writes a line of 16 digits.
pub fn write_token(out: &impl Print, v: u64) -> io::Result<()> {
    let mut line = [b'\n'; 17];
    float::write_hex(v, &mut line[0..16]);
    write_line(out, &line)
}

fn write_line(out: &impl Print, line: &[u8; 17]) -> io::Result<()> {
    out.write_all(line)
}

// Writes a line for a value.
pub fn write<T: ToToken>(out: &impl Print, x: T) -> io::Result<()> {
    write_token(out, x.to_token())
}

// Writes a line for each value.
pub fn write_all<T: ToToken + Copy>(out: &impl Print, xs: &[T]) -> io::Result<()> {
    for x in xs {
        write(out, *x)?;
    }
    Ok(())
}

// Writes the first n values; nothing where there are fewer.
pub fn write_first<T: ToToken + Copy>(out: &impl Print, xs: &[T], n: usize) -> io::Result<()> {
    match xs.get(..n) {
        Some(first) => write_all(out, first),
        None => Ok(()),
    }
}

// Writes the answer to each record of the input. A proved loop has to end, and nothing says that the input does: so the
// turns are counted, up to a number that no run reaches.
pub fn replay<F: Fn(Record) -> u64>(
    out: &impl Print,
    input: &mut impl Read,
    answer: F,
) -> io::Result<()>
    requires { F.IsAlwaysCallable answer }
{
    for _ in 0..u64::MAX {
        let Some(r) = read_record(input)? else {
            break;
        };
        write_token(out, answer(r))?;
    }
    Ok(())
}

// Replays as many cases as the first line says, or until `replay` says that there is no other. It is given how many are
// left, with its own.
pub fn replay_counted<I: Read, F: Fn(&mut I, u64) -> io::Result<bool>>(
    input: &mut I,
    replay: F,
) -> io::Result<()>
    requires { F.IsAlwaysCallable replay }
{
    let Some(count) = read_token(input)? else {
        return Ok(());
    };
    for done in 0..count {
        if !replay(input, count - done)? {
            break;
        }
    }
    Ok(())
}
