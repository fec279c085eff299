// Calls `align_text` with outputs that its answer fits and outputs that it does not, and writes for each call, a line
// each, its number, how many bytes it says it wrote, and how many bytes of the output changed. What it must write, in
// `stdout`, was worked out by hand from document 01: a text's own number comes before 3, and its line is written where
// it fits.
#![tactic(auto)]

ghost use Rattle.std.specs.Prelude.{◌≤◌};

use align_text::Refused;
use std::io;

// What every byte of an output holds before a call: no answer has it.
const BYTE: u8 = b'*';

const BYTES: usize = 128;

// The number of an answer: 0 where the text is accepted and its answer fits.
fn number(answer: Result<usize, Refused>) -> u64 {
    match answer {
        Ok(_) => 0,
        Err(refused) => refused.status.number() as u64,
    }
}

// Writes what a call answers and leaves, whose output has so many bytes.
fn text(out: &impl Print, input: &[u8], bytes: usize) -> io::Result<()>
    requires { bytes ≤ 128 }
{
    let mut output = [BYTE; BYTES];
    let answer = align_text::align_text(input, &mut output[..bytes]);
    vectors::write_token(out, number(answer))?;
    vectors::write_token(out, align_text::written(answer) as u64)?;
    vectors::write_token(out, held::changed(0, &output, BYTE))
}

// 10: a plus in a number. Its line has 10 bytes: it fits, it is a byte too long, there is no room at all.
fn malformed(out: &impl Print) -> io::Result<()> {
    let input = b"files=+1\npeptides=1\n";
    text(out, input, 10)?;
    text(out, input, 9)?;
    text(out, input, 0)
}

// 2: no file. The line of a refusal other than 10 has 9 bytes.
fn limits(out: &impl Print) -> io::Result<()> {
    let input = b"files=0\npeptides=1\n";
    text(out, input, 9)?;
    text(out, input, 8)
}

// 2: 17 files. 3: 9 files and 16, which are accepted: their answers have more than 128 bytes.
fn files(out: &impl Print) -> io::Result<()> {
    text(out, b"files=17\npeptides=0\n", 9)?;
    text(out, b"files=9\npeptides=0\n", 128)?;
    text(out, b"files=16\npeptides=0\n", 128)
}

// 4: file 2 of 2; with peptide 1 of 1, which is 5 too. 5: peptide 1 of 1. Each with room for its line and with none.
fn numbers(out: &impl Print) -> io::Result<()> {
    let file = b"files=2\npeptides=1\nfile=2\npeptide=0\nlabel=1\nq=00000000\nrt=41200000\n";
    text(out, file, 9)?;
    text(out, file, 0)?;
    let both = b"files=2\npeptides=1\nfile=2\npeptide=1\nlabel=1\nq=00000000\nrt=41200000\n";
    text(out, both, 0)?;
    let peptide = b"files=1\npeptides=1\nfile=0\npeptide=1\nlabel=1\nq=00000000\nrt=41200000\n";
    text(out, peptide, 9)?;
    text(out, peptide, 0)
}

// Document 01's text, whose answer has 87 bytes. 0: it fits, with room to spare and just so. 3: it does not.
fn accepted(out: &impl Print) -> io::Result<()> {
    let input = b"files=1\npeptides=1\nfile=0\npeptide=0\nlabel=1\nq=00000000\nrt=41200000\n";
    text(out, input, 128)?;
    text(out, input, 87)?;
    text(out, input, 86)?;
    text(out, input, 0)
}

fn main(rt: HostRuntime) -> io::Result<()> {
    malformed(&rt)?;
    limits(&rt)?;
    files(&rt)?;
    numbers(&rt)?;
    accepted(&rt)
}
