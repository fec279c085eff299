// Replays stored inputs of the align program. Standard input is the number of texts and then each text, standard
// output the answer to each; a text and an answer stand behind a line with their length. What is read or written no
// contract can say: each function is proved safe.
#![tactic(auto)]

ghost use Rattle.std.specs.Prelude.{◌≡◌, length};

use std::io;
use std::io::Read;

// The longest stored text: one byte more than a text may have.
const BYTES: usize = 65537;

// Writes the program's answer to a text. No answer is longer than the output.
fn answer(out: &impl Print, text: &[u8]) -> io::Result<()> {
    let mut output = [0u8; 8192];
    let n = align_text::written(align_text::align_text(text, &mut output));
    vectors::write_token(out, n as u64)?;
    out.write_all(&output[..n])
}

// Reads a text of text's length and answers it, and says whether it was there.
fn replay_text(out: &impl Print, input: &mut impl Read, text: &mut [u8]) -> io::Result<bool> {
    if !vectors::read_full(input, text)? {
        return Ok(false);
    }
    answer(out, text)?;
    Ok(true)
}

// Room for a text. The `ensures` gives only its length.
fn room() -> [u8; BYTES]
    ensures { 65537 ≡ length result }
{
    [0; BYTES]
}

// Answers the next text, and says whether there was one.
fn replay(out: &impl Print, input: &mut impl Read) -> io::Result<bool> {
    let Some(length) = vectors::read_token(input)? else {
        return Ok(false);
    };
    let n = length as usize;
    if n > BYTES {
        return Ok(false);
    }
    let mut text = room();
    replay_text(out, input, &mut text[..n])
}

fn main(rt: HostRuntime) -> io::Result<()> {
    vectors::replay_counted(&mut rt.reader(), |input, _| replay(&rt, input))
}
