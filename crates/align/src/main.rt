// Reads a text from standard input and writes the alignment's answer to standard output.
#![tactic(auto)]

ghost use Rattle.std.specs.Prelude.{◌≤◌, length, IfOk};

use std::io;
use std::io::Read;

// Reads until text is full or the input ends, and answers how many bytes it put at the front of text.
fn read_text(input: &mut impl Read, text: &mut [u8]) -> io::Result<usize>
    ensures { IfOk result (λ n. n ≤ length text.new) }
{
    let mut done = 0;
    // A `while`: how many bytes come shows only as they are read.
    while done < text.len() {
        let n = input.read(&mut text[done..])?;
        if n == 0 {
            break;
        }
        done += n;
    }
    Ok(done)
}

fn main(rt: HostRuntime) -> io::Result<()> {
    // One byte more than a text may have, so that a longer one is seen.
    let mut input = [0u8; 65537];
    let n = read_text(&mut rt.reader(), &mut input)?;
    let mut output = [0u8; 8192];
    // No answer is longer than the output: an accepted text's lines and a refused one's line are written whole.
    let k = align_text::written(align_text::align_text(&input[..n], &mut output));
    rt.write_all(&output[..k])
}
