// Numbers as upper-case hex digits, most significant first: eight for an f32's pattern, sixteen for
// an f64's. By hand: the library's reader takes a text, a plus and lower-case digits too, and its
// formatting a writer.
ghost use Rattle.std.specs.Prelude.{◌≡◌, ◌%◌, length};
ghost use Rattle.float.specs.Hex.{hex_digit, read_digit, hex_of, read_hex};

// The digit of v's lowest four bits.
pub fn hex_digit(v: u64) -> u8
    ensures { result ≡ hex_digit (v % 16) }
{
    let d = v % 16;
    if d < 10 {
        return (48 + d) as u8;
    }
    (55 + d) as u8
}

// The value of a digit, 0 to 9 or A to F.
pub fn digit_value(c: u8) -> Option<u64>
    ensures { result ≡ read_digit c }
{
    match c {
        b'0'..=b'9' => Some((c - b'0') as u64),
        b'A'..=b'F' => Some((c - b'A' + 10) as u64),
        _ => None,
    }
}

// Fills out with v's last digits, with zeros in front where out is longer than v.
pub fn write_hex(v: u64, out: &mut [u8])
    ensures { out.new ≡ hex_of (length out.old) v }
{
    let mut rest = v;
    for i in (0..out.len()).rev() {
        out[i] = hex_digit(rest);
        rest /= 16;
    }
}

// The number that s has the digits of, where s is 1 to 16 bytes, each 0 to 9 or A to F.
pub fn read_hex(s: &[u8]) -> Option<u64>
    ensures { result ≡ read_hex s.now }
{
    if s.is_empty() || s.len() > 16 {
        return None;
    }
    let mut v = 0;
    for c in s {
        v = v * 16 + digit_value(*c)?;
    }
    Some(v)
}
