// Whole numbers as decimal digits, without needless zeros or a plus.
ghost use Rattle.std.specs.Prelude.{◌≡◌};
ghost use Rattle.text.specs.Decimal.{read_from, read_decimal, read_signed};

// The number that s is, where it is at most max. (No `parse`: that takes a plus and leading zeros, which the grammar
// refuses.)
pub fn read_decimal(s: &[u8], max: u32) -> Option<u32>
    ensures { result ≡ read_decimal max s.now }
{
    if s.is_empty() {
        return None;
    }
    if s.len() > 1 && s[0] == b'0' {
        return None;
    }
    digits_up_to(s, max)
}

// The number that s's digits are, leading zeros allowed, where it is at most max.
fn digits_up_to(s: &[u8], max: u32) -> Option<u32>
    ensures { result ≡ read_from max 0 s.now }
{
    let mut v: u64 = 0;
    for c in s {
        if !c.is_ascii_digit() {
            return None;
        }
        v = v * 10 + (*c - b'0') as u64;
        if v > max as u64 {
            return None;
        }
    }
    Some(v as u32)
}

// The number that s is: `-2147483648` to `2147483647`, and not `-0`.
pub fn read_signed(s: &[u8]) -> Option<i32>
    ensures { result ≡ read_signed s.now }
{
    let Some(digits) = s.strip_prefix(b"-") else {
        let n = read_decimal(s, 2147483647)?;
        return Some(n as i32);
    };
    let n = read_decimal(digits, 2147483648)?;
    if n == 0 {
        return None;
    }
    Some(-1 - (n - 1) as i32)
}
