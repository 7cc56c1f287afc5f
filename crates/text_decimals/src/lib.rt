// Numbers in decimal: read from the bytes of a slice, and put into a lent buffer.
#![tactic(auto, using(crate::specs::Reading::reading_laws))]

ghost use Rattle.std.specs.Prelude.{◌≡◌, ◌+◌, ◌%◌, ◌<◌, ◌≤◌, length};
ghost use Rattle.std.proofs.lemmas.List.Edits.{sets};
ghost use Rattle.text_decimals.specs.Decimals.{number_of, decimal};
ghost use Rattle.text_decimals.specs.Reading.{number_from};

// The value of digits, if all bytes are digits and it is not too large.
fn digits_value(s: &[u8]) -> Option<u32>
    ensures { result ≡ number_from 0 s.now }
{
    let mut v: u64 = 0;
    for x in s {
        let b = u64::from(*x);
        if b < 48 {
            return None;
        }
        if 57 < b {
            return None;
        }
        v = 10 * v + (b - 48);
        if 4294967295 < v {
            return None;
        }
    }
    Some(v as u32)
}

// The number that bytes are, if they are one. A part of a text is handed on as a slice.
pub fn parse_number(s: &[u8]) -> Option<u32>
    ensures { result ≡ number_of s.now }
{
    let n = s.len();
    if n == 0 {
        return None;
    }
    if n == 1 {
        return digits_value(s);
    }
    if s[0] <= 48 {
        return None;
    }
    digits_value(s)
}

fn digit(n: u64) -> u8
    ensures { result ≡ 48 + n % 10 }
{
    (48 + n % 10) as u8
}

// A number's digits from a place on. Gives the place after them. Nothing is put outside the buffer.
#[tactic(auto, using(crate::specs::Back::decimal_one, crate::specs::Writing::writing_laws, crate::specs::Writing::decimal_long))]
pub fn put_number(buf: &mut [u8], at: usize, n: u64) -> usize
    requires { at ≤ 9223372036854775807 }
    ensures place { result ≡ at + length (decimal n) }
    ensures bytes { buf.new ≡ sets buf.old at (decimal n) }
{
    if n < 10 {
        text_lines::put_byte(&mut *buf, at, digit(n));
        return at + 1;
    }
    let next = put_number(&mut *buf, at, n / 10);
    text_lines::put_byte(&mut *buf, next, digit(n));
    next + 1
}
