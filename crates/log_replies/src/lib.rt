// Lines that answer a log, put into a lent buffer. A put outside the buffer changes nothing.
#![tactic(auto, using(crate::specs::Written::fields_laws, crate::specs::Written::line_laws, crate::specs::Written::numbers_laws))]

ghost use Rattle.std.specs.Prelude.{◌≡◌, ◌∷◌, ◌+◌, ◌≤◌, length, take};
ghost use Rattle.std.proofs.lemmas.List.Edits.{sets};
ghost use Rattle.text_decimals.specs.Decimals.{decimal};
ghost use Rattle.log_lines.specs.Replay.{tabbed, line_text, numbers_text};

// A tab and a number.
fn put_field(out: &mut [u8], at: usize, n: u64) -> usize
    requires { at ≤ 9000000000000000000 }
    ensures place { result ≡ at + length (9 ∷ decimal n) }
    ensures most { result ≤ at + 21 }
    ensures bytes { out.new ≡ sets out.old at (9 ∷ decimal n) }
{
    text_lines::put_byte(&mut *out, at, 9);
    text_decimals::put_number(&mut *out, at + 1, n)
}

// The first n numbers, each after a tab.
fn put_fields(out: &mut [u8], at: usize, numbers: [u64; 4], n: usize) -> usize
    requires { (at ≤ 8500000000000000000) × (n ≤ 4) }
    ensures place { result ≡ at + length (tabbed (take n numbers)) }
    ensures most { result ≤ at + 84 }
    ensures bytes { out.new ≡ sets out.old at (tabbed (take n numbers)) }
{
    let mut end = at;
    for x in &numbers[..n] {
        end = put_field(&mut *out, end, *x);
    }
    end
}

// A letter, the first n numbers after tabs, and byte 10.
pub fn put_line(out: &mut [u8], at: usize, letter: u8, numbers: [u64; 4], n: usize) -> usize
    requires { (at ≤ 8000000000000000000) × (n ≤ 4) }
    ensures place { result ≡ at + length (line_text letter (take n numbers)) }
    ensures most { result ≤ at + 86 }
    ensures bytes { out.new ≡ sets out.old at (line_text letter (take n numbers)) }
{
    text_lines::put_byte(&mut *out, at, letter);
    let end = put_fields(&mut *out, at + 1, numbers, n);
    text_lines::put_byte(&mut *out, end, 10);
    end + 1
}

// Five numbers parted by tabs, and byte 10.
pub fn put_numbers(out: &mut [u8], at: usize, first: u64, numbers: [u64; 4]) -> usize
    requires { at ≤ 8000000000000000000 }
    ensures place { result ≡ at + length (numbers_text (first ∷ numbers)) }
    ensures most { result ≤ at + 105 }
    ensures bytes { out.new ≡ sets out.old at (numbers_text (first ∷ numbers)) }
{
    let next = text_decimals::put_number(&mut *out, at, first);
    let end = put_fields(&mut *out, next, numbers, 4);
    text_lines::put_byte(&mut *out, end, 10);
    end + 1
}
