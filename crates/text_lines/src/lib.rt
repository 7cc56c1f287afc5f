// Bytes of a text: where a piece ends, and bytes put into a lent buffer.
#![tactic(auto, using(crate::specs::Pieces::text_laws))]

ghost use Rattle.std.specs.Prelude.{◌≡◌, ◌+◌, ◌≤◌, length, drop, set};
ghost use Rattle.text_lines.specs.Lines.{reach};

// The place of the first byte `at` from a place on; the slice's length if there is none.
pub fn piece_end(s: &[u8], from: usize, at: u8) -> usize
    requires { from ≤ length s.now }
    ensures place { result ≡ from + reach at (drop from s.now) }
    ensures within { (from ≤ result) × (result ≤ length s.now) }
{
    for i in from..s.len() {
        if s[i] == at {
            return i;
        }
    }
    s.len()
}

// One byte; a put outside the buffer changes nothing.
pub fn put_byte(buf: &mut [u8], at: usize, b: u8)
    ensures { buf.new ≡ set buf.old at b }
{
    if at < buf.len() {
        buf[at] = b;
    }
}
