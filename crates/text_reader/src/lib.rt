// The reader of request 13: lines of a text into a lent slice of key and address pairs, until one does not fit.
#![tactic(auto, using(crate::specs::Reading::reader_laws))]

ghost use Rattle.std.specs.Prelude.{◌≡◌, ◌+◌, ◌≤◌, ◌<◌, length};
ghost use Rattle.text_lines.specs.Lines.{fields};
ghost use Rattle.text_carrying.specs.Carrying.{record_of};
ghost use Rattle.text_reader.specs.Reader.{idle, refusal, taken, line_turn, turn_of, filled};

use geometry::Entry;

// How far the reader has come: the place of the next line, the records so far, the least key that the next one may
// have, and the number of the line that is refused, 0 if none is.
#[derive(Clone, Copy)]
pub struct Spot {
    pub at: usize,
    pub count: u32,
    pub low: u64,
    pub bad: u32,
}

// A turn of the reader: the pair that was read, and how far the reader has come then.
#[derive(Clone, Copy)]
pub struct Turn {
    pub entry: Entry,
    pub spot: Spot,
}

// The record of a line, if it fits the form.
pub fn read_record(line: &[u8]) -> Option<Entry>
    ensures { result ≡ record_of (fields line.now) }
{
    let tab = text_lines::piece_end(line, 0, b'\t');
    if line.len() <= tab {
        return None;
    }
    let from = tab + 1;
    if text_lines::piece_end(line, from, b'\t') < line.len() {
        return None;
    }
    let key = text_decimals::parse_number(&line[..tab])?;
    let addr = text_decimals::parse_number(&line[from..])?;
    Some(Entry { key, addr })
}

// Nothing is read.
fn stay(s: Spot) -> Turn
    ensures { result ≡ idle s }
{
    Turn {
        entry: Entry { key: 0, addr: 0 },
        spot: s,
    }
}

// The next line is refused.
fn refuse(s: Spot) -> Turn
    requires { s.count < 4096 }
    ensures { result ≡ refusal s }
{
    Turn {
        entry: Entry { key: 0, addr: 0 },
        spot: Spot {
            at: s.at,
            count: s.count,
            low: s.low,
            bad: s.count + 1,
        },
    }
}

// A record is read, and the next line begins at a place; its key must be above.
fn take_record(s: Spot, next: usize, entry: Entry) -> Turn
    requires { s.count < 4096 }
    ensures { result ≡ taken s next entry }
{
    let key = u64::from(entry.key);
    if key < s.low {
        return refuse(s);
    }
    Turn {
        entry,
        spot: Spot {
            at: next,
            count: s.count + 1,
            low: key + 1,
            bad: 0,
        },
    }
}

// The line from a place that is within the text.
fn read_line(text: &[u8], s: Spot) -> Turn
    requires { (s.count < 4096) × (s.at < length text.now) }
    ensures { result ≡ line_turn text.now s }
{
    let at = s.at;
    let end = text_lines::piece_end(text, at, 10);
    if text.len() <= end {
        return refuse(s);
    }
    let Some(entry) = read_record(&text[at..end]) else {
        return refuse(s);
    };
    take_record(s, end + 1, entry)
}

// One line more, if none is refused so far and there is one.
pub fn read_turn(text: &[u8], s: Spot) -> Turn
    ensures { result ≡ turn_of text.now s }
{
    if s.bad != 0 || 4096 <= s.count || text.len() <= s.at {
        return stay(s);
    }
    read_line(text, s)
}

// Fills the slice, a pair a turn.
pub fn read_pairs(text: &[u8], pairs: &mut [Entry], n: usize, s: Spot) -> Spot
    requires { n ≤ length pairs.old }
    ensures { (result, pairs.new) ≡ filled text.now n s pairs.old }
{
    let mut t = s;
    for i in 0..n {
        let r = read_turn(text, t);
        pairs[i] = r.entry;
        t = r.spot;
    }
    t
}
