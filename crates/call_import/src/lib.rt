// Import of request 13: LENGTH first, then the text to its end, then format and an insert for each pair of a lent
// slice.
#![tactic(auto, using(crate::specs::Imports::importer_laws))]

ghost use Rattle.std.specs.Prelude.{◌≡◌, ◌+◌, ◌≤◌, min, eqb, length, take};
ghost use Rattle.geometry.specs.Tests.{bit};
ghost use Rattle.geometry.specs.Geometry.{page_bytes};
ghost use Rattle.geometry.specs.Shape.{Known};
ghost use Rattle.geometry.specs.Bounds.{longest_page};
ghost use Rattle.call_answers.specs.Answers.{plain, told_by};
ghost use Rattle.text_carrying.specs.Carrying.{word, store_one, store_all, read_text, import_read, importing};
ghost use Rattle.call_import.specs.Importer.{counted_row, begun};

use call_answers::{Answer, Row};
use geometry::{Entry, Geometry};
use text_reader::Spot;

// A sum in 32 bits.
fn sum(a: u32, b: u32) -> u32
    ensures { result ≡ word (a + b) }
{
    a.wrapping_add(b)
}

// The records that an insert with this answer has stored.
fn records_of(answer: u32) -> u32
    ensures { result ≡ bit (eqb answer 0) }
{
    u32::from(answer == 0)
}

// An insert's row after those of the records before.
fn count_row(s: Row, w: Row) -> Row
    ensures { result ≡ counted_row s w }
{
    Row {
        answer: w.answer,
        address: sum(s.address, records_of(w.answer)),
        programmed: sum(s.programmed, w.programmed),
        erased: sum(s.erased, w.erased),
        rule: w.rule,
        page: w.page,
    }
}

// One pair, unless one before it was refused. The words of live pages that an insert fills are this call's own.
pub fn store_one(g: Geometry, img: &mut [u8], s: Row, e: Entry) -> Row
    requires { Known g }
    ensures { told_by result img.new ≡ store_one g (told_by s img.old) e }
{
    if s.answer != 0 {
        return s;
    }
    let mut lent: [u32; 2048] = [0; 2048];
    let a = call_insert::insert_on(g, &mut *img, &mut lent, e.key, e.addr, 4294967295);
    count_row(s, call_answers::row_of(a))
}

// The first n pairs of the slice, one after the other.
pub fn store_pairs(g: Geometry, img: &mut [u8], pairs: &[Entry], n: usize, s: Row) -> Row
    requires { (n ≤ length pairs.now) × Known g }
    ensures { told_by result img.new ≡ store_all g (told_by s img.old)
        (take n pairs.now) }
{
    let mut t = s;
    for e in &pairs[..n] {
        t = store_one(g, &mut *img, t, *e);
    }
    t
}

// A refused line: the answer is TEXT.
fn refuse_line(line: u32) -> Row
    ensures { result ≡ plain 9 line 0 0 }
{
    Row {
        answer: 9,
        address: line,
        programmed: 0,
        erased: 0,
        rule: 0,
        page: 0,
    }
}

// What the reader says of the text, whose length is `end`: refused with a line, or the image is formatted.
pub fn begin(g: Geometry, img: &mut [u8], t: Spot, end: usize) -> Row
    requires { page_bytes g ≤ longest_page }
    ensures { told_by result img.new ≡ begun g img.old t end }
{
    if t.bad != 0 {
        return refuse_line(t.bad);
    }
    if t.at < end {
        return refuse_line(4097);
    }
    call_answers::row_of(call_format::format(g, &mut *img))
}

// The pairs that the reader has filled, of a slice of 4,096.
pub fn turns(t: Spot) -> usize
    ensures { (result ≡ min t.count 4096) × (result ≤ 4096) }
{
    (t.count as usize).min(4096)
}

// The array of pairs that the reader fills and the inserter walks.
pub fn import_text(g: Geometry, img: &mut [u8], text: &[u8]) -> Row
    requires { Known g }
    ensures { told_by result img.new ≡ import_read g img.old (read_text text.now) }
{
    let mut pairs: [Entry; 4096] = [Entry { key: 0, addr: 0 }; 4096];
    let t = text_reader::read_pairs(
        text,
        &mut pairs,
        4096,
        Spot {
            at: 0,
            count: 0,
            low: 0,
            bad: 0,
        },
    );
    let s = begin(g, img, t, text.len());
    let n = turns(t);
    store_pairs(g, img, &pairs, n, s)
}

// Import on a chip of a known geometry.
pub fn import_on(g: Geometry, img: &mut [u8], text: &[u8]) -> Row
    requires { Known g }
    ensures { told_by result img.new ≡ importing g img.old text.now }
{
    let n = chip_read::good_blocks(g, &*img);
    if n == 0 {
        return call_answers::row_of(Answer::Length);
    }
    import_text(g, &mut *img, text)
}
