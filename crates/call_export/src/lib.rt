// Export of request 13: judged first, then the text of the map, measured before any byte of it is written.
#![tactic(auto, using(crate::specs::Exports::exporter_laws))]

ghost use Rattle.std.specs.Prelude.{[], ◌∷◌, ◌≡◌, ◌+◌, ◌*◌, ◌≤◌, ◌<◌, length};
ghost use Rattle.std.proofs.lemmas.List.Edits.{sets};
ghost use Rattle.geometry.specs.Shape.{Known};
ghost use Rattle.geometry.specs.Bounds.{four_bytes};
ghost use Rattle.model.specs.Bytes.{node_at};
ghost use Rattle.model.specs.Tree.{under, map_of};
ghost use Rattle.call_answers.specs.Answers.{plain, told_by};
ghost use Rattle.chip_read.specs.Chip.{chip_with};
ghost use Rattle.text_decimals.specs.Decimals.{decimal};
ghost use Rattle.text_carrying.specs.Carrying.{text_of, word, exports, exporting};
ghost use Rattle.call_export.specs.Exporter.{line_text, after, exported_in};

use call_answers::{Answer, Row};
use geometry::{Broken, Entry, Geometry};

// How far the writer has come: records so far, and the place of the next line.
#[derive(Clone, Copy)]
pub struct Written {
    pub records: usize,
    pub at: usize,
}

// A number's digits from a place on. Gives the place after them.
#[tactic(auto, using(crate::specs::Exports::value_laws))]
fn put_value(text: &mut [u8], at: usize, n: u32) -> usize
    requires { at ≤ 1000000000011 }
    ensures place { (result ≡ at + length (decimal n)) × (result ≤ at + 10) }
    ensures bytes { text.new ≡ sets text.old at (decimal n) }
{
    text_decimals::put_number(&mut *text, at, u64::from(n))
}

// A record's line from a place on. Gives the place after it. Nothing is put outside the text.
fn put_record(text: &mut [u8], at: usize, entry: Entry) -> usize
    requires { at ≤ 1000000000000 }
    ensures place { (result ≡ at + length (line_text entry)) × (result ≤ at + 22) }
    ensures bytes { text.new ≡ sets text.old at (line_text entry) }
{
    let tab = put_value(&mut *text, at, entry.key);
    text_lines::put_byte(&mut *text, tab, 9);
    let end = put_value(&mut *text, tab + 1, entry.addr);
    text_lines::put_byte(&mut *text, end, 10);
    end + 1
}

// One record more.
#[tactic(auto, using(crate::specs::Exports::record_laws))]
fn write_record(text: &mut [u8], w: Written, entry: Entry) -> Written
    requires { (w.at ≤ 22 * w.records) × (w.records < four_bytes) }
    ensures count { (result ≡ after w (entry ∷ [])) × (result.at ≤ 22 * result.records) }
    ensures bytes { text.new ≡ sets text.old w.at (text_of (entry ∷ [])) }
{
    let at = put_record(&mut *text, w.at, entry);
    Written {
        records: w.records + 1,
        at,
    }
}

// The lines of the records under an entry at a level, after those written so far.
fn write_under(
    g: Geometry,
    img: &[u8],
    text: &mut [u8],
    w: Written,
    level: u32,
    entry: Entry,
) -> Written
    requires { (w.at ≤ 22 * w.records) × (w.records + length (under (node_at g img.now) level
        entry) < four_bytes) }
    ensures count { (result ≡ after w (under (node_at g img.now) level entry)) ×
        (result.at ≤ 22 * result.records) }
    ensures bytes { text.new ≡ sets text.old w.at
        (text_of (under (node_at g img.now) level entry)) }
{
    if level == 0 {
        return write_record(&mut *text, w, entry);
    }
    let at = chip_read::node_place(g, entry.addr, level);
    let n = chip_read::node_count(g, img, entry.addr, level);
    let mut so_far = w;
    for i in 0..n {
        let below = chip_read::entry_at(img, at + 8 * i);
        so_far = write_under(g, img, &mut *text, so_far, level - 1, below);
    }
    so_far
}

fn narrow(x: usize) -> u32
    ensures { result ≡ word x }
{
    (x % 4294967296) as u32
}

// DONE, with records, bytes of the text and bytes written.
fn done(records: u32, size: u32, written: u32) -> Row
    ensures { result ≡ plain 0 records size written }
{
    call_answers::row_of(Answer::Done(records, size, written))
}

// The text of a tree, from its root: all of it, or none if the lent text is too short.
fn write_tree(g: Geometry, img: &[u8], text: &mut [u8], level: u32, root: u32) -> Row
    requires { (level < 255) × (length (map_of (chip_with g img.now level root)) < four_bytes) }
    ensures { told_by result text.new ≡ exports (map_of (chip_with g img.now level root))
        text.old }
{
    let top = Entry { key: 0, addr: root };
    let mut nothing: [u8; 1] = [0; 1];
    let first = Written { records: 0, at: 0 };
    let measured = write_under(g, img, &mut nothing[..0], first, level + 1, top);
    let records = narrow(measured.records);
    let size = narrow(measured.at);
    if text.len() < measured.at {
        return done(records, size, 0);
    }
    write_under(g, img, &mut *text, first, level + 1, top);
    done(records, size, size)
}

// Export on n blocks, with a lent table for the judge.
fn export_blocks(g: Geometry, img: &[u8], table: &mut [u8], n: u16, text: &mut [u8]) -> Row
    requires { Known g × (n ≤ 1024) × (65536 ≤ length table.old) }
    ensures { told_by result text.new ≡ exported_in g n img.now text.old }
{
    let judgement = sound_verdict::judge_image(g, img, &mut *table, n);
    let verdict = judgement.verdict;
    let survey = judgement.survey;
    match verdict {
        Err(Broken { rule, page }) => call_answers::row_of(Answer::Damaged(rule, page)),
        Ok(()) => write_tree(g, img, &mut *text, survey.level, survey.root),
    }
}

// Export on one of the two chips.
pub fn export_on(g: Geometry, img: &[u8], text: &mut [u8]) -> Row
    requires { Known g }
    ensures { told_by result text.new ≡ exporting g img.now text.old }
{
    let n = chip_read::good_blocks(g, img);
    if n == 0 {
        return call_answers::row_of(Answer::Length);
    }
    let mut table: [u8; 65536] = [0; 65536];
    export_blocks(g, img, &mut table, n, &mut *text)
}
