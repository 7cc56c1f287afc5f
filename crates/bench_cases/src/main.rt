// Document 01's bench cases on three blocks, of the small chip and of the large one: bad lengths and bytes of 255
// through all calls, format and as many keys as a root of level 1 stores, one key more with an allowance of 1 and in
// full, the next key, a key inserted and deleted, and patrols of a half with no, one and two flipped bits. Each call
// gives a line: answer, address (of a patrol what it found), programmed (of a patrol the bit), erased. A page gives a
// line for each level that it counts: page, sequence number, height, level, entries, then key and address, of a leaf's
// first and last entry and of each entry above.
#![tactic(auto)]

ghost use Rattle.std.specs.Prelude.{◌<◌, ◌≤◌};

use call_answers::Answer;
use geometry::{Entry, Geometry};
use std::io;

// A chip by its number and geometry, and the entries that its root of level 1 stores.
#[derive(Clone, Copy)]
struct Bench {
    kind: u32,
    geometry: Geometry,
    full: u32,
}

fn number(rt: &impl Print, n: u32) -> io::Result<()> {
    print!(rt; " {n}")
}

fn line(rt: &impl Print) -> io::Result<()> {
    println!(rt)
}

fn tell(rt: &impl Print, a: Answer) -> io::Result<()> {
    let w = call_answers::row_of(a);
    number(rt, w.answer)?;
    number(rt, w.address)?;
    number(rt, w.programmed)?;
    number(rt, w.erased)?;
    line(rt)
}

fn entry(rt: &impl Print, e: Entry) -> io::Result<()> {
    number(rt, e.key)?;
    number(rt, e.addr)
}

// The page on which the root is.
fn root_page(bench: Bench, img: &[u8]) -> u32 {
    chip_survey::take_survey(bench.geometry, img, 3).root
}

fn show_head(rt: &impl Print, bench: Bench, img: &[u8], page: u32, level: u32) -> io::Result<()> {
    print!(rt; "  page")?;
    number(rt, page)?;
    number(rt, chip_read::seq_at(bench.geometry, img, page))?;
    number(rt, chip_read::height_at(bench.geometry, img, page))?;
    number(rt, level)
}

// How many entries a node has, its first and its last.
fn show_ends(rt: &impl Print, img: &[u8], at: usize, n: usize) -> io::Result<()>
    requires { (1 ≤ n) × (n < 256) × (at < 1152921504606846976) }
{
    print!(rt; " {n}")?;
    entry(rt, chip_read::entry_at(img, at))?;
    entry(rt, chip_read::entry_at(img, at + 8 * (n - 1)))?;
    line(rt)
}

// How many entries a node has, and each of them.
fn show_entries(rt: &impl Print, img: &[u8], at: usize, n: usize) -> io::Result<()>
    requires { (n < 256) × (at < 1152921504606846976) }
{
    print!(rt; " {n}")?;
    for i in 0..n {
        entry(rt, chip_read::entry_at(img, at + 8 * i))?;
    }
    line(rt)
}

fn show_leaf(rt: &impl Print, bench: Bench, img: &[u8], page: u32) -> io::Result<()> {
    let n = chip_read::node_count(bench.geometry, img, page, 1);
    if n == 0 {
        return Ok(());
    }
    show_head(rt, bench, img, page, 1)?;
    let at = chip_read::node_place(bench.geometry, page, 1);
    show_ends(rt, img, at, n)
}

fn show_inner(rt: &impl Print, bench: Bench, img: &[u8], page: u32) -> io::Result<()> {
    let n = chip_read::node_count(bench.geometry, img, page, 2);
    if n == 0 {
        return Ok(());
    }
    show_head(rt, bench, img, page, 2)?;
    let at = chip_read::node_place(bench.geometry, page, 2);
    show_entries(rt, img, at, n)
}

fn show_page(rt: &impl Print, bench: Bench, img: &[u8], page: u32) -> io::Result<()> {
    show_leaf(rt, bench, img, page)?;
    show_inner(rt, bench, img, page)
}

fn holds(bench: Bench, img: &[u8], key: u32) -> bool {
    let w = call_answers::row_of(index::lookup(bench.kind, img, key));
    w.answer == 0
}

// How many of the keys 1 to n are found.
fn found(rt: &impl Print, bench: Bench, img: &[u8], n: u32) -> io::Result<()> {
    let mut held: u32 = 0;
    for key in 0..n {
        if holds(bench, img, key + 1) {
            if held < n {
                held += 1;
            }
        }
    }
    print!(rt; "keys held")?;
    number(rt, held)?;
    line(rt)
}

// An insert with words of its own.
fn put(bench: Bench, img: &mut [u8], key: u32, addr: u32, allowance: u32) -> Answer {
    let mut lent: [u32; 2048] = [0; 2048];
    index::insert(bench.kind, &mut *img, &mut lent, key, addr, allowance)
}

// A delete with words of its own.
fn remove(bench: Bench, img: &mut [u8], key: u32, allowance: u32) -> Answer {
    let mut lent: [u32; 2048] = [0; 2048];
    index::delete(bench.kind, &mut *img, &mut lent, key, allowance)
}

fn insert(rt: &impl Print, bench: Bench, img: &mut [u8], key: u32) -> io::Result<()> {
    print!(rt; "insert")?;
    number(rt, key)?;
    print!(rt; ":")?;
    tell(rt, put(bench, &mut *img, key, key, 4294967295))
}

fn show_root(rt: &impl Print, bench: Bench, img: &[u8]) -> io::Result<()> {
    print!(rt; "  root on page")?;
    number(rt, root_page(bench, img))?;
    line(rt)
}

// As many keys as a root of level 1 stores, from 1 on: a page each.
fn fill(rt: &impl Print, bench: Bench, img: &mut [u8]) -> io::Result<()> {
    for key in 0..bench.full {
        insert(rt, bench, &mut *img, key + 1)?;
        show_root(rt, bench, &*img)?;
    }
    Ok(())
}

fn format(rt: &impl Print, bench: Bench, img: &mut [u8]) -> io::Result<()> {
    print!(rt; "format:")?;
    tell(rt, index::format(bench.kind, &mut *img))
}

fn show_erased(rt: &impl Print, bench: Bench, img: &[u8], page: u32) -> io::Result<()> {
    print!(rt; "  erased page")?;
    number(rt, page)?;
    if chip_read::page_erased(bench.geometry, img, page) {
        println!(rt; " yes")?;
    } else {
        println!(rt; " no")?;
    }
    Ok(())
}

// Whether the first page of each of the three blocks is erased.
fn show_blocks(rt: &impl Print, bench: Bench, img: &[u8]) -> io::Result<()> {
    show_erased(rt, bench, img, 0)?;
    show_erased(rt, bench, img, bench.geometry.pages as u32)?;
    show_erased(rt, bench, img, 2 * (bench.geometry.pages as u32))
}

// One key more with an allowance of 1: one store and no more.
fn stopped(rt: &impl Print, bench: Bench, img: &mut [u8], key: u32) -> io::Result<()> {
    format(rt, bench, &mut *img)?;
    fill(rt, bench, &mut *img)?;
    print!(rt; "insert")?;
    number(rt, key)?;
    print!(rt; " with allowance 1:")?;
    tell(rt, put(bench, &mut *img, key, key, 1))?;
    show_blocks(rt, bench, &*img)?;
    found(rt, bench, &*img, key)
}

// The page before the root's, and the root's.
fn show_last(rt: &impl Print, bench: Bench, img: &[u8]) -> io::Result<()> {
    let root = root_page(bench, img);
    if 0 < root {
        show_page(rt, bench, img, root - 1)?;
    }
    show_page(rt, bench, img, root)
}

// Format and a full root of level 1, then one key more: the root is halved.
fn grows(rt: &impl Print, bench: Bench, img: &mut [u8], key: u32) -> io::Result<()> {
    format(rt, bench, &mut *img)?;
    fill(rt, bench, &mut *img)?;
    found(rt, bench, &*img, key)?;
    insert(rt, bench, &mut *img, key)?;
    show_last(rt, bench, &*img)?;
    found(rt, bench, &*img, key)
}

// The next key: its leaf is full and is halved.
fn splits(rt: &impl Print, bench: Bench, img: &mut [u8], key: u32) -> io::Result<()> {
    insert(rt, bench, &mut *img, key)?;
    show_last(rt, bench, &*img)?;
    found(rt, bench, &*img, key)
}

// The root at level 1, an empty one too.
fn show_root_leaf(rt: &impl Print, bench: Bench, img: &[u8]) -> io::Result<()> {
    let page = root_page(bench, img);
    let n = chip_read::node_count(bench.geometry, img, page, 1);
    show_head(rt, bench, img, page, 1)?;
    let at = chip_read::node_place(bench.geometry, page, 1);
    show_entries(rt, img, at, n)
}

fn delete(rt: &impl Print, bench: Bench, img: &mut [u8], key: u32) -> io::Result<()> {
    print!(rt; "delete")?;
    number(rt, key)?;
    print!(rt; ":")?;
    tell(rt, remove(bench, &mut *img, key, 4294967295))?;
    show_root(rt, bench, &*img)?;
    show_root_leaf(rt, bench, &*img)
}

fn comes_and_goes(rt: &impl Print, bench: Bench, img: &mut [u8]) -> io::Result<()> {
    format(rt, bench, &mut *img)?;
    insert(rt, bench, &mut *img, 7)?;
    delete(rt, bench, &mut *img, 7)?;
    delete(rt, bench, &mut *img, 7)
}

fn flip(img: &mut [u8], at: usize, bit: u8) {
    if at < img.len() {
        img[at] = img[at] ^ bit;
    }
}

fn patrol(rt: &impl Print, bench: Bench, img: &mut [u8], page: u32, half: u32) -> io::Result<()> {
    print!(rt; "patrol of page")?;
    number(rt, page)?;
    print!(rt; " half")?;
    number(rt, half)?;
    print!(rt; ":")?;
    tell(rt, index::patrol(bench.kind, &mut *img, page, half))
}

// Bits of one byte flipped, and half 1 of page 1 patrolled: the keys held before it and after.
fn mends(rt: &impl Print, bench: Bench, img: &mut [u8], at: usize, bits: u8) -> io::Result<()> {
    flip(&mut *img, at, bits);
    found(rt, bench, &*img, 7)?;
    patrol(rt, bench, &mut *img, 1, 1)?;
    found(rt, bench, &*img, 7)
}

// The half with bit 356 flipped, with bit 19 of its code flipped, and with bits 356 and 357 flipped.
fn flipped(rt: &impl Print, bench: Bench, img: &mut [u8]) -> io::Result<()> {
    let base = geometry::page_base(bench.geometry, 1);
    let code = geometry::code_place(bench.geometry, 1);
    mends(rt, bench, &mut *img, base + 300, 16)?;
    mends(rt, bench, &mut *img, base + code + 2, 8)?;
    mends(rt, bench, &mut *img, base + 300, 48)
}

// A whole half, an erased one, and a page and a half that the image has not.
fn clean(rt: &impl Print, bench: Bench, img: &mut [u8], pages: u32, halves: u32) -> io::Result<()> {
    patrol(rt, bench, &mut *img, 1, 1)?;
    patrol(rt, bench, &mut *img, 2, 0)?;
    patrol(rt, bench, &mut *img, pages, 0)?;
    patrol(rt, bench, &mut *img, 1, halves)
}

fn patrols(
    rt: &impl Print,
    bench: Bench,
    img: &mut [u8],
    pages: u32,
    halves: u32,
) -> io::Result<()> {
    format(rt, bench, &mut *img)?;
    insert(rt, bench, &mut *img, 7)?;
    clean(rt, bench, &mut *img, pages, halves)?;
    flipped(rt, bench, &mut *img)
}

// All calls on bytes that are no index.
fn refused(rt: &impl Print, bench: Bench, img: &mut [u8]) -> io::Result<()> {
    print!(rt; "length {}", img.len())?;
    line(rt)?;
    print!(rt; "  lookup:")?;
    tell(rt, index::lookup(bench.kind, &*img, 7))?;
    print!(rt; "  insert:")?;
    tell(rt, put(bench, &mut *img, 7, 7, 4294967295))?;
    print!(rt; "  delete:")?;
    tell(rt, remove(bench, &mut *img, 7, 4294967295))?;
    print!(rt; "  patrol:")?;
    tell(rt, index::patrol(bench.kind, &mut *img, 0, 0))?;
    print!(rt; "  format:")?;
    tell(rt, index::format(bench.kind, &mut *img))
}

// A chip's cases on an image of three blocks.
fn cases(rt: &impl Print, bench: Bench, img: &mut [u8], more: u32, next: u32) -> io::Result<()> {
    stopped(rt, bench, &mut *img, more)?;
    grows(rt, bench, &mut *img, more)?;
    splits(rt, bench, &mut *img, next)?;
    comes_and_goes(rt, bench, &mut *img)
}

// Lengths that are refused, and 50,688 bytes of 255.
fn small_chip(rt: &impl Print) -> io::Result<()> {
    let bench = Bench {
        kind: 0,
        geometry: Geometry::small(),
        full: 63,
    };
    println!(rt; "small chip")?;
    let mut none: [u8; 0] = [255; 0];
    refused(rt, bench, &mut none)?;
    let mut two_blocks: [u8; 33792] = [255; 33792];
    refused(rt, bench, &mut two_blocks)?;
    let mut one_short: [u8; 50687] = [255; 50687];
    refused(rt, bench, &mut one_short)?;
    let mut blank: [u8; 50688] = [255; 50688];
    refused(rt, bench, &mut blank)?;
    let mut image: [u8; 50688] = [0; 50688];
    cases(rt, bench, &mut image, 64, 65)?;
    patrols(rt, bench, &mut image, 96, 2)
}

// The same of the large chip, whose three blocks have 405,504 bytes.
fn large_chip(rt: &impl Print) -> io::Result<()> {
    let bench = Bench {
        kind: 1,
        geometry: Geometry::large(),
        full: 255,
    };
    println!(rt; "large chip")?;
    let mut two_blocks: [u8; 270336] = [255; 270336];
    refused(rt, bench, &mut two_blocks)?;
    let mut one_short: [u8; 405503] = [255; 405503];
    refused(rt, bench, &mut one_short)?;
    let mut blank: [u8; 405504] = [255; 405504];
    refused(rt, bench, &mut blank)?;
    let mut image: [u8; 405504] = [0; 405504];
    cases(rt, bench, &mut image, 256, 257)?;
    patrols(rt, bench, &mut image, 192, 8)
}

// A number that is no geometry's: LENGTH, whatever the image.
fn no_chip(rt: &impl Print) -> io::Result<()> {
    let bench = Bench {
        kind: 2,
        geometry: Geometry::large(),
        full: 0,
    };
    println!(rt; "number 2")?;
    let mut small: [u8; 50688] = [255; 50688];
    refused(rt, bench, &mut small)?;
    let mut large: [u8; 405504] = [255; 405504];
    refused(rt, bench, &mut large)
}

fn main(rt: HostRuntime) -> io::Result<()> {
    small_chip(&rt)?;
    large_chip(&rt)?;
    no_chip(&rt)
}
