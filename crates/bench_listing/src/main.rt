// Request 1's bench cases on three blocks, of the small chip and of the large one: bad lengths and bytes of 255, an
// index without a pair, then keys 10, 20, .. with addresses 11, 21, .., more than a root of level 1 stores. Each
// listing gives a line: answer, pairs that exist, pairs written, 0, rule and page, then the nine numbers of the buffer,
// each 7 before; as many of them are lent as the case says.
#![tactic(auto)]

ghost use Rattle.std.specs.Prelude.{◌≡◌, ◌≤◌, length};

use call_answers::Answer;
use std::io;

// The numbers of a buffer.
fn numbers(rt: &impl Print, buffer: &[u32]) -> io::Result<()> {
    for n in buffer {
        print!(rt; " {n}")?;
    }
    println!(rt)
}

fn tell(rt: &impl Print, a: Answer) -> io::Result<()> {
    let w = call_answers::row_of(a);
    print!(rt;
        " {} {} {} {} {} {}",
        w.answer, w.address, w.programmed, w.erased, w.rule, w.page
    )
}

// A listing from low to high with the first numbers of a buffer.
fn list_into(
    rt: &impl Print,
    kind: u32,
    img: &[u8],
    low: u32,
    high: u32,
    buffer: &mut [u32],
    lent: usize,
) -> io::Result<()>
    requires { (lent ≤ 9) × (length buffer.old ≡ 9) }
{
    print!(rt; " {low} {high} {lent}:")?;
    tell(rt, index::list(kind, img, low, high, &mut buffer[..lent]))?;
    print!(rt; ",")?;
    numbers(rt, &*buffer)
}

fn list(rt: &impl Print, kind: u32, img: &[u8], low: u32, high: u32, lent: usize) -> io::Result<()>
    requires { lent ≤ 9 }
{
    let mut buffer: [u32; 9] = [7; 9];
    list_into(rt, kind, img, low, high, &mut buffer, lent)
}

// An insert with words of its own.
fn put(kind: u32, img: &mut [u8], key: u32, addr: u32) {
    let mut lent: [u32; 2048] = [0; 2048];
    index::insert(kind, &mut *img, &mut lent, key, addr, 4294967295);
}

// Keys 10, 20, .. to 10 n.
fn fill(kind: u32, img: &mut [u8], n: u32)
    requires { n ≤ 1000 }
{
    for i in 1..n + 1 {
        put(kind, &mut *img, 10 * i, 10 * i + 1);
    }
}

// What an index with keys 10, 20, .. to `last` lists: all, both ends taken in and not, an odd buffer, across two
// leaves, no pair.
fn cases(rt: &impl Print, kind: u32, img: &[u8], last: u32) -> io::Result<()> {
    list(rt, kind, img, 0, 4294967295, 9)?;
    list(rt, kind, img, 25, 55, 9)?;
    list(rt, kind, img, 30, 60, 9)?;
    list(rt, kind, img, 30, 59, 7)?;
    list(rt, kind, img, 31, 60, 8)?;
    list(rt, kind, img, 310, 350, 9)?;
    list(rt, kind, img, last, 4294967295, 3)?;
    list(rt, kind, img, 0, 10, 2)?;
    list(rt, kind, img, 20, 40, 1)?;
    list(rt, kind, img, 20, 40, 0)?;
    list(rt, kind, img, 0, 9, 9)?;
    list(rt, kind, img, 41, 49, 9)?;
    list(rt, kind, img, 60, 30, 9)
}

// Format, a listing of nothing, n keys, and the cases.
fn index_of(rt: &impl Print, kind: u32, img: &mut [u8], n: u32) -> io::Result<()>
    requires { n ≤ 1000 }
{
    list(rt, kind, &*img, 0, 4294967295, 9)?;
    index::format(kind, &mut *img);
    list(rt, kind, &*img, 0, 4294967295, 9)?;
    fill(kind, &mut *img, n);
    cases(rt, kind, &*img, 10 * n)
}

fn small(rt: &impl Print) -> io::Result<()> {
    let mut image: [u8; 50688] = [255; 50688];
    println!(rt; "small, lengths 0 and 50687, and no geometry")?;
    list(rt, 0, &image[..0], 0, 4294967295, 9)?;
    list(rt, 0, &image[..50687], 0, 4294967295, 9)?;
    list(rt, 2, &image, 0, 4294967295, 9)?;
    println!(rt; "small, 100 keys")?;
    index_of(rt, 0, &mut image, 100)
}

fn large(rt: &impl Print) -> io::Result<()> {
    let mut image: [u8; 405504] = [255; 405504];
    println!(rt; "large, 300 keys")?;
    index_of(rt, 1, &mut image, 300)
}

fn main(rt: HostRuntime) -> io::Result<()> {
    small(&rt)?;
    large(&rt)
}
