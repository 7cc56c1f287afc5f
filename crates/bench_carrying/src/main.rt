// Request 13's bench cases on three blocks, of the small chip and of the large one. Each import gives a line: answer,
// records stored or the line that is refused, pages programmed, blocks erased, rule and page. Each export gives answer,
// records, bytes of the text, bytes written, rule and page, then the 64 bytes of the buffer, each a full stop before;
// as many of them are lent as the case says.
#![tactic(auto)]

ghost use Rattle.std.specs.Prelude.{◌≡◌, ◌*◌, ◌≤◌, length};

use call_answers::Row;
use std::io;

fn number(rt: &impl Print, n: u32) -> io::Result<()> {
    print!(rt; " {n}")
}

fn tell(rt: &impl Print, w: Row) -> io::Result<()> {
    number(rt, w.answer)?;
    number(rt, w.address)?;
    number(rt, w.programmed)?;
    number(rt, w.erased)?;
    number(rt, w.rule)?;
    number(rt, w.page)?;
    println!(rt)
}

fn bring(rt: &impl Print, kind: u32, img: &mut [u8], text: &[u8]) -> io::Result<()> {
    tell(rt, index::import_text(kind, &mut *img, text))
}

fn carry_into(
    rt: &impl Print,
    kind: u32,
    img: &[u8],
    buffer: &mut [u8],
    lent: usize,
) -> io::Result<()>
    requires { (lent ≤ 64) × (length buffer.old ≡ 64) }
{
    tell(rt, index::export_text(kind, img, &mut buffer[..lent]))?;
    rt.write_all(&*buffer)?;
    println!(rt)
}

fn carry(rt: &impl Print, kind: u32, img: &[u8], lent: usize) -> io::Result<()>
    requires { lent ≤ 64 }
{
    let mut buffer: [u8; 64] = [46; 64];
    carry_into(rt, kind, img, &mut buffer, lent)
}

// Lengths, a geometry that is none, an image that is damaged.
fn no_index(rt: &impl Print, kind: u32, img: &mut [u8]) -> io::Result<()> {
    carry(rt, kind, &img[..0], 64)?;
    carry(rt, 2, &*img, 64)?;
    carry(rt, kind, &*img, 64)?;
    bring(rt, 2, &mut *img, b"1\t2\n")?;
    bring(rt, kind, &mut img[..0], b"no text\n")
}

// No record, then three records there and back.
fn first(rt: &impl Print, kind: u32, img: &mut [u8]) -> io::Result<()> {
    no_index(rt, kind, &mut *img)?;
    bring(rt, kind, &mut *img, b"")?;
    carry(rt, kind, &*img, 64)?;
    bring(
        rt,
        kind,
        &mut *img,
        b"0\t0\n10\t4294967295\n4294967295\t7\n",
    )?;
    carry(rt, kind, &*img, 64)?;
    carry(rt, kind, &*img, 31)?;
    carry(rt, kind, &*img, 30)?;
    carry(rt, kind, &*img, 0)
}

// Texts that are refused, each at its lowest bad line. A line's form:
fn no_form(rt: &impl Print, kind: u32, img: &mut [u8]) -> io::Result<()> {
    bring(rt, kind, &mut *img, b"\n")?;
    bring(rt, kind, &mut *img, b"1\n")?;
    bring(rt, kind, &mut *img, b"1\t\n")?;
    bring(rt, kind, &mut *img, b"\t1\n")?;
    bring(rt, kind, &mut *img, b"1\t2\t3\n")?;
    bring(rt, kind, &mut *img, b"1 2\n")
}

// its numbers:
fn no_number(rt: &impl Print, kind: u32, img: &mut [u8]) -> io::Result<()> {
    bring(rt, kind, &mut *img, b"01\t2\n")?;
    bring(rt, kind, &mut *img, b"1\t00\n")?;
    bring(rt, kind, &mut *img, b"-1\t2\n")?;
    bring(rt, kind, &mut *img, b"1\t2\r\n")?;
    bring(rt, kind, &mut *img, b"4294967296\t2\n")?;
    bring(rt, kind, &mut *img, b"1\t18446744073709551617\n")
}

// later lines, and two at once:
fn later(rt: &impl Print, kind: u32, img: &mut [u8]) -> io::Result<()> {
    bring(rt, kind, &mut *img, b"1\t2\n3\t4")?;
    bring(rt, kind, &mut *img, b"1\t2\n3\t4\n\n")?;
    bring(rt, kind, &mut *img, b"1\t2\n1\t4\n5\t6\n")?;
    bring(rt, kind, &mut *img, b"1\t2\n3\t4\n2\t6\n")?;
    bring(rt, kind, &mut *img, b"1\t2\n3\t4\n3\t4\n05\t6\n7")
}

// the image stays as it was.
fn refused(rt: &impl Print, kind: u32, img: &mut [u8]) -> io::Result<()> {
    no_form(rt, kind, &mut *img)?;
    no_number(rt, kind, &mut *img)?;
    later(rt, kind, &mut *img)?;
    carry(rt, kind, &*img, 64)
}

fn digit(n: usize) -> u8 {
    (48 + n % 10) as u8
}

// Line i, of 7 bytes: a key of four digits from 1000 on, and the address 7.
fn put_line(text: &mut [u8], i: usize)
    requires { i ≤ 5000 }
{
    let key = 1000 + i;
    let at = 7 * i;
    text_lines::put_byte(&mut *text, at, digit(key / 1000));
    text_lines::put_byte(&mut *text, at + 1, digit(key / 100));
    text_lines::put_byte(&mut *text, at + 2, digit(key / 10));
    text_lines::put_byte(&mut *text, at + 3, digit(key));
    text_lines::put_byte(&mut *text, at + 4, 9);
    text_lines::put_byte(&mut *text, at + 5, 55);
    text_lines::put_byte(&mut *text, at + 6, 10);
}

fn put_lines(text: &mut [u8]) {
    for i in 0..4097 {
        put_line(&mut *text, i);
    }
}

// The first n lines.
fn some(rt: &impl Print, kind: u32, img: &mut [u8], text: &[u8], n: usize) -> io::Result<()>
    requires { (n ≤ 4097) × (length text.now ≡ 28679) }
{
    bring(rt, kind, &mut *img, &text[..7 * n])?;
    carry(rt, kind, &*img, 0)
}

// A leaf's worth, several leaves, more than there is room for, and a line too many.
fn many(rt: &impl Print, kind: u32, img: &mut [u8], first: usize, second: usize) -> io::Result<()>
    requires { (first ≤ 4097) × (second ≤ 4097) }
{
    let mut text: [u8; 28679] = [0; 28679];
    put_lines(&mut text);
    some(rt, kind, &mut *img, &text, first)?;
    some(rt, kind, &mut *img, &text, second)?;
    some(rt, kind, &mut *img, &text, 4097)
}

fn small(rt: &impl Print) -> io::Result<()> {
    let mut image: [u8; 50688] = [255; 50688];
    println!(rt; "small")?;
    first(rt, 0, &mut image)?;
    refused(rt, 0, &mut image)?;
    many(rt, 0, &mut image, 63, 700)
}

fn large(rt: &impl Print) -> io::Result<()> {
    let mut image: [u8; 405504] = [255; 405504];
    println!(rt; "large")?;
    first(rt, 1, &mut image)?;
    refused(rt, 1, &mut image)?;
    many(rt, 1, &mut image, 10, 300)
}

fn main(rt: HostRuntime) -> io::Result<()> {
    small(&rt)?;
    large(&rt)
}
