// The patrol of one half of a page.
#![tactic(auto)]

ghost use Rattle.std.specs.Prelude.{◌≡◌, ◌+◌, ◌*◌, ◌-◌, ◌^◌, ◌≤◌, ◌<◌, length};
ghost use Rattle.model.specs.Calls.{finding_of, bit_of, patrol};
ghost use Rattle.model.specs.Codes.{◌⊕◌, flip_bit, in_pairs, found, mended};
ghost use Rattle.call_answers.specs.Answers.{told};

use call_answers::Answer;
use geometry::{Geometry, Patrol};

// The bits in which two codes differ.
fn difference(x: u32, f: u32) -> u32
    requires { (x < 16777216) × (f < 16777216) }
    ensures { (result ≡ x ⊕ f) × (result < 16777216) }
{
    x ^ f
}

// Whether exactly one bit differs in each pair of E and G, and none elsewhere.
fn in_pairs(d: u32) -> bool
    ensures { result ≡ in_pairs d }
{
    if 4194304 <= d {
        return false;
    }
    d % 2048 ^ d / 2048 % 2048 == 2047
}

fn bit(j: u32) -> u8
    requires { j < 8 }
    ensures { result ≡ 2 ^ j }
{
    1 << j
}

// Turns over bit n of the bytes from `at`.
fn flip_bit(img: &mut [u8], at: usize, n: u32)
    requires { (at + 256 ≤ length img.old) × (n < 2048) }
    ensures { img.new ≡ flip_bit img.old at n }
{
    let b = bit(n % 8);
    let i = geometry::index(n / 8);
    img[at + i] = img[at + i] ^ b;
}

// The patrol of the 256 bytes from `at` and the code at c.
fn patrol_half(img: &mut [u8], at: usize, c: usize) -> Patrol
    requires { (at + 256 ≤ length img.old) × (at < 1152921504606846976) × (c < 1152921504606846976) }
    ensures found { result ≡ found img.old at c }
    ensures image { img.new ≡ mended img.old at c (found img.old at c) }
{
    let fresh = chip_codes::fresh_code(&*img, at);
    let d = difference(chip_read::code_at(&*img, c), fresh);
    if d == 0 {
        return Patrol::Clean;
    }
    if in_pairs(d) {
        flip_bit(&mut *img, at, d % 2048);
        return Patrol::DataMended(d % 2048);
    }
    if u32::count_ones(d) == 1 {
        chip_page::put_code(&mut *img, c, fresh);
        return Patrol::CodeMended(u32::trailing_zeros(d));
    }
    Patrol::Beyond
}

// The number of what was found.
fn finding(p: Patrol) -> u32
    ensures { result ≡ finding_of p }
{
    match p {
        Patrol::Clean => 0,
        Patrol::DataMended(_) => 1,
        Patrol::CodeMended(_) => 2,
        Patrol::Beyond => 3,
    }
}

// The number of the bit that was mended.
fn mended_bit(p: Patrol) -> u32
    ensures { result ≡ bit_of p }
{
    match p {
        Patrol::Clean => 0,
        Patrol::DataMended(n) => n,
        Patrol::CodeMended(j) => j,
        Patrol::Beyond => 0,
    }
}

// The patrol of a half of a page.
pub fn patrol_on(g: Geometry, img: &mut [u8], page: u32, half: u32) -> Answer
    ensures { told result img.new ≡ patrol g img.old page half }
{
    let pages = chip_read::first_page(g, chip_read::good_blocks(g, &*img));
    if pages <= page {
        return Answer::Length;
    }
    let i = geometry::index(half);
    if geometry::halves(g) <= i {
        return Answer::Length;
    }
    let base = geometry::page_base(g, page);
    let place = geometry::code_place(g, i);
    let p = patrol_half(&mut *img, base + 256 * i, base + place);
    Answer::Done(finding(p), mended_bit(p), 0)
}
