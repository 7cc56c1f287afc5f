// The two stores, and stores under an allowance. Only `program_page` and `erase_block` write an image.
#![tactic(auto, using(crate::specs::TwoStores::store_laws))]

ghost use Rattle.std.specs.Prelude.{◌≡◌, [], ◌∷◌, ◌+◌, ◌*◌, ◌<◌, ◌≤◌, length, set, take};
ghost use Rattle.geometry.specs.Geometry.{page_bytes, page_base};
ghost use Rattle.model.specs.Bytes.{byte_at};
ghost use Rattle.model.specs.Stores.{Store, written, apply_store};
ghost use Rattle.chip_store.specs.Run.{Ran, halt, Countable};

use geometry::Geometry;

fn byte_of(bytes: &[u8], at: usize) -> u8
    ensures { result ≡ byte_at bytes.now at }
{
    if at < bytes.len() {
        return bytes[at];
    }
    0
}

// One byte; outside the image nothing.
fn put(img: &mut [u8], at: usize, b: u8)
    ensures { img.new ≡ set img.old at b }
{
    if at < img.len() {
        img[at] = b;
    }
}

// n bytes of a buffer, one by one, where the image or the buffer is too short for them.
fn copy_bytes(img: &mut [u8], at: usize, bytes: &[u8], n: usize)
    requires { at + n < 1152921504606846976 }
    ensures { img.new ≡ written img.old at (byte_at bytes.now) n }
{
    for j in 0..n {
        put(img, at + j, byte_of(bytes, j));
    }
}

// Fills a part with the first bytes of a buffer. Stays a loop: of `copy_from_slice` the compiler makes a memmove, and the
// archive for C asks the C library for memcpy and memset alone.
fn copy_part(part: &mut [u8], bytes: &[u8])
    requires { length part.old ≤ length bytes.now }
    ensures { part.new ≡ written part.old 0 (byte_at bytes.now) (length part.old) }
{
    for j in 0..part.len() {
        part[j] = bytes[j];
    }
}

// n bytes of a buffer into the image from `at` on; nothing outside it.
fn copy(img: &mut [u8], at: usize, bytes: &[u8], n: usize)
    requires { at + n < 1152921504606846976 }
    ensures { img.new ≡ written img.old at (byte_at bytes.now) n }
{
    let end = at + n;
    if img.len() < end || bytes.len() < n {
        copy_bytes(img, at, bytes, n);
        return;
    }
    copy_part(&mut img[at..end], bytes);
}

// n bytes of 255, one by one, where the image is too short for them.
fn blank_bytes(img: &mut [u8], at: usize, n: usize)
    requires { at + n < 1152921504606846976 }
    ensures { img.new ≡ written img.old at (λ k. 255) n }
{
    for j in 0..n {
        put(img, at + j, 255);
    }
}

// n bytes of 255 in the image from `at` on; nothing outside it.
fn blank(img: &mut [u8], at: usize, n: usize)
    requires { at + n < 1152921504606846976 }
    ensures { img.new ≡ written img.old at (λ k. 255) n }
{
    let end = at + n;
    if img.len() < end {
        blank_bytes(img, at, n);
        return;
    }
    img[at..end].fill(255);
}

// Programs one page, whole.
pub fn program_page(g: Geometry, img: &mut [u8], page: u32, bytes: &[u8])
    ensures { img.new ≡ apply_store g (Store.program page bytes.now) img.old }
{
    let at = geometry::page_base(g, page);
    let n = geometry::page_bytes(g);
    copy(img, at, bytes, n);
}

// Erases one block: all its bytes become 255.
pub fn erase_block(g: Geometry, img: &mut [u8], block: u16)
    ensures { img.new ≡ apply_store g (Store.erase block) img.old }
{
    let at = geometry::page_base(g, chip_read::first_page(g, block));
    let n = geometry::page_base(g, u32::from(g.pages));
    blank(img, at, n);
}

// What is left of an allowance, what was made of it, and whether a store was asked for that was not made.
#[derive(Clone, Copy)]
pub struct Budget {
    pub left: u32,
    pub programmed: u32,
    pub erased: u32,
    pub stopped: bool,
}

// A store is not made: no other one is made after it.
fn halted(b: Budget) -> Budget
    ensures { result ≡ halt b }
{
    Budget {
        left: 0,
        programmed: b.programmed,
        erased: b.erased,
        stopped: true,
    }
}

// Programs a page with the first bytes of a buffer, if the allowance has a store left and the page is erased.
pub fn put_page(g: Geometry, img: &mut [u8], b: Budget, page: u32, bytes: &[u8]) -> Budget
    requires { Countable b }
    ensures { Ran g (Store.program page (take (page_bytes g) bytes.now) ∷ []) b result img.old
        img.new }
{
    if b.left == 0 {
        return halted(b);
    }
    let free = chip_read::page_erased(g, img, page);
    if free {
        program_page(g, img, page, bytes);
        return Budget {
            left: b.left - 1,
            programmed: b.programmed + 1,
            erased: b.erased,
            stopped: b.stopped,
        };
    }
    halted(b)
}

// Erases a block, if the allowance has a store left.
pub fn put_erase(g: Geometry, img: &mut [u8], b: Budget, block: u16) -> Budget
    requires { Countable b }
    ensures { Ran g (Store.erase block ∷ []) b result img.old img.new }
{
    if b.left == 0 {
        return halted(b);
    }
    erase_block(g, img, block);
    Budget {
        left: b.left - 1,
        programmed: b.programmed,
        erased: b.erased + 1,
        stopped: b.stopped,
    }
}
