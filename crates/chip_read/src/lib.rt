// What is read of an image. Every read is total: a byte outside the image reads as 0.
#![tactic(auto, using(crate::specs::AllReads::chip_laws))]

ghost use Rattle.std.specs.Prelude.{◌≡◌, ◌+◌, ◌*◌, ◌-◌, ◌≤◌, ◌<◌, eqb, length};
ghost use Rattle.geometry.specs.Tests.{◌&◌};
ghost use Rattle.model.specs.Bytes.{byte_at, u32_at, blank, erased, seq_at, height_at, count_at, tail_at, node_place, node_count};
ghost use Rattle.model.specs.Codes.{code_at};
ghost use Rattle.model.specs.Image.{block_bytes, blocks_of, good_length};
ghost use Rattle.chip_read.specs.Chip.{entry_at, good_blocks};
ghost use Rattle.geometry.specs.Geometry.{page_base};
ghost use Rattle.geometry.specs.Bounds.{four_bytes};

use geometry::{Entry, Geometry};

// The byte at an index.
fn wide_at(img: &[u8], at: usize) -> u32
    ensures { (result ≡ byte_at img.now at) × (result < 256) }
{
    if at < img.len() {
        u32::from(img[at])
    } else {
        0
    }
}

// The number inside the image; it is the largest where its bytes are all 255.
pub fn raw_u32(img: &[u8], at: usize) -> u32
    requires { at + 4 ≤ length img.now }
    ensures value { result ≡ u32_at img.now at }
    ensures result_value { eqb result 4294967295 ≡ blank img.now at 4 }
{
    u32::from_le_bytes([img[at], img[at + 1], img[at + 2], img[at + 3]])
}

// The number across the image's end.
fn edge_u32(img: &[u8], at: usize) -> u32
    requires { at < length img.now }
    ensures { result ≡ u32_at img.now at }
{
    wide_at(img, at)
        + 256 * wide_at(img, at + 1)
        + 65536 * wide_at(img, at + 2)
        + 16777216 * wide_at(img, at + 3)
}

// The number at an index, least byte first.
pub fn read_u32(img: &[u8], at: usize) -> u32
    ensures { result ≡ u32_at img.now at }
{
    let n = img.len();
    if n <= at {
        return 0;
    }
    if n - at < 4 {
        return edge_u32(img, at);
    }
    raw_u32(img, at)
}

// The code at an index, least byte first.
pub fn code_at(img: &[u8], at: usize) -> u32
    ensures { (result ≡ code_at img.now at) × (result < 16777216) }
{
    read_u32(img, at) % 16777216
}

// The slot at an index: key, then address.
pub fn entry_at(img: &[u8], at: usize) -> Entry
    ensures { result ≡ entry_at img.now at }
{
    if img.len() <= at {
        return Entry { key: 0, addr: 0 };
    }
    let key = read_u32(img, at);
    let addr = read_u32(img, at + 4);
    Entry { key, addr }
}

// Whether the n bytes from `at` are all 255, one by one from the last down.
fn bytes_blank(img: &[u8], at: usize, n: usize) -> bool
    requires { at + n < 1152921504606846976 }
    ensures { result ≡ blank img.now at n }
{
    for k in (0..n).rev() {
        if wide_at(img, at + k) != 255 {
            return false;
        }
    }
    true
}

// Eight bytes as one number; it is the largest where they are all 255.
fn eight(img: &[u8], at: usize) -> u64
    requires { at + 8 ≤ length img.now }
    ensures { eqb result 18446744073709551615 ≡ blank img.now at 8 }
{
    u64::from(raw_u32(img, at)) + 4294967296 * u64::from(raw_u32(img, at + 4))
}

// Whether 64 bytes are all 255: eight numbers, one test.
fn line_blank(img: &[u8], at: usize) -> bool
    requires { at + 64 ≤ length img.now }
    ensures { result ≡ blank img.now at 64 }
{
    let mut all = u64::MAX;
    for i in 0..8 {
        all &= eight(img, at + 8 * i);
    }
    all == u64::MAX
}

// Whether eight bytes are all 255.
fn eight_blank(img: &[u8], at: usize) -> bool
    requires { at + 8 ≤ length img.now }
    ensures { result ≡ blank img.now at 8 }
{
    eight(img, at) == u64::MAX
}

// Whether n times eight bytes inside the image are all 255, eight at once from the last down.
fn words_blank(img: &[u8], at: usize, n: usize) -> bool
    requires { (at + 8 * n ≤ length img.now) × (at + 8 * n < 1152921504606846976) }
    ensures { result ≡ blank img.now at (8 * n) }
{
    for k in (0..n).rev() {
        if !eight_blank(img, at + 8 * k) {
            return false;
        }
    }
    true
}

// Whether n times 64 bytes inside the image are all 255, 64 at once from the last down.
fn lines_blank(img: &[u8], at: usize, n: usize) -> bool
    requires { (at + 64 * n ≤ length img.now) × (at + 64 * n < 1152921504606846976) }
    ensures { result ≡ blank img.now at (64 * n) }
{
    for k in (0..n).rev() {
        if !line_blank(img, at + 64 * k) {
            return false;
        }
    }
    true
}

// Whether the n bytes from `at` are all 255, from the last down: a programmed page shows in its spare bytes. What is
// over whole lines of 64 comes first.
fn all_blank(img: &[u8], at: usize, n: usize) -> bool
    requires { at + n < 1152921504606846976 }
    ensures { result ≡ blank img.now at n }
{
    if img.len() < at + n {
        return bytes_blank(img, at, n);
    }
    let lines = n / 64;
    let words = n / 8;
    bytes_blank(img, at + 8 * words, n % 8)
        && words_blank(img, at + 64 * lines, words % 8)
        && lines_blank(img, at, lines)
}

// Whether all bytes of a page are 255.
pub fn page_erased(g: Geometry, img: &[u8], page: u32) -> bool
    ensures { result ≡ erased g img.now page }
{
    let at = geometry::page_base(g, page);
    let n = geometry::page_bytes(g);
    all_blank(img, at, n)
}

// The byte at which the spare bytes of a page begin.
fn spare_base(g: Geometry, page: u32) -> usize
    ensures { (result ≡ page_base g page + g.main) × (result < 562949953486848) }
{
    geometry::page_base(g, page) + geometry::wide(g.main)
}

// The sequence number of a page.
pub fn seq_at(g: Geometry, img: &[u8], page: u32) -> u32
    ensures { result ≡ seq_at g img.now page }
{
    read_u32(img, spare_base(g, page))
}

// The height byte of a page.
pub fn height_at(g: Geometry, img: &[u8], page: u32) -> u32
    ensures { (result ≡ height_at g img.now page) × (result < 256) }
{
    wide_at(img, spare_base(g, page) + 4)
}

// The count byte of a level of a page.
fn count_at(g: Geometry, img: &[u8], page: u32, level: u32) -> usize
    ensures { (result ≡ count_at g img.now page level) × (result < 256) }
{
    let spare = spare_base(g, page);
    geometry::index(wide_at(img, spare + 4 + geometry::index(level)))
}

// Whether the spare bytes after the codes are all 255.
pub fn tail_blank(g: Geometry, img: &[u8], page: u32) -> bool
    ensures { result ≡ tail_at g img.now page }
{
    let all = geometry::page_bytes(g);
    let from = geometry::code_place(g, geometry::halves(g));
    if all < from {
        return true;
    }
    let base = geometry::page_base(g, page);
    all_blank(img, base + from, all - from)
}

// The entries read of the node at a level.
pub fn node_count(g: Geometry, img: &[u8], page: u32, level: u32) -> usize
    ensures { (result ≡ node_count g img.now page level) × (result < 256) }
{
    if !geometry::in_table(g, level) {
        return 0;
    }
    count_at(g, img, page, level).min(geometry::root_slots(g, level) + 1)
}

// The byte at which the node at a level begins.
pub fn node_place(g: Geometry, page: u32, level: u32) -> usize
    ensures { (result ≡ node_place g page level) × (result < 1125899906842624) }
{
    let base = geometry::page_base(g, page);
    base + 8 * geometry::first_slot(g, level)
}

// The first page of a block; of the block past the last, the number of pages.
pub fn first_page(g: Geometry, block: u16) -> u32
    ensures { (result ≡ g.pages * block) × (result < 4294836226) }
{
    u32::from(g.pages) * u32::from(block)
}

// Page j of a block.
pub fn page_of(g: Geometry, block: u16, j: u16) -> u32
    ensures { result ≡ g.pages * block + j }
{
    first_page(g, block) + u32::from(j)
}

// The last page of a block.
pub fn last_page(g: Geometry, block: u16) -> u32
    ensures { result ≡ g.pages * block + (g.pages - 1) }
{
    page_of(g, block, g.pages.saturating_sub(1))
}

// Whether the last page of a block is erased.
pub fn last_erased(g: Geometry, img: &[u8], block: u16) -> bool
    ensures { result ≡ erased g img.now (g.pages * block + (g.pages - 1)) }
{
    page_erased(g, img, last_page(g, block))
}

// The bytes of a block.
fn block_bytes(g: Geometry) -> usize
    ensures { (result ≡ block_bytes g) × (result < 562949953421312) }
{
    geometry::page_base(g, u32::from(g.pages))
}

// The blocks of an image.
pub fn blocks_of(g: Geometry, img: &[u8]) -> usize
    ensures { result ≡ blocks_of g img.now }
{
    let block = block_bytes(g);
    if block == 0 {
        return 0;
    }
    img.len() / block
}

// Whether the image is whole blocks, 3 to 1024 of them.
pub fn good_length(g: Geometry, img: &[u8]) -> bool
    ensures { result ≡ good_length g img.now }
{
    let block = block_bytes(g);
    if block == 0 {
        return false;
    }
    if img.len() % block != 0 {
        return false;
    }
    let n = blocks_of(g, img);
    if n < 3 {
        return false;
    }
    n <= 1024
}

// The blocks of an image of good length, else 0.
pub fn good_blocks(g: Geometry, img: &[u8]) -> u16
    ensures { (result ≡ good_blocks g img.now) × (result ≤ 1024) }
{
    if !good_length(g, img) {
        return 0;
    }
    let n = blocks_of(g, img);
    if 1024 < n {
        return 0;
    }
    n as u16
}
