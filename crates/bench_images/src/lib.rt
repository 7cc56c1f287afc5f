// Images of three blocks for the bench: trees written by hand, whole and damaged; their codes are put last.
#![tactic(auto)]

ghost use Rattle.std.specs.Prelude.{◌<◌};

use geometry::Geometry;

fn put(img: &mut [u8; 50688], at: usize, b: u8) {
    if at < 50688 {
        img[at] = b;
    }
}

// A number below 256, in four bytes.
fn put_number(img: &mut [u8; 50688], at: usize, b: u8)
    requires { at < 1152921504606846976 }
{
    put(&mut *img, at, b);
    put(&mut *img, at + 1, 0);
    put(&mut *img, at + 2, 0);
    put(&mut *img, at + 3, 0);
}

// A programmed page without nodes.
pub fn put_page(img: &mut [u8; 50688], page: u32, seq: u8, height: u8) {
    let at = geometry::page_base(Geometry::small(), page) + 512;
    put_number(&mut *img, at, seq);
    put(&mut *img, at + 4, height);
    put_number(&mut *img, at + 5, 0);
    put(&mut *img, at + 9, 0);
}

fn put_count(img: &mut [u8; 50688], page: u32, level: u32, n: u8) {
    let at = geometry::page_base(Geometry::small(), page) + 516;
    put(&mut *img, at + geometry::index(level), n);
}

fn put_entry(img: &mut [u8; 50688], page: u32, level: u32, i: usize, key: u8, addr: u8)
    requires { i < 64 }
{
    let at = chip_read::node_place(Geometry::small(), page, level) + 8 * i;
    put_number(&mut *img, at, key);
    put_number(&mut *img, at + 4, addr);
}

// A node of one entry at a level of a page.
pub fn put_one(img: &mut [u8; 50688], page: u32, level: u32, key: u8, addr: u8) {
    put_count(&mut *img, page, level, 1);
    put_entry(&mut *img, page, level, 0, key, addr);
}

// A node of two entries, keys 10 and 20.
fn put_two(img: &mut [u8; 50688], page: u32, level: u32, addr: u8, other: u8) {
    put_count(&mut *img, page, level, 2);
    put_entry(&mut *img, page, level, 0, 10, addr);
    put_entry(&mut *img, page, level, 1, 20, other);
}

// Two leaves on pages 0 and 1, and a root of height 2 on page 1.
pub fn put_tree(img: &mut [u8; 50688]) {
    img.fill(255);
    put_page(&mut *img, 0, 1, 0);
    put_one(&mut *img, 0, 1, 10, 110);
    put_page(&mut *img, 1, 2, 2);
    put_one(&mut *img, 1, 1, 20, 120);
    put_two(&mut *img, 1, 2, 0, 1);
}

// A root of height 3 on page 3 over nodes of level 2 on two pages, which name each a leaf's page.
fn put_high(img: &mut [u8; 50688], left: u8, left_leaf: u8, right: u8, right_leaf: u8) {
    img.fill(255);
    put_page(&mut *img, 0, 1, 0);
    put_page(&mut *img, 1, 2, 0);
    put_page(&mut *img, 2, 3, 0);
    put_one(&mut *img, u32::from(left), 2, 10, left_leaf);
    put_one(&mut *img, u32::from(right), 2, 20, right_leaf);
    put_one(&mut *img, u32::from(left_leaf), 1, 10, 110);
    put_one(&mut *img, u32::from(right_leaf), 1, 20, 120);
    put_page(&mut *img, 3, 4, 3);
    put_two(&mut *img, 3, 3, left, right);
}

// Page 1 lives at levels 1 and 2 and does not name itself.
pub fn put_loose(img: &mut [u8; 50688]) {
    put_high(&mut *img, 0, 1, 1, 2);
}

// Pages 1 and 2 live at levels 1 and 2, and each names the other.
pub fn put_crossed(img: &mut [u8; 50688]) {
    put_high(&mut *img, 2, 1, 1, 2);
}

// All pages programmed, without nodes.
fn put_pages(img: &mut [u8; 50688]) {
    img.fill(255);
    for page in 0..96u8 {
        put_page(&mut *img, u32::from(page), page + 1, 0);
    }
}

// All pages programmed, a live one in each block: leaves on pages 0 and 32, the root on page 95.
pub fn put_full(img: &mut [u8; 50688]) {
    put_pages(&mut *img);
    put_one(&mut *img, 0, 1, 10, 110);
    put_one(&mut *img, 32, 1, 20, 120);
    put_page(&mut *img, 95, 96, 2);
    put_two(&mut *img, 95, 2, 0, 32);
}

// Leaves of one entry on 16 pages from `from` on, under a node of level 2 on `page`.
fn put_sixteen(img: &mut [u8; 50688], from: u8, page: u32)
    requires { from < 100 }
{
    put_count(&mut *img, page, 2, 16);
    for i in 0..16u8 {
        let leaf = from + i;
        put_page(&mut *img, u32::from(leaf), leaf + 1, 0);
        put_one(&mut *img, u32::from(leaf), 1, leaf, 0);
        put_entry(&mut *img, page, 2, usize::from(i), leaf, leaf);
    }
}

// 35 live pages of 96: 32 leaves, two nodes of level 2, a root of height 3.
pub fn put_crowded(img: &mut [u8; 50688]) {
    img.fill(255);
    put_page(&mut *img, 32, 33, 0);
    put_page(&mut *img, 33, 34, 0);
    put_page(&mut *img, 34, 35, 3);
    put_sixteen(&mut *img, 0, 32);
    put_sixteen(&mut *img, 16, 33);
    put_count(&mut *img, 34, 3, 2);
    put_entry(&mut *img, 34, 3, 0, 0, 32);
    put_entry(&mut *img, 34, 3, 1, 16, 33);
}

// The code of one half of a page.
fn put_code(img: &mut [u8; 50688], page: u32, half: usize)
    requires { half < 2 }
{
    let base = geometry::page_base(Geometry::small(), page);
    let v = chip_codes::fresh_code(&*img, base + 256 * half);
    let place = geometry::code_place(Geometry::small(), half);
    chip_page::put_code(&mut *img, base + place, v);
}

// Fitting codes on every programmed page.
pub fn put_codes(img: &mut [u8; 50688]) {
    for page in 0..96 {
        if !chip_read::page_erased(Geometry::small(), &*img, page) {
            put_code(&mut *img, page, 0);
            put_code(&mut *img, page, 1);
        }
    }
}

// One bit of the image turned over.
pub fn flip(img: &mut [u8; 50688], at: usize, bit: u8) {
    if at < 50688 {
        img[at] ^= bit;
    }
}
