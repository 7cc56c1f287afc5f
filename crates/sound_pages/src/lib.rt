// R1 and R2: what each page and each block must look like.
#![tactic(auto, using(crate::specs::RulesOneAndTwo::page_laws))]

ghost use Rattle.std.specs.Prelude.{◌≡◌, ◌+◌, ◌*◌, ◌-◌, ◌≤◌, ◌<◌, false};
ghost use Rattle.geometry.specs.Geometry.{halves};
ghost use Rattle.model.specs.Bytes.{erased, seq_at, height_at};
ghost use Rattle.model.specs.Codes.{codes_fit};
ghost use Rattle.model.specs.Count.{least};
ghost use Rattle.model.specs.Next.{mixed, first_in};
ghost use Rattle.model.specs.Rules.{well_formed, in_order, second_mixed, r1, r2};
ghost use Rattle.sound_pages.specs.Blocks.{disorder, other};

use geometry::{Finding, Geometry};

// Whether the codes of all halves fit, of the page that begins at byte b.
fn codes_fit(g: Geometry, img: &[u8], b: usize) -> bool
    requires { b < 562949953421312 }
    ensures { result ≡ codes_fit g img.now b (halves g) }
{
    for k in 0..geometry::halves(g) {
        let fresh = chip_codes::fresh_code(img, b + 256 * k);
        if chip_read::code_at(img, b + geometry::code_place(g, k)) != fresh {
            return false;
        }
    }
    true
}

// R1 of a programmed page: its height, tail, number and codes.
pub fn is_formed(g: Geometry, img: &[u8], page: u32, height: u32, seq: u32) -> bool
    requires { (erased g img.now page ≡ false) × (height ≡ height_at g img.now page) ×
        (seq ≡ seq_at g img.now page) }
    ensures { result ≡ well_formed g img.now page }
{
    if geometry::wide(g.top) < geometry::index(height) {
        return false;
    }
    if !chip_read::tail_blank(g, img, page) {
        return false;
    }
    if seq == 0 {
        return false;
    }
    codes_fit(g, img, geometry::page_base(g, page))
}

// Whether a page is erased, or as R1 wants a programmed one.
fn well_formed(g: Geometry, img: &[u8], page: u32) -> bool
    ensures { result ≡ well_formed g img.now page }
{
    if chip_read::page_erased(g, img, page) {
        return true;
    }
    let height = chip_read::height_at(g, img, page);
    let seq = chip_read::seq_at(g, img, page);
    is_formed(g, img, page, height, seq)
}

// R1: the lowest page that is not well formed.
pub fn rule_1(g: Geometry, img: &[u8], n: u16) -> Finding
    ensures { result ≡ r1 g n img.now }
{
    for page in 0..chip_read::first_page(g, n) {
        if !well_formed(g, img, page) {
            return Err(page);
        }
    }
    Ok(())
}

// The place in a block of its first erased page, or the block's pages.
pub fn first_in(g: Geometry, img: &[u8], block: u16) -> u16
    ensures { (result ≡ first_in g.pages (erased g img.now) block) × (result ≤ g.pages) }
{
    for j in 0..g.pages {
        if chip_read::page_erased(g, img, chip_read::page_of(g, block, j)) {
            return j;
        }
    }
    g.pages
}

// Whether no page of a block is programmed after the first erased one.
fn in_order(g: Geometry, img: &[u8], block: u16) -> bool
    ensures { result ≡ in_order g.pages (erased g img.now) block }
{
    let first = first_in(g, img, block);
    if g.pages <= first {
        return true;
    }
    for j in first + 1..g.pages {
        if !chip_read::page_erased(g, img, chip_read::page_of(g, block, j)) {
            return false;
        }
    }
    true
}

// The lowest block that is not in order, or n.
fn first_disorder(g: Geometry, img: &[u8], n: u16) -> u16
    ensures { (result ≡ least n (disorder g.pages (erased g img.now))) × (result ≤ n) }
{
    for block in 0..n {
        if !in_order(g, img, block) {
            return block;
        }
    }
    n
}

// Whether the first page of a block is programmed and the last one erased.
fn is_mixed(g: Geometry, img: &[u8], block: u16) -> bool
    ensures { result ≡ mixed g.pages (erased g img.now) block }
{
    if chip_read::page_erased(g, img, chip_read::page_of(g, block, 0)) {
        return false;
    }
    chip_read::page_erased(g, img, chip_read::last_page(g, block))
}

// The lowest mixed block, or n.
pub fn first_mixed(g: Geometry, img: &[u8], n: u16) -> u16
    ensures { result ≡ least n (mixed g.pages (erased g img.now)) }
{
    for block in 0..n {
        if is_mixed(g, img, block) {
            return block;
        }
    }
    n
}

// Whether a block is mixed and another one than `first`.
fn other_mixed(g: Geometry, img: &[u8], block: u16, first: u16) -> bool
    ensures { result ≡ other g.pages (erased g img.now) first block }
{
    if !is_mixed(g, img, block) {
        return false;
    }
    block != first
}

// The second mixed block, or n.
fn second_mixed(g: Geometry, img: &[u8], n: u16) -> u16
    ensures { result ≡ second_mixed g.pages n (erased g img.now) }
{
    let first = first_mixed(g, img, n);
    for block in 0..n {
        if other_mixed(g, img, block, first) {
            return block;
        }
    }
    n
}

// R2: the first erased page before a programmed one, or the first page of the second mixed block.
pub fn rule_2(g: Geometry, img: &[u8], n: u16) -> Finding
    ensures { result ≡ r2 g.pages n (erased g img.now) }
{
    let block = first_disorder(g, img, n);
    if block < n {
        return Err(chip_read::page_of(g, block, first_in(g, img, block)));
    }
    let second = second_mixed(g, img, n);
    if second < n {
        return Err(chip_read::first_page(g, second));
    }
    Ok(())
}
