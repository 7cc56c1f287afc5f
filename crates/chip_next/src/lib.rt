// Which page next, and the pages to come. A page counts as erased if it is so on the image and is not among the pages
// already chosen, `taken`.
#![tactic(auto, using(crate::specs::PagesToCome::next_laws))]

ghost use Rattle.std.specs.Prelude.{◌≡◌, suc, ◌+◌, ◌/◌, ◌%◌, ◌≤◌, ◌<◌, max, min, eqb, length};
ghost use Rattle.geometry.specs.Bounds.{four_bytes};
ghost use Rattle.model.specs.Bytes.{erased};
ghost use Rattle.model.specs.Count.{least};
ghost use Rattle.model.specs.Image.{pages_of};
ghost use Rattle.model.specs.Next.{next_block, next_page};
ghost use Rattle.live_beside.specs.Beside.{next_after};
ghost use Rattle.live_beside.specs.Collect.{next_erased};
ghost use Rattle.chip_next.specs.Coming.{free, whole, whole_after, seen, Coming};

use geometry::Geometry;

// Whether a page is erased and not yet chosen.
fn is_free(g: Geometry, img: &[u8], taken: &[u32], page: u32) -> bool
    ensures { result ≡ free (erased g img.now) taken.now (length taken.now) page }
{
    !taken.contains(&page) && chip_read::page_erased(g, img, page)
}

// The block that holds a page.
fn block_of(g: Geometry, page: u32) -> usize
    ensures { (result ≡ page / g.pages) × (result < four_bytes) }
{
    let pages = geometry::wide(g.pages);
    if pages == 0 {
        return 0;
    }
    geometry::index(page) / pages
}

// Whether a block is block `from` or a later one, and its first page is free.
fn is_whole(g: Geometry, img: &[u8], taken: &[u32], from: usize, block: u16) -> bool
    ensures { result ≡ whole g.pages (free (erased g img.now) taken.now (length taken.now)) from block }
{
    if geometry::wide(block) < from {
        return false;
    }
    is_free(g, img, taken, chip_read::page_of(g, block, 0))
}

// The lowest such block, or n.
fn first_whole(g: Geometry, img: &[u8], taken: &[u32], from: usize, n: u16) -> u16
    ensures { result ≡ least n (whole g.pages (free (erased g img.now) taken.now (length taken.now)) from) }
{
    for block in 0..n {
        if is_whole(g, img, taken, from, block) {
            return block;
        }
    }
    n
}

// The first block met whose first page is free, from the one after block `from` on, round past the end to the start.
fn round_block(g: Geometry, img: &[u8], taken: &[u32], n: u16, from: usize) -> u16
    requires { from < four_bytes }
    ensures { result ≡ whole_after g.pages n (free (erased g img.now) taken.now (length taken.now)) from }
{
    let after = from + 1;
    let later = first_whole(g, img, taken, after, n);
    if later < n {
        return later;
    }
    first_whole(g, img, taken, 0, n)
}

pub fn no_pages() -> [u32; 256]
    ensures { length result ≡ 256 }
{
    [0u32; 256]
}

// The mixed block, else the first whole one after the block of the page `last`, round past the end to the start.
fn next_block(g: Geometry, img: &[u8], n: u16, last: u32) -> u16
    ensures { result ≡ next_block g.pages n (seen (erased g img.now) last) }
{
    let mixed = sound_pages::first_mixed(g, img, n);
    if mixed < n {
        return mixed;
    }
    round_block(g, img, &[], n, block_of(g, last))
}

// The next page of an image of n blocks whose page with the largest number is `last`.
pub fn next_page(g: Geometry, img: &[u8], n: u16, last: u32) -> u32
    ensures value { result ≡ next_page g.pages n (seen (erased g img.now) last) }
    ensures upper_bound { result ≤ 4294901760 }
{
    let block = next_block(g, img, n, last);
    chip_read::page_of(g, block, sound_pages::first_in(g, img, block))
}

// Whether a page is the last of its block.
fn ends_block(g: Geometry, page: u32) -> bool
    ensures { result ≡ eqb (suc page % g.pages) 0 }
{
    let pages = geometry::wide(g.pages);
    if pages == 0 {
        return false;
    }
    (geometry::index(page) + 1) % pages == 0
}

// The page after a chosen one: the next of its block; past the block's end page 0 of the first wholly erased block
// after it, round past the end to the start.
fn page_after(g: Geometry, img: &[u8], taken: &[u32], n: u16, page: u32) -> u32
    requires { page < 4294967295 }
    ensures { (result ≡ next_after g.pages n (free (erased g img.now) taken.now (length taken.now)) page) ×
        (result ≤ max (page + 1) 4294836225) }
{
    if ends_block(g, page) {
        let block = round_block(g, img, taken, n, block_of(g, page));
        return chip_read::first_page(g, block);
    }
    page + 1
}

// The page after one just programmed.
pub fn next_after(g: Geometry, img: &[u8], n: u16, page: u32) -> u32
    requires { page < 4294967295 }
    ensures { (result ≡ next_after g.pages n (erased g img.now) page) ×
        (result ≤ max (page + 1) 4294836225) }
{
    page_after(g, img, &[], n, page)
}

// The first pages to come, as many as `count`, the next one given.
pub fn coming_from(g: Geometry, img: &[u8], n: u16, next: u32, count: usize) -> [u32; 256]
    requires { (count ≤ 256) × (next ≤ 4294836225) }
    ensures { Coming g.pages n (erased g img.now) next count result }
{
    let mut taken = no_pages();
    taken[0] = next;
    let mut page = next;
    for i in 1..count {
        page = page_after(g, img, &taken[..i], n, page);
        taken[i] = page;
    }
    taken
}

// Whether a page is the first of its block.
fn starts_block(g: Geometry, page: u32) -> bool
    ensures { result ≡ eqb (page % g.pages) 0 }
{
    let pages = geometry::wide(g.pages);
    if pages == 0 {
        return page == 0;
    }
    geometry::index(page) % pages == 0
}

// The next page once a block was erased, the largest number on the root's page.
pub fn next_erased(g: Geometry, img: &[u8], n: u16, root: u32, next: u32) -> u32
    ensures { result ≡ next_erased g.pages n (erased g img.now) root next }
{
    if starts_block(g, next) {
        let block = round_block(g, img, &[], n, block_of(g, root));
        return chip_read::first_page(g, block);
    }
    next
}

// The next page by a record: T where it names one past the image.
pub fn next_by(g: Geometry, n: u16, next: u32) -> u32
    ensures { (result ≡ min (pages_of g n) next) × (result ≤ 4294836225) }
{
    chip_read::first_page(g, n).min(next)
}
