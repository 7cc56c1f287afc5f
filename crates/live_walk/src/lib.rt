// The live-page walk: from the root to all nodes it reaches. A lent table takes each page's lowest live level.
#![tactic(auto, using(crate::specs::Walking::walk_laws, crate::specs::Stops::note_laws))]

ghost use Rattle.std.specs.Prelude.{true, ◌≡◌, ◌+◌, ◌*◌, ◌-◌, ◌≤◌, ◌<◌, min, length, get_or, take};
ghost use Rattle.model.specs.Bytes.{u32_at};
ghost use Rattle.model.specs.Count.{count};
ghost use Rattle.model.specs.Next.{in_block};
ghost use Rattle.model.specs.Tree.{places_of};
ghost use Rattle.chip_read.specs.Chip.{chip_with};
ghost use Rattle.live_walk.specs.Table.{lower, note_all, note_one, Zeros, live_in};
ghost use Rattle.live_walk.specs.Stops.{Walked, leaves_at};

use geometry::Geometry;

// The level noted for a page, 0 for none.
pub fn noted(table: &[u8], page: u32) -> u32
    ensures { (result ≡ get_or table.now page 0) × (result < 256) }
{
    let at = geometry::index(page);
    if at < table.len() {
        return u32::from(table[at]);
    }
    0
}

// The lower of two levels, 0 being none.
fn lower_level(old: u32, level: u32) -> u32
    requires { level < 256 }
    ensures { (result ≡ lower old level) × (result < 256) }
{
    if old == 0 {
        return level;
    }
    if level <= old {
        return level;
    }
    old
}

// Notes a level for a page, unless a lower one stands there.
pub fn note(table: &mut [u8], page: u32, level: u32)
    requires { level < 256 }
    ensures { table.new ≡ note_one table.old page level }
{
    let at = geometry::index(page);
    if at < table.len() {
        table[at] = lower_level(u32::from(table[at]), level) as u8;
    }
}

// The number at a byte: INSIDE where all of it is known to stand in the image.
pub fn leaf_at<const INSIDE: bool>(img: &[u8], at: usize) -> u32
    requires { INSIDE ≡ true → at + 4 ≤ length img.now }
    ensures { result ≡ u32_at img.now at }
{
    if INSIDE {
        return chip_read::raw_u32(img, at);
    }
    chip_read::read_u32(img, at)
}

// Notes the leaves that k entries from byte `at` name: INSIDE where all entries are known to stand in the image.
fn note_each<const INSIDE: bool>(img: &[u8], table: &mut [u8], at: usize, k: usize)
    requires bounds { (k < 256) × (at < 1125899906842624) }
    requires inside { INSIDE ≡ true → at + 8 * k ≤ length img.now }
    ensures { table.new ≡ note_all (leaves_at img.now at k) table.old }
{
    for i in 0..k {
        let leaf = leaf_at::<INSIDE>(img, at + 8 * i + 4);
        note(&mut *table, leaf, 1);
    }
}

// Notes the leaves that k entries from byte `at` name.
fn note_entries(img: &[u8], table: &mut [u8], at: usize, k: usize)
    requires { (k < 256) × (at < 1125899906842624) }
    ensures { table.new ≡ note_all (leaves_at img.now at k) table.old }
{
    if at + 8 * k <= img.len() {
        note_each::<true>(img, &mut *table, at, k);
        return;
    }
    note_each::<false>(img, &mut *table, at, k);
}

// A node's count, but no more than are left.
pub fn at_most(n: usize, left: u32) -> usize
    requires { n < 256 }
    ensures { (result ≡ min n left) × (result < 256) × (result ≤ left) }
{
    n.min(geometry::index(left))
}

// What is left after k nodes.
pub fn left_after(left: u32, k: usize) -> u32
    requires { k ≤ left }
    ensures { result ≡ left - k }
{
    left - (k as u32)
}

// Notes the node at level 2 of a page and its leaves, no more than `left` nodes. Gives how many are left.
fn note_leaves(g: Geometry, img: &[u8], table: &mut [u8], page: u32, left: u32) -> u32
    requires { left ≡ 0 → ⊥ }
    ensures { Walked note_all g img.now 2 page left result table.old table.new }
{
    note(&mut *table, page, 2);
    let at = chip_read::node_place(g, page, 2);
    let n = chip_read::node_count(g, img, page, 2);
    let k = at_most(n, left - 1);
    note_entries(img, &mut *table, at, k);
    left_after(left - 1, k)
}

// Notes the node at a level of a page and all that it reaches, no more than `left` nodes. Gives how many are left.
fn note_nodes(g: Geometry, img: &[u8], table: &mut [u8], level: u32, page: u32, left: u32) -> u32
    requires { level < 256 }
    ensures { Walked note_all g img.now level page left result table.old table.new }
{
    if level == 0 {
        return left;
    }
    if left == 0 {
        return 0;
    }
    if level == 2 {
        return note_leaves(g, img, &mut *table, page, left);
    }
    note(&mut *table, page, level);
    if level == 1 {
        return left - 1;
    }
    let at = chip_read::node_place(g, page, level);
    let n = chip_read::node_count(g, img, page, level);
    let mut more = left - 1;
    for i in 0..n {
        let below = chip_read::read_u32(img, at + 8 * i + 4);
        more = note_nodes(g, img, &mut *table, level - 1, below, more);
    }
    more
}

// Sets all levels to none.
pub fn clear(table: &mut [u8])
    ensures table_len_unchanged { length table.new ≡ length table.old }
    ensures zeros { Zeros table.new (length table.old) }
{
    table.fill(0);
}

// Notes the nodes from a root on, no more than 8,388,608 of them: so a walk ends soon on every image.
pub fn note_from(g: Geometry, img: &[u8], table: &mut [u8], level: u32, root: u32)
    requires { level < 255 }
    ensures table_after { table.new ≡ note_all (take 8388608 (places_of (chip_with g img.now level root)))
        table.old }
    ensures table_len_unchanged { length table.new ≡ length table.old }
{
    note_nodes(g, img, &mut *table, level + 1, root, 8388608);
}

// Whether a page is noted as live.
pub fn is_live(table: &[u8], page: u32) -> bool
    ensures { result ≡ live_in table.now page }
{
    noted(table, page) != 0
}

// The live pages below a number.
pub fn live_pages(table: &[u8], pages: u32) -> u32
    ensures { (result ≡ count pages (live_in table.now)) × (result ≤ pages) }
{
    let mut lives: u32 = 0;
    for page in 0..pages {
        lives += u32::from(is_live(table, page));
    }
    lives
}

// The live pages of a block.
pub fn lives_in(g: Geometry, table: &[u8], block: u16) -> u32
    ensures { (result ≡ in_block g.pages (live_in table.now) block) × (result ≤ g.pages) }
{
    let mut lives: u32 = 0;
    for j in 0..g.pages {
        lives += u32::from(is_live(table, chip_read::page_of(g, block, j)));
    }
    lives
}
