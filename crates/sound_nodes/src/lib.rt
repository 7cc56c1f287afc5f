// R5: the nodes from the root down, and the first bad page. The levels met are noted in a lent table.
#![tactic(auto, using(crate::specs::RuleFive::judge_laws))]

ghost use Rattle.std.specs.Prelude.{◌≡◌, ◌+◌, ◌*◌, ◌-◌, ◌/◌, ◌%◌, ◌≤◌, ◌<◌, leb, length, get_or};
ghost use Rattle.model.specs.Bytes.{erased, entries_at, node_at};
ghost use Rattle.model.specs.Tree.{following, places, places_of};
ghost use Rattle.model.specs.Rules.{names, rising, own, own_root, judge_entries, judge_node, r5};
ghost use Rattle.chip_read.specs.Chip.{naming, chip_with};
ghost use Rattle.sound_nodes.specs.Programmed.{Programmed};
ghost use Rattle.sound_nodes.specs.Noted.{left, judged_at, places_at, Noted, Marks};
ghost use Rattle.sound_nodes.specs.RuleFive.{root_least};

use geometry::{Finding, Geometry};

// The key below which an entry stays: that of the entry at `at`, or the node's bound if none is left.
fn next_key(img: &[u8], at: usize, left: usize, hi: u64) -> u64
    ensures { result ≡ following (entries_at img.now at left) hi }
{
    if left == 0 {
        return hi;
    }
    sound_leaves::key_at(img, at)
}

// Whether a page is none of the programmed ones of its block.
fn is_blank(g: Geometry, page: u32, programmed: &[u16]) -> bool
    requires { (0 < g.pages) × (page / g.pages < length programmed.now) }
    ensures { result ≡ leb (get_or programmed.now (page / g.pages) 0) (page % g.pages) }
{
    let size = geometry::wide(g.pages);
    let at = geometry::index(page);
    let block = at / size;
    geometry::wide(programmed[block]) <= at % size
}

// Whether an entry at a level may name this page.
fn may_name(g: Geometry, img: &[u8], pages: u32, level: u32, page: u32, programmed: &[u16]) -> bool
    requires { Programmed g img.now pages programmed.now }
    ensures { result ≡ names (erased g img.now) pages level page }
{
    if level == 1 {
        return true;
    }
    if pages <= page {
        return false;
    }
    !is_blank(g, page, programmed)
}

// The n entries from byte `at`: keys rise from lo, below hi, and each names what it may.
fn all_rising(
    g: Geometry,
    img: &[u8],
    pages: u32,
    level: u32,
    at: usize,
    n: usize,
    lo: u64,
    hi: u64,
    programmed: &[u16],
) -> bool
    requires programmed { Programmed g img.now pages programmed.now }
    requires n_bound { at + 8 * n < 1152921504606846976 }
    ensures { result ≡ rising (names (erased g img.now) pages level) (entries_at img.now at n) lo
        hi }
{
    let mut low = lo;
    for i in 0..n {
        let key = sound_leaves::key_at(img, at + 8 * i);
        if key < low {
            return false;
        }
        if hi <= key {
            return false;
        }
        let page = chip_read::read_u32(img, at + 8 * i + 4);
        if !may_name(g, img, pages, level, page, programmed) {
            return false;
        }
        low = key + 1;
    }
    true
}

// The entries of a node: in a leaf the keys alone are looked at.
fn entries_rise(
    g: Geometry,
    img: &[u8],
    pages: u32,
    level: u32,
    at: usize,
    n: usize,
    lo: u64,
    hi: u64,
    programmed: &[u16],
) -> bool
    requires programmed { Programmed g img.now pages programmed.now }
    requires n_bound { (n < 256) × (at + 8 * n < 1152921504606846976) }
    ensures { result ≡ rising (names (erased g img.now) pages level) (entries_at img.now at n) lo
        hi }
{
    if level == 1 {
        return sound_leaves::keys_rise(img, at, n, lo, hi);
    }
    all_rising(g, img, pages, level, at, n, lo, hi, programmed)
}

// The own count, keys and page numbers of a node below the root.
fn node_own(
    g: Geometry,
    img: &[u8],
    pages: u32,
    level: u32,
    page: u32,
    lo: u64,
    hi: u64,
    programmed: &[u16],
) -> bool
    requires { Programmed g img.now pages programmed.now }
    ensures { result ≡ own g (erased g img.now) (node_at g img.now) pages level page lo hi }
{
    let n = chip_read::node_count(g, img, page, level);
    if n < 1 {
        return false;
    }
    if geometry::slots_of(g, level) < n {
        return false;
    }
    let at = chip_read::node_place(g, page, level);
    all_rising(g, img, pages, level, at, n, lo, hi, programmed)
}

// The own count and keys of a leaf.
fn leaf_own(g: Geometry, img: &[u8], pages: u32, page: u32, lo: u64, hi: u64) -> bool
    ensures { result ≡ own g (erased g img.now) (node_at g img.now) pages 1 page lo hi }
{
    let n = chip_read::node_count(g, img, page, 1);
    if n < 1 {
        return false;
    }
    if geometry::slots_of(g, 1) < n {
        return false;
    }
    let at = chip_read::node_place(g, page, 1);
    sound_leaves::keys_rise(img, at, n, lo, hi)
}

fn root_least(level: u32) -> usize
    ensures { (result ≡ root_least level) × (result ≤ 2) }
{
    if level == 1 {
        return 0;
    }
    2
}

// The same of the root.
fn root_own(g: Geometry, img: &[u8], pages: u32, level: u32, page: u32, programmed: &[u16]) -> bool
    requires { Programmed g img.now pages programmed.now }
    ensures { result ≡ own_root g (erased g img.now) (node_at g img.now) pages level page }
{
    let n = chip_read::node_count(g, img, page, level);
    if n < root_least(level) {
        return false;
    }
    if geometry::root_most(g, level) < n {
        return false;
    }
    let at = chip_read::node_place(g, page, level);
    entries_rise(g, img, pages, level, at, n, 0, 4294967296, programmed)
}

// A leaf: its page if it is bad.
#[tactic(auto, using(crate::specs::RuleFive::judge_laws, crate::specs::Levels::level_laws))]
fn judge_leaf(
    g: Geometry,
    img: &[u8],
    table: &mut [u8],
    pages: u32,
    page: u32,
    lo: u64,
    hi: u64,
) -> Finding
    ensures value { result ≡ judge_node g (erased g img.now) (node_at g img.now) pages 1 page lo hi }
    ensures noted { Noted result table.old table.new (places (node_at g img.now) 1
        (naming page)) }
    ensures table_len_unchanged { length table.new ≡ length table.old }
{
    if !leaf_own(g, img, pages, page, lo, hi) {
        return Err(page);
    }
    live_walk::note(&mut *table, page, 1);
    Ok(())
}

// The leaf that the i-th of n entries from byte `at` names.
#[tactic(auto, using(crate::specs::RuleFive::judge_laws, crate::specs::Levels::level_laws))]
fn leaf_at(
    g: Geometry,
    img: &[u8],
    table: &mut [u8],
    pages: u32,
    at: usize,
    n: usize,
    hi: u64,
    i: usize,
) -> Finding
    requires { (i < n) × (at + 8 * n < 1152921504606846976) }
    ensures value { result ≡ judged_at (judge_node g (erased g img.now) (node_at g img.now) pages 1)
        img.now at n hi i }
    ensures noted { Noted result table.old table.new (places_at g img.now 1 at i) }
    ensures table_len_unchanged { length table.new ≡ length table.old }
{
    let key = sound_leaves::key_at(img, at + 8 * i);
    let page = chip_read::read_u32(img, at + 8 * i + 4);
    let next = next_key(img, at + 8 * (i + 1), n - (i + 1), hi);
    judge_leaf(g, img, &mut *table, pages, page, key, next)
}

// The sum of the first keys of k lines of 64 bytes, from byte `at` on.
#[tactic(auto, using(crate::specs::Ahead::ahead_laws))]
fn line_keys(img: &[u8], at: usize, k: usize) -> u64
    requires { (k < 256) × (at < 1125899906842624) }
    ensures { result < 1099511627776 }
{
    let mut sum: u64 = 0;
    for i in 0..k {
        sum += sound_leaves::key_at(img, at + 64 * i);
    }
    sum
}

// The sum of the first key of each line of a leaf and of its page's number: so both its keys and its count are read.
#[tactic(auto, using(crate::specs::Ahead::ahead_laws))]
fn leaf_keys(g: Geometry, img: &[u8], page: u32) -> u64
    ensures { result < 2199023255552 }
{
    let at = chip_read::node_place(g, page, 1);
    let lines = geometry::slots_of(g, 1) / 8;
    line_keys(img, at, lines) + sound_leaves::key_at(img, at + geometry::wide(g.main))
}

// Gives hi. In an image that is too long for the processor's caches it first reads the lines of the leaves that n
// entries from byte `at` name: so they come from memory side by side, and not one leaf after another. Their sum is
// below the divisor, but the compiler does not see that, and reads them.
#[tactic(auto, using(crate::specs::Ahead::ahead_laws))]
fn read_ahead(g: Geometry, img: &[u8], at: usize, n: usize, hi: u64) -> u64
    requires { (n < 256) × (at + 8 * n < 1152921504606846976) }
    ensures { result ≡ hi }
{
    if img.len() < 33554432 {
        return hi;
    }
    let mut sum: u64 = 0;
    for i in 0..n {
        let page = chip_read::read_u32(img, at + 8 * i + 4);
        sum += leaf_keys(g, img, page);
    }
    hi + sum / 1152921504606846976
}

// The first bad page of the leaves that n entries from byte `at` name.
#[tactic(auto, using(crate::specs::RuleFive::judge_laws, crate::specs::Levels::level_laws))]
fn judge_leaves(
    g: Geometry,
    img: &[u8],
    table: &mut [u8],
    pages: u32,
    at: usize,
    n: usize,
    hi: u64,
) -> Finding
    requires { at + 8 * n < 1152921504606846976 }
    ensures value { result ≡ judge_entries (judge_node g (erased g img.now) (node_at g img.now) pages 1)
        (entries_at img.now at n) hi }
    ensures noted { Noted result table.old table.new (left g img.now 1 at n 0) }
    ensures table_len_unchanged { length table.new ≡ length table.old }
{
    for i in 0..n {
        leaf_at(g, img, &mut *table, pages, at, n, hi, i)?;
    }
    Ok(())
}

// The same, after their lines are read.
#[tactic(auto, using(crate::specs::Ahead::ahead_laws))]
fn judge_ahead(
    g: Geometry,
    img: &[u8],
    table: &mut [u8],
    pages: u32,
    at: usize,
    n: usize,
    hi: u64,
) -> Finding
    requires { (n < 256) × (at + 8 * n < 1152921504606846976) }
    ensures value { result ≡ judge_entries (judge_node g (erased g img.now) (node_at g img.now) pages 1)
        (entries_at img.now at n) hi }
    ensures noted { Noted result table.old table.new (left g img.now 1 at n 0) }
    ensures table_len_unchanged { length table.new ≡ length table.old }
{
    let bound = read_ahead(g, img, at, n, hi);
    judge_leaves(g, img, &mut *table, pages, at, n, bound)
}

// The first bad page of the node at a level of a page and of all below it.
#[cycle(judge_entries_judge_node_node_under)]
#[tactic(auto, using(crate::specs::RuleFive::judge_laws, crate::specs::Levels::level_laws))]
fn judge_node(
    g: Geometry,
    img: &[u8],
    table: &mut [u8],
    pages: u32,
    level: u32,
    page: u32,
    lo: u64,
    hi: u64,
    programmed: &[u16],
) -> Finding
    requires { (level < 256) × Programmed g img.now pages programmed.now }
    ensures value { result ≡ judge_node g (erased g img.now) (node_at g img.now) pages level page lo
        hi }
    ensures noted { Noted result table.old table.new (places (node_at g img.now) level
        (naming page)) }
    ensures table_len_unchanged { length table.new ≡ length table.old }
{
    if level == 0 {
        return Ok(());
    }
    if !node_own(g, img, pages, level, page, lo, hi, programmed) {
        return Err(page);
    }
    live_walk::note(&mut *table, page, level);
    if level == 1 {
        return Ok(());
    }
    let at = chip_read::node_place(g, page, level);
    let n = chip_read::node_count(g, img, page, level);
    judge_entries(g, img, &mut *table, pages, level - 1, at, n, hi, programmed)
}

// The node at level `below` that the i-th of n entries from byte `at` names, and all below it.
#[cycle(judge_entries_judge_node_node_under)]
#[tactic(auto, using(crate::specs::RuleFive::judge_laws, crate::specs::Levels::level_laws))]
fn node_under(
    g: Geometry,
    img: &[u8],
    table: &mut [u8],
    pages: u32,
    below: u32,
    at: usize,
    n: usize,
    hi: u64,
    i: usize,
    programmed: &[u16],
) -> Finding
    requires { (i < n) × (below < 256) × (at + 8 * n < 1152921504606846976) × Programmed g img.now pages
        programmed.now }
    ensures value { result ≡ judged_at (judge_node g (erased g img.now) (node_at g img.now) pages below)
        img.now at n hi i }
    ensures noted { Noted result table.old table.new (places_at g img.now below at i) }
    ensures table_len_unchanged { length table.new ≡ length table.old }
{
    let key = sound_leaves::key_at(img, at + 8 * i);
    let page = chip_read::read_u32(img, at + 8 * i + 4);
    let next = next_key(img, at + 8 * (i + 1), n - (i + 1), hi);
    judge_node(
        g,
        img,
        &mut *table,
        pages,
        below,
        page,
        key,
        next,
        programmed,
    )
}

// The first bad page below the n entries from byte `at`, their nodes at level `below`.
#[cycle(judge_entries_judge_node_node_under)]
#[tactic(auto, using(crate::specs::RuleFive::judge_laws, crate::specs::Levels::level_laws))]
fn judge_entries(
    g: Geometry,
    img: &[u8],
    table: &mut [u8],
    pages: u32,
    below: u32,
    at: usize,
    n: usize,
    hi: u64,
    programmed: &[u16],
) -> Finding
    requires { (below < 256) × (n < 256) × (at + 8 * n < 1152921504606846976) × Programmed g img.now pages
        programmed.now }
    ensures value { result ≡ judge_entries (judge_node g (erased g img.now) (node_at g img.now) pages
        below) (entries_at img.now at n) hi }
    ensures noted { Noted result table.old table.new (left g img.now below at n 0) }
    ensures table_len_unchanged { length table.new ≡ length table.old }
{
    if below == 1 {
        return judge_ahead(g, img, &mut *table, pages, at, n, hi);
    }
    // Not by `?`: a must-fail edit turns the page that is handed on here.
    for i in 0..n {
        if let Err(bad) = node_under(g, img, &mut *table, pages, below, at, n, hi, i, programmed) {
            return Err(bad);
        }
    }
    Ok(())
}

// From the root down. Where all is good its levels are noted.
#[tactic(auto, using(crate::specs::RuleFive::judge_laws, crate::specs::Levels::level_laws))]
fn judge_root(
    g: Geometry,
    img: &[u8],
    table: &mut [u8],
    pages: u32,
    level: u32,
    root: u32,
    programmed: &[u16],
) -> Finding
    requires { (level < 255) × Programmed g img.now pages programmed.now }
    ensures value { result ≡ r5 g pages (chip_with g img.now level root) }
    ensures noted { Noted result table.old table.new
        (places_of (chip_with g img.now level root)) }
    ensures table_len_unchanged { length table.new ≡ length table.old }
{
    if !root_own(g, img, pages, level + 1, root, programmed) {
        return Err(root);
    }
    live_walk::note(&mut *table, root, level + 1);
    let at = chip_read::node_place(g, root, level + 1);
    let n = chip_read::node_count(g, img, root, level + 1);
    judge_entries(
        g,
        img,
        &mut *table,
        pages,
        level,
        at,
        n,
        4294967296,
        programmed,
    )
}

// R5: from the root down. Where it is good the table then tells each page's lowest live level.
#[tactic(auto, using(crate::specs::Levels::level_laws))]
pub fn rule_5(
    g: Geometry,
    img: &[u8],
    table: &mut [u8],
    pages: u32,
    level: u32,
    root: u32,
    programmed: &[u16],
) -> Finding
    requires { (level < 255) × Programmed g img.now pages programmed.now }
    ensures value { result ≡ r5 g pages (chip_with g img.now level root) }
    ensures marks { Marks result (chip_with g img.now level root) table.new }
    ensures table_len_unchanged { length table.new ≡ length table.old }
{
    live_walk::clear(&mut *table);
    judge_root(g, img, &mut *table, pages, level, root, programmed)
}
