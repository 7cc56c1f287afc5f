// R6: where a page has live nodes at several levels, each upper one names the page.
#![tactic(auto, using(crate::specs::RuleSix::loose_laws))]

ghost use Rattle.std.specs.Prelude.{◌≡◌, ◌+◌, ◌*◌, ◌-◌, ◌<◌, length};
ghost use Rattle.model.specs.Bytes.{entries_at, node_at};
ghost use Rattle.model.specs.Tree.{places};
ghost use Rattle.model.specs.Rules.{names_page, lowest_page, r6};
ghost use Rattle.chip_read.specs.Chip.{naming, chip_with};
ghost use Rattle.live_walk.specs.Table.{Marked};
ghost use Rattle.sound_links.specs.Loose.{loose_in, loose_at, lowered, Inside};

use geometry::{Finding, Geometry};

// Whether one of the n entries from byte `at` names a page.
fn names_page(img: &[u8], at: usize, n: usize, page: u32) -> bool
    requires { at + 8 * n < 1152921504606846976 }
    ensures { result ≡ names_page page (entries_at img.now at n) }
{
    for i in 0..n {
        if chip_read::read_u32(img, at + 8 * i + 4) == page {
            return true;
        }
    }
    false
}

// Whether a node stands above a live node of its page and has no entry that names the page.
fn is_loose(g: Geometry, img: &[u8], table: &[u8], level: u32, page: u32) -> bool
    ensures { result ≡ loose_in (node_at g img.now) table.now level page }
{
    if level <= live_walk::noted(table, page) {
        return false;
    }
    let at = chip_read::node_place(g, page, level);
    let n = chip_read::node_count(g, img, page, level);
    !names_page(img, at, n, page)
}

// The page if it is below `lowest` and the node at a level of it is loose, else `lowest`.
fn lower_loose(g: Geometry, img: &[u8], table: &[u8], level: u32, page: u32, lowest: u32) -> u32
    ensures { result ≡ lowered (node_at g img.now) table.now level page lowest }
{
    if !is_loose(g, img, table, level, page) {
        return lowest;
    }
    if lowest <= page {
        return lowest;
    }
    page
}

// The lowest page with a loose node, of the node at a level of a page and all that it reaches, or `lowest`. Leaves are
// not looked at.
fn lowest_loose(g: Geometry, img: &[u8], table: &[u8], level: u32, page: u32, lowest: u32) -> u32
    ensures { result ≡ lowest_page (loose_at (node_at g img.now) table.now)
        (places (node_at g img.now) level (naming page)) lowest }
{
    if level <= 1 {
        return lowest;
    }
    let mut low = lower_loose(g, img, table, level, page, lowest);
    if level == 2 {
        return low;
    }
    let at = chip_read::node_place(g, page, level);
    let n = chip_read::node_count(g, img, page, level);
    for i in 0..n {
        let below = chip_read::read_u32(img, at + 8 * i + 4);
        low = lowest_loose(g, img, table, level - 1, below, low);
    }
    low
}

// R6, by the table of live pages: the lowest page with a loose node.
pub fn rule_6(g: Geometry, img: &[u8], table: &[u8], pages: u32, level: u32, root: u32) -> Finding
    requires level_bound { level < 255 }
    requires marked { Marked (chip_with g img.now level root) table.now }
    requires inside { Inside (chip_with g img.now level root) (length table.now) }
    ensures { result ≡ r6 pages (chip_with g img.now level root) }
{
    let page = lowest_loose(g, img, table, level + 1, root, pages);
    if page < pages {
        return Err(page);
    }
    Ok(())
}
