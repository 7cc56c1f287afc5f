// Searching inside a node. The only place that compares a key with the keys of a node.
#![tactic(auto, using(crate::specs::Loops::search_laws))]

ghost use Rattle.std.specs.Prelude.{◌≡◌, ◌+◌, ◌*◌, ◌-◌, ◌≤◌, ◌<◌};
ghost use Rattle.model.specs.Bytes.{entries_at, node_at};
ghost use Rattle.model.specs.Tree.{place, chosen, find_in};
ghost use Rattle.tree_search.specs.Search.{ahead, holds};

use geometry::{Entry, Geometry};

// Where a key stands in a node, or the place at which it would enter.
#[derive(Clone, Copy)]
pub struct Stand {
    pub at: usize,
    pub here: bool,
}

// The place of the entry that descent takes, of the n from byte `at`: the last whose key is not above, or the first.
// It halves, since keys rise.
pub fn chosen_index(img: &[u8], at: usize, n: usize, key: u32) -> usize
    requires { at + 8 * n < 1152921504606846976 }
    ensures { (result ≡ place key (entries_at img.now at n)) × (result ≤ n - 1) }
{
    let mut low = 0;
    let mut high = n;
    // Stays a while: each step halves, no range counts it.
    while low + 1 < high {
        let middle = low + (high - low) / 2;
        if key < chip_read::read_u32(img, at + 8 * middle) {
            high = middle;
        } else {
            low = middle;
        }
    }
    low
}

// The entry that descent takes in the node at a level of a page.
pub fn chosen_entry(g: Geometry, img: &[u8], page: u32, level: u32, key: u32) -> Entry
    ensures { result ≡ chosen key (node_at g img.now page level) }
{
    let n = chip_read::node_count(g, img, page, level);
    if n == 0 {
        return Entry { key: 0, addr: 0 };
    }
    let at = chip_read::node_place(g, page, level);
    let i = chosen_index(img, at, n, key);
    chip_read::entry_at(img, at + 8 * i)
}

// Where a key stands among the n entries from byte `at`, or would enter.
pub fn stand_of(img: &[u8], at: usize, n: usize, key: u32) -> Stand
    requires { at + 8 * n < 1152921504606846976 }
    ensures { (result.at ≡ ahead key (entries_at img.now at n)) ×
        (result.here ≡ holds key (entries_at img.now at n)) × (result.at ≤ n) }
{
    if n == 0 {
        return Stand { at: 0, here: false };
    }
    let i = chosen_index(img, at, n, key);
    let read = chip_read::read_u32(img, at + 8 * i);
    if read < key {
        return Stand {
            at: i + 1,
            here: false,
        };
    }
    Stand {
        at: i,
        here: read == key,
    }
}

// What the n entries from byte `at` hold under a key.
fn find_entry(img: &[u8], at: usize, n: usize, key: u32) -> Option<u32>
    requires { at + 8 * n < 1152921504606846976 }
    ensures { result ≡ find_in key (entries_at img.now at n) }
{
    let stand = stand_of(img, at, n, key);
    if stand.here {
        return Some(chip_read::read_u32(img, at + 8 * stand.at + 4));
    }
    None
}

// What the node at a level of a page holds under a key.
pub fn find_key(g: Geometry, img: &[u8], page: u32, level: u32, key: u32) -> Option<u32>
    ensures { result ≡ find_in key (node_at g img.now page level) }
{
    let n = chip_read::node_count(g, img, page, level);
    let at = chip_read::node_place(g, page, level);
    find_entry(img, at, n, key)
}
