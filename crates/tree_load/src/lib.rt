// Nodes of an image, by value: as they stand, with a key put in or taken out, and with the place that descent takes;
// and the root that is left.
#![tactic(auto, using(crate::specs::ByValue::load_laws, crate::specs::Falls::fall_laws))]

ghost use Rattle.std.specs.Prelude.{◌≡◌, ◌+◌, ◌*◌, ◌-◌, ◌≤◌, ◌<◌};
ghost use Rattle.model.specs.Bytes.{entries_at, node_at};
ghost use Rattle.model.specs.Edit.{put_in, remove_in};
ghost use Rattle.tree_node.specs.Node.{entries};
ghost use Rattle.tree_load.specs.Load.{Takes};
ghost use Rattle.tree_load.specs.Collapse.{first_of, Collapses};

use geometry::{Entry, Geometry};
use tree_node::Node;

// A node with the place and the entry that descent takes.
#[derive(Clone, Copy)]
pub struct Taken {
    pub node: Node,
    pub at: usize,
    pub entry: Entry,
}

// The root that is left, and the levels below it.
#[derive(Clone, Copy)]
pub struct Top {
    pub level: u32,
    pub node: Node,
}

// The n entries from byte `at`.
fn load(img: &[u8], at: usize, n: usize) -> Node
    requires { (n ≤ 256) × (at + 8 * n < 1152921504606846976) }
    ensures { (entries result ≡ entries_at img.now at n) × (result.count ≡ n) }
{
    let mut m = tree_node::zeros(n);
    for k in 0..n {
        m.e[k] = chip_read::entry_at(img, at + 8 * k);
    }
    m
}

// The node at a level of a page.
pub fn load_node(g: Geometry, img: &[u8], page: u32, level: u32) -> Node
    ensures { (entries result ≡ node_at g img.now page level) × (result.count < 256) }
{
    let at = chip_read::node_place(g, page, level);
    let n = chip_read::node_count(g, img, page, level);
    load(img, at, n)
}

// The node at a level of a page, with the place and the entry that descent takes.
pub fn take_node(g: Geometry, img: &[u8], page: u32, level: u32, key: u32) -> Taken
    ensures { Takes (node_at g img.now page level) key result }
{
    let at = chip_read::node_place(g, page, level);
    let n = chip_read::node_count(g, img, page, level);
    let m = load(img, at, n);
    if n == 0 {
        return Taken {
            node: m,
            at: 0,
            entry: Entry { key: 0, addr: 0 },
        };
    }
    let i = tree_search::chosen_index(img, at, n, key);
    let x = chip_read::entry_at(img, at + 8 * i);
    Taken {
        node: m,
        at: i,
        entry: x,
    }
}

// The n entries from byte `at` with a key at an address.
fn put_entries(img: &[u8], at: usize, n: usize, key: u32, addr: u32) -> Node
    requires { (n < 256) × (at + 8 * n < 1152921504606846976) }
    ensures { (entries result ≡ put_in key addr (entries_at img.now at n)) × (result.count ≤ n + 1) }
{
    let stand = tree_search::stand_of(img, at, n, key);
    let m = load(img, at, n);
    let x = Entry { key, addr };
    if stand.here {
        return tree_node::replace_at(m, stand.at, x);
    }
    tree_node::insert_at(m, stand.at, x)
}

// A leaf with a key put in.
pub fn put_leaf(g: Geometry, img: &[u8], page: u32, key: u32, addr: u32) -> Node
    ensures { (entries result ≡ put_in key addr (node_at g img.now page 1)) × (result.count ≤ 256) }
{
    let at = chip_read::node_place(g, page, 1);
    let n = chip_read::node_count(g, img, page, 1);
    put_entries(img, at, n, key, addr)
}

// The n entries from byte `at` without a key.
fn remove_entry(img: &[u8], at: usize, n: usize, key: u32) -> Node
    requires { (n < 256) × (at + 8 * n < 1152921504606846976) }
    ensures { (entries result ≡ remove_in key (entries_at img.now at n)) × (result.count ≤ 256) }
{
    let stand = tree_search::stand_of(img, at, n, key);
    let m = load(img, at, n);
    if stand.here {
        return tree_node::remove_at(m, stand.at);
    }
    m
}

// A leaf with a key taken out.
pub fn remove_leaf(g: Geometry, img: &[u8], page: u32, key: u32) -> Node
    ensures { (entries result ≡ remove_in key (node_at g img.now page 1)) × (result.count ≤ 256) }
{
    let at = chip_read::node_place(g, page, 1);
    let n = chip_read::node_count(g, img, page, 1);
    remove_entry(img, at, n, key)
}

fn first_entry(c: Node) -> Entry
    ensures { result ≡ first_of (entries c) }
{
    if c.count == 0 {
        return Entry { key: 0, addr: 0 };
    }
    c.e[0]
}

// While a root above level 1 has one entry, the node it names becomes the root.
pub fn collapse(g: Geometry, img: &[u8], level: u32, c: Node) -> Top
    requires { c.count ≤ 256 }
    ensures { Collapses (node_at g img.now) level (entries c) result }
{
    if level == 0 {
        return Top { level: 0, node: c };
    }
    if tree_node::size(c) != 1 {
        return Top { level, node: c };
    }
    let x = first_entry(c);
    let d = load_node(g, img, x.addr, level);
    collapse(g, img, level - 1, d)
}
