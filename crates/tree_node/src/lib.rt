// A node by value, and its changes by place.
#![tactic(auto, using(crate::specs::Changes::node_laws))]

ghost use Rattle.std.specs.Prelude.{◌≡◌, [], ◌∷◌, ◌+◌, ◌-◌, ◌≤◌, ◌<◌, length, take, drop, set};
ghost use Rattle.model.specs.Tree.{following};
ghost use Rattle.theory_lists.specs.Places.{insert_at, remove_at};
ghost use Rattle.tree_node.specs.Node.{entries, carried, replace_by};

use geometry::Entry;

// The entries of a node are the first `count` of its array.
#[derive(Clone, Copy)]
pub struct Node {
    pub e: [Entry; 256],
    pub count: usize,
}

// What stands for an entry once the node below it has changed.
#[derive(Clone, Copy)]
pub enum Carry {
    Nothing,
    One(Entry),
    Two(Entry, Entry),
}

// A node of zeros, to be filled.
pub fn zeros(count: usize) -> Node
    ensures { result.count ≡ count }
{
    Node {
        e: [Entry { key: 0, addr: 0 }; 256],
        count,
    }
}

pub fn empty() -> Node
    ensures { (entries result ≡ []) × (result.count ≡ 0) }
{
    zeros(0)
}

pub fn size(n: Node) -> usize
    requires { n.count ≤ 256 }
    ensures { (result ≡ length (entries n)) × (result ≡ n.count) }
{
    n.count
}

// The first key, 0 if there is none.
pub fn first_key(n: Node) -> u32
    requires { n.count ≤ 256 }
    ensures { result ≡ following (entries n) 0 }
{
    if n.count == 0 {
        return 0;
    }
    n.e[0].key
}

// The node with another entry at place i.
pub fn replace_at(n: Node, i: usize, x: Entry) -> Node
    requires { i < 256 }
    ensures { (entries result ≡ set (entries n) i x) × (result.count ≡ n.count) }
{
    let mut m = n;
    m.e[i] = x;
    m
}

// The node with one entry more, at place i.
pub fn insert_at(n: Node, i: usize, x: Entry) -> Node
    requires { (i ≤ n.count) × (n.count < 256) }
    ensures { (entries result ≡ insert_at i x (entries n)) × (result.count ≡ n.count + 1) }
{
    let c = n.count;
    let mut m = n;
    m.e.copy_within(i..c, i + 1);
    m.e[i] = x;
    m.count = c + 1;
    m
}

// The node without the entry at place i.
pub fn remove_at(n: Node, i: usize) -> Node
    requires { (i < n.count) × (n.count ≤ 256) }
    ensures { (entries result ≡ remove_at i (entries n)) × (result.count ≡ n.count - 1) }
{
    let c = n.count;
    let mut m = n;
    m.e.copy_within(i + 1..c, i);
    m.count = c - 1;
    m
}

// The first h entries.
pub fn left_half(n: Node, h: usize) -> Node
    ensures { (entries result ≡ take h (entries n)) × (result.count ≤ n.count) }
{
    let mut m = n;
    m.count = n.count.min(h);
    m
}

// The entries from place h on.
pub fn right_half(n: Node, h: usize) -> Node
    requires { n.count ≤ 256 }
    ensures { (entries result ≡ drop h (entries n)) × (result.count ≤ n.count) }
{
    if n.count <= h {
        return empty();
    }
    let c = n.count;
    let mut m = n;
    m.e.copy_within(h..c, 0);
    m.count = c - h;
    m
}

// The node with two entries for the one at place i.
fn two_for_one(n: Node, i: usize, x: Entry, y: Entry) -> Node
    requires { (i < n.count) × (n.count < 256) × (i < length (entries n)) }
    ensures { (entries result ≡ replace_by i (x ∷ y ∷ []) (entries n)) × (result.count ≡ n.count + 1) }
{
    let m = replace_at(n, i, x);
    insert_at(m, i + 1, y)
}

// The node with what came from below in the place of the entry at place i.
pub fn splice(n: Node, i: usize, c: Carry) -> Node
    requires { (i ≤ n.count - 1) × (n.count < 256) }
    ensures { (entries result ≡ replace_by i (carried c) (entries n)) × (result.count ≤ n.count + 1) }
{
    let k = size(n);
    if k == 0 {
        return n;
    }
    match c {
        Carry::Nothing => remove_at(n, i),
        Carry::One(x) => replace_at(n, i, x),
        Carry::Two(x, y) => two_for_one(n, i, x, y),
    }
}
