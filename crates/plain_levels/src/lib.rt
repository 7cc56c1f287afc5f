// An update of the plain tree (request 12), level by level. All is read on the way down; on the way up each changed
// node is stored alone on its page among the pages to come.
#![tactic(auto)]

ghost use Rattle.std.specs.Prelude.{◌≡◌, [], ◌∷◌, suc, ◌+◌, ◌*◌, ◌-◌, ◌≤◌, ◌<◌};
ghost use Rattle.geometry.specs.Geometry.{page_bytes};
ghost use Rattle.geometry.specs.Bounds.{four_bytes, longest_page};
ghost use Rattle.model.specs.Bytes.{node_at};
ghost use Rattle.chip_read.specs.Chip.{chip_with, naming};
ghost use Rattle.tree_node.specs.Node.{entries, carried};
ghost use Rattle.chip_store.specs.Run.{Ran, Countable};
ghost use Rattle.live_beside.specs.Beside.{page_by};
ghost use Rattle.plain_levels.specs.declared.Change.{Change};
ghost use Rattle.plain_levels.specs.Levels.{left_place, right_place, insert_stores_at, delete_stores_at};
ghost use Rattle.plain_levels.specs.Steps.{page_at, alone_store, leaf_by, pair_of, Halved, Parted, Settled};
ghost use Rattle.plain_levels.specs.Steps.{changed, Rejoined, Changes, grown_stores, top_stores, put_stores, stay_stores, remove_stores, Given};

use chip_store::Budget;
use geometry::{Entry, Geometry};
use open_record::Opened;
use tree_load::Taken;
use tree_node::{Carry, Node};
use tree_path::Changed;
use tree_split::Climbed;

// What an update does: put the key at an address, or remove it.
#[derive(Clone, Copy)]
pub enum Change {
    Put(u32),
    Remove,
}

// An update: its key, the largest sequence number, the pages to come, the levels from 1 on that split or are emptied,
// what it does.
#[derive(Clone, Copy)]
pub struct Job {
    pub key: u32,
    pub seq: u64,
    pub pages: [u32; 256],
    pub levels: u32,
    pub change: Change,
}

// The halves of a node, and what stands above them.
#[derive(Clone, Copy)]
pub struct Halves {
    pub left: Node,
    pub right: Node,
    pub carry: Carry,
}

// The page at a place among the pages to come.
fn page_at(job: Job, place: u32) -> u32
    ensures { result ≡ page_at job place }
{
    let i = geometry::index(place);
    if i < 256 {
        return job.pages[i];
    }
    0
}

// The place of a level's node, or of its left half.
fn left_place(cuts: u32, level: u32) -> u32
    requires { (1 ≤ level) × (level ≤ 102) }
    ensures { result ≡ left_place cuts level }
{
    let below = level - 1;
    below + tree_split::least(below, cuts)
}

// The place of a level's right half.
fn right_place(cuts: u32, level: u32) -> u32
    requires { (1 ≤ level) × (level ≤ 102) }
    ensures { result ≡ right_place cuts level }
{
    let below = level - 1;
    below + tree_split::least(level, cuts)
}

// The place of a level's node where the levels up to `emptied` have none.
fn kept_place(emptied: u32, level: u32) -> u32
    requires { 1 ≤ level }
    ensures { result ≡ level - 1 - emptied }
{
    let below = level - 1;
    if below < emptied {
        return 0;
    }
    below - emptied
}

// The sequence number of the page at a place.
fn number(seq: u64, place: u32) -> u64
    requires { seq < 8589934592 }
    ensures { result ≡ seq + suc place }
{
    seq + (place as u64) + 1
}

// Programs a node alone on the page at a place.
fn store_node(
    g: Geometry,
    img: &mut [u8],
    b: Budget,
    job: Job,
    place: u32,
    height: u32,
    level: u32,
    n: Node,
) -> Budget
    requires { (n.count ≤ 256) × (page_bytes g ≤ longest_page) × (job.seq < 8589934592) × (Countable b) }
    ensures { Ran g (alone_store g job place height level (entries n) ∷ []) b result img.old
        img.new }
{
    let bytes = chip_page::only_bytes(g, number(job.seq, place), height, level, n);
    chip_store::put_page(g, &mut *img, b, page_at(job, place), &bytes)
}

// What stands above two halves, by their keys there.
fn pair(job: Job, level: u32, low: u32, key: u32) -> Carry
    requires { (1 ≤ level) × (level ≤ 102) }
    ensures { carried result ≡ pair_of job level low key }
{
    let left = page_at(job, left_place(job.levels, level));
    let right = page_at(job, right_place(job.levels, level));
    Carry::Two(
        Entry {
            key: low,
            addr: left,
        },
        Entry {
            key: key,
            addr: right,
        },
    )
}

// A node cut in halves; `low` is the left one's key above.
fn halve(g: Geometry, job: Job, level: u32, low: u32, c: Node) -> Halves
    requires { (c.count ≤ 256) × (1 ≤ level) × (level ≤ 102) }
    ensures { Halved g job level low (entries c) result }
{
    let h = geometry::half(g, level);
    let left = tree_node::left_half(c, h);
    let right = tree_node::right_half(c, h);
    let carry = pair(job, level, low, tree_node::first_key(right));
    Halves {
        left: left,
        right: right,
        carry: carry,
    }
}

// Programs the halves of a node, the left one first.
fn part(g: Geometry, img: &mut [u8], b: Budget, job: Job, level: u32, low: u32, c: Node) -> Climbed
    requires { (c.count ≤ 256) × (1 ≤ level) × (level ≤ 102) × (page_bytes g ≤ longest_page) ×
        (job.seq < 8589934592) × (Countable b) }
    ensures { Parted g job level low (entries c) b result img.old img.new }
{
    let s = halve(g, job, level, low, c);
    let left = s.left;
    let right = s.right;
    let carry = s.carry;
    let at = left_place(job.levels, level);
    let other = right_place(job.levels, level);
    let first = store_node(g, &mut *img, b, job, at, 0, level, left);
    let second = store_node(g, &mut *img, first, job, other, 0, level, right);
    Climbed {
        carry: carry,
        budget: second,
    }
}

// A changed node of an insert: whole on its page, or its halves on two.
fn settle_put(
    g: Geometry,
    img: &mut [u8],
    b: Budget,
    job: Job,
    addr: u32,
    level: u32,
    e: Entry,
    c: Node,
) -> Climbed
    requires { (c.count ≤ 256) × (1 ≤ level) × (level ≤ 102) × (page_bytes g ≤ longest_page) ×
        (job.seq < 8589934592) × (Countable b) }
    ensures { Settled g job (Change.Put addr) level e (entries c) b result img.old img.new }
{
    let low = tree_split::least(e.key, job.key);
    let n = tree_node::size(c);
    let h = geometry::half(g, level);
    if 2 * h < n {
        return part(g, &mut *img, b, job, level, low, c);
    }
    let at = left_place(job.levels, level);
    let left = store_node(g, &mut *img, b, job, at, 0, level, c);
    let page = page_at(job, at);
    Climbed {
        carry: Carry::One(Entry {
            key: low,
            addr: page,
        }),
        budget: left,
    }
}

// A changed node of a delete: on its page, unless it is emptied.
fn settle_remove(
    g: Geometry,
    img: &mut [u8],
    b: Budget,
    job: Job,
    level: u32,
    e: Entry,
    c: Node,
) -> Climbed
    requires { (c.count ≤ 256) × (1 ≤ level) × (page_bytes g ≤ longest_page) × (job.seq < 8589934592) ×
        (Countable b) }
    ensures { Settled g job Change.Remove level e (entries c) b result img.old img.new }
{
    if tree_node::size(c) == 0 {
        return Climbed {
            carry: Carry::Nothing,
            budget: b,
        };
    }
    let at = kept_place(job.levels, level);
    let left = store_node(g, &mut *img, b, job, at, 0, level, c);
    let page = page_at(job, at);
    Climbed {
        carry: Carry::One(Entry {
            key: e.key,
            addr: page,
        }),
        budget: left,
    }
}

// A changed node below the root, stored; and what stands above it.
fn settle(
    g: Geometry,
    img: &mut [u8],
    b: Budget,
    job: Job,
    level: u32,
    e: Entry,
    c: Node,
) -> Climbed
    requires { (c.count ≤ 256) × (1 ≤ level) × (level ≤ 102) × (page_bytes g ≤ longest_page) ×
        (job.seq < 8589934592) × (Countable b) }
    ensures { Settled g job job.change level e (entries c) b result img.old img.new }
{
    let change = job.change;
    match change {
        Change::Put(addr) => settle_put(g, &mut *img, b, job, addr, level, e, c),
        Change::Remove => settle_remove(g, &mut *img, b, job, level, e, c),
    }
}

fn leaf(g: Geometry, img: &[u8], job: Job, page: u32) -> Node
    ensures { (entries result ≡ leaf_by job.change job.key (node_at g img.now page 1)) ×
        (result.count ≤ 256) }
{
    let change = job.change;
    match change {
        Change::Put(addr) => tree_load::put_leaf(g, img, page, job.key, addr),
        Change::Remove => tree_load::remove_leaf(g, img, page, job.key),
    }
}

// What came of the change below: settled at its level, then put in place of the entry taken.
fn rejoin(g: Geometry, img: &mut [u8], job: Job, below: u32, t: Taken, u: Changed) -> Changed
    requires { (t.at ≤ t.node.count - 1) × (t.node.count < 256) × (u.node.count ≤ 256) × (1 ≤ below) ×
        (below ≤ 102) × (page_bytes g ≤ longest_page) × (job.seq < 8589934592) × (Countable u.budget) }
    ensures { Rejoined g job below t (entries u.node) u.budget result img.old img.new }
{
    let c = u.node;
    let left = u.budget;
    let x = t.entry;
    let f = settle(g, &mut *img, left, job, below, x, c);
    let m = t.node;
    let carry = f.carry;
    let rest = f.budget;
    let n = tree_node::splice(m, t.at, carry);
    Changed {
        node: n,
        budget: rest,
    }
}

// The changed node that entry e names, with `below` levels under it, all of them stored.
fn climb(g: Geometry, img: &mut [u8], b: Budget, job: Job, below: u32, e: Entry) -> Changed
    requires { (below ≤ 100) × (page_bytes g ≤ longest_page) × (job.seq < 8589934592) × (Countable b) }
    ensures { Changes g job below e b result img.old img.new }
{
    if below == 0 {
        let c = leaf(g, &*img, job, e.addr);
        return Changed { node: c, budget: b };
    }
    let t = tree_load::take_node(g, &*img, e.addr, below + 1, job.key);
    let x = t.entry;
    let u = climb(g, &mut *img, b, job, below - 1, x);
    rejoin(g, &mut *img, job, below, t, u)
}

// The halves of a root under a new one.
fn grow(g: Geometry, img: &mut [u8], b: Budget, job: Job, level: u32, c: Node) -> Budget
    requires { (c.count ≤ 256) × (1 ≤ level) × (level ≤ 101) × (page_bytes g ≤ longest_page) ×
        (job.seq < 8589934592) × (Countable b) }
    ensures { Ran g (grown_stores g job level (entries c)) b result img.old img.new }
{
    let low = tree_node::first_key(c);
    let u = part(g, &mut *img, b, job, level, low, c);
    let carry = u.carry;
    let left = u.budget;
    let above = tree_root::node_of(carry);
    let at = left_place(job.levels, level + 1);
    store_node(g, &mut *img, left, job, at, level + 1, level + 1, above)
}

// The changed root of an insert: whole on its page, or its halves under a new one.
fn store_root(g: Geometry, img: &mut [u8], b: Budget, job: Job, level: u32, c: Node) -> Budget
    requires { (c.count ≤ 256) × (1 ≤ level) × (level ≤ 101) × (page_bytes g ≤ longest_page) ×
        (job.seq < 8589934592) × (Countable b) }
    ensures { Ran g (top_stores g job level (entries c)) b result img.old img.new }
{
    let n = tree_node::size(c);
    let h = geometry::half(g, level);
    if 2 * h < n {
        return grow(g, &mut *img, b, job, level, c);
    }
    let at = left_place(job.levels, level);
    store_node(g, &mut *img, b, job, at, level, level, c)
}

// All stores of an insert's job.
fn insert_with(g: Geometry, img: &mut [u8], b: Budget, job: Job, level: u32, root: u32) -> Budget
    requires { (level ≤ 100) × (page_bytes g ≤ longest_page) × (job.seq < four_bytes) × (Countable b) }
    ensures { Ran g (put_stores g job level (naming root) img.old) b result img.old
        img.new }
{
    let u = climb(g, &mut *img, b, job, level, Entry { key: 0, addr: root });
    let c = u.node;
    let left = u.budget;
    store_root(g, &mut *img, left, job, level + 1, c)
}

// The changed root of a delete before anything is stored: no store is allowed.
fn look(g: Geometry, img: &mut [u8], job: Job, level: u32, root: u32) -> Node
    requires { (level ≤ 100) × (page_bytes g ≤ longest_page) × (job.seq < four_bytes) }
    ensures { (entries result ≡ changed g job img.old level (naming root)) × (result.count ≤ 256) ×
        (img.new ≡ img.old) }
{
    let none = Budget {
        left: 0,
        programmed: 0,
        erased: 0,
        stopped: true,
    };
    let u = climb(g, &mut *img, none, job, level, Entry { key: 0, addr: root });
    u.node
}

// The stores of a delete's job where the root stays.
fn store_path(g: Geometry, img: &mut [u8], b: Budget, job: Job, level: u32, root: u32) -> Budget
    requires { (level ≤ 100) × (page_bytes g ≤ longest_page) × (job.seq < four_bytes) × (Countable b) }
    ensures { Ran g (stay_stores g job level (naming root) img.old) b result img.old
        img.new }
{
    let u = climb(g, &mut *img, b, job, level, Entry { key: 0, addr: root });
    let c = u.node;
    let left = u.budget;
    let at = kept_place(job.levels, level + 1);
    store_node(g, &mut *img, left, job, at, level + 1, level + 1, c)
}

// All stores of a delete's job: the path's, or where the tree shrinks the new root's alone.
fn delete_with(g: Geometry, img: &mut [u8], b: Budget, job: Job, level: u32, root: u32) -> Budget
    requires { (level ≤ 100) × (page_bytes g ≤ longest_page) × (job.seq < four_bytes) × (Countable b) }
    ensures { Ran g (remove_stores g job level (naming root) img.old) b result img.old
        img.new }
{
    let c = look(g, &mut *img, job, level, root);
    let t = tree_load::collapse(g, &*img, level, c);
    if t.level == level {
        return store_path(g, &mut *img, b, job, level, root);
    }
    let n = t.node;
    let height = t.level + 1;
    store_node(g, &mut *img, b, job, 0, height, height, n)
}

fn long(x: u32) -> u64
    ensures { (result ≡ x) × (result < four_bytes) }
{
    x as u64
}

// The job of an update on an image of n blocks by its record, with the first `count` pages to come.
fn job_of(
    g: Geometry,
    img: &[u8],
    n: u16,
    o: Opened,
    levels: u32,
    key: u32,
    count: u32,
    change: Change,
) -> Job
    requires { count ≤ 256 }
    ensures { Given (page_by g n img.now o) o.most levels key count change result }
{
    let next = chip_next::next_by(g, n, o.next);
    let pages = chip_next::coming_from(g, img, n, next, geometry::index(count));
    let seq = long(o.most);
    Job {
        key: key,
        seq: seq,
        pages: pages,
        levels: levels,
        change: change,
    }
}

// The stores of an insert on an image of n blocks, by its record: `level` levels are below the root, levels 1 to `cuts`
// split.
pub fn insert_pages(
    g: Geometry,
    img: &mut [u8],
    n: u16,
    b: Budget,
    o: Opened,
    level: u32,
    cuts: u32,
    key: u32,
    addr: u32,
) -> Budget
    requires { (level ≤ 100) × (cuts ≤ 101) × (page_bytes g ≤ longest_page) × (Countable b) }
    ensures { Ran g (insert_stores_at g (chip_with g img.old level o.root) key addr
        (page_by g n img.old o) o.most cuts) b result img.old img.new }
{
    let job = job_of(
        g,
        &*img,
        n,
        o,
        cuts,
        key,
        level + cuts + 2,
        Change::Put(addr),
    );
    insert_with(g, &mut *img, b, job, level, o.root)
}

// The stores of a delete, likewise: the nodes of levels 1 to `emptied` are emptied.
pub fn delete_pages(
    g: Geometry,
    img: &mut [u8],
    n: u16,
    b: Budget,
    o: Opened,
    level: u32,
    emptied: u32,
    key: u32,
) -> Budget
    requires { (level ≤ 100) × (page_bytes g ≤ longest_page) × (Countable b) }
    ensures { Ran g (delete_stores_at g (chip_with g img.old level o.root) key (page_by g n img.old o)
        o.most emptied) b result img.old img.new }
{
    let job = job_of(g, &*img, n, o, emptied, key, level + 1, Change::Remove);
    delete_with(g, &mut *img, b, job, level, o.root)
}
