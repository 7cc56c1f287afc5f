// One step of an update's way up: a changed node goes on page N, its other half on a page alone, and what names them
// stands above.
#![tactic(auto, using(crate::specs::StepUp::step_laws))]

ghost use Rattle.std.specs.Prelude.{◌≡◌, ◌+◌, ◌*◌, ◌-◌, ◌≤◌, ◌<◌, min, false};
ghost use Rattle.geometry.specs.Geometry.{page_bytes};
ghost use Rattle.geometry.specs.Bounds.{longest_page};
ghost use Rattle.tree_node.specs.Node.{entries};
ghost use Rattle.chip_store.specs.Run.{Ran, Countable};
ghost use Rattle.tree_split.specs.Step.{side_of, Halved, Stepped, cut_stores, Finished};
ghost use Rattle.tree_split.specs.declared.Change.{Change};

use chip_store::Budget;
use geometry::{Entry, Geometry};
use tree_node::{Carry, Node};

// What an update does: put the key at an address, remove it, or rename from a lowest level up.
#[derive(Clone, Copy)]
pub enum Change {
    Put(u32),
    Remove,
    Rename(u32),
}

// An update: its key, the page N, the largest sequence number, the pages of the other halves from level 1 on, what it
// does.
#[derive(Clone, Copy)]
pub struct Job {
    pub key: u32,
    pub page: u32,
    pub seq: u64,
    pub sides: [u32; 256],
    pub change: Change,
}

// A changed node cut up: what goes on page N, what on a page alone if it is split, what stands above.
#[derive(Clone, Copy)]
pub struct Cut {
    pub path: Node,
    pub side: Node,
    pub split: bool,
    pub carry: Carry,
}

#[derive(Clone, Copy)]
pub struct Climbed {
    pub carry: Carry,
    pub budget: Budget,
}

// The page of the other half at a level.
pub fn side_of(job: Job, level: u32) -> u32
    ensures { result ≡ side_of job level }
{
    let l = geometry::index(level);
    if l == 0 {
        return job.sides[0];
    }
    if l <= 256 {
        return job.sides[l - 1];
    }
    0
}

pub fn least(a: u32, b: u32) -> u32
    ensures { result ≡ min a b }
{
    a.min(b)
}

// The halves at place h: the path's on N, the other on page `other`; `low` is the left one's key above.
pub fn split_at(job: Job, h: usize, low: u32, other: u32, c: Node) -> Cut
    requires { c.count ≤ 256 }
    ensures { Halved job.key job.page other h low (entries c) result }
{
    let left = tree_node::left_half(c, h);
    let right = tree_node::right_half(c, h);
    let key = tree_node::first_key(right);
    if key <= job.key {
        return Cut {
            path: right,
            side: left,
            split: true,
            carry: Carry::Two(
                Entry {
                    key: low,
                    addr: other,
                },
                Entry {
                    key: key,
                    addr: job.page,
                },
            ),
        };
    }
    Cut {
        path: left,
        side: right,
        split: true,
        carry: Carry::Two(
            Entry {
                key: low,
                addr: job.page,
            },
            Entry {
                key: key,
                addr: other,
            },
        ),
    }
}

// A node that stays whole.
fn uncut(path: Node, carry: Carry) -> Cut
    ensures { (result.path ≡ path) × (result.carry ≡ carry) × (result.split ≡ false) × (result.side.count ≡ 0) }
{
    let none = tree_node::empty();
    Cut {
        path: path,
        side: none,
        split: false,
        carry: carry,
    }
}

fn step_put(g: Geometry, job: Job, addr: u32, level: u32, e: Entry, c: Node) -> Cut
    requires { c.count ≤ 256 }
    ensures { Stepped g job (Change.Put addr) level e (entries c) result }
{
    let low = least(e.key, job.key);
    let n = tree_node::size(c);
    let h = geometry::half(g, level);
    if n <= 2 * h {
        return uncut(
            c,
            Carry::One(Entry {
                key: low,
                addr: job.page,
            }),
        );
    }
    let other = side_of(job, level);
    split_at(job, h, low, other, c)
}

fn step_remove(g: Geometry, job: Job, level: u32, e: Entry, c: Node) -> Cut
    requires { c.count ≤ 256 }
    ensures { Stepped g job Change.Remove level e (entries c) result }
{
    if tree_node::size(c) == 0 {
        return uncut(c, Carry::Nothing);
    }
    uncut(
        c,
        Carry::One(Entry {
            key: e.key,
            addr: job.page,
        }),
    )
}

fn step_rename(g: Geometry, job: Job, low: u32, level: u32, e: Entry, c: Node) -> Cut
    requires { c.count ≤ 256 }
    ensures { Stepped g job (Change.Rename low) level e (entries c) result }
{
    if level < low {
        let none = tree_node::empty();
        return uncut(none, Carry::One(e));
    }
    uncut(
        c,
        Carry::One(Entry {
            key: e.key,
            addr: job.page,
        }),
    )
}

// What a changed node becomes.
pub fn step(g: Geometry, job: Job, level: u32, e: Entry, c: Node) -> Cut
    requires { c.count ≤ 256 }
    ensures { Stepped g job job.change level e (entries c) result }
{
    let change = job.change;
    match change {
        Change::Put(addr) => step_put(g, job, addr, level, e, c),
        Change::Remove => step_remove(g, job, level, e, c),
        Change::Rename(low) => step_rename(g, job, low, level, e, c),
    }
}

fn number(seq: u64, level: u32) -> u64
    requires { seq < 8589934592 }
    ensures { result ≡ seq + level }
{
    seq + u64::from(level)
}

// Programs the other half, if there is one.
pub fn store_side(
    g: Geometry,
    img: &mut [u8],
    b: Budget,
    job: Job,
    level: u32,
    split: bool,
    n: Node,
) -> Budget
    requires { (n.count ≤ 256) × (page_bytes g ≤ longest_page) × (job.seq < 8589934592) × (Countable b) }
    ensures { Ran g (cut_stores g job level split (entries n)) b result img.old img.new }
{
    if split {
        let bytes = chip_page::only_bytes(g, number(job.seq, level), 0, level, n);
        return chip_store::put_page(g, &mut *img, b, side_of(job, level), &bytes);
    }
    b
}

// Settles a changed node: its part is laid on page N, its other half stored.
pub fn finish(
    g: Geometry,
    img: &mut [u8],
    page: &mut [u8],
    b: Budget,
    job: Job,
    level: u32,
    e: Entry,
    c: Node,
) -> Climbed
    requires { (c.count ≤ 256) × (page_bytes g ≤ longest_page) × (job.seq < 8589934592) × (Countable b) }
    ensures { Finished g job level e (entries c) b result img.old img.new page.old
        page.new }
{
    let s = step(g, job, level, e, c);
    let path = s.path;
    let side = s.side;
    let carry = s.carry;
    chip_page::lay_level(g, &mut *page, level, path);
    let left = store_side(g, &mut *img, b, job, level, s.split, side);
    Climbed {
        carry: carry,
        budget: left,
    }
}
