// The top of an update: the changed root, as it is or halved under a new one, and page N programmed last.
#![tactic(auto, using(crate::specs::Tops::crown_laws))]

ghost use Rattle.std.specs.Prelude.{◌≡◌, false, [], ◌∷◌, suc, ◌+◌, ◌*◌, ◌-◌, ◌≤◌, ◌<◌, take};
ghost use Rattle.geometry.specs.Geometry.{page_bytes};
ghost use Rattle.geometry.specs.Tests.{pick};
ghost use Rattle.geometry.specs.Bounds.{longest_page};
ghost use Rattle.model.specs.Page.{sealed};
ghost use Rattle.model.specs.Stores.{Store};
ghost use Rattle.tree_node.specs.Node.{entries, carried};
ghost use Rattle.chip_page.specs.Page.{laid_level, bare};
ghost use Rattle.chip_store.specs.Run.{Ran, Countable};
ghost use Rattle.tree_root.specs.Crown.{Grows, Crowns, Crowned, path_store};

use chip_store::Budget;
use geometry::{Entry, Geometry};
use tree_node::{Carry, Node};
use tree_split::Job;

// The root's part on page N, the root above it if it grows, and the other half.
#[derive(Clone, Copy)]
pub struct Crown {
    pub path: Node,
    pub above: Node,
    pub side: Node,
    pub grows: bool,
}

// The height afterwards, and what is left of the allowance.
#[derive(Clone, Copy)]
pub struct Summit {
    pub height: u32,
    pub budget: Budget,
}

// What an update's own stores leave: the allowance, and where the root stands if all were made: its page, and the
// levels below it.
#[derive(Clone, Copy)]
pub struct Own {
    pub budget: Budget,
    pub page: u32,
    pub level: u32,
}

fn one(x: Entry) -> Node
    ensures { (entries result ≡ x ∷ []) × (result.count ≡ 1) }
{
    let n = tree_node::zeros(1);
    let mut m = n;
    m.e[0] = x;
    m
}

fn two(x: Entry, y: Entry) -> Node
    ensures { (entries result ≡ x ∷ y ∷ []) × (result.count ≡ 2) }
{
    let n = tree_node::zeros(2);
    let mut m = n;
    m.e[0] = x;
    m.e[1] = y;
    m
}

// The node of a carry's entries.
pub fn node_of(c: Carry) -> Node
    ensures { (entries result ≡ carried c) × (result.count ≤ 2) }
{
    match c {
        Carry::Nothing => tree_node::empty(),
        Carry::One(x) => one(x),
        Carry::Two(x, y) => two(x, y),
    }
}

// A root at its full slots: halved, under a new root of two entries.
fn grow(g: Geometry, job: Job, level: u32, c: Node) -> Crown
    requires { c.count ≤ 256 }
    ensures { Grows g job level (entries c) result }
{
    let low = tree_node::first_key(c);
    let h = 2 * geometry::half(g, level);
    let other = tree_split::side_of(job, level);
    let s = tree_split::split_at(job, h, low, other, c);
    let path = s.path;
    let side = s.side;
    let carry = s.carry;
    let above = node_of(carry);
    Crown {
        path: path,
        above: above,
        side: side,
        grows: true,
    }
}

fn stay(c: Node) -> Crown
    ensures { (result.path ≡ c) × (entries result.above ≡ []) × (result.above.count ≡ 0) × (result.side.count ≡ 0) ×
        (result.grows ≡ false) }
{
    let none = tree_node::empty();
    Crown {
        path: c,
        above: none,
        side: none,
        grows: false,
    }
}

// The changed root at a level: it stays, or grows.
fn crown_of(g: Geometry, job: Job, level: u32, c: Node) -> Crown
    requires { c.count ≤ 256 }
    ensures { Crowns g job level (entries c) result }
{
    let n = tree_node::size(c);
    if !tree_plan::root_fills(g, level, n) {
        return stay(c);
    }
    grow(g, job, level, c)
}

fn height_of(level: u32, grows: bool) -> u32
    requires { level < 65536 }
    ensures { result ≡ pick grows (suc level) level }
{
    if grows {
        return level + 1;
    }
    level
}

// Lays the root, and the new root above it or no node.
fn lay_crown(g: Geometry, page: &mut [u8], level: u32, path: Node, above: Node)
    requires { (path.count ≤ 256) × (above.count ≤ 256) × (level < 65536) }
    ensures { page.new ≡ laid_level g (laid_level g page.old level (entries path))
        (level + 1) (entries above) }
{
    chip_page::lay_level(g, &mut *page, level, path);
    chip_page::lay_level(g, &mut *page, level + 1, above);
}

// The changed root settled: laid on page N, its other half stored.
pub fn settle(
    g: Geometry,
    img: &mut [u8],
    page: &mut [u8],
    b: Budget,
    job: Job,
    level: u32,
    c: Node,
) -> Summit
    requires { (c.count ≤ 256) × (level < 65536) × (page_bytes g ≤ longest_page) × (job.seq < 8589934592) ×
        (Countable b) }
    ensures { Crowned g job level (entries c) b result img.old img.new page.old
        page.new }
{
    let s = crown_of(g, job, level, c);
    let path = s.path;
    let above = s.above;
    let side = s.side;
    lay_crown(g, &mut *page, level, path, above);
    let left = tree_split::store_side(g, &mut *img, b, job, level, s.grows, side);
    let height = height_of(level, s.grows);
    Summit {
        height: height,
        budget: left,
    }
}

// Page N, whose levels up to `from` are laid, closed and programmed.
pub fn store_last(
    g: Geometry,
    img: &mut [u8],
    page: &mut [u8],
    b: Budget,
    at: u32,
    from: u32,
    seq: u64,
    height: u32,
) -> Budget
    requires { (from < 65536) × (Countable b) }
    ensures { Ran g (Store.program at (take (page_bytes g)
        (sealed g (bare g from (g.top - from) page.old) seq height)) ∷ []) b result img.old img.new }
{
    chip_page::close(g, &mut *page, from, seq, height);
    chip_store::put_page(g, &mut *img, b, at, &*page)
}

// Page N under a root that stays, the levels below it laid already.
pub fn store_path(
    g: Geometry,
    img: &mut [u8],
    page: &mut [u8],
    b: Budget,
    at: u32,
    seq: u64,
    level: u32,
    c: Node,
) -> Budget
    requires { (c.count ≤ 256) × (level < 255) × (Countable b) }
    ensures { Ran g (path_store g at seq level (entries c) page.old ∷ []) b result img.old
        img.new }
{
    chip_page::lay_level(g, &mut *page, level + 1, c);
    store_last(g, &mut *img, &mut *page, b, at, level + 1, seq, level + 1)
}
