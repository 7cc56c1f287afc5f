// An update's way down the path and up again. All is read on the way down; on the way up the levels are laid on page N
// and the other halves stored.
#![tactic(auto, using(crate::specs::WayUp::edit_laws))]

ghost use Rattle.std.specs.Prelude.{◌≡◌, ◌+◌, ◌*◌, ◌-◌, ◌≤◌, ◌<◌};
ghost use Rattle.geometry.specs.Geometry.{page_bytes};
ghost use Rattle.geometry.specs.Bounds.{longest_page};
ghost use Rattle.chip_store.specs.Run.{Countable};
ghost use Rattle.model.specs.Bytes.{node_at};
ghost use Rattle.tree_node.specs.Node.{entries};
ghost use Rattle.tree_split.specs.Step.{leaf_of};
ghost use Rattle.tree_path.specs.Edit.{Rejoined, Changes};

use chip_store::Budget;
use geometry::{Entry, Geometry};
use tree_load::Taken;
use tree_node::Node;
use tree_split::{Change, Job};

// The changed node, and what is left of the allowance.
#[derive(Clone, Copy)]
pub struct Changed {
    pub node: Node,
    pub budget: Budget,
}

fn leaf(g: Geometry, img: &[u8], job: Job, page: u32) -> Node
    ensures { (entries result ≡ leaf_of job.change job.key (node_at g img.now page 1)) ×
        (result.count ≤ 256) }
{
    let change = job.change;
    match change {
        Change::Put(addr) => tree_load::put_leaf(g, img, page, job.key, addr),
        Change::Remove => tree_load::remove_leaf(g, img, page, job.key),
        Change::Rename(_) => tree_load::load_node(g, img, page, 1),
    }
}

// What came of the change below: settled at its level, then put in place of the entry taken.
fn rejoin(
    g: Geometry,
    img: &mut [u8],
    page: &mut [u8],
    job: Job,
    below: u32,
    t: Taken,
    u: Changed,
) -> Changed
    requires { (t.at ≤ t.node.count - 1) × (t.node.count < 256) × (u.node.count ≤ 256) ×
        (page_bytes g ≤ longest_page) × (job.seq < 8589934592) × (Countable u.budget) }
    ensures { Rejoined g job below t (entries u.node) u.budget result img.old img.new
        page.old page.new }
{
    let c = u.node;
    let left = u.budget;
    let x = t.entry;
    let f = tree_split::finish(g, &mut *img, &mut *page, left, job, below, x, c);
    let m = t.node;
    let carry = f.carry;
    let rest = f.budget;
    let n = tree_node::splice(m, t.at, carry);
    Changed {
        node: n,
        budget: rest,
    }
}

// The changed node that entry e names, with `below` levels under it.
pub fn change(
    g: Geometry,
    img: &mut [u8],
    page: &mut [u8],
    b: Budget,
    job: Job,
    below: u32,
    e: Entry,
) -> Changed
    requires { (below < 256) × (page_bytes g ≤ longest_page) × (job.seq < 8589934592) × (Countable b) }
    ensures { Changes g job below e b result img.old img.new page.old
        page.new }
{
    if below == 0 {
        let c = leaf(g, &*img, job, e.addr);
        return Changed { node: c, budget: b };
    }
    let t = tree_load::take_node(g, &*img, e.addr, below + 1, job.key);
    let x = t.entry;
    let u = change(g, &mut *img, &mut *page, b, job, below - 1, x);
    rejoin(g, &mut *img, &mut *page, job, below, t, u)
}
