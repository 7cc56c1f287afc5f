// The store that moves a live page: the nodes from the root to its lowest live node, on the next page.
#![tactic(auto, using(crate::specs::Moves::moving_laws, crate::specs::Tie::tie_laws))]

ghost use Rattle.std.specs.Prelude.{◌≡◌, [], ◌∷◌, ◌+◌, ◌≤◌, ◌<◌, leb};
ghost use Rattle.geometry.specs.Geometry.{page_bytes};
ghost use Rattle.geometry.specs.Tests.{pick};
ghost use Rattle.geometry.specs.Bounds.{longest_page};
ghost use Rattle.model.specs.Bytes.{node_at};
ghost use Rattle.model.specs.Tree.{following};
ghost use Rattle.chip_read.specs.Chip.{naming};
ghost use Rattle.tree_node.specs.Node.{entries};
ghost use Rattle.chip_store.specs.Run.{Ran, Countable};
ghost use Rattle.tree_move.specs.Own.{Moves, Moved, store_by};
ghost use Rattle.tree_split.specs.declared.Change.{Change};

use chip_store::Budget;
use geometry::{Entry, Geometry};
use tree_node::Node;
use tree_split::{Change, Job};

// The key by which descent comes to the node at a level of a page: its first.
pub fn first_key(g: Geometry, img: &[u8], page: u32, level: u32) -> u32
    ensures { result ≡ following (node_at g img.now page level) 0 }
{
    let c = tree_load::load_node(g, img, page, level);
    tree_node::first_key(c)
}

// The job of moving the path of a key from level `low` up to page `to`, the largest number given.
fn move_job(most: u64, to: u32, low: u32, key: u32) -> Job
    ensures { Moves most to low key result }
{
    let none = chip_next::no_pages();
    Job {
        key: key,
        page: to,
        seq: most,
        sides: none,
        change: Change::Rename(low),
    }
}

// A node from the lowest level that moves up.
fn from_level(low: u32, level: u32, c: Node) -> Node
    requires { c.count ≤ 256 }
    ensures { (entries result ≡ pick (leb low level) (entries c) []) × (result.count ≤ 256) }
{
    if level < low {
        return tree_node::empty();
    }
    c
}

// The store of a job of renaming.
fn move_with(
    g: Geometry,
    img: &mut [u8],
    b: Budget,
    job: Job,
    low: u32,
    level: u32,
    root: u32,
) -> Budget
    requires { (level < 255) × (page_bytes g ≤ longest_page) × (job.seq < 8589934592) × (Countable b) ×
        (job.change ≡ Change.Rename low) }
    ensures { Ran g (store_by g job low level (naming root) img.old ∷ []) b result img.old
        img.new }
{
    let mut page = chip_page::blank();
    let u = tree_path::change(
        g,
        &mut *img,
        &mut page,
        b,
        job,
        level,
        Entry { key: 0, addr: root },
    );
    let c = u.node;
    let left = u.budget;
    let top = from_level(low, level + 1, c);
    tree_root::store_path(
        g,
        &mut *img,
        &mut page,
        left,
        job.page,
        job.seq + 1,
        level,
        top,
    )
}

// Moves a page to page `to`: the path of its key from its lowest live level up. The root's page, the largest number and
// the levels below the root are given.
pub fn move_page(
    g: Geometry,
    img: &mut [u8],
    b: Budget,
    root: u32,
    most: u64,
    level: u32,
    to: u32,
    low: u32,
    key: u32,
) -> Budget
    requires { (level < 255) × (page_bytes g ≤ longest_page) × (most < 8589934592) × (Countable b) }
    ensures { Moved g root most level to low key b result img.old img.new }
{
    let job = move_job(most, to, low, key);
    move_with(g, &mut *img, b, job, low, level, root)
}
