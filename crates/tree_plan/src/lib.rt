// What an update will need, read before it begins: whether the key is there, how many pages, whether the tree is too
// high.
#![tactic(auto, using(crate::specs::Planning::plan_laws))]

ghost use Rattle.std.specs.Prelude.{◌≡◌, suc, ◌+◌, ◌*◌, ◌-◌, ◌≤◌, ◌<◌, eqb, length, is_none};
ghost use Rattle.geometry.specs.Geometry.{half};
ghost use Rattle.model.specs.Bytes.{node_at};
ghost use Rattle.model.specs.Tree.{leaf, find_in};
ghost use Rattle.geometry.specs.Tests.{bit};
ghost use Rattle.model.specs.Update.{fills};
ghost use Rattle.chip_read.specs.Chip.{chip_with};
ghost use Rattle.tree_plan.specs.Plan.{high, Counts, Plans};

use geometry::{Entry, Geometry};

// How many nodes of a path split, and whether the entry above it gives way to two.
#[derive(Clone, Copy)]
pub struct Run {
    pub splits: u32,
    pub gains: bool,
}

// Whether the key is absent, the pages that putting it needs, whether it would be too high.
#[derive(Clone, Copy)]
pub struct Plan {
    pub absent: bool,
    pub needs: u32,
    pub high: bool,
}

// What lookup finds of a key, from the entry e with `below` levels under its node.
pub fn seek(g: Geometry, img: &[u8], key: u32, below: u32, e: Entry) -> Option<u32>
    requires { below < 256 }
    ensures { result ≡ find_in key (leaf (node_at g img.now) key below e) }
{
    if below == 0 {
        return tree_search::find_key(g, img, e.addr, 1, key);
    }
    let x = tree_search::chosen_entry(g, img, e.addr, below + 1, key);
    seek(g, img, key, below - 1, x)
}

// Whether a node below the root has all its slots.
fn is_full(g: Geometry, img: &[u8], page: u32, level: u32) -> bool
    ensures { result ≡ eqb (length (node_at g img.now page level)) (2 * half g level) }
{
    chip_read::node_count(g, img, page, level) == 2 * geometry::half(g, level)
}

// The splits of the path from the entry e down, `below` levels.
pub fn count_splits(g: Geometry, img: &[u8], key: u32, absent: bool, below: u32, e: Entry) -> Run
    requires { below < 256 }
    ensures { Counts g img.now key absent below e result }
{
    if below == 0 {
        return Run {
            splits: 0,
            gains: absent,
        };
    }
    let x = tree_search::chosen_entry(g, img, e.addr, below, key);
    let r = count_splits(g, img, key, absent, below - 1, x);
    if !is_full(g, img, e.addr, below) {
        return Run {
            splits: r.splits,
            gains: false,
        };
    }
    if !r.gains {
        return Run {
            splits: r.splits,
            gains: false,
        };
    }
    Run {
        splits: r.splits + 1,
        gains: true,
    }
}

// Whether a root of m entries has its full slots, below the greatest height.
pub fn root_fills(g: Geometry, level: u32, m: usize) -> bool
    ensures { result ≡ fills g level m }
{
    if geometry::wide(g.top) <= geometry::index(level) {
        return false;
    }
    m == geometry::root_slots(g, level)
}

// One page, one for each split, and one more where the root grows.
pub fn count_pages(splits: u32, grows: bool) -> u32
    requires { splits < 65536 }
    ensures { (result ≡ suc (splits + bit grows)) × (result ≤ splits + 2) }
{
    splits + 1 + u32::from(grows)
}

// HEIGHT: the greatest height, a root with all its slots, and one entry more.
fn too_high(g: Geometry, level: u32, m: usize, gains: bool) -> bool
    requires { level < 65536 }
    ensures { result ≡ high g level m gains }
{
    if geometry::index(level) != geometry::wide(g.top) {
        return false;
    }
    if m != geometry::root_slots(g, level) {
        return false;
    }
    gains
}

// Whether nothing stands under a key, from the entry e with `below` levels under its node.
pub fn is_absent(g: Geometry, img: &[u8], key: u32, below: u32, e: Entry) -> bool
    requires { below < 256 }
    ensures { result ≡ is_none (find_in key (leaf (node_at g img.now) key below e)) }
{
    let r = seek(g, img, key, below, e);
    r.is_none()
}

// The plan for a key under the root at a page with `level` levels below it.
pub fn make_plan(g: Geometry, img: &[u8], level: u32, root: u32, key: u32) -> Plan
    requires { level < 255 }
    ensures { Plans g (chip_with g img.now level root) key result }
{
    let absent = is_absent(g, img, key, level, Entry { key: 0, addr: root });
    let x = tree_search::chosen_entry(g, img, root, level + 1, key);
    let r = count_splits(g, img, key, absent, level, x);
    let m = chip_read::node_count(g, img, root, level + 1);
    let grows = root_fills(g, level + 1, m + usize::from(r.gains));
    let needs = count_pages(r.splits, grows);
    let high = too_high(g, level + 1, m, r.gains);
    Plan {
        absent: absent,
        needs: needs,
        high: high,
    }
}
