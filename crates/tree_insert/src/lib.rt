// Insert's own stores: other halves, lower level first, then page N.
#![tactic(auto, using(crate::specs::OwnStores::insertion_laws, crate::specs::Tie::tie_laws))]

ghost use Rattle.std.specs.Prelude.{◌≡◌, ◌+◌, ◌≤◌, ◌<◌, max};
ghost use Rattle.geometry.specs.Geometry.{page_bytes};
ghost use Rattle.geometry.specs.Bounds.{four_bytes, longest_page};
ghost use Rattle.chip_read.specs.Chip.{naming};
ghost use Rattle.chip_store.specs.Run.{Countable};
ghost use Rattle.tree_root.specs.Owns.{Owns};
ghost use Rattle.live_beside.specs.Update.{own_by, crest_by};
ghost use Rattle.tree_insert.specs.Own.{Climbs, stores_by, top_by, sides_on, Puts};

use chip_store::Budget;
use geometry::{Entry, Geometry};
use open_record::Opened;
use tree_root::{Own, Summit};
use tree_split::{Change, Job};

// The path changed and laid on page N, the other halves stored.
fn climb(
    g: Geometry,
    img: &mut [u8],
    page: &mut [u8],
    b: Budget,
    job: Job,
    level: u32,
    root: u32,
) -> Summit
    requires { (level < 255) × (page_bytes g ≤ longest_page) × (job.seq < four_bytes) × (Countable b) }
    ensures { Climbs g job level (naming root) b result img.old img.new page.old
        page.new }
{
    let u = tree_path::change(
        g,
        &mut *img,
        &mut *page,
        b,
        job,
        level,
        Entry { key: 0, addr: root },
    );
    let c = u.node;
    let left = u.budget;
    tree_root::settle(g, &mut *img, &mut *page, left, job, level + 1, c)
}

// All stores of a job, page N with the number `last`; and where the root stands once they are made.
fn insert_with(
    g: Geometry,
    img: &mut [u8],
    b: Budget,
    job: Job,
    last: u64,
    level: u32,
    root: u32,
) -> Own
    requires { (level < 255) × (page_bytes g ≤ longest_page) × (job.seq < four_bytes) × (Countable b) }
    ensures { Owns g (stores_by g job img.old last level (naming root)) (top_by g job img.old level
        (naming root)) b result img.old img.new }
{
    let mut page = chip_page::blank();
    let w = climb(g, &mut *img, &mut page, b, job, level, root);
    let left = w.budget;
    let made = tree_root::store_last(
        g,
        &mut *img,
        &mut page,
        left,
        job.page,
        level + 2,
        last,
        w.height,
    );
    Own {
        budget: made,
        page: job.page,
        level: w.height - 1,
    }
}

fn number(seq: u32, more: u32) -> u64
    ensures { result ≡ seq + more }
{
    u64::from(seq) + u64::from(more)
}

// The job of putting a key at an address, with m pages to come after the record's next one.
fn insert_job(
    g: Geometry,
    img: &[u8],
    n: u16,
    o: Opened,
    m: u32,
    level: u32,
    key: u32,
    addr: u32,
) -> Job
    requires { (level < 255) × (1 ≤ m) × (m ≤ 256) }
    ensures { Puts (sides_on g n img.now o) o.most level m key addr result }
{
    let k = geometry::index(m);
    let count = k.max(geometry::index(level) + 1);
    let next = chip_next::next_by(g, n, o.next);
    let sides = chip_next::coming_from(g, img, n, next, count);
    let page = sides[k - 1];
    let seq = u64::from(o.most);
    Job {
        key: key,
        page: page,
        seq: seq,
        sides: sides,
        change: Change::Put(addr),
    }
}

// The stores of an insert of m pages on an image of n blocks, by its record; and where the root then stands.
pub fn insert_own(
    g: Geometry,
    img: &mut [u8],
    n: u16,
    b: Budget,
    o: Opened,
    m: u32,
    key: u32,
    addr: u32,
) -> Own
    requires { (o.height < 256) × (1 ≤ m) × (m ≤ 256) × (page_bytes g ≤ longest_page) × (Countable b) }
    ensures { Owns g (own_by g n img.old o m key addr) (crest_by g n img.old o m key addr) b result
        img.old img.new }
{
    let level = chip_survey::level_by(g, o.height);
    let job = insert_job(g, &*img, n, o, m, level, key, addr);
    insert_with(g, &mut *img, b, job, number(o.most, m), level, o.root)
}
