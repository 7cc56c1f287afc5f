// Delete's own store: page N with the root and the path's nodes left below it.
#![tactic(auto, using(crate::specs::OwnStore::deletion_laws, crate::specs::Tie::tie_laws))]

ghost use Rattle.std.specs.Prelude.{◌≡◌, [], ◌∷◌, ◌+◌, ◌≤◌, ◌<◌};
ghost use Rattle.geometry.specs.Geometry.{page_bytes};
ghost use Rattle.geometry.specs.Bounds.{four_bytes, longest_page};
ghost use Rattle.chip_read.specs.Chip.{naming};
ghost use Rattle.tree_node.specs.Node.{entries};
ghost use Rattle.chip_store.specs.Run.{Ran, Countable};
ghost use Rattle.tree_root.specs.Owns.{Owns};
ghost use Rattle.open_record.specs.Opened.{chip_by};
ghost use Rattle.live_beside.specs.Beside.{next_by, page_by};
ghost use Rattle.live_beside.specs.Update.{delete_store_at, delete_crest};
ghost use Rattle.tree_delete.specs.Own.{Removes, top_store, root_store, left_at, store_by, top_by};
ghost use Rattle.tree_split.specs.declared.Change.{Change};

use chip_store::Budget;
use geometry::{Entry, Geometry};
use open_record::Opened;
use tree_load::Top;
use tree_path::Changed;
use tree_root::Own;
use tree_split::{Change, Job};

// Page N where the tree shrinks: the new root alone.
fn store_top(g: Geometry, img: &mut [u8], b: Budget, at: u32, seq: u64, t: Top) -> Budget
    requires { (t.node.count ≤ 256) × (t.level < 255) × (page_bytes g ≤ longest_page) × (Countable b) }
    ensures { Ran g (top_store g at seq t.level (entries t.node) ∷ []) b result img.old
        img.new }
{
    let level = t.level + 1;
    let n = t.node;
    let bytes = chip_page::only_bytes(g, seq, level, level, n);
    chip_store::put_page(g, &mut *img, b, at, &bytes)
}

// Page N, once the path is changed.
fn store_root(g: Geometry, img: &mut [u8], page: &mut [u8], job: Job, level: u32, u: Changed) -> Own
    requires { (u.node.count ≤ 256) × (level < 255) × (page_bytes g ≤ longest_page) × (job.seq < four_bytes) ×
        (Countable u.budget) }
    ensures { Owns g (root_store g job level img.old page.old (entries u.node) ∷ []) (left_at g job
        level img.old (entries u.node)) u.budget result
        img.old img.new }
{
    let c = u.node;
    let left = u.budget;
    let t = tree_load::collapse(g, &*img, level, c);
    if t.level == level {
        let made = tree_root::store_path(
            g,
            &mut *img,
            &mut *page,
            left,
            job.page,
            job.seq + 1,
            level,
            c,
        );
        return Own {
            budget: made,
            page: job.page,
            level: level,
        };
    }
    let made = store_top(g, &mut *img, left, job.page, job.seq + 1, t);
    Own {
        budget: made,
        page: job.page,
        level: t.level,
    }
}

// The store of a job of removing.
fn delete_with(g: Geometry, img: &mut [u8], b: Budget, job: Job, level: u32, root: u32) -> Own
    requires { (level < 255) × (page_bytes g ≤ longest_page) × (job.seq < four_bytes) × (Countable b) ×
        (job.change ≡ Change.Remove) }
    ensures { Owns g (store_by g job level (naming root) img.old ∷ []) (top_by g job level (naming root)
        img.old) b result img.old img.new }
{
    let mut page = chip_page::blank();
    let u = tree_path::change(
        g,
        &mut *img,
        &mut page,
        b,
        job,
        level,
        Entry { key: 0, addr: root },
    );
    store_root(g, &mut *img, &mut page, job, level, u)
}

// The job of removing a key, with the record's next page.
fn delete_job(g: Geometry, n: u16, o: Opened, key: u32) -> Job
    ensures { Removes (next_by g n o) o.most key result }
{
    let page = chip_next::next_by(g, n, o.next);
    let none = chip_next::no_pages();
    let last = u64::from(o.most);
    Job {
        key: key,
        page: page,
        seq: last,
        sides: none,
        change: Change::Remove,
    }
}

// The store of a delete on an image of n blocks, by its record; and where the root then stands.
pub fn delete_own(g: Geometry, img: &mut [u8], n: u16, b: Budget, o: Opened, key: u32) -> Own
    requires { (o.height < 256) × (page_bytes g ≤ longest_page) × (Countable b) }
    ensures { Owns g (delete_store_at g o.most (chip_by g img.old o) (page_by g n img.old o 0)
        key ∷ []) (delete_crest (chip_by g img.old o) (page_by g n img.old o 0) key) b result
        img.old img.new }
{
    let level = chip_survey::level_by(g, o.height);
    let job = delete_job(g, n, o, key);
    delete_with(g, &mut *img, b, job, level, o.root)
}
