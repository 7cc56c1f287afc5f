// Collection: the victim's live pages moved, lowest first, then the victim erased, while too few pages are erased.
// Each store on the image as it then stands. The lent tables follow each move, and the record each erase: no tree is
// walked, and the image is surveyed anew only where the block erased may have held the largest number.
#![tactic(auto, using(crate::specs::Collecting::collect_laws))]

ghost use Rattle.std.specs.Prelude.{◌≡◌, false, ◌+◌, ◌≤◌, ◌<◌, max, get_or, Some};
ghost use Rattle.geometry.specs.Geometry.{page_bytes};
ghost use Rattle.geometry.specs.Bounds.{four_bytes, longest_page};
ghost use Rattle.chip_store.specs.Run.{Countable};
ghost use Rattle.live_beside.specs.Table.{table_in};
ghost use Rattle.live_beside.specs.Beside.{holding};
ghost use Rattle.live_beside.specs.Collect.{move_by, page_by, sweep_by, clear_by, victim_by};
ghost use Rattle.collect_blocks.specs.Collect.{beside_in, Sweeps, Clears, Begins, Wipes, Remarks, Onward, Collects};

use chip_store::Budget;
use geometry::Geometry;
use open_record::Opened;

// What changes beside the image while pages move: the root's page, the largest number, the next page.
#[derive(Clone, Copy)]
pub struct Kept {
    pub root: u32,
    pub most: u64,
    pub next: u32,
}

// What is left of the allowance, and what is kept.
#[derive(Clone, Copy)]
pub struct Carried {
    pub budget: Budget,
    pub kept: Kept,
}

// What is left of the allowance, and the record of the image as it then stands.
#[derive(Clone, Copy)]
pub struct Swept {
    pub budget: Budget,
    pub opened: Opened,
}

// What is kept once the next page is programmed.
fn kept_after(g: Geometry, img: &[u8], n: u16, h: Kept) -> Kept
    requires { (h.most < 8589934592) × (h.next < 4294967295) }
    ensures onward { Onward g n img.now h result }
    ensures most_bound { (result.most ≤ h.most + 1) × (result.next ≤ max (h.next + 1) 4294836225) }
{
    let next = chip_next::next_after(g, img, n, h.next);
    Kept {
        root: h.next,
        most: h.most + 1,
        next,
    }
}

// The marks of the move of a page whose lowest live level is `low`; gives the key of the path that moves.
fn move_marks(
    g: Geometry,
    img: &[u8],
    table: &mut [u8],
    words: &mut [u32],
    n: u16,
    level: u32,
    page: u32,
    low: u32,
    h: Kept,
) -> u32
    requires { (level < 255) × (low < 256) }
    ensures { Remarks g n level page low result h img.now table.old table.new
        words.old words.new }
{
    let key = tree_move::first_key(g, img, page, low);
    let m = live_fill::words_of(g, n);
    let new = h.next;
    live_marks::move_marks(
        g,
        img,
        &mut *table,
        &mut *words,
        m,
        key,
        low,
        level,
        h.root,
        new,
    );
    key
}

// Moves a live page: its marks first, on the image before the store.
fn move_live(
    g: Geometry,
    img: &mut [u8],
    table: &mut [u8],
    words: &mut [u32],
    n: u16,
    b: Budget,
    level: u32,
    page: u32,
    low: u32,
    h: Kept,
) -> Carried
    requires level_bound { (level < 255) × (low < 256) × (page_bytes g ≤ longest_page) × (h.most < 8589934592) ×
        (h.next < 4294967295) × (Countable b) × (b.stopped ≡ false) }
    requires low_value { low ≡ get_or table.old page 0 }
    ensures sweeps { Sweeps g n level (move_by g n page
        (beside_in h level (table_in table.old words.old)) img.old) b result.budget
        img.old img.new result.kept table.old table.new words.old words.new }
    ensures most_bound { (result.kept.most ≤ h.most + 1) × (result.kept.next ≤ max (h.next + 1) 4294836225) }
{
    let key = move_marks(g, &*img, &mut *table, &mut *words, n, level, page, low, h);
    let r = tree_move::move_page(g, &mut *img, b, h.root, h.most, level, h.next, low, key);
    if r.stopped {
        return Carried { budget: r, kept: h };
    }
    let k = kept_after(g, &*img, n, h);
    Carried { budget: r, kept: k }
}

// Moves a page, if it is live.
fn sweep_page(
    g: Geometry,
    img: &mut [u8],
    table: &mut [u8],
    words: &mut [u32],
    n: u16,
    b: Budget,
    level: u32,
    page: u32,
    h: Kept,
) -> Carried
    requires { (level < 255) × (page_bytes g ≤ longest_page) × (h.most < 8589934592) × (h.next < 4294967295) ×
        (Countable b) × (b.stopped ≡ false) }
    ensures sweeps { Sweeps g n level (page_by g n page
        (beside_in h level (table_in table.old words.old)) img.old) b result.budget
        img.old img.new result.kept table.old table.new words.old words.new }
    ensures most_bound { (result.kept.most ≤ h.most + 1) × (result.kept.next ≤ max (h.next + 1) 4294836225) }
{
    let low = live_walk::noted(&*table, page);
    if low == 0 {
        return Carried { budget: b, kept: h };
    }
    move_live(
        g,
        &mut *img,
        &mut *table,
        &mut *words,
        n,
        b,
        level,
        page,
        low,
        h,
    )
}

// Moves the live pages of block v, in rising order.
fn sweep(
    g: Geometry,
    img: &mut [u8],
    table: &mut [u8],
    words: &mut [u32],
    n: u16,
    b: Budget,
    level: u32,
    v: u16,
    h: Kept,
) -> Carried
    requires { (level < 255) × (page_bytes g ≤ longest_page) × (h.most + g.pages < 8589934592) ×
        (h.next + g.pages < four_bytes) × (Countable b) × (b.stopped ≡ false) }
    ensures { Sweeps g n level (sweep_by g n v g.pages
        (beside_in h level (table_in table.old words.old)) img.old) b result.budget
        img.old img.new result.kept table.old table.new words.old words.new }
{
    let mut w = Carried { budget: b, kept: h };
    for j in 0..g.pages {
        let page = chip_read::page_of(g, v, j);
        w = sweep_page(
            g,
            &mut *img,
            &mut *table,
            &mut *words,
            n,
            w.budget,
            level,
            page,
            w.kept,
        );
        if w.budget.stopped {
            return w;
        }
    }
    w
}

// What is kept at the start of a sweep, by the record.
fn begin(g: Geometry, n: u16, o: Opened) -> Kept
    ensures begins { Begins g n o result }
    ensures pages_bound { (result.most + g.pages < 8589934592) × (result.next + g.pages < four_bytes) }
{
    let next = chip_next::next_by(g, n, o.next);
    let most = u64::from(o.most);
    Kept {
        root: o.root,
        most,
        next,
    }
}

// Erases block v, and the record then; o the record before the sweep, k what it kept.
fn wipe(g: Geometry, img: &mut [u8], n: u16, b: Budget, v: u16, o: Opened, k: Kept) -> Swept
    requires { (o.erased < 4294901760) × (o.height < 256) × (Countable b) }
    ensures { Wipes g n v o k b result img.old img.new }
{
    let r = chip_store::put_erase(g, &mut *img, b, v);
    let t = open_renew::record_erased(g, &*img, n, o, k.root, k.most, k.next);
    Swept {
        budget: r,
        opened: t,
    }
}

// Clears block v: its live pages moved, then it is erased. No page of it is then live, so the tables stay.
fn clear_block(
    g: Geometry,
    img: &mut [u8],
    table: &mut [u8],
    words: &mut [u32],
    n: u16,
    b: Budget,
    v: u16,
    o: Opened,
) -> Swept
    requires { (o.erased < 4294901760) × (o.height < 256) × (page_bytes g ≤ longest_page) × (Countable b) ×
        (b.stopped ≡ false) }
    ensures { Clears g n (clear_by g n (Some v) (holding o (table_in table.old words.old))
        img.old) b result img.old img.new table.old table.new words.old words.new }
{
    let h = begin(g, n, o);
    let level = chip_survey::level_by(g, o.height);
    let w = sweep(g, &mut *img, &mut *table, &mut *words, n, b, level, v, h);
    let r = w.budget;
    let k = w.kept;
    if r.stopped {
        return Swept {
            budget: r,
            opened: o,
        };
    }
    wipe(g, &mut *img, n, r, v, o, k)
}

// Clears the victim, if there is one.
fn clear(
    g: Geometry,
    img: &mut [u8],
    table: &mut [u8],
    words: &mut [u32],
    n: u16,
    b: Budget,
    o: Opened,
) -> Swept
    requires { (o.erased < 4294901760) × (o.height < 256) × (page_bytes g ≤ longest_page) × (Countable b) ×
        (b.stopped ≡ false) }
    ensures { Clears g n (clear_by g n (victim_by g n (table_in table.old words.old)
        img.old) (holding o (table_in table.old words.old)) img.old) b result
        img.old img.new table.old table.new words.old words.new }
{
    let v = collect_victim::find_victim(g, &*img, &*words, n);
    if !v.found {
        return Swept {
            budget: b,
            opened: o,
        };
    }
    clear_block(g, &mut *img, &mut *table, &mut *words, n, b, v.block, o)
}

// The erased pages that an update of k pages must find.
pub fn enough(g: Geometry, k: u32) -> u32
    requires { k < 65536 }
    ensures { result ≡ g.pages + k }
{
    u32::from(g.pages) + k
}

// Collects while fewer pages are erased than a block's and k more, in at most m rounds. The record that comes back is
// that of the image that is left, unless the allowance stopped it.
pub fn collect(
    g: Geometry,
    img: &mut [u8],
    table: &mut [u8],
    words: &mut [u32],
    n: u16,
    b: Budget,
    k: u32,
    m: u32,
    o: Opened,
) -> Swept
    requires { (o.height < 256) × (k < 65536) × (page_bytes g ≤ longest_page) × (Countable b) ×
        (b.stopped ≡ false) }
    ensures { Collects g n k m b result o img.old img.new table.old
        table.new words.old words.new }
{
    let mut w = Swept {
        budget: b,
        opened: o,
    };
    for round in 0..m {
        if enough(g, k) <= w.opened.erased {
            return w;
        }
        w = clear(
            g,
            &mut *img,
            &mut *table,
            &mut *words,
            n,
            w.budget,
            w.opened,
        );
        if w.budget.stopped {
            return w;
        }
    }
    w
}
