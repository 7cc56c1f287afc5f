// The lent words of request 7 by one walk from a root: the image's words are cleared, then each page that the walk
// meets sets its bit.
#![tactic(auto, using(crate::specs::SettingBits::telling_laws))]

ghost use Rattle.std.specs.Prelude.{true, ◌≡◌, ◌+◌, ◌*◌, ◌^◌, ◌≤◌, ◌<◌, length, take};
ghost use Rattle.std.specs.Int.Bits.{bit_or};
ghost use Rattle.model.specs.Bytes.{u32_at};
ghost use Rattle.model.specs.Tree.{places_of, live};
ghost use Rattle.chip_read.specs.Chip.{chip_with};
ghost use Rattle.live_words.specs.Words.{words_of, filled};
ghost use Rattle.live_walk.specs.Stops.{Walked, leaves_at};
ghost use Rattle.live_tell.specs.Telling.{mark_one, mark_all};
ghost use Rattle.live_tell.specs.Counts.{Counted, Counts};

use geometry::Geometry;

// The number with bit j alone.
fn one_bit(j: u32) -> u32
    requires { j < 32 }
    ensures { result ≡ 2 ^ j }
{
    1 << j
}

// The word with bit j set.
fn with_bit(w: u32, j: u32) -> u32
    requires { j < 32 }
    ensures { result ≡ bit_or w (2 ^ j) }
{
    w | one_bit(j)
}

// A page's bit in the words; a page past them is passed over.
fn mark_page(words: &mut [u32], page: u32)
    ensures { words.new ≡ mark_one (length words.old) words.old page }
{
    let at = geometry::index(page / 32);
    if at < words.len() {
        words[at] = with_bit(words[at], page % 32);
    }
}

// Marks the leaves that k entries from byte `at` name: INSIDE where all entries are known to stand in the image.
// Beside `note_each` of live_walk: one for both would need a trait of the two tables, with its law for each, which is
// no plainer than two loops of two lines.
fn mark_each<const INSIDE: bool>(img: &[u8], words: &mut [u32], at: usize, k: usize)
    requires bounds { (k < 256) × (at < 1125899906842624) }
    requires inside { INSIDE ≡ true → at + 8 * k ≤ length img.now }
    ensures { words.new ≡ mark_all (length words.old) (leaves_at img.now at k) words.old }
{
    for i in 0..k {
        let leaf = live_walk::leaf_at::<INSIDE>(img, at + 8 * i + 4);
        mark_page(&mut *words, leaf);
    }
}

// Marks the leaves that k entries from byte `at` name.
fn mark_entries(img: &[u8], words: &mut [u32], at: usize, k: usize)
    requires { (k < 256) × (at < 1125899906842624) }
    ensures { words.new ≡ mark_all (length words.old) (leaves_at img.now at k) words.old }
{
    if at + 8 * k <= img.len() {
        mark_each::<true>(img, &mut *words, at, k);
        return;
    }
    mark_each::<false>(img, &mut *words, at, k);
}

// Marks the node at level 2 of a page, n its count, and its leaves, no more than `left` nodes. Gives how many are left.
fn mark_leaves(g: Geometry, img: &[u8], words: &mut [u32], page: u32, left: u32, n: usize) -> u32
    requires { (left ≡ 0 → ⊥) × (Counted g img.now page 2 n) × (n < 256) }
    ensures { Walked (mark_all (length words.old)) g img.now 2 page left result words.old words.new }
{
    mark_page(&mut *words, page);
    let at = chip_read::node_place(g, page, 2);
    let k = live_walk::at_most(n, left - 1);
    mark_entries(img, &mut *words, at, k);
    live_walk::left_after(left - 1, k)
}

// The counts of the nodes at a level that n entries from byte `at` name. They are read before any of these nodes is
// walked: so they come from memory side by side, and not one after another.
fn counts_below(g: Geometry, img: &[u8], at: usize, n: usize, level: u32) -> [u8; 256]
    requires { (n < 256) × (at < 1125899906842624) }
    ensures counts { Counts g img.now level at n result }
    ensures result_len { length result ≡ 256 }
{
    let mut counts: [u8; 256] = [0; 256];
    for i in 0..n {
        let below = chip_read::read_u32(img, at + 8 * i + 4);
        counts[i] = chip_read::node_count(g, img, below, level) as u8;
    }
    counts
}

// A page, and the count of its node at a level.
#[derive(Clone, Copy)]
struct Below {
    page: u32,
    count: usize,
}

// The page that entry i of the n from byte `at` names, and its count at a level, of the counts that were read.
fn below_at(
    g: Geometry,
    img: &[u8],
    counts: &[u8; 256],
    at: usize,
    n: usize,
    level: u32,
    i: usize,
) -> Below
    requires { (Counts g img.now level at n counts.now) × (i < n) × (n < 256) × (at < 1125899906842624) }
    ensures page_value { result.page ≡ u32_at img.now (at + 8 * i + 4) }
    ensures counted { Counted g img.now result.page level result.count }
    ensures count_bound { result.count < 256 }
{
    let page = chip_read::read_u32(img, at + 8 * i + 4);
    let count = usize::from(counts[i]);
    Below { page, count }
}

// Marks the node at a level of a page, n its count, and all that it reaches, no more than `left` nodes. Gives how many
// are left.
// Beside `note_nodes` of live_walk, which reads each count where it stands: here it comes from the node above, read
// ahead (docs/DECISIONS.md, 204).
fn mark_nodes(
    g: Geometry,
    img: &[u8],
    words: &mut [u32],
    level: u32,
    page: u32,
    left: u32,
    n: usize,
) -> u32
    requires { (level < 256) × (Counted g img.now page level n) × (n < 256) }
    ensures { Walked (mark_all (length words.old)) g img.now level page left result words.old words.new }
{
    if level == 0 {
        return left;
    }
    if left == 0 {
        return 0;
    }
    if level == 2 {
        return mark_leaves(g, img, &mut *words, page, left, n);
    }
    mark_page(&mut *words, page);
    if level == 1 {
        return left - 1;
    }
    let at = chip_read::node_place(g, page, level);
    let counts = counts_below(g, img, at, n, level - 1);
    let mut more = left - 1;
    for i in 0..n {
        let node = below_at(g, img, &counts, at, n, level - 1, i);
        more = mark_nodes(g, img, &mut *words, level - 1, node.page, more, node.count);
    }
    more
}

// The words of n blocks from a root on, by no more than 8,388,608 nodes: so a walk ends soon on every image.
pub fn tell_words(g: Geometry, img: &[u8], lent: &mut [u32], n: u16, level: u32, root: u32)
    requires { level < 255 }
    ensures { lent.new ≡ filled (live (take 8388608 (places_of (chip_with g img.now level root))))
        (words_of g n) lent.old }
{
    let m = live_fill::words_of(g, n).min(lent.len());
    let words = &mut lent[..m];
    words.fill(0);
    let count = chip_read::node_count(g, img, root, level + 1);
    mark_nodes(g, img, &mut *words, level + 1, root, 8388608, count);
}
