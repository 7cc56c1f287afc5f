// The lent words of request 7: one for each 32 pages, a bit for each page, set when it is live.
#![tactic(auto, using(crate::specs::LentWords::words_laws))]

ghost use Rattle.std.specs.Prelude.{true, ◌≡◌, not, ◌+◌, ◌*◌, ◌≤◌, ◌<◌, eqb, length, get_or, set};
ghost use Rattle.std.specs.Int.Count.{ones};
ghost use Rattle.geometry.specs.Tests.{bit};
ghost use Rattle.geometry.specs.Bounds.{four_bytes};
ghost use Rattle.model.specs.Image.{pages_of};
ghost use Rattle.live_words.specs.Words.{word_of, word, block_words, words_of, filled, ones_from, block_ones, all_ones, Past};
ghost use Rattle.live_walk.specs.Table.{live_in};

use geometry::Geometry;

// The words of a block.
fn block_words(g: Geometry) -> usize
    ensures { (result ≡ block_words g) × (result < 2048) }
{
    geometry::wide(g.pages) / 32
}

// The words of n blocks; of a block, its first word.
pub fn words_of(g: Geometry, n: u16) -> usize
    ensures { (result ≡ words_of g n) × (result < 134217728) }
{
    block_words(g) * geometry::wide(n)
}

fn ones_at(words: &[u32], at: usize) -> u32
    ensures { (result ≡ ones (get_or words.now at 0)) × (result ≤ 32) }
{
    if at < words.len() {
        return words[at].count_ones();
    }
    0
}

// The ones of q words from `at` on.
fn ones_from(words: &[u32], at: usize, q: usize) -> u32
    requires { (at < 134217728) × (q < 134217728) }
    ensures { (result ≡ ones_from words.now at q) × (result ≤ 32 * q) }
{
    let mut n: u32 = 0;
    for i in 0..q {
        n += ones_at(words, at + i);
    }
    n
}

// The live pages of a block: the ones of its words.
pub fn block_ones(g: Geometry, words: &[u32], block: u16) -> u32
    ensures { (result ≡ block_ones g words.now block) × (result ≤ g.pages) }
{
    let at = words_of(g, block);
    let q = block_words(g);
    ones_from(words, at, q)
}

// The live pages of n blocks.
pub fn all_ones(g: Geometry, words: &[u32], n: u16) -> u32
    ensures { (result ≡ all_ones g n words.now) × (result ≤ pages_of g n) }
{
    let q = words_of(g, n);
    ones_from(words, 0, q)
}

// 1 for the level of a live page.
fn bit_of(level: u8) -> u32
    ensures { (result ≡ bit (not (eqb level 0))) × (result ≤ 1) }
{
    u32::from(level != 0)
}

fn bit_at(table: &[u8], at: usize) -> u32
    ensures { (result ≡ bit (live_in table.now at)) × (result ≤ 1) }
{
    if at < table.len() {
        return bit_of(table[at]);
    }
    0
}

// The word of the 32 pages from `at` on, a page outside the table dead: INSIDE where all are known to stand in it.
fn word_from<const INSIDE: bool>(table: &[u8], at: usize) -> u32
    requires start { at < four_bytes }
    requires inside { INSIDE ≡ true → at + 32 ≤ length table.now }
    ensures { result ≡ word_of (live_in table.now) 32 at }
{
    let mut w: u32 = 0;
    for j in (0..32).rev() {
        let page = at + j;
        let live = if INSIDE {
            bit_of(table[page])
        } else {
            bit_at(table, page)
        };
        w = 2 * w + live;
    }
    w
}

// Word i of the pages that are live by the table.
fn live_word(table: &[u8], i: usize) -> u32
    requires { i < 134217728 }
    ensures { result ≡ word (live_in table.now) i }
{
    let at = 32 * i;
    if at + 32 <= table.len() {
        return word_from::<true>(table, at);
    }
    word_from::<false>(table, at)
}

// One word; outside the lent words nothing.
pub fn put_word(words: &mut [u32], at: usize, w: u32)
    ensures { words.new ≡ set words.old at w }
{
    if at < words.len() {
        words[at] = w;
    }
}

// Word i worked out anew.
pub fn refresh(words: &mut [u32], table: &[u8], i: usize)
    requires { i < 134217728 }
    ensures { words.new ≡ set words.old i (word (live_in table.now) i) }
{
    let w = live_word(table, i);
    put_word(&mut *words, i, w);
}

// The first m words worked out anew; those past them stay.
pub fn fill(words: &mut [u32], table: &[u8], m: usize)
    requires { m < 134217728 }
    ensures words_after { words.new ≡ filled (live_in table.now) m words.old }
    ensures past { Past m words.old words.new }
{
    for i in 0..m {
        refresh(&mut *words, table, i);
    }
}
