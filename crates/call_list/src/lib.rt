// The pairs between two keys, in a lent buffer: judged first, then one walk that goes down nothing but what may hold
// such pairs.
#![tactic(auto, using(crate::specs::Listings::listing_laws))]

ghost use Rattle.std.specs.Prelude.{◌≡◌, ◌+◌, ◌/◌, min, ◌≤◌, ◌<◌, length, take};
ghost use Rattle.geometry.specs.Shape.{Known};
ghost use Rattle.geometry.specs.Bounds.{four_bytes};
ghost use Rattle.model.specs.Listing.{ranged_of, lists, listing, as_outcome};
ghost use Rattle.call_answers.specs.Answers.{told};
ghost use Rattle.chip_read.specs.Chip.{chip_with};
ghost use Rattle.open_record.specs.Opened.{pairs_most};
ghost use Rattle.call_list.specs.Listing.{put_pair, put_pairs, not_below, Lists, listed_in};

use call_answers::Answer;
use geometry::{Broken, Entry, Geometry};

// Pair i of the buffer, if it has room for both numbers.
fn put_pair(pairs: &mut [u32], i: usize, entry: Entry)
    requires { i < four_bytes }
    ensures { pairs.new ≡ put_pair pairs.old i entry }
{
    if 2 * i + 1 < pairs.len() {
        pairs[2 * i] = entry.key;
        pairs[2 * i + 1] = entry.addr;
    }
}

// A pair whose key is not below is one more. Gives how many there are then.
fn list_pair(pairs: &mut [u32], exist: usize, entry: Entry, low: u32) -> usize
    requires { exist < four_bytes }
    ensures count { result ≡ exist + length (not_below low entry) }
    ensures buffer { pairs.new ≡ put_pairs pairs.old exist (not_below low entry) }
{
    if entry.key < low {
        return exist;
    }
    put_pair(&mut *pairs, exist, entry);
    exist + 1
}

// The pairs between two keys under an entry at a level, after those that exist so far, up to 536,870,912 in all. Gives
// how many there are then.
fn list_under(
    g: Geometry,
    img: &[u8],
    pairs: &mut [u32],
    exist: usize,
    level: u32,
    entry: Entry,
    low: u32,
    high: u32,
) -> usize
    ensures { Lists g img.now low high level entry exist result pairs.old
        pairs.new }
{
    if 536870912 <= exist {
        return exist;
    }
    if level == 0 {
        return list_pair(&mut *pairs, exist, entry, low);
    }
    let at = chip_read::node_place(g, entry.addr, level);
    let n = chip_read::node_count(g, img, entry.addr, level);
    let mut count = exist;
    let first = tree_search::chosen_index(img, at, n, low);
    for i in first..n {
        let below = chip_read::entry_at(img, at + 8 * i);
        let past = high < below.key;
        if past {
            return count;
        }
        count = list_under(g, img, &mut *pairs, count, level - 1, below, low, high);
    }
    count
}

// The pairs between two keys of a tree, from its root, no more than 536,870,912 of them: so a walk ends soon on every
// image.
pub fn list_tree(
    g: Geometry,
    img: &[u8],
    pairs: &mut [u32],
    level: u32,
    root: u32,
    low: u32,
    high: u32,
) -> Answer
    requires { level < 255 }
    ensures { told result pairs.new
        ≡ as_outcome (lists (take pairs_most (ranged_of (chip_with g img.now level root) low high))
        pairs.old) }
{
    let top = Entry { key: 0, addr: root };
    let exist = list_under(g, img, &mut *pairs, 0, level + 1, top, low, high);
    let written = exist.min(pairs.len() / 2);
    Answer::Done(exist as u32, written as u32, 0)
}

// A listing on n blocks, with a lent table for the judge.
fn list_blocks(
    g: Geometry,
    img: &[u8],
    table: &mut [u8],
    n: u16,
    low: u32,
    high: u32,
    pairs: &mut [u32],
) -> Answer
    requires { Known g × (n ≤ 1024) × (65536 ≤ length table.old) }
    ensures { told result pairs.new ≡ as_outcome (listed_in g n img.now low high
        pairs.old) }
{
    let judgement = sound_verdict::judge_image(g, img, &mut *table, n);
    let verdict = judgement.verdict;
    let survey = judgement.survey;
    match verdict {
        Err(Broken { rule, page }) => Answer::Damaged(rule, page),
        Ok(()) => list_tree(g, img, &mut *pairs, survey.level, survey.root, low, high),
    }
}

// A listing on one of the two chips.
pub fn list_on(g: Geometry, img: &[u8], low: u32, high: u32, pairs: &mut [u32]) -> Answer
    requires { Known g }
    ensures { told result pairs.new ≡ as_outcome (listing g img.now low high
        pairs.old) }
{
    let n = chip_read::good_blocks(g, img);
    if n == 0 {
        return Answer::Length;
    }
    let mut table: [u8; 65536] = [0; 65536];
    list_blocks(g, img, &mut table, n, low, high, &mut *pairs)
}
