// One pass over the blocks of an image: the programmed pages, the numbers' range, the survey, R1 and R2 at once.
#![tactic(auto, using(crate::specs::Scans::sight_laws))]

ghost use Rattle.std.specs.Prelude.{◌≡◌, ◌+◌, ◌*◌, ◌-◌, ◌≤◌, ◌<◌, length, MatchOption};
ghost use Rattle.geometry.specs.Tests.{◌&◌};
ghost use Rattle.chip_survey.specs.Survey.{seen_to};
ghost use Rattle.sound_sight.specs.Sight.{Told, Fronted, Back, Late, Spoilt, Strip, Strips, Flaw, parted, Parts, Single, Double, Clear};

use chip_survey::{Seen, Survey};
use geometry::Geometry;
use sound_numbers::Range;

// A block in numbers: its programmed pages, what is seen up to its end, its range.
#[derive(Clone, Copy)]
pub struct Block {
    pub programmed: u16,
    pub seen: Seen,
    pub range: Range,
}

// All blocks: whether they are as R1 and R2 want them, what is seen, whether the numbers of each rise.
#[derive(Clone, Copy)]
pub struct Scan {
    pub fine: bool,
    pub rising: bool,
    pub seen: Seen,
}

// An image: whether R1 and R2 pass it, whether the numbers of each block rise, and the survey.
#[derive(Clone, Copy)]
pub struct Sight {
    pub fine: bool,
    pub rising: bool,
    pub survey: Survey,
}

fn both(a: bool, b: bool) -> bool
    ensures { result ≡ (a & b) }
{
    a && b
}

// The programmed pages before the first erased one; none where one of them is not as R1 wants it.
fn front(g: Geometry, img: &[u8], block: u16, before: Seen) -> Option<Block>
    requires { before ≡ seen_to g img.now (g.pages * block) }
    ensures { MatchOption result (Spoilt g img.now block)
        (λ b. Fronted g img.now block b.programmed b.seen b.range) }
{
    let mut seen = before;
    let mut range = Range {
        rising: true,
        low: 0,
        high: 0,
    };
    for j in 0..g.pages {
        let page = chip_read::page_of(g, block, j);
        if chip_read::page_erased(g, img, page) {
            return Some(Block {
                programmed: j,
                seen,
                range,
            });
        }
        let height = chip_read::height_at(g, img, page);
        let seq = chip_read::seq_at(g, img, page);
        if !sound_pages::is_formed(g, img, page, height, seq) {
            return None;
        }
        seen = chip_survey::see_page(g, img, page, height, seq, seen);
        range = sound_numbers::grow(g, img, page, seq, range);
    }
    Some(Block {
        programmed: g.pages,
        seen,
        range,
    })
}

// Whether the pages of a block from one on are erased.
fn rest_blank(g: Geometry, img: &[u8], block: u16, from: u16) -> bool
    requires { from ≤ g.pages }
    ensures { Told result (Back g img.now block from g.pages) (Late g img.now block from) }
{
    for j in from..g.pages {
        if !chip_read::page_erased(g, img, chip_read::page_of(g, block, j)) {
            return false;
        }
    }
    true
}

// What is seen with the erased pages of a block too.
fn see_blank(g: Geometry, block: u16, programmed: u16, seen: Seen) -> Seen
    requires { (programmed ≤ g.pages) × (seen.erased ≤ g.pages * block + programmed) }
    ensures { result ≡ record {
      root = seen.root;
      score = seen.score;
      most = seen.most;
      last = seen.last;
      erased = seen.erased + (g.pages - programmed);
    } }
{
    let first = chip_read::first_page(g, block);
    let more = u32::from(g.pages - programmed);
    Seen {
        erased: seen.erased + more,
        ..seen
    }
}

// A block; none where it is not as R1 and R2 want it.
fn scan_block(g: Geometry, img: &[u8], block: u16, before: Seen) -> Option<Block>
    requires { before ≡ seen_to g img.now (g.pages * block) }
    ensures { MatchOption result (Spoilt g img.now block)
        (λ b. Strip g img.now block b.programmed b.seen b.range) }
{
    let f = front(g, img, block, before)?;
    if g.pages <= f.programmed {
        return Some(f);
    }
    if !rest_blank(g, img, block, f.programmed + 1) {
        return None;
    }
    let seen = see_blank(g, block, f.programmed, f.seen);
    Some(Block { seen, ..f })
}

// The blocks, up to the first that breaks R1 or the order of R2.
fn scan_all(
    g: Geometry,
    img: &[u8],
    n: u16,
    programmed: &mut [u16],
    lows: &mut [u32],
    highs: &mut [u32],
) -> Scan
    requires { (n ≤ length programmed.old) × (n ≤ length lows.old) × (n ≤ length highs.old) }
    ensures told { Told result.fine (Strips g img.now n result.seen result.rising programmed.new
        lows.new highs.new) (Flaw g n img.now) }
    ensures programmed_len_unchanged { length programmed.new ≡ length programmed.old }
    ensures lows_len_unchanged { length lows.new ≡ length lows.old }
    ensures highs_len_unchanged { length highs.new ≡ length highs.old }
{
    let mut seen = Seen {
        root: 0,
        score: 0,
        most: 0,
        last: 0,
        erased: 0,
    };
    let mut rising = true;
    for block in 0..n {
        let Some(b) = scan_block(g, img, block, seen) else {
            return Scan {
                fine: false,
                rising,
                seen,
            };
        };
        let at = usize::from(block);
        programmed[at] = b.programmed;
        lows[at] = b.range.low;
        highs[at] = b.range.high;
        rising = both(rising, b.range.rising);
        seen = b.seen;
    }
    Scan {
        fine: true,
        rising,
        seen,
    }
}

// Whether some pages of a block are programmed, and not all.
fn is_parted(pages: u16, programmed: u16) -> bool
    ensures { result ≡ parted pages programmed }
{
    if programmed == 0 {
        return false;
    }
    programmed < pages
}

// The first block from one on that is programmed in part, or n.
fn first_parted(pages: u16, programmed: &[u16], from: u16, n: u16) -> u16
    requires { (from ≤ n) × (n ≤ length programmed.now) }
    ensures { Parts pages programmed.now from n result }
{
    for block in from..n {
        if is_parted(pages, programmed[usize::from(block)]) {
            return block;
        }
    }
    n
}

// Whether at most one block is programmed in part.
fn is_single(pages: u16, programmed: &[u16], n: u16) -> bool
    requires { n ≤ length programmed.now }
    ensures { Told result (Single pages n programmed.now) (Double pages n programmed.now) }
{
    let one = first_parted(pages, programmed, 0, n);
    if n <= one {
        return true;
    }
    let two = first_parted(pages, programmed, one + 1, n);
    n <= two
}

// The pass: where it is fine the lists hold the programmed pages of each block and the ranges of their numbers.
pub fn take_sight(
    g: Geometry,
    img: &[u8],
    n: u16,
    programmed: &mut [u16],
    lows: &mut [u32],
    highs: &mut [u32],
) -> Sight
    requires { (n ≤ length programmed.old) × (n ≤ length lows.old) × (n ≤ length highs.old) }
    ensures told { Told result.fine (Clear g n img.now result.rising result.survey programmed.new
        lows.new highs.new) (Flaw g n img.now) }
    ensures programmed_len_unchanged { length programmed.new ≡ length programmed.old }
    ensures lows_len_unchanged { length lows.new ≡ length lows.old }
    ensures highs_len_unchanged { length highs.new ≡ length highs.old }
{
    let scan = scan_all(g, img, n, &mut *programmed, &mut *lows, &mut *highs);
    let seen = scan.seen;
    let height = chip_survey::height_of(g, img, seen.root);
    let level = chip_survey::less_one(height);
    let survey = Survey {
        root: seen.root,
        height,
        level,
        most: seen.most,
        last: seen.last,
        erased: seen.erased,
    };
    if !scan.fine {
        return Sight {
            fine: false,
            rising: false,
            survey,
        };
    }
    let single = is_single(g.pages, &*programmed, n);
    Sight {
        fine: single,
        rising: scan.rising,
        survey,
    }
}
