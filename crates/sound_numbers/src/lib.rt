// R3: the sequence numbers of programmed pages differ. They do where the numbers of each block rise and the blocks'
// ranges lie apart; where not, the crate sound_repeats looks at all of them.
#![tactic(auto, using(crate::specs::RuleThree::number_laws))]

ghost use Rattle.std.specs.Prelude.{◌≡◌, ◌+◌, ◌*◌, ◌-◌, ◌≤◌, ◌<◌, false, length, get_or, IfSome};
ghost use Rattle.model.specs.Bytes.{erased, seq_at};
ghost use Rattle.model.specs.Rules.{r3};
ghost use Rattle.sound_numbers.specs.Ranges.{extended, apart_of, Zero, Shows, Ranges, Clear, AllClear, Spaced, Over, Nearer};
ghost use Rattle.sound_repeats.specs.Repeats.{Differ};

use geometry::{Finding, Geometry};

// The lowest and highest number of some programmed pages, 0 and 0 of none, and whether they rise.
#[derive(Clone, Copy)]
pub struct Range {
    pub rising: bool,
    pub low: u32,
    pub high: u32,
}

// A space, above floor and below ceiling, that the ranges of some blocks leave free.
#[derive(Clone, Copy)]
struct Space {
    floor: u32,
    ceiling: u64,
}

// A range with one programmed page more.
pub fn grow(g: Geometry, img: &[u8], page: u32, seq: u32, range: Range) -> Range
    requires { (erased g img.now page ≡ false) × (seq ≡ seq_at g img.now page) }
    ensures { result ≡ extended (erased g img.now) (seq_at g img.now) page range }
{
    if seq <= range.high {
        return Range {
            rising: false,
            ..range
        };
    }
    if range.high == 0 {
        return Range {
            rising: range.rising,
            low: seq,
            high: seq,
        };
    }
    Range { high: seq, ..range }
}

// 0 if two ranges have no number in common, else 1.
fn overlap(low: u32, high: u32, start: u32, end: u32) -> usize
    ensures { (result ≤ 1) × Zero result (apart_of low high start end) }
{
    if high < start {
        return 0;
    }
    if end < low {
        return 0;
    }
    1
}

// Whether the range of a block lies apart from those of all lower blocks; they are counted without an early end.
fn apart_below(lows: &[u32], highs: &[u32], block: usize) -> bool
    requires { (block < length lows.now) × (block < length highs.now) }
    ensures { Shows result (Clear lows.now highs.now block) }
{
    let low = lows[block];
    let high = highs[block];
    let mut k: usize = 0;
    for i in 0..block {
        k += overlap(lows[i], highs[i], low, high);
    }
    k == 0
}

// The lower of a ceiling and a range's beginning, if that is above `high`.
fn nearer(low: u32, high: u32, ceiling: u64) -> u64
    ensures { Nearer low high ceiling result }
{
    if low <= high {
        return ceiling;
    }
    let wide = u64::from(low);
    if ceiling <= wide {
        return ceiling;
    }
    wide
}

// Where the first range above `high` begins, of the blocks below one; 2^32 if there is none.
fn ceiling_above(lows: &[u32], block: usize, high: u32) -> u64
    requires { block ≤ length lows.now }
    ensures { Over lows.now block high result }
{
    let mut ceiling: u64 = 4294967296;
    for i in 0..block {
        ceiling = nearer(lows[i], high, ceiling);
    }
    ceiling
}

// The space above the range of a block that does not lie in the space before it; none where ranges do not lie apart.
fn far_space(lows: &[u32], highs: &[u32], block: usize, low: u32, high: u32) -> Option<Space>
    requires block_in_bounds { (block < length lows.now) × (block < length highs.now) }
    requires low_value { (low ≡ get_or lows.now block 0) × (high ≡ get_or highs.now block 0) × (1 ≤ high) × (low ≤ high) }
    requires all_clear { AllClear lows.now highs.now block }
    ensures { IfSome result (λ s. Spaced lows.now highs.now (block + 1) s.floor s.ceiling) }
{
    if !apart_below(lows, highs, block) {
        return None;
    }
    let ceiling = ceiling_above(lows, block, high);
    Some(Space {
        floor: high,
        ceiling,
    })
}

// With one block more. Most often its range lies in the space above that of the block before.
fn next_space(lows: &[u32], highs: &[u32], block: usize, space: Space) -> Option<Space>
    requires { (block < length lows.now) × (block < length highs.now) × Spaced lows.now highs.now block space.floor
        space.ceiling }
    ensures { IfSome result (λ s. Spaced lows.now highs.now (block + 1) s.floor s.ceiling) }
{
    let low = lows[block];
    let high = highs[block];
    if high == 0 {
        return Some(space);
    }
    if high < low {
        return None;
    }
    if space.floor < low {
        if u64::from(high) < space.ceiling {
            return Some(Space {
                floor: high,
                ..space
            });
        }
    }
    far_space(lows, highs, block, low, high)
}

// Whether the ranges of n blocks lie apart.
fn all_apart(lows: &[u32], highs: &[u32], n: usize) -> bool
    requires { (n ≤ length lows.now) × (n ≤ length highs.now) }
    ensures { Shows result (AllClear lows.now highs.now n) }
{
    let mut space = Space {
        floor: 0,
        ceiling: 4294967296,
    };
    for block in 0..n {
        match next_space(lows, highs, block, space) {
            Some(next) => space = next,
            None => return false,
        }
    }
    true
}

// Whether the ranges show that all numbers differ.
fn ranges_differ(g: Geometry, img: &[u8], n: u16, rising: bool, lows: &[u32], highs: &[u32]) -> bool
    requires n_in_bounds { (n ≤ length lows.now) × (n ≤ length highs.now) }
    requires shows { Shows rising (Ranges (erased g img.now) (seq_at g img.now) g.pages n lows.now highs.now) }
    ensures { Shows result (Differ (erased g img.now) (seq_at g img.now) (g.pages * n)) }
{
    if !rising {
        return false;
    }
    all_apart(lows, highs, usize::from(n))
}

// R3, by the ranges of the blocks: the lowest page whose number a lower one has.
pub fn rule_3(g: Geometry, img: &[u8], n: u16, rising: bool, lows: &[u32], highs: &[u32]) -> Finding
    requires n_in_bounds { (n ≤ length lows.now) × (n ≤ length highs.now) }
    requires shows { Shows rising (Ranges (erased g img.now) (seq_at g img.now) g.pages n lows.now highs.now) }
    ensures { result ≡ r3 g n img.now }
{
    if ranges_differ(g, img, n, rising, lows, highs) {
        return Ok(());
    }
    sound_repeats::first_repeated(g, img, n)
}
