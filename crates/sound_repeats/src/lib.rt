// R3 on any image: the lowest page whose number a lower one has. The numbers are looked at in parts, from the lowest
// up, each as large as a table of keys holds; a part is one pass over the pages.
#![tactic(auto, using(crate::specs::ByParts::part_laws))]

ghost use Rattle.std.specs.Prelude.{◌≡◌, ◌+◌, ◌*◌, ◌-◌, ◌≤◌, ◌<◌, length};
ghost use Rattle.geometry.specs.Bounds.{four_bytes};
ghost use Rattle.model.specs.Bytes.{erased, seq_at};
ghost use Rattle.model.specs.Rules.{r3};
ghost use Rattle.sound_twins.specs.Twins.{page_in, number_in};
ghost use Rattle.sound_repeats.specs.Repeats.{within, Held, Sieved, Stops, Swept};

use geometry::{Finding, Geometry};

// Whether a page is programmed and its number is `low` or more, and below `high`.
fn is_within(g: Geometry, img: &[u8], page: u32, low: u64, high: u64) -> bool
    ensures value { result ≡ within (erased g img.now) (seq_at g img.now) low high page }
    ensures page_bound { seq_at g img.now page < four_bytes }
{
    let number = u64::from(chip_read::seq_at(g, img, page));
    if number < low {
        return false;
    }
    if high <= number {
        return false;
    }
    !chip_read::page_erased(g, img, page)
}

// A page's number and the page, as one key.
fn key_of(g: Geometry, img: &[u8], page: u32) -> u64
    ensures { (number_in result ≡ seq_at g img.now page) × (page_in result ≡ page) × (result < 18446744073709551616) }
{
    4294967296 * u64::from(chip_read::seq_at(g, img, page)) + u64::from(page)
}

// How many of the keys have a number below a bound. A loop and no `filter`: that takes three times as long.
fn below(keys: &[u64], bound: u64) -> usize {
    let mut count: usize = 0;
    for key in keys {
        count += usize::from(*key / 4294967296 < bound);
    }
    count
}

// A number between two, with up to three quarters of the keys below it. The answer does not hang on which it is.
fn bound_for(keys: &[u64], low: u64, high: u64) -> u64
    requires { (low + 1 < high) × (high ≤ four_bytes) }
    ensures { (low < result) × (result < high) }
{
    let most = keys.len() / 4 * 3;
    let mut from: u64 = low + 1;
    let mut to: u64 = high - 1;
    // Stays a while: the step is by halves, and no range counts it.
    while from < to {
        let mid = to - (to - from) / 2;
        if below(keys, mid) <= most {
            from = mid;
        } else {
            to = mid - 1;
        }
    }
    from
}

// Keeps those of the first keys whose number is below a bound; how many they are.
fn keep(keys: &mut [u64], count: usize, bound: u64) -> usize
    requires { count ≤ length keys.old }
    ensures sieved { Sieved keys.old keys.new bound count result }
    ensures upper_bound { (result ≤ count) × (length keys.new ≡ length keys.old) }
{
    let mut kept: usize = 0;
    for k in 0..count {
        let key = keys[k];
        if key / 4294967296 < bound {
            keys[kept] = key;
            kept += 1;
        }
    }
    kept
}

// A part: how many keys it has, the number that it ends before, and the page up to which all pages were looked at.
#[derive(Clone, Copy)]
struct Part {
    count: usize,
    high: u64,
    end: u32,
}

// Writes the keys of the programmed pages below `best` with numbers from `low` on; where they are too many, the bound
// of the numbers comes down. Where one number alone is too many, the page at which that shows is the part's end.
fn gather(g: Geometry, img: &[u8], keys: &mut [u64], low: u64, best: u32) -> Part
    requires { (low < four_bytes) × (1 ≤ length keys.old) }
    ensures held { Held (erased g img.now) (seq_at g img.now) low result.high result.end result.count
        keys.new }
    ensures stops { Stops (erased g img.now) (seq_at g img.now) best result.end }
    ensures count_in_bounds { (result.count ≤ length keys.new) × (length keys.new ≡ length keys.old) ×
        (low < result.high) }
{
    let room = keys.len();
    let mut count: usize = 0;
    let mut high: u64 = 4294967296;
    let mut page: u32 = 0;
    // Stays a while: a page is looked at again where the bound comes down, and no range counts that.
    while page < best {
        if !is_within(g, img, page, low, high) {
            page += 1;
            continue;
        }
        if count < room {
            keys[count] = key_of(g, img, page);
            count += 1;
            page += 1;
            continue;
        }
        if high == low + 1 {
            return Part {
                count,
                high,
                end: page,
            };
        }
        high = bound_for(&*keys, low, high);
        count = keep(&mut *keys, count, high);
    }
    Part {
        count,
        high,
        end: page,
    }
}

// The lowest page whose number a lower one has, or the number of pages.
fn lowest_page(g: Geometry, img: &[u8], pages: u32) -> u32
    ensures { Swept (erased g img.now) (seq_at g img.now) pages four_bytes result }
{
    let mut keys: [u64; 4096] = [0; 4096];
    let mut low: u64 = 0;
    let mut best: u32 = pages;
    // Stays a while: a part ends where its keys fill the table, and no range counts the parts.
    while low < 4294967296 {
        let part = gather(g, img, &mut keys, low, best);
        best = sound_twins::lowest(&mut keys, part.count, part.end);
        low = part.high;
    }
    best
}

// R3: the lowest page whose number a lower one has.
pub fn first_repeated(g: Geometry, img: &[u8], n: u16) -> Finding
    ensures { result ≡ r3 g n img.now }
{
    let pages = chip_read::first_page(g, n);
    let page = lowest_page(g, img, pages);
    if page < pages {
        return Err(page);
    }
    Ok(())
}
