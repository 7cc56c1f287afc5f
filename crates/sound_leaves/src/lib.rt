// The keys of a leaf, as R5 wants them.
#![tactic(auto, using(crate::specs::LeafKeys::leaf_laws))]

ghost use Rattle.std.specs.Prelude.{◌≡◌, ◌+◌, ◌*◌, ◌-◌, ◌≤◌, ◌<◌, eqb, leb, length};
ghost use Rattle.geometry.specs.Bounds.{four_bytes};
ghost use Rattle.model.specs.Bytes.{u32_at, entries_at};
ghost use Rattle.model.specs.Rules.{rising};
ghost use Rattle.sound_leaves.specs.Leaves.{any_page, after};

// The key at an index.
pub fn key_at(img: &[u8], at: usize) -> u64
    ensures { (result ≡ u32_at img.now at) × (result < four_bytes) }
{
    u64::from(chip_read::read_u32(img, at))
}

// Key by key, from lo on and below hi: of a leaf across the image's end.
fn each_rises(img: &[u8], at: usize, n: usize, lo: u64, hi: u64) -> bool
    requires { at + 8 * n < 1152921504606846976 }
    ensures { result ≡ rising any_page (entries_at img.now at n) lo hi }
{
    let mut low = lo;
    for i in 0..n {
        let key = key_at(img, at + 8 * i);
        if key < low {
            return false;
        }
        if hi <= key {
            return false;
        }
        low = key + 1;
    }
    true
}

// 0 if a key is above the one before it, else 1.
fn fall(before: u32, key: u32) -> u32
    ensures { (result ≤ 1) × (eqb result 0 ≡ leb (before + 1) key) }
{
    if before < key {
        return 0;
    }
    1
}

// How many of the n keys are not above the one before them, counted without an early end. The count is as wide as a
// key: so the compiler takes eight keys at once.
fn falls(img: &[u8], at: usize, n: usize) -> u32
    requires { (1 ≤ n) × (n < 256) × (at + 8 * n ≤ length img.now) × (at + 8 * n < 1152921504606846976) }
    ensures { eqb result 0 ≡ after img.now at n 1 (u32_at img.now at) }
{
    let mut before = chip_read::raw_u32(img, at);
    let mut count: u32 = 0;
    for i in 1..n {
        let key = chip_read::raw_u32(img, at + 8 * i);
        count += fall(before, key);
        before = key;
    }
    count
}

// The keys of the n entries from byte `at` rise from lo, below hi.
pub fn keys_rise(img: &[u8], at: usize, n: usize, lo: u64, hi: u64) -> bool
    requires { (n < 256) × (at + 8 * n < 1152921504606846976) }
    ensures { result ≡ rising any_page (entries_at img.now at n) lo hi }
{
    if n == 0 {
        return true;
    }
    if img.len() < at + 8 * n {
        return each_rises(img, at, n, lo, hi);
    }
    if u64::from(chip_read::raw_u32(img, at)) < lo {
        return false;
    }
    if hi <= u64::from(chip_read::raw_u32(img, at + 8 * (n - 1))) {
        return false;
    }
    falls(img, at, n) == 0
}
