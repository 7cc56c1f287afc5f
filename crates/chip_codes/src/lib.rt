// The code of a half, eight bytes at a time.
#![tactic(auto, using(crate::specs::Halves::half_laws))]

ghost use Rattle.std.specs.Prelude.{◌≡◌, ◌+◌, ◌*◌, ◌-◌, ◌^◌, ◌≤◌, ◌<◌, ℕ, length, slice_index};
ghost use Rattle.geometry.specs.Tests.{pick};
ghost use Rattle.model.specs.Bytes.{byte_at};
ghost use Rattle.model.specs.Codes.{◌⊕◌, xor_below, fresh_code};
ghost use Rattle.chip_codes.specs.Words.{word_at, word_in, odd_ones, in_word};
ghost use Rattle.chip_codes.specs.Halves.{number_of, rest_of, sealed};
ghost use Rattle.chip_codes.specs.Parts.{Copied};

// Eight bytes as one number, least byte first.
fn eight(img: &[u8], at: usize) -> u64
    requires { at + 8 ≤ length img.now }
    ensures { result ≡ word_at img.now at 8 }
{
    u64::from_le_bytes([
        img[at],
        img[at + 1],
        img[at + 2],
        img[at + 3],
        img[at + 4],
        img[at + 5],
        img[at + 6],
        img[at + 7],
    ])
}

// Whether the ones of a word are odd in number.
fn odd(w: u64) -> bool
    ensures { result ≡ odd_ones w }
{
    w.count_ones() % 2 == 1
}

// The number, where the ones of the word are odd.
fn if_odd(w: u64, n: u64) -> u64
    ensures { result ≡ pick (odd_ones w) n 0 }
{
    if odd(w) { n } else { 0 }
}

// A number of one bit.
fn power(k: u64) -> u64
    requires { k < 64 }
    ensures { result ≡ 2 ^ k }
{
    1 << k
}

// The numbers of a word's set bits by exclusive or. The word is folded in two until one bit is left: the upper half
// tells of one bit of the numbers, and goes onto the lower half for the others.
fn in_64(w: u64) -> u64
    ensures { result ≡ in_word 64 w }
{
    let mut numbers = 0;
    let mut left = w;
    for p in (0..6).rev() {
        let half = power(p);
        let upper = left >> half;
        numbers ^= if_odd(upper % power(half), half);
        left ^= upper;
    }
    numbers
}

// E, of the words with odd ones and of all words.
fn number(rows: u64, all: u64) -> u64
    requires { rows < 32 }
    ensures { (result ≡ number_of rows all) × (result < 2048) }
{
    64 * rows ^ in_64(all)
}

// G, of E and of all words.
fn rest(e: u64, all: u64) -> u64
    requires { e < 2048 }
    ensures { (result ≡ rest_of e all) × (result < 2048) }
{
    if_odd(all, 2047) ^ e
}

// The code, of the same two.
fn seal(rows: u64, all: u64) -> u32
    requires { rows < 32 }
    ensures { result ≡ sealed rows all }
{
    let e = number(rows, all);
    let g = rest(e, all);
    (16777215 - (e + 2048 * g)) as u32
}

// The words from `half` on by exclusive or; each of them goes onto the word that stands `half` before it.
fn fold(words: &mut [u64; 32], half: usize) -> u64
    requires { half ≤ 16 }
    ensures upper { result ≡ xor_below (λ i. slice_index words.old (half + i)) half }
    ensures lower { (i : ℕ) → i < half
        → slice_index words.new i ≡ slice_index words.old (half + i) ⊕ slice_index words.old i }
{
    let mut upper = 0;
    for i in 0..half {
        upper ^= words[half + i];
        words[i] ^= words[half + i];
    }
    upper
}

// The 32 words of the 256 bytes from `at`.
fn words_of(img: &[u8], at: usize) -> [u64; 32]
    requires { at + 256 ≤ length img.now }
    ensures { (i : ℕ) → i < 32 → slice_index result i ≡ word_in img.now at i }
{
    let mut words = [0; 32];
    for i in 0..32 {
        words[i] = eight(img, at + 8 * i);
    }
    words
}

// The code of the 256 bytes from `at` inside the image. Their words are folded in two until one is left, as `in_64`
// folds a word.
fn half_code(img: &[u8], at: usize) -> u32
    requires { at + 256 ≤ length img.now }
    ensures { result ≡ fresh_code img.now at }
{
    let mut words = words_of(img, at);
    let mut rows = 0;
    for k in (0..5).rev() {
        let half = power(k);
        rows ^= if_odd(fold(&mut words, half as usize), half);
    }
    seal(rows, words[0])
}

// The byte at an index; one outside the image reads as 0.
fn byte_at(img: &[u8], at: usize) -> u8
    ensures { result ≡ byte_at img.now at }
{
    if at < img.len() {
        return img[at];
    }
    0
}

// The 256 bytes from `at`.
fn part_at(img: &[u8], at: usize) -> [u8; 256]
    requires { at < 1152921504606846976 }
    ensures { Copied img.now at result 256 }
{
    let mut part = [0u8; 256];
    for i in 0..256 {
        part[i] = byte_at(img, at + i);
    }
    part
}

// The code of the 256 bytes from `at`.
pub fn fresh_code(img: &[u8], at: usize) -> u32
    requires { at < 1152921504606846976 }
    ensures { (result ≡ fresh_code img.now at) × (result < 16777216) }
{
    if img.len() < at + 256 {
        let part = part_at(img, at);
        return half_code(&part, 0);
    }
    half_code(img, at)
}
