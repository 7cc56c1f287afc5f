// The geometry of a chip as a value, what is read off it, and the types that every layer shares.
#![tactic(auto, using(crate::specs::Answering::geometry_laws))]

ghost use Rattle.std.specs.Prelude.{◌≡◌, ◌<◌, ◌≤◌, get_or};
ghost use Rattle.geometry.specs.Geometry.{small, large, plain, chosen_of, page_bytes, halves, code_place, page_base, slots, first_slot, slots_of, half, root_slots, root_most, in_table};
ghost use Rattle.geometry.specs.Bounds.{four_bytes};

// A block's pages, a page's main and spare bytes, the greatest height, the number above which the chip is WORN, and the
// number of its table of levels: 0 the small chip's, 1 the large one's, 2 the plain tree's on the small chip.
#[derive(Clone, Copy)]
pub struct Geometry {
    pub pages: u16,
    pub main: u16,
    pub spare: u16,
    pub top: u16,
    pub worn: u32,
    pub table: u16,
}

impl Geometry {
    pub const SMALL_PAGES: u16 = 32;

    pub const SMALL_MAIN: u16 = 512;

    pub const SMALL_SPARE: u16 = 16;

    pub const SMALL_TOP: u16 = 5;

    pub const SMALL_WORN: u32 = 4294967000;

    pub const SMALL_TABLE: u16 = 0;

    // The small-block chip of document 01.
    pub fn small() -> Geometry
        ensures { result ≡ small }
    {
        Geometry {
            pages: Geometry::SMALL_PAGES,
            main: Geometry::SMALL_MAIN,
            spare: Geometry::SMALL_SPARE,
            top: Geometry::SMALL_TOP,
            worn: Geometry::SMALL_WORN,
            table: Geometry::SMALL_TABLE,
        }
    }

    pub const PLAIN_TABLE: u16 = 2;

    // The same chip with one node to a page: 64 slots at each level.
    pub fn plain() -> Geometry
        ensures { result ≡ plain }
    {
        Geometry {
            pages: Geometry::SMALL_PAGES,
            main: Geometry::SMALL_MAIN,
            spare: Geometry::SMALL_SPARE,
            top: Geometry::SMALL_TOP,
            worn: Geometry::SMALL_WORN,
            table: Geometry::PLAIN_TABLE,
        }
    }

    pub const LARGE_PAGES: u16 = 64;

    pub const LARGE_MAIN: u16 = 2048;

    pub const LARGE_SPARE: u16 = 64;

    pub const LARGE_TOP: u16 = 7;

    pub const LARGE_WORN: u32 = 4294966000;

    pub const LARGE_TABLE: u16 = 1;

    // The large-page chip of request 9.
    pub fn large() -> Geometry
        ensures { result ≡ large }
    {
        Geometry {
            pages: Geometry::LARGE_PAGES,
            main: Geometry::LARGE_MAIN,
            spare: Geometry::LARGE_SPARE,
            top: Geometry::LARGE_TOP,
            worn: Geometry::LARGE_WORN,
            table: Geometry::LARGE_TABLE,
        }
    }
}

// The geometry by its number: 0 the small chip, 1 the large one.
pub fn choose(kind: u32) -> Option<Geometry>
    ensures { result ≡ chosen_of kind }
{
    match kind {
        0 => Some(Geometry::small()),
        1 => Some(Geometry::large()),
        _ => None,
    }
}

// One slot: a key, and the caller's address (in a leaf) or a page number (above).
#[derive(Clone, Copy)]
pub struct Entry {
    pub key: u32,
    pub addr: u32,
}

// What one rule finds: nothing, or the page that breaks it.
pub type Finding = Result<(), u32>;

// A broken rule, and the page that breaks it.
#[derive(Clone, Copy, PartialEq, Eq)]
pub struct Broken {
    pub rule: u32,
    pub page: u32,
}

// What all rules find: nothing, or the first broken rule and its page.
pub type Verdict = Result<(), Broken>;

// What a patrol of one half finds: nothing, the number of the data bit or of the code's bit that it mended, or more
// than it can mend.
#[derive(Clone, Copy)]
pub enum Patrol {
    Clean,
    DataMended(u32),
    CodeMended(u32),
    Beyond,
}

pub fn wide(x: u16) -> usize
    ensures { (result ≡ x) × (result < 65536) }
{
    x as usize
}

pub fn index(x: u32) -> usize
    ensures { (result ≡ x) × (result < four_bytes) }
{
    x as usize
}

// The bytes of a page.
pub fn page_bytes(g: Geometry) -> usize
    ensures { (result ≡ page_bytes g) × (result < 131072) }
{
    usize::from(g.main) + usize::from(g.spare)
}

// The 256-byte halves of a page's main bytes.
pub fn halves(g: Geometry) -> usize
    ensures { (result ≡ halves g) × (result < 256) }
{
    usize::from(g.main) / 256
}

// The byte of a page at which the code of half i stands.
pub fn code_place(g: Geometry, i: usize) -> usize
    requires { i ≤ 256 }
    ensures { (result ≡ code_place g i) × (result < 132000) }
{
    usize::from(g.main) + 5 + usize::from(g.top) + 3 * i
}

// The byte at which a page begins.
pub fn page_base(g: Geometry, page: u32) -> usize
    ensures { (result ≡ page_base g page) × (result < 562949953421312) }
{
    index(page) * page_bytes(g)
}

const SMALL_FIRST: [usize; 6] = [0, 0, 32, 48, 56, 60];

const SMALL_SLOTS: [usize; 6] = [0, 32, 16, 8, 4, 0];

const LARGE_FIRST: [usize; 8] = [0, 0, 128, 192, 224, 240, 248, 252];

const LARGE_SLOTS: [usize; 8] = [0, 128, 64, 32, 16, 8, 4, 0];

const PLAIN_SLOTS: [usize; 6] = [0, 64, 64, 64, 64, 64];

// A table's entry for a level; 0 for a level that it has not.
fn in_row(table: &[usize], level: u32) -> usize
    ensures { result ≡ get_or table.now level 0 }
{
    table.get(index(level)).copied().unwrap_or(0)
}

// The first slot of a level; 0 for a level that the geometry has not.
pub fn first_slot(g: Geometry, level: u32) -> usize
    ensures { (result ≡ first_slot g level) × (result < 256) }
{
    match g.table {
        Geometry::SMALL_TABLE => in_row(&SMALL_FIRST, level),
        Geometry::LARGE_TABLE => in_row(&LARGE_FIRST, level),
        _ => 0,
    }
}

// The slots of a node below the root; 0 for a level that the geometry has not.
pub fn slots_of(g: Geometry, level: u32) -> usize
    ensures { (result ≡ slots_of g level) × (result < 256) }
{
    match g.table {
        Geometry::SMALL_TABLE => in_row(&SMALL_SLOTS, level),
        Geometry::LARGE_TABLE => in_row(&LARGE_SLOTS, level),
        Geometry::PLAIN_TABLE => in_row(&PLAIN_SLOTS, level),
        _ => 0,
    }
}

// Half of a level's slots.
pub fn half(g: Geometry, level: u32) -> usize
    ensures { (result ≡ half g level) × (result < 128) }
{
    slots_of(g, level) / 2
}

// The slots of a page.
pub fn slots(g: Geometry) -> usize
    ensures { (result ≡ slots g) × (result < 8192) }
{
    usize::from(g.main) / 8
}

// The slots of a node as root: from its first slot to the end of the main bytes.
pub fn root_slots(g: Geometry, level: u32) -> usize
    ensures { (result ≡ root_slots g level) × (result < 8192) }
{
    slots(g).saturating_sub(first_slot(g, level))
}

// The most entries stored as root.
pub fn root_most(g: Geometry, level: u32) -> usize
    ensures { (result ≡ root_most g level) × (result < 8192) }
{
    let full = root_slots(g, level);
    if g.table != Geometry::PLAIN_TABLE && level < u32::from(g.top) {
        return full.saturating_sub(1);
    }
    full
}

// Whether the geometry has a level.
pub fn in_table(g: Geometry, level: u32) -> bool
    ensures { result ≡ in_table g level }
{
    level != 0 && level <= u32::from(g.top)
}
