// One pass over the pages of an image: the root, the largest number, the erased pages. And R4.
#![tactic(auto, using(crate::specs::Pass::survey_laws))]

ghost use Rattle.std.specs.Prelude.{◌≡◌, ◌+◌, ◌-◌, ◌≤◌, ◌<◌, max, min, false, ltb};
ghost use Rattle.geometry.specs.Tests.{pick};
ghost use Rattle.model.specs.Bytes.{erased, seq_at, height_at};
ghost use Rattle.model.specs.Image.{height_of};
ghost use Rattle.model.specs.Rules.{r4};
ghost use Rattle.chip_survey.specs.Survey.{seen_to, survey_of};

use geometry::{Finding, Geometry};

// What the pages below some page say: the root's page and number, the largest number and its page, the erased pages.
#[derive(Clone, Copy)]
pub struct Seen {
    pub root: u32,
    pub score: u32,
    pub most: u32,
    pub last: u32,
    pub erased: u32,
}

// An image in numbers: the root's page, its height byte and the levels below it, the largest number and
// its page, the erased pages.
#[derive(Clone, Copy)]
pub struct Survey {
    pub root: u32,
    pub height: u32,
    pub level: u32,
    pub most: u32,
    pub last: u32,
    pub erased: u32,
}

// What is seen with one programmed page more.
pub fn see_page(g: Geometry, img: &[u8], page: u32, height: u32, seq: u32, seen: Seen) -> Seen
    requires { (seen ≡ seen_to g img.now page) × (erased g img.now page ≡ false) ×
        (height ≡ height_at g img.now page) × (seq ≡ seq_at g img.now page) }
    ensures { (result ≡ seen_to g img.now (page + 1)) × (result.erased ≡ seen.erased) }
{
    let most = seen.most.max(seq);
    let last = if seen.most < seq { page } else { seen.last };
    if height == 0 || seq <= seen.score {
        return Seen { most, last, ..seen };
    }
    Seen {
        root: page,
        score: seq,
        most,
        last,
        erased: seen.erased,
    }
}

// What is seen with one page more.
fn see(g: Geometry, img: &[u8], page: u32, seen: Seen) -> Seen
    requires { (seen ≡ seen_to g img.now page) × (seen.erased ≤ page) × (page < 4294967295) }
    ensures { (result ≡ seen_to g img.now (page + 1)) × (result.erased ≤ page + 1) }
{
    if chip_read::page_erased(g, img, page) {
        return Seen {
            erased: seen.erased + 1,
            ..seen
        };
    }
    let height = chip_read::height_at(g, img, page);
    let seq = chip_read::seq_at(g, img, page);
    see_page(g, img, page, height, seq, seen)
}

fn see_all(g: Geometry, img: &[u8], pages: u32) -> Seen
    requires { pages < 4294967295 }
    ensures { result ≡ seen_to g img.now pages }
{
    let mut seen = Seen {
        root: 0,
        score: 0,
        most: 0,
        last: 0,
        erased: 0,
    };
    for page in 0..pages {
        seen = see(g, img, page, seen);
    }
    seen
}

// The height byte of a programmed page, 0 of an erased one.
pub fn height_of(g: Geometry, img: &[u8], page: u32) -> u32
    ensures { (result ≡ height_of g img.now page) × (result < 256) }
{
    if chip_read::page_erased(g, img, page) {
        return 0;
    }
    chip_read::height_at(g, img, page)
}

pub fn less_one(x: u32) -> u32
    ensures { result ≡ x - 1 }
{
    x.saturating_sub(1)
}

// The levels below a root of a height, no more than below the highest root.
pub fn level_by(g: Geometry, height: u32) -> u32
    ensures { result ≡ min (height - 1) (g.top - 1) }
{
    let level = less_one(height);
    let most = less_one(u32::from(g.top));
    level.min(most)
}

// The survey of n blocks.
pub fn take_survey(g: Geometry, img: &[u8], n: u16) -> Survey
    ensures { (result ≡ survey_of g n img.now) × (result.level < 255) }
{
    let seen = see_all(g, img, chip_read::first_page(g, n));
    let height = height_of(g, img, seen.root);
    let level = less_one(height);
    Survey {
        root: seen.root,
        height,
        level,
        most: seen.most,
        last: seen.last,
        erased: seen.erased,
    }
}

// R4: some page carries a root.
pub fn rule_4(g: Geometry, img: &[u8], n: u16, survey: Survey) -> Finding
    requires { survey ≡ survey_of g n img.now }
    ensures { result ≡ r4 g n img.now }
{
    if survey.height == 0 {
        return Err(0);
    }
    Ok(())
}
