// R7, R8, and the verdict: R1 to R8 in their order.
#![tactic(auto, using(crate::proofs::Laws::verdict_laws))]

ghost use Rattle.std.specs.Prelude.{◌≡◌, ◌+◌, ◌*◌, ◌-◌, ◌≤◌, ◌<◌, length};
ghost use Rattle.geometry.specs.Findings.{Sound};
ghost use Rattle.model.specs.Bytes.{erased, seq_at};
ghost use Rattle.model.specs.Count.{any};
ghost use Rattle.model.specs.Image.{chip_of};
ghost use Rattle.model.specs.Rules.{r7, r8, or_else, verdict};
ghost use Rattle.chip_survey.specs.Survey.{survey_of};
ghost use Rattle.sound_numbers.specs.Ranges.{Shows, Ranges};
ghost use Rattle.sound_sight.specs.Sight.{Told, Counted, Clear, Flaw};
ghost use Rattle.live_walk.specs.Table.{Marked};
ghost use Rattle.sound_links.specs.Loose.{Inside};
ghost use Rattle.sound_verdict.specs.Verdict.{clearable, from3, from6, Roomy, Surveyed, Tells, Never, Judged};

use chip_survey::Survey;
use geometry::{Broken, Finding, Geometry, Verdict};
use sound_sight::Sight;

// A verdict, and the survey that came with it.
#[derive(Clone, Copy)]
pub struct Judgement {
    pub verdict: Verdict,
    pub survey: Survey,
}

// Whether a block has no erased page, and no more live ones than the image has erased ones.
fn is_clearable(g: Geometry, img: &[u8], table: &[u8], block: u16, free: u32) -> bool
    ensures { result ≡ clearable g.pages (erased g img.now) table.now free block }
{
    if chip_read::last_erased(g, img, block) {
        return false;
    }
    live_walk::lives_in(g, table, block) <= free
}

fn some_clearable(g: Geometry, img: &[u8], table: &[u8], n: u16, free: u32) -> bool
    ensures { result ≡ any n (clearable g.pages (erased g img.now) table.now free) }
{
    for block in 0..n {
        if is_clearable(g, img, table, block, free) {
            return true;
        }
    }
    false
}

// R7: at least a block's pages are erased, or some block can be cleared.
fn rule_7(g: Geometry, img: &[u8], table: &[u8], n: u16, survey: Survey) -> Finding
    requires surveyed { Surveyed g n img.now survey (length table.now) }
    requires marked { Marked (chip_of g n img.now) table.now }
    ensures { result ≡ r7 g.pages n (chip_of g n img.now) }
{
    let free = survey.erased;
    if geometry::wide(g.pages) <= geometry::index(free) {
        return Ok(());
    }
    if some_clearable(g, img, table, n, free) {
        return Ok(());
    }
    Err(0)
}

// R8: the pages that are not live are two blocks' at least.
fn rule_8(g: Geometry, img: &[u8], table: &[u8], n: u16, survey: Survey) -> Finding
    requires surveyed { Surveyed g n img.now survey (length table.now) }
    requires marked { Marked (chip_of g n img.now) table.now }
    ensures { result ≡ r8 g.pages n (chip_of g n img.now) }
{
    let pages = chip_read::first_page(g, n);
    let lives = live_walk::live_pages(table, pages);
    let dead = geometry::index(pages - lives);
    if 2 * geometry::wide(g.pages) <= dead {
        return Ok(());
    }
    Err(0)
}

// A rule's finding, as what all rules find.
fn tell(rule: u32, found: Finding) -> Verdict
    ensures { result ≡ or_else rule found Sound }
{
    found.map_err(|page| Broken { rule, page })
}

// From R6 on, by the table that R5's walk left. R7 and R8 are not asked of the plain tree.
fn from_rule_6(g: Geometry, img: &[u8], table: &[u8], n: u16, survey: Survey) -> Verdict
    requires surveyed { Surveyed g n img.now survey (length table.now) }
    requires marked { Marked (chip_of g n img.now) table.now }
    requires inside { Inside (chip_of g n img.now) (length table.now) }
    ensures { result ≡ from6 g n img.now }
{
    let pages = chip_read::first_page(g, n);
    let links = sound_links::rule_6(g, img, table, pages, survey.level, survey.root);
    tell(6, links)?;
    if g.table == Geometry::PLAIN_TABLE {
        return Ok(());
    }
    tell(7, rule_7(g, img, table, n, survey))?;
    tell(8, rule_8(g, img, table, n, survey))
}

// From R3 on, by what the pass told.
fn from_rule_3(
    g: Geometry,
    img: &[u8],
    table: &mut [u8],
    n: u16,
    survey: Survey,
    programmed: &[u16],
    rising: bool,
    lows: &[u32],
    highs: &[u32],
) -> Verdict
    requires surveyed { Surveyed g n img.now survey (length table.old) }
    requires n_in_bounds { (n ≤ length lows.now) × (n ≤ length highs.now) }
    requires shows { Shows rising (Ranges (erased g img.now) (seq_at g img.now) g.pages n lows.now highs.now) }
    requires counted { Counted g n img.now programmed.now }
    requires n_in_bounds_2 { n ≤ length programmed.now }
    ensures value { (result ≡ from3 g n img.now) × Tells (chip_of g n img.now)
        table.new result }
    ensures table_len_unchanged { length table.new ≡ length table.old }
{
    tell(3, sound_numbers::rule_3(g, img, n, rising, lows, highs))?;
    tell(4, chip_survey::rule_4(g, img, n, survey))?;
    let pages = chip_read::first_page(g, n);
    let nodes = sound_nodes::rule_5(
        g,
        img,
        &mut *table,
        pages,
        survey.level,
        survey.root,
        programmed,
    );
    tell(5, nodes)?;
    from_rule_6(g, img, &*table, n, survey)
}

// The verdict of an image that R1 or R2 breaks.
fn broken_pages(g: Geometry, img: &[u8], n: u16) -> Verdict
    requires { Flaw g n img.now }
    ensures { (result ≡ verdict g n img.now) × Never result }
{
    tell(1, sound_pages::rule_1(g, img, n))?;
    tell(2, sound_pages::rule_2(g, img, n))
}

// Judges n blocks that R1 or R2 breaks.
fn judge_broken(g: Geometry, img: &[u8], n: u16) -> Judgement
    requires { Flaw g n img.now }
    ensures { (result.verdict ≡ verdict g n img.now) × Never result.verdict ×
        (result.survey ≡ survey_of g n img.now) × (result.survey.level < 255) }
{
    let survey = chip_survey::take_survey(g, img, n);
    let verdict = broken_pages(g, img, n);
    Judgement { verdict, survey }
}

// Judges n blocks by what the pass told.
fn judge_by(
    g: Geometry,
    img: &[u8],
    table: &mut [u8],
    n: u16,
    sight: Sight,
    programmed: &[u16],
    lows: &[u32],
    highs: &[u32],
) -> Judgement
    requires roomy { Roomy g n (length table.old) }
    requires n_in_bounds { (n ≤ length programmed.now) × (n ≤ length lows.now) × (n ≤ length highs.now) }
    requires told { Told sight.fine (Clear g n img.now sight.rising sight.survey programmed.now lows.now
        highs.now) (Flaw g n img.now) }
    ensures { Judged g n img.now result table.old table.new }
{
    if !sight.fine {
        return judge_broken(g, img, n);
    }
    let survey = sight.survey;
    let rising = sight.rising;
    let verdict = from_rule_3(
        g,
        img,
        &mut *table,
        n,
        survey,
        programmed,
        rising,
        lows,
        highs,
    );
    Judgement { verdict, survey }
}

// Judges at most MOST blocks, with lists of as many places: these are cleared at every call.
fn judge_most<const MOST: usize>(g: Geometry, img: &[u8], table: &mut [u8], n: u16) -> Judgement
    requires { (n ≤ MOST) × (MOST ≤ 1024) × (Roomy g n (length table.old)) }
    ensures { Judged g n img.now result table.old table.new }
{
    let mut programmed: [u16; MOST] = [0; MOST];
    let mut lows: [u32; MOST] = [0; MOST];
    let mut highs: [u32; MOST] = [0; MOST];
    let sight = sound_sight::take_sight(g, img, n, &mut programmed, &mut lows, &mut highs);
    judge_by(g, img, &mut *table, n, sight, &programmed, &lows, &highs)
}

// Judges n blocks, with a table that has room for their pages. Where they are sound the table then tells each page's
// lowest live level.
pub fn judge_in(g: Geometry, img: &[u8], table: &mut [u8], n: u16) -> Judgement
    requires { (n ≤ 1024) × (Roomy g n (length table.old)) }
    ensures { Judged g n img.now result table.old table.new }
{
    if n <= 64 {
        return judge_most::<64>(g, img, &mut *table, n);
    }
    judge_most::<1024>(g, img, &mut *table, n)
}

// The same with a table for the largest image.
pub fn judge_image(g: Geometry, img: &[u8], table: &mut [u8], n: u16) -> Judgement
    requires { (g.pages ≤ 64) × (n ≤ 1024) × (65536 ≤ length table.old) }
    ensures { Judged g n img.now result table.old table.new }
{
    judge_in(g, img, &mut *table, n)
}
