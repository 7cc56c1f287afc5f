// Request 8, "Open once, call often": opening, which judges an image and hands back its record, and lookup and listing
// with a record. With a record nothing is judged: one page is read, and the record is STALE where that page is not the
// root that it names.
#![tactic(auto, using(crate::specs::Openings::opening_laws))]

ghost use Rattle.std.specs.Prelude.{◌≡◌, ◌-◌, ◌≤◌, ◌<◌, min, length};
ghost use Rattle.model.specs.Bytes.{height_at};
ghost use Rattle.model.specs.Listing.{as_outcome};
ghost use Rattle.call_answers.specs.Answers.{told};
ghost use Rattle.chip_survey.specs.Survey.{survey_of};
ghost use Rattle.open_record.specs.Opened.{opened_in, no_record, opened, opening, lookup_with, list_with};
ghost use Rattle.open_calls.specs.Opening.{opening_in, opened_blocks};

use call_answers::Answer;
use chip_survey::Survey;
use geometry::{Broken, Geometry};
use open_record::Opened;

// What opening answers, and the record: zeros where it is refused.
#[derive(Clone, Copy)]
pub struct Opening {
    pub answer: Answer,
    pub opened: Opened,
}

// A refused opening.
pub fn refused(answer: Answer) -> Opening
    ensures { (result.answer ≡ answer) × (result.opened ≡ no_record) }
{
    let none = Opened {
        root: 0,
        number: 0,
        most: 0,
        height: 0,
        next: 0,
        erased: 0,
    };
    Opening {
        answer: answer,
        opened: none,
    }
}

// Opening n blocks that are sound, by their survey.
fn granted(g: Geometry, img: &[u8], n: u16, survey: Survey) -> Opening
    requires { survey ≡ survey_of g n img.now }
    ensures { (result.answer ≡ Answer.Done 0 0 0) × (result.opened ≡ opened_in g n img.now) }
{
    let record = open_renew::record_of(g, img, n, survey);
    Opening {
        answer: Answer::Done(0, 0, 0),
        opened: record,
    }
}

// Opening n blocks, with a lent table for the judge.
fn open_blocks(g: Geometry, img: &[u8], table: &mut [u8], n: u16) -> Opening
    requires { (g.pages ≤ 64) × (n ≤ 1024) × (65536 ≤ length table.old) }
    ensures { (told result.answer img.now ≡ opening_in g n img.now) ×
        (result.opened ≡ opened_blocks g n img.now) }
{
    let judgement = sound_verdict::judge_image(g, img, &mut *table, n);
    let verdict = judgement.verdict;
    let survey = judgement.survey;
    match verdict {
        Err(Broken { rule, page }) => refused(Answer::Damaged(rule, page)),
        Ok(()) => granted(g, img, n, survey),
    }
}

// Judges an image and hands back its record.
pub fn open_on(g: Geometry, img: &[u8]) -> Opening
    requires { g.pages ≤ 64 }
    ensures { (told result.answer img.now ≡ opening g img.now) ×
        (result.opened ≡ opened g img.now) }
{
    let n = chip_read::good_blocks(g, img);
    if n == 0 {
        return refused(Answer::Length);
    }
    let mut table: [u8; 65536] = [0; 65536];
    open_blocks(g, img, &mut table, n)
}

// The levels below the root that a page carries, no more than below the highest root.
fn levels_below(g: Geometry, img: &[u8], root: u32) -> u32
    ensures { (result ≡ min (height_at g img.now root - 1) (g.top - 1)) × (result < 255) }
{
    chip_survey::level_by(g, chip_read::height_at(g, img, root))
}

// Lookup with a record.
pub fn lookup_opened_on(g: Geometry, img: &[u8], o: Opened, key: u32) -> Answer
    ensures { told result img.now ≡ lookup_with g img.now o key }
{
    let n = chip_read::good_blocks(g, img);
    if n == 0 {
        return Answer::Length;
    }
    if !open_renew::standing(g, img, n, o) {
        return Answer::Stale;
    }
    let root = o.root;
    let level = levels_below(g, img, root);
    call_lookup::answer(tree_descent::find_key(g, img, level, root, key))
}

// The pairs between two keys with a record, no more than 536,870,912 of them.
pub fn list_opened_on(
    g: Geometry,
    img: &[u8],
    o: Opened,
    low: u32,
    high: u32,
    pairs: &mut [u32],
) -> Answer
    ensures { told result pairs.new ≡ as_outcome (list_with g img.now o low high
        pairs.old) }
{
    let n = chip_read::good_blocks(g, img);
    if n == 0 {
        return Answer::Length;
    }
    if !open_renew::standing(g, img, n, o) {
        return Answer::Stale;
    }
    let root = o.root;
    let level = levels_below(g, img, root);
    call_list::list_tree(g, img, &mut *pairs, level, root, low, high)
}
