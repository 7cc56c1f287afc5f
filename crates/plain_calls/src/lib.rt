// The plain tree of request 12 as Rattle calls: format, lookup, insert, delete. No call asks anything of its caller,
// and each contract is one equation: the answer, its numbers and the image afterwards are those of the definition, for
// every image.
#![tactic(auto, using(crate::specs::Judged::count_laws, crate::specs::Judged::made_laws, crate::specs::Judged::rest_laws, crate::specs::Judged::call_laws, crate::specs::Losses::loss_laws))]

ghost use Rattle.std.specs.Prelude.{◌≡◌, suc, ◌+◌, ◌-◌, ◌≤◌, ◌<◌, eqb, leb, ltb, length};
ghost use Rattle.geometry.specs.Geometry.{plain, page_bytes};
ghost use Rattle.geometry.specs.Tests.{pick, bit, ◌&◌};
ghost use Rattle.geometry.specs.Bounds.{longest_page};
ghost use Rattle.model.specs.Image.{chip_of, max_seq};
ghost use Rattle.model.specs.Calls.{format, lookup};
ghost use Rattle.model.specs.Plain.{plain_insert, plain_delete};
ghost use Rattle.call_answers.specs.Answers.{told};
ghost use Rattle.chip_read.specs.Chip.{chip_with, good_blocks};
ghost use Rattle.chip_survey.specs.Survey.{survey_of};
ghost use Rattle.plain_levels.specs.Levels.{insert_stores_at, delete_stores_at, pages_by, made_with, plain_insert_by, plain_delete_by};
ghost use Rattle.plain_calls.specs.Counts.{Cuts, LosesSome, ShedsSome};

use call_answers::Answer;
use chip_survey::Survey;
use geometry::{Broken, Entry, Geometry};
use tree_plan::Run;

// What a delete does to the node that an entry names, where its key stands there: how many levels below are emptied, the
// entries left.
#[derive(Clone, Copy)]
pub struct Loss {
    pub emptied: u32,
    pub left: usize,
}

pub fn format(img: &mut [u8]) -> Answer
    ensures { told result img.new ≡ format plain img.old }
{
    call_format::format(Geometry::plain(), &mut *img)
}

pub fn lookup(img: &[u8], key: u32) -> Answer
    ensures { told result img.now ≡ lookup plain img.now key }
{
    call_lookup::lookup_on(Geometry::plain(), img, key)
}

// ---- insert
// The levels that an insert splits, under the root at a page with `level` levels below it, and whether the root is one
// of them.
fn count_cuts(g: Geometry, img: &[u8], level: u32, root: u32, key: u32) -> Run
    requires { level < 255 }
    ensures { Cuts g (chip_with g img.now level root) key result }
{
    let absent = tree_plan::is_absent(g, img, key, level, Entry { key: 0, addr: root });
    tree_plan::count_splits(g, img, key, absent, level + 1, Entry { key: 0, addr: root })
}

// HEIGHT: the root splits at the greatest height.
fn is_high(g: Geometry, level: u32, grows: bool) -> bool
    ensures { result ≡ (eqb (suc level) g.top & grows) }
{
    if geometry::index(level) + 1 != geometry::wide(g.top) {
        return false;
    }
    grows
}

// ROOM: fewer erased pages are left than the insert needs.
fn insert_roomless(s: Survey, run: Run) -> bool
    requires { (s.level ≤ 100) × (run.splits ≤ 101) }
    ensures { result ≡ ltb s.erased (suc (s.level + run.splits + bit run.gains)) }
{
    s.erased < tree_plan::count_pages(s.level + run.splits, run.gains)
}

// The stores of an insert that splits so many levels, on an image of n blocks with its survey.
fn insert_made(
    g: Geometry,
    img: &mut [u8],
    n: u16,
    s: Survey,
    cuts: u32,
    key: u32,
    addr: u32,
    allowance: u32,
) -> Answer
    requires { (s ≡ survey_of g n img.old) × (s.level ≤ 100) × (cuts ≤ 101) × (page_bytes g ≤ longest_page) }
    ensures { told result img.new
        ≡ made_with g (insert_stores_at g (chip_of g n img.old) key addr (pages_by g n img.old)
        (max_seq g n img.old) cuts)
        allowance img.old }
{
    let o = open_renew::record_of(g, &*img, n, s);
    let b = call_account::fresh(allowance);
    let r = plain_levels::insert_pages(g, &mut *img, n, b, o, s.level, cuts, key, addr);
    call_account::answer_of(r)
}

// The rest of an insert on a judged image of n blocks, by its survey.
fn insert_judged(
    g: Geometry,
    img: &mut [u8],
    n: u16,
    s: Survey,
    key: u32,
    addr: u32,
    allowance: u32,
) -> Answer
    requires { (s ≡ survey_of g n img.old) × (s.level ≤ 100) × (page_bytes g ≤ longest_page) }
    ensures { told result img.new ≡ plain_insert_by g n img.old key addr allowance }
{
    if g.worn < s.most {
        return Answer::Worn;
    }
    let run = count_cuts(g, &*img, s.level, s.root, key);
    if is_high(g, s.level, run.gains) {
        return Answer::Height;
    }
    if insert_roomless(s, run) {
        return Answer::Room;
    }
    insert_made(g, &mut *img, n, s, run.splits, key, addr, allowance)
}

// Insert on n blocks, with a lent table for the judge.
fn insert_blocks(
    g: Geometry,
    img: &mut [u8],
    table: &mut [u8],
    n: u16,
    key: u32,
    addr: u32,
    allowance: u32,
) -> Answer
    requires { (g ≡ plain) × (n ≡ good_blocks g img.old) × (n ≤ 1024) × (n ≡ 0 → ⊥) ×
        (65536 ≤ length table.old) }
    ensures { told result img.new ≡ plain_insert plain img.old key addr allowance }
{
    let judgement = sound_verdict::judge_image(g, &*img, &mut *table, n);
    let verdict = judgement.verdict;
    let survey = judgement.survey;
    match verdict {
        Err(Broken { rule, page }) => Answer::Damaged(rule, page),
        Ok(()) => insert_judged(g, &mut *img, n, survey, key, addr, allowance),
    }
}

pub fn insert(img: &mut [u8], key: u32, addr: u32, allowance: u32) -> Answer
    ensures { told result img.new ≡ plain_insert plain img.old key addr allowance }
{
    let g = Geometry::plain();
    let n = chip_read::good_blocks(g, &*img);
    if n == 0 {
        return Answer::Length;
    }
    let mut table: [u8; 65536] = [0; 65536];
    insert_blocks(g, &mut *img, &mut table, n, key, addr, allowance)
}

// ---- delete
// What a delete does to the leaf that an entry names; nothing where its key is absent.
fn leaf_loss(g: Geometry, img: &[u8], key: u32, e: Entry) -> Option<Loss>
    ensures { LosesSome g img.now key 0 e result }
{
    let n = chip_read::node_count(g, img, e.addr, 1);
    match tree_search::find_key(g, img, e.addr, 1, key) {
        Some(_) => Some(Loss {
            emptied: 0,
            left: n.saturating_sub(1),
        }),
        None => None,
    }
}

// What it does to the node that an entry names, with `below` levels under it: that loses an entry where the node below
// is emptied.
fn count_loss(g: Geometry, img: &[u8], key: u32, below: u32, e: Entry) -> Option<Loss>
    requires { below < 256 }
    ensures { LosesSome g img.now key below e result }
{
    if below == 0 {
        return leaf_loss(g, img, key, e);
    }
    let n = chip_read::node_count(g, img, e.addr, below + 1);
    let x = tree_search::chosen_entry(g, img, e.addr, below + 1, key);
    let r = count_loss(g, img, key, below - 1, x)?;
    if r.left != 0 {
        return Some(Loss {
            emptied: r.emptied,
            left: n,
        });
    }
    Some(Loss {
        emptied: r.emptied + 1,
        left: n.saturating_sub(1),
    })
}

// What it does to the root at a page with `level` levels below it.
fn root_loss(g: Geometry, img: &[u8], level: u32, root: u32, key: u32) -> Option<Loss>
    requires { level < 256 }
    ensures { ShedsSome (chip_with g img.now level root) key result }
{
    count_loss(g, img, key, level, Entry { key: 0, addr: root })
}

// The pages that a delete needs: a root above level 1 that is left with one entry gives way to the node below.
fn count_left(level: u32, loss: Loss) -> u32
    requires { (level < 256) × (loss.emptied ≤ level) }
    ensures { result ≡ suc (pick (leb 1 level & eqb loss.left 1) 0 (level - loss.emptied)) }
{
    if level == 0 {
        return 1;
    }
    if loss.left == 1 {
        return 1;
    }
    level - loss.emptied + 1
}

// ROOM: fewer erased pages are left than the delete needs.
fn delete_roomless(s: Survey, loss: Loss) -> bool
    requires { (s.level ≤ 100) × (loss.emptied ≤ s.level) }
    ensures { result ≡ ltb s.erased (suc (pick (leb 1 s.level & eqb loss.left 1) 0
        (s.level - loss.emptied))) }
{
    s.erased < count_left(s.level, loss)
}

// The stores of a delete that empties so many levels, on an image of n blocks with its survey.
fn delete_made(
    g: Geometry,
    img: &mut [u8],
    n: u16,
    s: Survey,
    emptied: u32,
    key: u32,
    allowance: u32,
) -> Answer
    requires { (s ≡ survey_of g n img.old) × (s.level ≤ 100) × (page_bytes g ≤ longest_page) }
    ensures { told result img.new
        ≡ made_with g (delete_stores_at g (chip_of g n img.old) key (pages_by g n img.old)
        (max_seq g n img.old) emptied)
        allowance img.old }
{
    let o = open_renew::record_of(g, &*img, n, s);
    let b = call_account::fresh(allowance);
    let r = plain_levels::delete_pages(g, &mut *img, n, b, o, s.level, emptied, key);
    call_account::answer_of(r)
}

// The rest of a delete on a judged image of n blocks, by its survey.
fn delete_judged(g: Geometry, img: &mut [u8], n: u16, s: Survey, key: u32, allowance: u32) -> Answer
    requires { (s ≡ survey_of g n img.old) × (s.level ≤ 100) × (page_bytes g ≤ longest_page) }
    ensures { told result img.new ≡ plain_delete_by g n img.old key allowance }
{
    if g.worn < s.most {
        return Answer::Worn;
    }
    let Some(loss) = root_loss(g, &*img, s.level, s.root, key) else {
        return Answer::Absent;
    };
    if delete_roomless(s, loss) {
        return Answer::Room;
    }
    delete_made(g, &mut *img, n, s, loss.emptied, key, allowance)
}

// Delete on n blocks, with a lent table for the judge.
fn delete_blocks(
    g: Geometry,
    img: &mut [u8],
    table: &mut [u8],
    n: u16,
    key: u32,
    allowance: u32,
) -> Answer
    requires { (g ≡ plain) × (n ≡ good_blocks g img.old) × (n ≤ 1024) × (n ≡ 0 → ⊥) ×
        (65536 ≤ length table.old) }
    ensures { told result img.new ≡ plain_delete plain img.old key allowance }
{
    let judgement = sound_verdict::judge_image(g, &*img, &mut *table, n);
    let verdict = judgement.verdict;
    let survey = judgement.survey;
    match verdict {
        Err(Broken { rule, page }) => Answer::Damaged(rule, page),
        Ok(()) => delete_judged(g, &mut *img, n, survey, key, allowance),
    }
}

pub fn delete(img: &mut [u8], key: u32, allowance: u32) -> Answer
    ensures { told result img.new ≡ plain_delete plain img.old key allowance }
{
    let g = Geometry::plain();
    let n = chip_read::good_blocks(g, &*img);
    if n == 0 {
        return Answer::Length;
    }
    let mut table: [u8; 65536] = [0; 65536];
    delete_blocks(g, &mut *img, &mut table, n, key, allowance)
}
