// An update (insert or delete) with lent words of live pages: refused, or made under its allowance. Judged first.
#![tactic(auto, using(crate::specs::Stores::asks_laws, crate::specs::Stores::store_laws, crate::specs::Updates::update_laws))]

ghost use Rattle.std.specs.Prelude.{◌≡◌, ◌+◌, ◌≤◌, ◌<◌, length, is_none};
ghost use Rattle.geometry.specs.Shape.{Known};
ghost use Rattle.chip_store.specs.Run.{Countable};
ghost use Rattle.model.specs.Tree.{sought};
ghost use Rattle.call_answers.specs.Answers.{told};
ghost use Rattle.chip_read.specs.Chip.{good_blocks};
ghost use Rattle.call_account.specs.Account.{Sized, Makes};
ghost use Rattle.chip_survey.specs.Survey.{survey_of};
ghost use Rattle.sound_verdict.specs.Verdict.{Roomy};
ghost use Rattle.live_words.specs.Words.{words_of};
ghost use Rattle.live_words.specs.Live.{reply};
ghost use Rattle.open_record.specs.Opened.{opened_in, chip_by};
ghost use Rattle.live_beside.specs.Update.{returned};
ghost use Rattle.tree_root.specs.Owns.{Owns};
ghost use Rattle.call_update.specs.Update.{asks_of, own_for, crest_for, run_for, stores_for, crest_on, made_for};
ghost use Rattle.call_update.specs.Update.{update_by, replied, update_live, held_in, filled_by, Small};

use call_account::{Made, Renewed};
use call_answers::Answer;
use chip_store::Budget;
use chip_survey::Survey;
use geometry::{Broken, Geometry};
use open_record::Opened;
use tree_root::Own;

// The insert of a key and an address, or the delete of a key.
#[derive(Clone, Copy)]
pub enum Update {
    Insert(u32, u32),
    Delete(u32),
}

// What an update asks before its stores: whether it is refused and with which answer, and for how many pages it is.
#[derive(Clone, Copy)]
pub struct Asks {
    pub refused: bool,
    pub answer: Answer,
    pub pages: u32,
}

// HEIGHT, and k pages.
fn insert_asks(g: Geometry, img: &[u8], o: Opened, key: u32, addr: u32) -> Asks
    requires { o.height < 256 }
    ensures { (result ≡ asks_of (Update.Insert key addr) g img.now o) × (1 ≤ result.pages) × (result.pages ≤ 256) }
{
    let level = chip_survey::level_by(g, o.height);
    let p = tree_plan::make_plan(g, img, level, o.root, key);
    Asks {
        refused: p.high,
        answer: Answer::Height,
        pages: p.needs,
    }
}

// ABSENT: nothing stands under the key.
fn is_absent(g: Geometry, img: &[u8], o: Opened, key: u32) -> bool
    requires { o.height < 256 }
    ensures { result ≡ is_none (sought (chip_by g img.now o) key) }
{
    let level = chip_survey::level_by(g, o.height);
    tree_descent::find_key(g, img, level, o.root, key).is_none()
}

// ABSENT, and one page.
fn delete_asks(g: Geometry, img: &[u8], o: Opened, key: u32) -> Asks
    requires { o.height < 256 }
    ensures { (result ≡ asks_of (Update.Delete key) g img.now o) × (1 ≤ result.pages) × (result.pages ≤ 256) }
{
    let absent = is_absent(g, img, o, key);
    Asks {
        refused: absent,
        answer: Answer::Absent,
        pages: 1,
    }
}

pub fn asks_of(g: Geometry, img: &[u8], o: Opened, u: Update) -> Asks
    requires { o.height < 256 }
    ensures { (result ≡ asks_of u g img.now o) × (1 ≤ result.pages) × (result.pages ≤ 256) }
{
    match u {
        Update::Insert(key, addr) => insert_asks(g, img, o, key, addr),
        Update::Delete(key) => delete_asks(g, img, o, key),
    }
}

// The update's own stores.
pub fn own_stores(
    g: Geometry,
    img: &mut [u8],
    n: u16,
    b: Budget,
    o: Opened,
    m: u32,
    u: Update,
) -> Own
    requires { (o.height < 256) × (1 ≤ m) × (m ≤ 256) × (Sized g n)
        × (Countable b) }
    ensures { Owns g (own_for u g n m o img.old) (crest_for u g n m o img.old) b result
        img.old img.new }
{
    match u {
        Update::Insert(key, addr) => tree_insert::insert_own(g, &mut *img, n, b, o, m, key, addr),
        Update::Delete(key) => tree_delete::delete_own(g, &mut *img, n, b, o, key),
    }
}

// Collection for m pages, then the own stores, with the image's record, table and words given.
fn make_stores(
    g: Geometry,
    img: &mut [u8],
    table: &mut [u8],
    lent: &mut [u32],
    n: u16,
    o: Opened,
    m: u32,
    u: Update,
    allowance: u32,
) -> Made
    requires { (Sized g n) × (1 ≤ m) × (m ≤ 256) × (o.height < 256) }
    ensures { Makes g n (stores_for u g n m (held_in o table.old lent.old) img.old)
        (run_for g n m (held_in o table.old lent.old) img.old).kept.at
        (crest_on u g n m (held_in o table.old lent.old) img.old) allowance result
        img.old img.new lent.old lent.new }
{
    let b = call_account::fresh(allowance);
    let w = collect_blocks::collect(g, &mut *img, &mut *table, &mut *lent, n, b, m, m + 1, o);
    let r = w.budget;
    let t = w.opened;
    if r.stopped {
        let none = Own {
            budget: r,
            page: 0,
            level: 0,
        };
        return Made {
            own: none,
            opened: t,
        };
    }
    let own = own_stores(g, &mut *img, n, r, t, m, u);
    Made {
        own: own,
        opened: t,
    }
}

// The stores for m pages, and what they leave.
pub fn update_made(
    g: Geometry,
    img: &mut [u8],
    table: &mut [u8],
    lent: &mut [u32],
    n: u16,
    o: Opened,
    m: u32,
    u: Update,
    allowance: u32,
) -> Renewed
    requires { (Sized g n) × (1 ≤ m) × (m ≤ 256) × (o.height < 256) }
    ensures { returned (told result.answer img.new) result.opened lent.new
        ≡ made_for u g n m (held_in o table.old lent.old) img.old allowance }
{
    let s = make_stores(g, &mut *img, &mut *table, &mut *lent, n, o, m, u, allowance);
    let own = s.own;
    let t = s.opened;
    call_account::finish(g, &*img, &mut *lent, n, own, t, m)
}

// The rest on an image of n blocks, with a record, a table and words.
fn update_rest(
    g: Geometry,
    img: &mut [u8],
    table: &mut [u8],
    lent: &mut [u32],
    n: u16,
    o: Opened,
    u: Update,
    allowance: u32,
) -> Renewed
    requires { (Sized g n) × (o.height < 256) }
    ensures { returned (told result.answer img.new) result.opened lent.new
        ≡ update_by u g n (held_in o table.old lent.old) img.old allowance }
{
    if g.worn < o.most {
        return Renewed {
            answer: Answer::Worn,
            opened: o,
        };
    }
    let a = asks_of(g, &*img, o, u);
    if a.refused {
        let answer = a.answer;
        return Renewed {
            answer: answer,
            opened: o,
        };
    }
    if call_account::is_roomless(g, &*lent, n, o.erased, a.pages) {
        return Renewed {
            answer: Answer::Room,
            opened: o,
        };
    }
    update_made(
        g,
        &mut *img,
        &mut *table,
        &mut *lent,
        n,
        o,
        a.pages,
        u,
        allowance,
    )
}

// The rest on a judged image, with the table that the judge left and its survey.
fn update_judged(
    g: Geometry,
    img: &mut [u8],
    table: &mut [u8],
    lent: &mut [u32],
    n: u16,
    s: Survey,
    u: Update,
    allowance: u32,
) -> Answer
    requires { (Sized g n) × (s ≡ survey_of g n img.old) × (s.level < 255) }
    ensures { reply (told result img.new) lent.new
        ≡ replied (update_by u g n (held_in (opened_in g n img.old) table.old
        (filled_by g n table.old lent.old)) img.old allowance) }
{
    call_account::fill_words(g, &*table, &mut *lent, n);
    let o = open_renew::record_of(g, &*img, n, s);
    let r = update_rest(g, &mut *img, &mut *table, &mut *lent, n, o, u, allowance);
    let answer = r.answer;
    answer
}

// The update on n blocks, with words enough, and a lent table for the judge and the collector.
fn update_blocks(
    g: Geometry,
    img: &mut [u8],
    table: &mut [u8],
    lent: &mut [u32],
    n: u16,
    u: Update,
    allowance: u32,
) -> Answer
    requires known { (Known g) × (Small u) }
    requires n_value { (n ≡ good_blocks g img.old) × (n ≤ 1024) × (n ≡ 0 → ⊥) × (Roomy g n (length table.old))
        × (words_of g n ≤ length lent.old) }
    ensures { reply (told result img.new) lent.new
        ≡ update_live u g img.old lent.old allowance }
{
    let judgement = sound_verdict::judge_in(g, &*img, &mut *table, n);
    let verdict = judgement.verdict;
    let survey = judgement.survey;
    match verdict {
        Err(Broken { rule, page }) => Answer::Damaged(rule, page),
        Ok(()) => update_judged(
            g,
            &mut *img,
            &mut *table,
            &mut *lent,
            n,
            survey,
            u,
            allowance,
        ),
    }
}

// The update with a table of N places: it is cleared at every call.
fn update_sized<const N: usize>(
    g: Geometry,
    img: &mut [u8],
    lent: &mut [u32],
    n: u16,
    u: Update,
    allowance: u32,
) -> Answer
    requires known { (Known g) × (Small u) }
    requires n_value { (n ≡ good_blocks g img.old) × (n ≤ 1024) × (n ≡ 0 → ⊥) × (N ≤ 65536) × (Roomy g n N)
        × (words_of g n ≤ length lent.old) }
    ensures { reply (told result img.new) lent.new
        ≡ update_live u g img.old lent.old allowance }
{
    let mut table: [u8; N] = [0; N];
    update_blocks(g, &mut *img, &mut table, &mut *lent, n, u, allowance)
}

// The update on a chip of a known geometry: at most 64 blocks have a short table.
pub fn update_on(g: Geometry, img: &mut [u8], lent: &mut [u32], u: Update, allowance: u32) -> Answer
    requires { (Known g) × (Small u) }
    ensures { reply (told result img.new) lent.new
        ≡ update_live u g img.old lent.old allowance }
{
    let n = chip_read::good_blocks(g, &*img);
    if n == 0 {
        return Answer::Length;
    }
    if lent.len() < live_fill::words_of(g, n) {
        return Answer::Length;
    }
    if n <= 64 {
        return update_sized::<4096>(g, &mut *img, &mut *lent, n, u, allowance);
    }
    update_sized::<65536>(g, &mut *img, &mut *lent, n, u, allowance)
}
