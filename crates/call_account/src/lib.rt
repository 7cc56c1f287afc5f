// The account of an update: its fresh allowance, ROOM, the record and the lent words that it leaves, and the answer
// that its stores give.
#![tactic(auto, using(crate::specs::Accounting::account_laws))]

ghost use Rattle.std.specs.Prelude.{◌≡◌, false, ◌+◌, ◌*◌, ◌-◌, ◌≤◌, ◌<◌, ltb, length};
ghost use Rattle.geometry.specs.Tests.{◌&◌};
ghost use Rattle.chip_store.specs.Run.{Countable};
ghost use Rattle.model.specs.Calls.{roomless};
ghost use Rattle.call_answers.specs.Answers.{told};
ghost use Rattle.live_walk.specs.Table.{live_in};
ghost use Rattle.live_words.specs.Words.{words_of, filled, all_ones};
ghost use Rattle.live_beside.specs.Update.{returned, words_by};
ghost use Rattle.call_account.specs.Account.{fresh_of, answer_by, levels_by, left_record, Leaves};

use call_answers::Answer;
use chip_store::Budget;
use geometry::Geometry;
use open_record::Opened;
use tree_root::Own;

// What an update's stores leave: what its own stores did, and the record before those.
#[derive(Clone, Copy)]
pub struct Made {
    pub own: Own,
    pub opened: Opened,
}

// What a call with the record hands back: the answer, and the record of the image that is left.
#[derive(Clone, Copy)]
pub struct Renewed {
    pub answer: Answer,
    pub opened: Opened,
}

pub fn fresh(allowance: u32) -> Budget
    ensures { (result ≡ fresh_of allowance) × (Countable result) × (result.stopped ≡ false) }
{
    Budget {
        left: allowance,
        programmed: 0,
        erased: 0,
        stopped: false,
    }
}

// DONE where all stores were made, else STOPPED.
pub fn answer_of(b: Budget) -> Answer
    ensures { result ≡ answer_by b }
{
    if b.stopped {
        return Answer::Stopped(b.programmed, b.erased);
    }
    Answer::Done(0, b.programmed, b.erased)
}

// The pages that must not be live for an update of k pages.
pub fn needed(g: Geometry, k: u32) -> u32
    requires { k < 65536 }
    ensures { result ≡ 2 * g.pages - 1 + k }
{
    if g.pages == 0 {
        return k;
    }
    2 * u32::from(g.pages) - 1 + k
}

// ROOM, not for one page, by the erased pages alone where they are enough, else by the lent words of live pages.
pub fn is_roomless(g: Geometry, lent: &[u32], n: u16, erased: u32, k: u32) -> bool
    requires { k < 65536 }
    ensures { result ≡ (ltb 1 k & roomless g erased k & roomless g (g.pages * n - all_ones g n lent.now)
        k) }
{
    if k <= 1 {
        return false;
    }
    let need = needed(g, k);
    if need <= erased {
        return false;
    }
    let pages = chip_read::first_page(g, n);
    let lives = live_fill::all_ones(g, lent, n);
    pages - lives < need
}

// The lent words of an image of n blocks, by a table that tells of it.
pub fn fill_words(g: Geometry, table: &[u8], lent: &mut [u32], n: u16)
    ensures { lent.new ≡ filled (live_in table.now) (words_of g n) lent.old }
{
    live_fill::fill(&mut *lent, table, live_fill::words_of(g, n));
}

// The lent words of an image, by its record.
pub fn tell(g: Geometry, img: &[u8], lent: &mut [u32], n: u16, o: Opened)
    requires { o.height < 256 }
    ensures { lent.new ≡ words_by g n o img.now lent.old }
{
    let level = chip_survey::level_by(g, o.height);
    live_tell::tell_words(g, img, &mut *lent, n, level, o.root);
}

// A lent table with the levels noted from a record's root on, and no others.
pub fn note_levels(g: Geometry, img: &[u8], table: &mut [u8], o: Opened)
    requires { (length table.old ≡ 65536) × (o.height < 256) }
    ensures { table.new ≡ levels_by g img.now o }
{
    live_walk::clear(&mut *table);
    let level = chip_survey::level_by(g, o.height);
    live_walk::note_from(g, img, &mut *table, level, o.root);
}

// A call that is refused: the record stays, and the lent words are those of the image.
pub fn refuse(g: Geometry, img: &[u8], lent: &mut [u32], n: u16, o: Opened, a: Answer) -> Renewed
    requires { o.height < 256 }
    ensures { returned (told result.answer img.now) result.opened lent.new
        ≡ returned (told a img.now) o (words_by g n o img.now lent.old) }
{
    tell(g, img, &mut *lent, n, o);
    Renewed {
        answer: a,
        opened: o,
    }
}

// The record of the image that an update of m own pages leaves: it goes on from o where all stores were made, else it
// is taken anew.
fn left_record(g: Geometry, img: &[u8], n: u16, own: Own, o: Opened, m: u32) -> Opened
    requires { (m ≤ 256) × (own.page < 4294967295) × (own.level < 255) }
    ensures { (result ≡ left_record g n own o m img.now) × (result.height < 256) }
{
    let b = own.budget;
    if b.stopped {
        return open_renew::record_anew(g, img, n);
    }
    open_renew::record_made(g, img, n, o, m, own.page, own.level)
}

// An update's last steps: the record, the lent words, and the answer.
pub fn finish(
    g: Geometry,
    img: &[u8],
    lent: &mut [u32],
    n: u16,
    own: Own,
    o: Opened,
    m: u32,
) -> Renewed
    requires { (m ≤ 256) × (own.page < 4294967295) × (own.level < 255) }
    ensures { Leaves g n own o m img.now result lent.old lent.new }
{
    let t = left_record(g, img, n, own, o, m);
    tell(g, img, &mut *lent, n, t);
    let b = own.budget;
    let a = answer_of(b);
    Renewed {
        answer: a,
        opened: t,
    }
}
