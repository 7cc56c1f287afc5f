// An update (insert or delete) by the record of request 8: nothing is judged but that the record stands. Words are told
// and blocks collected only where the erased pages leave something in question.
#![tactic(auto)]

ghost use Rattle.std.specs.Prelude.{◌≡◌, ◌≤◌, ◌<◌, length};
ghost use Rattle.geometry.specs.Shape.{Known};
ghost use Rattle.call_answers.specs.Answers.{told};
ghost use Rattle.call_account.specs.Account.{Sized, levels_by, held_of};
ghost use Rattle.live_beside.specs.Update.{returned};
ghost use Rattle.call_update.specs.Update.{made_for, planned_for, update_by, update_opened, held_in};
ghost use Rattle.open_update.specs.Direct.{direct_for, plenty_for};

use call_account::Renewed;
use call_answers::Answer;
use call_update::Update;
use geometry::Geometry;
use open_record::Opened;

// The own stores where the erased pages are enough for m pages: no collection, no table, and no words but at the end.
fn update_direct(
    g: Geometry,
    img: &mut [u8],
    lent: &mut [u32],
    n: u16,
    o: Opened,
    m: u32,
    u: Update,
    allowance: u32,
) -> Renewed
    requires { (Sized g n) × (1 ≤ m) × (m ≤ 256) × (o.height < 256) }
    ensures { returned (told result.answer img.new) result.opened lent.new
        ≡ direct_for u g n m o img.old lent.old allowance }
{
    let b = call_account::fresh(allowance);
    let own = call_update::own_stores(g, &mut *img, n, b, o, m, u);
    call_account::finish(g, &*img, &mut *lent, n, own, o, m)
}

// Collection for m pages and the stores, by the words that are told and a table worked out from the record's root.
fn update_noted(
    g: Geometry,
    img: &mut [u8],
    table: &mut [u8],
    lent: &mut [u32],
    n: u16,
    o: Opened,
    m: u32,
    u: Update,
    allowance: u32,
) -> Renewed
    requires { (Sized g n) × (1 ≤ m) × (m ≤ 256) × (o.height < 256) × (length table.old ≡ 65536) }
    ensures { returned (told result.answer img.new) result.opened lent.new
        ≡ made_for u g n m (held_in o (levels_by g img.old o) lent.old)
        img.old allowance }
{
    call_account::note_levels(g, &*img, &mut *table, o);
    call_update::update_made(g, &mut *img, &mut *table, &mut *lent, n, o, m, u, allowance)
}

// The same with a table of its own.
fn update_collected(
    g: Geometry,
    img: &mut [u8],
    lent: &mut [u32],
    n: u16,
    o: Opened,
    m: u32,
    u: Update,
    allowance: u32,
) -> Renewed
    requires { (Sized g n) × (1 ≤ m) × (m ≤ 256) × (o.height < 256) }
    ensures { returned (told result.answer img.new) result.opened lent.new
        ≡ made_for u g n m (held_in o (levels_by g img.old o) lent.old)
        img.old allowance }
{
    let mut table: [u8; 65536] = [0; 65536];
    update_noted(g, &mut *img, &mut table, &mut *lent, n, o, m, u, allowance)
}

// The stores where there is room: with collection only if the erased pages are too few.
fn update_roomy(
    g: Geometry,
    img: &mut [u8],
    lent: &mut [u32],
    n: u16,
    o: Opened,
    m: u32,
    u: Update,
    allowance: u32,
) -> Renewed
    requires { (Sized g n) × (1 ≤ m) × (m ≤ 256) × (o.height < 256) }
    ensures { returned (told result.answer img.new) result.opened lent.new
        ≡ made_for u g n m (held_in o (levels_by g img.old o) lent.old)
        img.old allowance }
{
    if collect_blocks::enough(g, m) <= o.erased {
        return update_direct(g, &mut *img, &mut *lent, n, o, m, u, allowance);
    }
    update_collected(g, &mut *img, &mut *lent, n, o, m, u, allowance)
}

// ROOM by the words, told for it; else the stores.
fn update_told(
    g: Geometry,
    img: &mut [u8],
    lent: &mut [u32],
    n: u16,
    o: Opened,
    m: u32,
    u: Update,
    allowance: u32,
) -> Renewed
    requires { (Sized g n) × (1 ≤ m) × (m ≤ 256) × (o.height < 256) }
    ensures { returned (told result.answer img.new) result.opened lent.new
        ≡ planned_for u g n m (held_of g n o img.old lent.old) img.old allowance }
{
    call_account::tell(g, &*img, &mut *lent, n, o);
    if call_account::is_roomless(g, &*lent, n, o.erased, m) {
        return Renewed {
            answer: Answer::Room,
            opened: o,
        };
    }
    update_roomy(g, &mut *img, &mut *lent, n, o, m, u, allowance)
}

// The erased pages with which an update of m pages is made at once: nothing is collected, and ROOM is not in question.
fn plenty(g: Geometry, m: u32) -> u32
    requires { m ≤ 256 }
    ensures { result ≡ plenty_for g m }
{
    if m <= 1 {
        return collect_blocks::enough(g, m);
    }
    call_account::needed(g, m)
}

// An update of m pages: the words are told first only where the erased pages leave something in question.
fn update_planned(
    g: Geometry,
    img: &mut [u8],
    lent: &mut [u32],
    n: u16,
    o: Opened,
    m: u32,
    u: Update,
    allowance: u32,
) -> Renewed
    requires { (Sized g n) × (1 ≤ m) × (m ≤ 256) × (o.height < 256) }
    ensures { returned (told result.answer img.new) result.opened lent.new
        ≡ planned_for u g n m (held_of g n o img.old lent.old) img.old allowance }
{
    if plenty(g, m) <= o.erased {
        return update_direct(g, &mut *img, &mut *lent, n, o, m, u, allowance);
    }
    update_told(g, &mut *img, &mut *lent, n, o, m, u, allowance)
}

// The update by a record that stands.
fn update_by(
    g: Geometry,
    img: &mut [u8],
    lent: &mut [u32],
    n: u16,
    o: Opened,
    u: Update,
    allowance: u32,
) -> Renewed
    requires { (Sized g n) × (o.height < 256) }
    ensures { returned (told result.answer img.new) result.opened lent.new
        ≡ update_by u g n (held_of g n o img.old lent.old) img.old allowance }
{
    if g.worn < o.most {
        return call_account::refuse(g, &*img, &mut *lent, n, o, Answer::Worn);
    }
    let a = call_update::asks_of(g, &*img, o, u);
    if a.refused {
        let answer = a.answer;
        return call_account::refuse(g, &*img, &mut *lent, n, o, answer);
    }
    update_planned(g, &mut *img, &mut *lent, n, o, a.pages, u, allowance)
}

// The update with the record on a chip of a known geometry.
pub fn update_opened_on(
    g: Geometry,
    img: &mut [u8],
    lent: &mut [u32],
    o: Opened,
    u: Update,
    allowance: u32,
) -> Renewed
    requires { Known g }
    ensures { returned (told result.answer img.new) result.opened lent.new
        ≡ update_opened u g img.old lent.old o allowance }
{
    let n = chip_read::good_blocks(g, &*img);
    if n == 0 {
        return Renewed {
            answer: Answer::Length,
            opened: o,
        };
    }
    let enough = live_fill::words_of(g, n);
    if lent.len() < enough {
        return Renewed {
            answer: Answer::Length,
            opened: o,
        };
    }
    if !open_renew::standing(g, &*img, n, o) {
        return Renewed {
            answer: Answer::Stale,
            opened: o,
        };
    }
    update_by(g, &mut *img, &mut *lent, n, o, u, allowance)
}
