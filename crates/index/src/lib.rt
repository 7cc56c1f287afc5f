// The index as Rattle calls, on the small-block chip (0) or the large-page chip (1). No call asks anything of its
// caller, and each contract is one equation: the answer, its numbers and the image afterwards are those of the
// definition, for every image.
#![tactic(auto)]

ghost use Rattle.std.specs.Prelude.{◌≡◌};
ghost use Rattle.model.specs.Calls.{format_of, lookup_of, patrol_of};
ghost use Rattle.model.specs.Listing.{list_of, as_outcome};
ghost use Rattle.call_answers.specs.Answers.{told, told_by};
ghost use Rattle.text_carrying.specs.Carrying.{export_of, import_of};
ghost use Rattle.live_words.specs.Live.{reply, insert_live_of, delete_live_of};
ghost use Rattle.open_record.specs.Opened.{opening_of, opened_of, lookup_with_of, list_with_of};
ghost use Rattle.live_beside.specs.Update.{returned};
ghost use Rattle.live_beside.specs.Calls.{insert_with_of, delete_with_of};

use call_account::Renewed;
use call_answers::{Answer, Row};
use open_calls::Opening;
use open_record::Opened;

pub fn format(kind: u32, img: &mut [u8]) -> Answer
    ensures { told result img.new ≡ format_of kind img.old }
{
    let Some(g) = geometry::choose(kind) else {
        return Answer::Length;
    };
    call_format::format(g, &mut *img)
}

pub fn lookup(kind: u32, img: &[u8], key: u32) -> Answer
    ensures { told result img.now ≡ lookup_of kind img.now key }
{
    let Some(g) = geometry::choose(kind) else {
        return Answer::Length;
    };
    call_lookup::lookup_on(g, img, key)
}

// The pairs between two keys, both taken in, into a lent buffer: DONE has how many exist and how many were written.
pub fn list(kind: u32, img: &[u8], low: u32, high: u32, pairs: &mut [u32]) -> Answer
    ensures { told result pairs.new ≡ as_outcome (list_of kind img.now low high
        pairs.old) }
{
    let Some(g) = geometry::choose(kind) else {
        return Answer::Length;
    };
    call_list::list_on(g, img, low, high, &mut *pairs)
}

pub fn insert(
    kind: u32,
    img: &mut [u8],
    lent: &mut [u32],
    key: u32,
    address: u32,
    allowance: u32,
) -> Answer
    ensures { reply (told result img.new) lent.new ≡ insert_live_of kind img.old
        lent.old key address allowance }
{
    let Some(g) = geometry::choose(kind) else {
        return Answer::Length;
    };
    call_insert::insert_on(g, &mut *img, &mut *lent, key, address, allowance)
}

pub fn delete(kind: u32, img: &mut [u8], lent: &mut [u32], key: u32, allowance: u32) -> Answer
    ensures { reply (told result img.new) lent.new ≡ delete_live_of kind img.old
        lent.old key allowance }
{
    let Some(g) = geometry::choose(kind) else {
        return Answer::Length;
    };
    call_delete::delete_on(g, &mut *img, &mut *lent, key, allowance)
}

// Request 8, "Open once, call often": judges the image and hands back its record; a refused opening gives zeros.
pub fn open(kind: u32, img: &[u8]) -> Opening
    ensures { (told result.answer img.now ≡ opening_of kind img.now) ×
        (result.opened ≡ opened_of kind img.now) }
{
    let Some(g) = geometry::choose(kind) else {
        return open_calls::refused(Answer::Length);
    };
    open_calls::open_on(g, img)
}

// Lookup with a record. Nothing is judged: the record is STALE where it does not name the image's root.
pub fn lookup_opened(kind: u32, img: &[u8], o: Opened, key: u32) -> Answer
    ensures { told result img.now ≡ lookup_with_of kind img.now o key }
{
    let Some(g) = geometry::choose(kind) else {
        return Answer::Length;
    };
    open_calls::lookup_opened_on(g, img, o, key)
}

// A listing with a record, up to 536,870,912 pairs.
pub fn list_opened(
    kind: u32,
    img: &[u8],
    o: Opened,
    low: u32,
    high: u32,
    pairs: &mut [u32],
) -> Answer
    ensures { told result pairs.new ≡ as_outcome (list_with_of kind img.now o low high
        pairs.old) }
{
    let Some(g) = geometry::choose(kind) else {
        return Answer::Length;
    };
    open_calls::list_opened_on(g, img, o, low, high, &mut *pairs)
}

// Insert with a record and the lent words. Hands back the record of the image that is left.
pub fn insert_opened(
    kind: u32,
    img: &mut [u8],
    lent: &mut [u32],
    o: Opened,
    key: u32,
    address: u32,
    allowance: u32,
) -> Renewed
    ensures { returned (told result.answer img.new) result.opened lent.new ≡ insert_with_of kind
        img.old lent.old o key address allowance }
{
    let Some(g) = geometry::choose(kind) else {
        return Renewed {
            answer: Answer::Length,
            opened: o,
        };
    };
    call_insert::insert_opened_on(g, &mut *img, &mut *lent, o, key, address, allowance)
}

// Delete with a record and the lent words.
pub fn delete_opened(
    kind: u32,
    img: &mut [u8],
    lent: &mut [u32],
    o: Opened,
    key: u32,
    allowance: u32,
) -> Renewed
    ensures { returned (told result.answer img.new) result.opened lent.new ≡ delete_with_of kind
        img.old lent.old o key allowance }
{
    let Some(g) = geometry::choose(kind) else {
        return Renewed {
            answer: Answer::Length,
            opened: o,
        };
    };
    call_delete::delete_opened_on(g, &mut *img, &mut *lent, o, key, allowance)
}

pub fn patrol(kind: u32, img: &mut [u8], page: u32, half: u32) -> Answer
    ensures { told result img.new ≡ patrol_of kind img.old page half }
{
    let Some(g) = geometry::choose(kind) else {
        return Answer::Length;
    };
    call_patrol::patrol_on(g, &mut *img, page, half)
}

// The map as a text of lines, into a lent text: the row has records, bytes of the whole text and bytes written, all or
// none.
pub fn export_text(kind: u32, img: &[u8], text: &mut [u8]) -> Row
    ensures { told_by result text.new ≡ export_of kind img.now text.old }
{
    let Some(g) = geometry::choose(kind) else {
        return call_answers::row_of(Answer::Length);
    };
    call_export::export_on(g, img, &mut *text)
}

// The records of a text into an image that is formatted first: the row has the records stored, or the line that is
// refused.
pub fn import_text(kind: u32, img: &mut [u8], text: &[u8]) -> Row
    ensures { told_by result img.new ≡ import_of kind img.old text.now }
{
    let Some(g) = geometry::choose(kind) else {
        return call_answers::row_of(Answer::Length);
    };
    call_import::import_on(g, &mut *img, text)
}
