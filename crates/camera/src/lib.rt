// The calls as a camera service in C makes them: the geometry's number, numbers, the lent image, and a lent result
// buffer. Crate camera_c exports them.
#![tactic(auto)]

ghost use Rattle.std.specs.Prelude.{◌≡◌};
ghost use Rattle.model.specs.Calls.{format_of, lookup_of, patrol_of};
ghost use Rattle.model.specs.Listing.{list_of, as_outcome};
ghost use Rattle.call_answers.specs.Answers.{row_of, told};
ghost use Rattle.live_words.specs.Live.{insert_live_of, delete_live_of};
ghost use Rattle.text_carrying.specs.Carrying.{export_of, import_of};
ghost use Rattle.camera.specs.Camera.{put_numbers, report_row, report_of, returned, words_left, record_in, put_record, open_bytes, open_record, lookup_bytes, list_bytes, reopened, insert_bytes, delete_bytes, kept};

use call_answers::{Answer, Row};
use open_record::Opened;

// Six numbers of 32 bits, least byte first, from the buffer's start on.
#[tactic(auto, using(crate::specs::Results::camera_laws))]
fn put_numbers(buf: &mut [u8], numbers: [u32; 6])
    ensures { buf.new ≡ put_numbers buf.old 0 numbers }
{
    for (i, v) in numbers.iter().enumerate() {
        chip_page::put_u32(&mut *buf, 4 * i, u64::from(*v));
    }
}

// A row in the result buffer. Gives the answer number.
fn report_row(res: &mut [u8], w: Row) -> u32
    ensures number { result ≡ w.answer }
    ensures bytes { res.new ≡ report_row w res.old }
{
    put_numbers(
        &mut *res,
        [w.answer, w.address, w.programmed, w.erased, w.rule, w.page],
    );
    w.answer
}

// An answer's row in the result buffer. Gives the answer number.
pub fn report(res: &mut [u8], a: Answer) -> u32
    ensures number { result ≡ (row_of a).answer }
    ensures bytes { res.new ≡ report_of a res.old }
{
    report_row(&mut *res, call_answers::row_of(a))
}

pub fn mutree_format(kind: u32, image: &mut [u8], res: &mut [u8]) -> u32
    ensures answer { result ≡ (returned (format_of kind image.old) image.old
        res.old).answer }
    ensures image { image.new ≡ (returned (format_of kind image.old) image.old
        res.old).image }
    ensures res { res.new ≡ (returned (format_of kind image.old) image.old
        res.old).result }
{
    if res.len() < 24 {
        return 1;
    }
    let a = index::format(kind, &mut *image);
    report(&mut *res, a)
}

pub fn mutree_lookup(kind: u32, image: &[u8], key: u32, res: &mut [u8]) -> u32
    ensures answer { result ≡ (returned (lookup_of kind image.now key) image.now
        res.old).answer }
    ensures res { res.new ≡ (returned (lookup_of kind image.now key) image.now
        res.old).result }
{
    if res.len() < 24 {
        return 1;
    }
    let a = index::lookup(kind, image, key);
    report(&mut *res, a)
}

pub fn mutree_list(
    kind: u32,
    image: &[u8],
    low: u32,
    high: u32,
    pairs: &mut [u32],
    res: &mut [u8],
) -> u32
    ensures answer { result ≡ (returned (as_outcome (list_of kind image.now low high pairs.old))
        pairs.old res.old).answer }
    ensures pairs { pairs.new ≡ (returned (as_outcome (list_of kind image.now low high
        pairs.old)) pairs.old res.old).image }
    ensures res { res.new ≡ (returned (as_outcome (list_of kind image.now low high
        pairs.old)) pairs.old res.old).result }
{
    if res.len() < 24 {
        return 1;
    }
    let a = index::list(kind, image, low, high, &mut *pairs);
    report(&mut *res, a)
}

pub fn mutree_insert(
    kind: u32,
    image: &mut [u8],
    live: &mut [u32],
    key: u32,
    address: u32,
    allowance: u32,
    res: &mut [u8],
) -> u32
    ensures answer { result ≡ (returned (insert_live_of kind image.old live.old key address
        allowance).outcome image.old res.old).answer }
    ensures image { image.new ≡ (returned (insert_live_of kind image.old live.old key
        address allowance).outcome image.old res.old).image }
    ensures live { live.new ≡ words_left (insert_live_of kind image.old live.old key
        address allowance) live.old res.old }
    ensures res { res.new ≡ (returned (insert_live_of kind image.old
        live.old key address allowance).outcome image.old res.old).result }
{
    if res.len() < 24 {
        return 1;
    }
    let a = index::insert(kind, &mut *image, &mut *live, key, address, allowance);
    report(&mut *res, a)
}

pub fn mutree_delete(
    kind: u32,
    image: &mut [u8],
    live: &mut [u32],
    key: u32,
    allowance: u32,
    res: &mut [u8],
) -> u32
    ensures answer { result ≡ (returned (delete_live_of kind image.old live.old key
        allowance).outcome image.old res.old).answer }
    ensures image { image.new ≡ (returned (delete_live_of kind image.old live.old key
        allowance).outcome image.old res.old).image }
    ensures live { live.new ≡ words_left (delete_live_of kind image.old live.old key
        allowance) live.old res.old }
    ensures res { res.new ≡ (returned (delete_live_of kind image.old
        live.old key allowance).outcome image.old res.old).result }
{
    if res.len() < 24 {
        return 1;
    }
    let a = index::delete(kind, &mut *image, &mut *live, key, allowance);
    report(&mut *res, a)
}

pub fn mutree_patrol(kind: u32, image: &mut [u8], page: u32, half: u32, res: &mut [u8]) -> u32
    ensures answer { result ≡ (returned (patrol_of kind image.old page half) image.old
        res.old).answer }
    ensures image { image.new ≡ (returned (patrol_of kind image.old page half)
        image.old res.old).image }
    ensures res { res.new ≡ (returned (patrol_of kind image.old page half)
        image.old res.old).result }
{
    if res.len() < 24 {
        return 1;
    }
    let a = index::patrol(kind, &mut *image, page, half);
    report(&mut *res, a)
}

pub fn mutree_export(kind: u32, image: &[u8], text: &mut [u8], res: &mut [u8]) -> u32
    ensures answer { result ≡ (returned (export_of kind image.now text.old) text.old
        res.old).answer }
    ensures text { text.new ≡ (returned (export_of kind image.now text.old)
        text.old res.old).image }
    ensures res { res.new ≡ (returned (export_of kind image.now text.old)
        text.old res.old).result }
{
    if res.len() < 24 {
        return 1;
    }
    let w = index::export_text(kind, image, &mut *text);
    report_row(&mut *res, w)
}

pub fn mutree_import(kind: u32, image: &mut [u8], text: &[u8], res: &mut [u8]) -> u32
    ensures answer { result ≡ (returned (import_of kind image.old text.now) image.old
        res.old).answer }
    ensures image { image.new ≡ (returned (import_of kind image.old text.now)
        image.old res.old).image }
    ensures res { res.new ≡ (returned (import_of kind image.old text.now)
        image.old res.old).result }
{
    if res.len() < 24 {
        return 1;
    }
    let w = index::import_text(kind, &mut *image, text);
    report_row(&mut *res, w)
}

// ---- request 8
// The record in a buffer of 24 bytes.
fn record_in(bytes: &[u8]) -> Opened
    ensures { result ≡ record_in bytes.now }
{
    let root = chip_read::read_u32(bytes, 0);
    let number = chip_read::read_u32(bytes, 4);
    let most = chip_read::read_u32(bytes, 8);
    let height = chip_read::read_u32(bytes, 12);
    let next = chip_read::read_u32(bytes, 16);
    let erased = chip_read::read_u32(bytes, 20);
    Opened {
        root: root,
        number: number,
        most: most,
        height: height,
        next: next,
        erased: erased,
    }
}

fn put_record(bytes: &mut [u8], o: Opened)
    ensures { bytes.new ≡ put_record o bytes.old }
{
    put_numbers(
        &mut *bytes,
        [o.root, o.number, o.most, o.height, o.next, o.erased],
    );
}

// Opening, the record into its bytes. Fewer than 24 of them give LENGTH and stay.
fn open_bytes(kind: u32, image: &[u8], bytes: &mut [u8]) -> Answer
    ensures outcome { told result image.now ≡ open_bytes kind image.now bytes.old }
    ensures bytes { bytes.new ≡ open_record kind image.now bytes.old }
{
    if bytes.len() < 24 {
        return Answer::Length;
    }
    let r = index::open(kind, image);
    let o = r.opened;
    put_record(&mut *bytes, o);
    r.answer
}

fn lookup_bytes(kind: u32, image: &[u8], bytes: &[u8], key: u32) -> Answer
    ensures { told result image.now ≡ lookup_bytes kind image.now bytes.now key }
{
    if bytes.len() < 24 {
        return Answer::Length;
    }
    let o = record_in(bytes);
    index::lookup_opened(kind, image, o, key)
}

fn list_bytes(
    kind: u32,
    image: &[u8],
    bytes: &[u8],
    low: u32,
    high: u32,
    pairs: &mut [u32],
) -> Answer
    ensures { told result pairs.new ≡ list_bytes kind image.now bytes.now low high
        pairs.old }
{
    if bytes.len() < 24 {
        return Answer::Length;
    }
    let o = record_in(bytes);
    index::list_opened(kind, image, o, low, high, &mut *pairs)
}

fn insert_bytes(
    kind: u32,
    image: &mut [u8],
    bytes: &mut [u8],
    live: &mut [u32],
    key: u32,
    address: u32,
    allowance: u32,
) -> Answer
    ensures { reopened (told result image.new) bytes.new live.new ≡ insert_bytes kind
        image.old live.old bytes.old key address allowance }
{
    if bytes.len() < 24 {
        return Answer::Length;
    }
    let o = record_in(&*bytes);
    let r = index::insert_opened(kind, &mut *image, &mut *live, o, key, address, allowance);
    let left = r.opened;
    put_record(&mut *bytes, left);
    r.answer
}

fn delete_bytes(
    kind: u32,
    image: &mut [u8],
    bytes: &mut [u8],
    live: &mut [u32],
    key: u32,
    allowance: u32,
) -> Answer
    ensures { reopened (told result image.new) bytes.new live.new ≡ delete_bytes kind
        image.old live.old bytes.old key allowance }
{
    if bytes.len() < 24 {
        return Answer::Length;
    }
    let o = record_in(&*bytes);
    let r = index::delete_opened(kind, &mut *image, &mut *live, o, key, allowance);
    let left = r.opened;
    put_record(&mut *bytes, left);
    r.answer
}

pub fn mutree_open(kind: u32, image: &[u8], bytes: &mut [u8], res: &mut [u8]) -> u32
    ensures answer { result ≡ (returned (open_bytes kind image.now bytes.old) image.now
        res.old).answer }
    ensures bytes { bytes.new ≡ kept res.old bytes.old
        (open_record kind image.now bytes.old) }
    ensures res { res.new ≡ (returned (open_bytes kind image.now bytes.old)
        image.now res.old).result }
{
    if res.len() < 24 {
        return 1;
    }
    let a = open_bytes(kind, image, &mut *bytes);
    report(&mut *res, a)
}

pub fn mutree_lookup_opened(kind: u32, image: &[u8], bytes: &[u8], key: u32, res: &mut [u8]) -> u32
    ensures answer { result ≡ (returned (lookup_bytes kind image.now bytes.now key)
        image.now res.old).answer }
    ensures res { res.new ≡ (returned (lookup_bytes kind image.now
        bytes.now key) image.now res.old).result }
{
    if res.len() < 24 {
        return 1;
    }
    let a = lookup_bytes(kind, image, bytes, key);
    report(&mut *res, a)
}

pub fn mutree_list_opened(
    kind: u32,
    image: &[u8],
    bytes: &[u8],
    low: u32,
    high: u32,
    pairs: &mut [u32],
    res: &mut [u8],
) -> u32
    ensures answer { result ≡ (returned (list_bytes kind image.now bytes.now low high
        pairs.old) pairs.old res.old).answer }
    ensures pairs { pairs.new ≡ (returned (list_bytes kind image.now bytes.now low
        high pairs.old) pairs.old res.old).image }
    ensures res { res.new ≡ (returned (list_bytes kind image.now bytes.now low
        high pairs.old) pairs.old res.old).result }
{
    if res.len() < 24 {
        return 1;
    }
    let a = list_bytes(kind, image, bytes, low, high, &mut *pairs);
    report(&mut *res, a)
}

pub fn mutree_insert_opened(
    kind: u32,
    image: &mut [u8],
    bytes: &mut [u8],
    live: &mut [u32],
    key: u32,
    address: u32,
    allowance: u32,
    res: &mut [u8],
) -> u32
    ensures answer { result ≡ (returned (insert_bytes kind image.old live.old
        bytes.old key address allowance).outcome image.old res.old).answer }
    ensures image { image.new ≡ (returned (insert_bytes kind image.old live.old
        bytes.old key address allowance).outcome image.old res.old).image }
    ensures bytes { bytes.new ≡ kept res.old bytes.old
        (insert_bytes kind image.old live.old bytes.old key address allowance).bytes }
    ensures live { live.new ≡ kept res.old live.old
        (insert_bytes kind image.old live.old bytes.old key address allowance).words }
    ensures res { res.new ≡ (returned (insert_bytes kind image.old live.old
        bytes.old key address allowance).outcome image.old res.old).result }
{
    if res.len() < 24 {
        return 1;
    }
    let a = insert_bytes(
        kind,
        &mut *image,
        &mut *bytes,
        &mut *live,
        key,
        address,
        allowance,
    );
    report(&mut *res, a)
}

pub fn mutree_delete_opened(
    kind: u32,
    image: &mut [u8],
    bytes: &mut [u8],
    live: &mut [u32],
    key: u32,
    allowance: u32,
    res: &mut [u8],
) -> u32
    ensures answer { result ≡ (returned (delete_bytes kind image.old live.old
        bytes.old key allowance).outcome image.old res.old).answer }
    ensures image { image.new ≡ (returned (delete_bytes kind image.old live.old
        bytes.old key allowance).outcome image.old res.old).image }
    ensures bytes { bytes.new ≡ kept res.old bytes.old
        (delete_bytes kind image.old live.old bytes.old key allowance).bytes }
    ensures live { live.new ≡ kept res.old live.old
        (delete_bytes kind image.old live.old bytes.old key allowance).words }
    ensures res { res.new ≡ (returned (delete_bytes kind image.old live.old
        bytes.old key allowance).outcome image.old res.old).result }
{
    if res.len() < 24 {
        return 1;
    }
    let a = delete_bytes(kind, &mut *image, &mut *bytes, &mut *live, key, allowance);
    report(&mut *res, a)
}
