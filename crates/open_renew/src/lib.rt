// The record of request 8: taken from a survey, carried on by an update, and when it is STALE.
#![tactic(auto, using(crate::specs::Recorded::recording_laws))]

ghost use Rattle.std.specs.Prelude.{◌≡◌, ◌+◌, ◌-◌, ◌%◌, ◌≤◌, ◌<◌};
ghost use Rattle.geometry.specs.Bounds.{four_bytes};
ghost use Rattle.model.specs.Image.{seq_of};
ghost use Rattle.chip_survey.specs.Survey.{survey_of};
ghost use Rattle.open_record.specs.Opened.{opened_in, standing};
ghost use Rattle.open_renew.specs.Recording.{record_swept, onward_swept, record_at};

use chip_survey::Survey;
use geometry::Geometry;
use open_record::Opened;

// The sequence number of a programmed page, 0 of an erased one.
fn seq_of(g: Geometry, img: &[u8], page: u32) -> u32
    ensures { result ≡ seq_of g img.now page }
{
    if chip_read::page_erased(g, img, page) {
        return 0;
    }
    chip_read::seq_at(g, img, page)
}

// The record of an image of n blocks, from its survey.
pub fn record_of(g: Geometry, img: &[u8], n: u16, s: Survey) -> Opened
    requires { s ≡ survey_of g n img.now }
    ensures { result ≡ opened_in g n img.now }
{
    let number = seq_of(g, img, s.root);
    let next = chip_next::next_by(g, n, chip_next::next_page(g, img, n, s.last));
    Opened {
        root: s.root,
        number,
        most: s.most,
        height: s.height,
        next,
        erased: s.erased,
    }
}

// The record of an image, worked out afresh.
pub fn record_anew(g: Geometry, img: &[u8], n: u16) -> Opened
    ensures { (result ≡ opened_in g n img.now) × (result.height < 256) }
{
    let s = chip_survey::take_survey(g, img, n);
    record_of(g, img, n, s)
}

fn short(x: u64) -> u32
    ensures { result ≡ x % four_bytes }
{
    (x % 4294967296) as u32
}

// The difference, 0 where there is none.
fn less(x: u32, y: u64) -> u32
    ensures { (result ≡ x - y) × (result ≤ x) }
{
    u64::from(x).saturating_sub(y) as u32
}

// The erased pages once pages were moved out of a block, as many as the largest number has grown, and the block was
// erased.
fn erased_after(g: Geometry, o: Opened, most: u64) -> u32
    requires { o.erased < 4294901760 }
    ensures { result ≡ o.erased - (most - o.most) + g.pages }
{
    let grown = most.saturating_sub(u64::from(o.most));
    less(o.erased, grown) + u32::from(g.pages)
}

// The record after an erase, where the root has the largest number.
fn record_on(g: Geometry, img: &[u8], n: u16, o: Opened, root: u32, most: u64, next: u32) -> Opened
    requires { o.erased < 4294901760 }
    ensures { result ≡ onward_swept g n o root most next img.now }
{
    let left = erased_after(g, o, most);
    let after = chip_next::next_by(g, n, chip_next::next_erased(g, img, n, root, next));
    let newest = short(most);
    Opened {
        root,
        number: newest,
        most: newest,
        height: o.height,
        next: after,
        erased: left,
    }
}

// The record after an erase; o the record before the sweep, and root, largest number and next page as the sweep left
// them.
pub fn record_erased(
    g: Geometry,
    img: &[u8],
    n: u16,
    o: Opened,
    root: u32,
    most: u64,
    next: u32,
) -> Opened
    requires { (o.erased < 4294901760) × (o.height < 256) }
    ensures { (result ≡ record_swept g n o root most next img.now) × (result.height < 256) }
{
    if most != u64::from(o.most) {
        return record_on(g, img, n, o, root, most, next);
    }
    if o.number == o.most {
        return record_on(g, img, n, o, root, most, next);
    }
    record_anew(g, img, n)
}

// The record after m own pages, the last of them the root's, with so many levels below it.
pub fn record_made(
    g: Geometry,
    img: &[u8],
    n: u16,
    o: Opened,
    m: u32,
    page: u32,
    level: u32,
) -> Opened
    requires { (m ≤ 256) × (page < 4294967295) × (level < 255) }
    ensures { result ≡ record_at g n o m page level img.now }
{
    let number = o.most.wrapping_add(m);
    let coming = chip_next::next_by(g, n, chip_next::next_after(g, img, n, page));
    let left = o.erased.saturating_sub(m);
    Opened {
        root: page,
        number,
        most: number,
        height: level + 1,
        next: coming,
        erased: left,
    }
}

// Whether a record is not STALE: its root's page is programmed with its number and height.
pub fn standing(g: Geometry, img: &[u8], n: u16, o: Opened) -> bool
    ensures { result ≡ standing g n img.now o }
{
    if chip_read::first_page(g, n) <= o.root {
        return false;
    }
    if chip_read::page_erased(g, img, o.root) {
        return false;
    }
    if chip_read::seq_at(g, img, o.root) != o.number {
        return false;
    }
    chip_read::height_at(g, img, o.root) == o.height
}
