// Insert on an image, with lent words of live pages: the update that puts an address under a key. Judged first, or by
// the record of request 8.
#![tactic(auto)]

ghost use Rattle.std.specs.Prelude.{◌≡◌};
ghost use Rattle.geometry.specs.Shape.{Known};
ghost use Rattle.call_answers.specs.Answers.{told};
ghost use Rattle.live_words.specs.Live.{reply, insert_live};
ghost use Rattle.live_beside.specs.Update.{returned};
ghost use Rattle.live_beside.specs.Calls.{insert_with};

use call_account::Renewed;
use call_answers::Answer;
use call_update::Update;
use geometry::Geometry;
use open_record::Opened;

// Insert on a chip of a known geometry.
pub fn insert_on(
    g: Geometry,
    img: &mut [u8],
    lent: &mut [u32],
    key: u32,
    addr: u32,
    allowance: u32,
) -> Answer
    requires { Known g }
    ensures { reply (told result img.new) lent.new ≡ insert_live g img.old lent.old key
        addr allowance }
{
    call_update::update_on(
        g,
        &mut *img,
        &mut *lent,
        Update::Insert(key, addr),
        allowance,
    )
}

// Insert with the record on a chip of a known geometry.
pub fn insert_opened_on(
    g: Geometry,
    img: &mut [u8],
    lent: &mut [u32],
    o: Opened,
    key: u32,
    addr: u32,
    allowance: u32,
) -> Renewed
    requires { Known g }
    ensures { returned (told result.answer img.new) result.opened lent.new
        ≡ insert_with g img.old lent.old o key addr allowance }
{
    open_update::update_opened_on(
        g,
        &mut *img,
        &mut *lent,
        o,
        Update::Insert(key, addr),
        allowance,
    )
}
