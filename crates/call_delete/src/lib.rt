// Delete on an image, with lent words of live pages: the update that removes a key. Judged first, or by the record of
// request 8.
#![tactic(auto)]

ghost use Rattle.std.specs.Prelude.{◌≡◌};
ghost use Rattle.geometry.specs.Shape.{Known};
ghost use Rattle.call_answers.specs.Answers.{told};
ghost use Rattle.live_words.specs.Live.{reply, delete_live};
ghost use Rattle.live_beside.specs.Update.{returned};
ghost use Rattle.live_beside.specs.Calls.{delete_with};

use call_account::Renewed;
use call_answers::Answer;
use call_update::Update;
use geometry::Geometry;
use open_record::Opened;

// Delete on a chip of a known geometry.
pub fn delete_on(g: Geometry, img: &mut [u8], lent: &mut [u32], key: u32, allowance: u32) -> Answer
    requires { Known g }
    ensures { reply (told result img.new) lent.new ≡ delete_live g img.old lent.old key
        allowance }
{
    call_update::update_on(g, &mut *img, &mut *lent, Update::Delete(key), allowance)
}

// Delete with the record of request 8: nothing is judged but that the record stands.
pub fn delete_opened_on(
    g: Geometry,
    img: &mut [u8],
    lent: &mut [u32],
    o: Opened,
    key: u32,
    allowance: u32,
) -> Renewed
    requires { Known g }
    ensures { returned (told result.answer img.new) result.opened lent.new
        ≡ delete_with g img.old lent.old o key allowance }
{
    open_update::update_opened_on(g, &mut *img, &mut *lent, o, Update::Delete(key), allowance)
}
