// One order of a log on the image of a small chip, through the index's calls.
#![tactic(auto, using(crate::specs::SmallCalls::playing_laws))]

ghost use Rattle.std.specs.Prelude.{◌≡◌};
ghost use Rattle.geometry.specs.Geometry.{small};
ghost use Rattle.model.specs.Calls.{insert_of, delete_of};
ghost use Rattle.call_answers.specs.Answers.{told};
ghost use Rattle.log_lines.specs.Replay.{obeyed};

use call_answers::Answer;
use log_lines::Order;

const SMALL: u32 = 0;

// "I and D have the largest allowance"
pub const LARGEST_ALLOWANCE: u32 = 4294967295;

// Insert, with words of live pages of its own.
fn put(img: &mut [u8], key: u32, address: u32, allowance: u32) -> Answer
    ensures { told result img.new ≡ insert_of 0 img.old key address allowance }
{
    let mut lent: [u32; 2048] = [0; 2048];
    index::insert(SMALL, &mut *img, &mut lent, key, address, allowance)
}

// Delete, with words of live pages of its own.
fn remove(img: &mut [u8], key: u32, allowance: u32) -> Answer
    ensures { told result img.new ≡ delete_of 0 img.old key allowance }
{
    let mut lent: [u32; 2048] = [0; 2048];
    index::delete(SMALL, &mut *img, &mut lent, key, allowance)
}

pub fn obey(img: &mut [u8], order: Order) -> Answer
    ensures { told result img.new ≡ obeyed small order img.old }
{
    match order {
        Order::Format => index::format(SMALL, &mut *img),
        Order::Insert(key, address) => put(&mut *img, key, address, LARGEST_ALLOWANCE),
        Order::Delete(key) => remove(&mut *img, key, LARGEST_ALLOWANCE),
        Order::Lookup(key) => index::lookup(SMALL, &*img, key),
        Order::Limited(key, address, allowance) => put(&mut *img, key, address, allowance),
    }
}
