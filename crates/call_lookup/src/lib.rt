// Lookup on an image: judged first, then sought.
#![tactic(auto, using(crate::specs::Lookup::lookup_laws))]

ghost use Rattle.std.specs.Prelude.{◌≡◌, ◌≤◌};
ghost use Rattle.model.specs.Image.{chip_of};
ghost use Rattle.model.specs.Tree.{sought};
ghost use Rattle.model.specs.Rules.{verdict};
ghost use Rattle.model.specs.Calls.{damaged, by_verdict, answered, lookup};
ghost use Rattle.call_answers.specs.Answers.{told};
ghost use Rattle.sound_verdict.specs.Verdict.{Roomy};
ghost use Rattle.call_lookup.specs.Lookup.{answer_of, Weighed};

use call_answers::Answer;
use geometry::{Broken, Geometry};
use sound_verdict::Judgement;

// The answer to what stands under a key.
pub fn answer(found: Option<u32>) -> Answer
    ensures { result ≡ answer_of found }
{
    match found {
        Some(address) => Answer::Done(address, 0, 0),
        None => Answer::Absent,
    }
}

// The judgement of n blocks, with a table of N places.
fn judge_sized<const N: usize>(g: Geometry, img: &[u8], n: u16) -> Judgement
    requires { (n ≤ 1024) × (N ≤ 65536) × (Roomy g n N) }
    ensures { Weighed g n img.now result }
{
    let mut table: [u8; N] = [0; N];
    sound_verdict::judge_in(g, img, &mut table, n)
}

// The judgement of n blocks: 64 blocks of 64 pages have room in 4,096 places, 1,024 blocks in 65,536.
fn judge_blocks(g: Geometry, img: &[u8], n: u16) -> Judgement
    requires { (g.pages ≤ 64) × (n ≤ 1024) }
    ensures { Weighed g n img.now result }
{
    if n <= 64 {
        return judge_sized::<4096>(g, img, n);
    }
    judge_sized::<65536>(g, img, n)
}

// Lookup on n blocks.
fn lookup_blocks(g: Geometry, img: &[u8], n: u16, key: u32) -> Answer
    requires { (g.pages ≤ 64) × (n ≤ 1024) }
    ensures { told result img.now ≡ by_verdict (verdict g n img.now) (damaged img.now)
        (answered (sought (chip_of g n img.now) key) img.now) }
{
    let judgement = judge_blocks(g, img, n);
    let verdict = judgement.verdict;
    let survey = judgement.survey;
    match verdict {
        Err(Broken { rule, page }) => Answer::Damaged(rule, page),
        Ok(()) => answer(tree_descent::find_key(g, img, survey.level, survey.root, key)),
    }
}

// Lookup on a chip with blocks of at most 64 pages.
pub fn lookup_on(g: Geometry, img: &[u8], key: u32) -> Answer
    requires { g.pages ≤ 64 }
    ensures { told result img.now ≡ lookup g img.now key }
{
    let n = chip_read::good_blocks(g, img);
    if n == 0 {
        return Answer::Length;
    }
    lookup_blocks(g, img, n, key)
}
