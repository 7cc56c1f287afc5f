// What collection looks at: the live pages of each block in the lent words, and the victim.
#![tactic(auto, using(crate::specs::Fewest::victim_laws))]

ghost use Rattle.std.specs.Prelude.{◌+◌};
ghost use Rattle.collect_victim.specs.Victim.{Bests, full_in, ones_by};

use geometry::Geometry;

// The best block so far, if there is one, and its live pages.
#[derive(Clone, Copy)]
pub struct Best {
    pub found: bool,
    pub block: u16,
    pub lives: u32,
}

// The better of a block and the best before it. The image is looked at only where the block would win by its live
// pages.
fn better(g: Geometry, img: &[u8], words: &[u32], block: u16, best: Best) -> Best
    requires { Bests (full_in g img.now) (ones_by g words.now) block best }
    ensures { Bests (full_in g img.now) (ones_by g words.now) (block + 1) result }
{
    let lives = live_fill::block_ones(g, words, block);
    let won = Best {
        found: true,
        block,
        lives,
    };
    if !best.found {
        if chip_read::last_erased(g, img, block) {
            return best;
        }
        return won;
    }
    if best.lives <= lives {
        return best;
    }
    if chip_read::last_erased(g, img, block) {
        return best;
    }
    won
}

// The block without erased pages that has fewest live pages by the words, the lowest on a tie.
pub fn find_victim(g: Geometry, img: &[u8], words: &[u32], n: u16) -> Best
    ensures { Bests (full_in g img.now) (ones_by g words.now) n result }
{
    let mut best = Best {
        found: false,
        block: 0,
        lives: 0,
    };
    for block in 0..n {
        best = better(g, img, words, block, best);
    }
    best
}
