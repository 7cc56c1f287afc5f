// Format: every block erased, page 0 programmed as an empty root.
#![tactic(auto, using(crate::specs::Formats::format_laws))]

ghost use Rattle.std.specs.Prelude.{◌≡◌, [], ◌≤◌, take};
ghost use Rattle.geometry.specs.Geometry.{page_bytes};
ghost use Rattle.geometry.specs.Bounds.{longest_page};
ghost use Rattle.model.specs.Page.{built};
ghost use Rattle.model.specs.Stores.{apply_all};
ghost use Rattle.model.specs.Update.{erasures};
ghost use Rattle.model.specs.Calls.{format};
ghost use Rattle.call_answers.specs.Answers.{told};

use call_answers::Answer;
use geometry::Geometry;

// Erases blocks 0 to n - 1, in this order.
fn erase_all(g: Geometry, img: &mut [u8], n: u16)
    ensures { img.new ≡ apply_all g (erasures n) img.old }
{
    for b in 0..n {
        chip_store::erase_block(g, &mut *img, b);
    }
}

// The page of an empty level 1 root, height 1, sequence number 1.
fn empty_root(g: Geometry) -> [u8; 2112]
    requires { page_bytes g ≤ longest_page }
    ensures { take (page_bytes g) result ≡ built g 1 1 (λ j. []) }
{
    let mut buf = chip_page::blank();
    chip_page::close(g, &mut buf, 0, 1, 1);
    buf
}

pub fn format(g: Geometry, img: &mut [u8]) -> Answer
    requires { page_bytes g ≤ longest_page }
    ensures { told result img.new ≡ format g img.old }
{
    let n = chip_read::good_blocks(g, &*img);
    if n == 0 {
        return Answer::Length;
    }
    erase_all(g, &mut *img, n);
    let bytes = empty_root(g);
    chip_store::program_page(g, &mut *img, 0, &bytes);
    Answer::Done(0, 1, u32::from(n))
}
