// Descent with a key, and what stands under it.
#![tactic(auto, using(crate::specs::Descents::descent_laws))]

ghost use Rattle.std.specs.Prelude.{◌≡◌, ◌+◌, ◌-◌, ◌<◌};
ghost use Rattle.model.specs.Bytes.{node_at};
ghost use Rattle.model.specs.Tree.{leaf, sought};
ghost use Rattle.chip_read.specs.Chip.{naming, chip_with};

use geometry::Geometry;

// The page of the leaf where descent with a key ends.
pub fn leaf_page(g: Geometry, img: &[u8], level: u32, root: u32, key: u32) -> u32
    requires { level < 255 }
    ensures { node_at g img.now result 1 ≡ leaf (node_at g img.now) key level (naming root) }
{
    let mut page = root;
    for below in (0..level).rev() {
        // Of the node at level below + 2: the entry names the page of level below + 1.
        page = tree_search::chosen_entry(g, img, page, below + 2, key).addr;
    }
    page
}

// What stands under a key.
pub fn find_key(g: Geometry, img: &[u8], level: u32, root: u32, key: u32) -> Option<u32>
    requires { level < 255 }
    ensures { result ≡ sought (chip_with g img.now level root) key }
{
    let page = leaf_page(g, img, level, root, key);
    tree_search::find_key(g, img, page, 1, key)
}
