// What a move changes in the table of lowest live levels and in the lent words of live pages.
#![tactic(auto, using(crate::specs::Marking::marks_laws))]

ghost use Rattle.std.specs.Prelude.{◌≡◌, ◌<◌, length, set};
ghost use Rattle.model.specs.Bytes.{node_at};
ghost use Rattle.live_words.specs.Words.{Past};
ghost use Rattle.live_beside.specs.Table.{table_in, mark, unmark, off_path, table_moved};
ghost use Rattle.chip_read.specs.Chip.{naming};

use geometry::Geometry;

// The level of a page; outside the table nothing.
fn put_level(table: &mut [u8], page: u32, level: u32)
    requires { level < 256 }
    ensures { table.new ≡ set table.old page level }
{
    let at = geometry::index(page);
    if at < table.len() {
        table[at] = level as u8;
    }
}

// A page gets a level; its word, where it is one of the image's m words, is worked out anew.
pub fn mark(table: &mut [u8], words: &mut [u32], m: usize, page: u32, level: u32)
    requires { level < 256 }
    ensures words_after { table_in table.new words.new ≡ mark m page level
        (table_in table.old words.old) }
    ensures table_len_unchanged { length table.new ≡ length table.old }
    ensures past { Past m words.old words.new }
{
    put_level(&mut *table, page, level);
    let i = geometry::index(page) / 32;
    if i < m {
        live_fill::refresh(&mut *words, &*table, i);
    }
}

// A page dies if its lowest live level is the one given.
pub fn unmark(table: &mut [u8], words: &mut [u32], m: usize, page: u32, level: u32)
    ensures words_after { table_in table.new words.new ≡ unmark m page level
        (table_in table.old words.old) }
    ensures table_len_unchanged { length table.new ≡ length table.old }
    ensures past { Past m words.old words.new }
{
    if live_walk::noted(&*table, page) == level {
        mark(&mut *table, &mut *words, m, page, 0);
    }
}

// The pages of a key's path from the root's level down to level `low`: each dies whose lowest live node stands on the
// path.
pub fn off_path(
    g: Geometry,
    img: &[u8],
    table: &mut [u8],
    words: &mut [u32],
    m: usize,
    key: u32,
    low: u32,
    level: u32,
    root: u32,
)
    requires { level < 255 }
    ensures words_after { table_in table.new words.new ≡ off_path m (node_at g img.now) key low level
        (naming root) (table_in table.old words.old) }
    ensures table_len_unchanged { length table.new ≡ length table.old }
    ensures past { Past m words.old words.new }
{
    let mut page = root;
    for below in (1..level + 1).rev() {
        if below + 1 < low {
            return;
        }
        unmark(&mut *table, &mut *words, m, page, below + 1);
        let entry = tree_search::chosen_entry(g, img, page, below + 1, key);
        page = entry.addr;
    }
    if low <= 1 {
        unmark(&mut *table, &mut *words, m, page, 1);
    }
}

// A move of a key's path from level `low` up to the new page.
pub fn move_marks(
    g: Geometry,
    img: &[u8],
    table: &mut [u8],
    words: &mut [u32],
    m: usize,
    key: u32,
    low: u32,
    level: u32,
    root: u32,
    new: u32,
)
    requires { (level < 255) × (low < 256) }
    ensures words_after { table_in table.new words.new ≡ table_moved m (node_at g img.now) key low level
        (naming root) new (table_in table.old words.old) }
    ensures table_len_unchanged { length table.new ≡ length table.old }
    ensures past { Past m words.old words.new }
{
    off_path(g, img, &mut *table, &mut *words, m, key, low, level, root);
    mark(&mut *table, &mut *words, m, new, low);
}
