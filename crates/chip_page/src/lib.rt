// A page as it is built, in a buffer of 2112 bytes whose first bytes are the page. A put outside the buffer changes
// nothing.
#![tactic(auto, using(crate::specs::Building::page_laws, crate::specs::Levels::level_laws))]

ghost use Rattle.std.specs.Prelude.{◌≡◌, [], ◌+◌, ◌*◌, ◌-◌, ◌/◌, ◌%◌, ◌≤◌, ◌<◌, take, set};
ghost use Rattle.geometry.specs.Geometry.{page_bytes, halves};
ghost use Rattle.geometry.specs.Bounds.{longest_page};
ghost use Rattle.model.specs.Codes.{put_code};
ghost use Rattle.model.specs.Page.{put_u32, put_entry, put_entries, put_level, put_levels, numbered, coded, sealed, built, only};
ghost use Rattle.tree_node.specs.Node.{entries};
ghost use Rattle.chip_page.specs.Page.{blanks, laid_level, bare};

use geometry::{Entry, Geometry};
use tree_node::Node;

fn put_byte(buf: &mut [u8], at: usize, b: u8)
    ensures { buf.new ≡ set buf.old at b }
{
    if at < buf.len() {
        buf[at] = b;
    }
}

fn put_low(buf: &mut [u8], at: usize, v: u64)
    ensures { buf.new ≡ set buf.old at (v % 256) }
{
    put_byte(buf, at, (v % 256) as u8);
}

// The low 32 bits of a number, least byte first.
pub fn put_u32(buf: &mut [u8], at: usize, v: u64)
    requires { at < 1152921504606846976 }
    ensures { buf.new ≡ put_u32 buf.old at v }
{
    put_low(buf, at, v);
    put_low(buf, at + 1, v / 256);
    put_low(buf, at + 2, v / 65536);
    put_low(buf, at + 3, v / 16777216);
}

fn put_entry(buf: &mut [u8], at: usize, x: Entry)
    requires { at < 1152921504606846000 }
    ensures { buf.new ≡ put_entry buf.old at x }
{
    put_u32(buf, at, u64::from(x.key));
    put_u32(buf, at + 4, u64::from(x.addr));
}

fn put_node(buf: &mut [u8], at: usize, n: Node)
    requires { (n.count ≤ 256) × (at < 1000000) }
    ensures { buf.new ≡ put_entries buf.old at (entries n) }
{
    for k in 0..n.count {
        put_entry(buf, at + 8 * k, n.e[k]);
    }
}

// A level's node: its entries from its first slot on, and its count byte.
fn put_level(g: Geometry, buf: &mut [u8], level: u32, n: Node)
    requires { n.count ≤ 256 }
    ensures { buf.new ≡ put_level g buf.old level (entries n) }
{
    put_node(buf, 8 * geometry::first_slot(g, level), n);
    let at = geometry::wide(g.main) + 4 + geometry::index(level);
    put_byte(buf, at, (n.count % 256) as u8);
}

// A level without a node: its count byte alone.
fn put_none(g: Geometry, buf: &mut [u8], level: u32)
    ensures { buf.new ≡ put_level g buf.old level [] }
{
    let at = geometry::wide(g.main) + 4 + geometry::index(level);
    put_byte(buf, at, 0);
}

// A level's node, if the geometry has the level.
pub fn lay_level(g: Geometry, buf: &mut [u8], level: u32, n: Node)
    requires { n.count ≤ 256 }
    ensures { buf.new ≡ laid_level g buf.old level (entries n) }
{
    if geometry::wide(g.top) < geometry::index(level) {
        return;
    }
    put_level(g, buf, level, n);
}

// No node at the levels above `from`.
fn lay_rest(g: Geometry, buf: &mut [u8], from: u32)
    requires { from < 65536 }
    ensures { buf.new ≡ bare g from (g.top - from) buf.old }
{
    for k in from..u32::from(g.top) {
        put_none(g, buf, k + 1);
    }
}

// The sequence number and the height byte.
fn put_number(g: Geometry, buf: &mut [u8], seq: u64, height: u32)
    ensures { buf.new ≡ numbered g buf.old seq height }
{
    let at = geometry::wide(g.main);
    put_u32(buf, at, seq);
    put_byte(buf, at + 4, (height % 256) as u8);
}

// The code of one half, least byte first.
pub fn put_code(buf: &mut [u8], at: usize, v: u32)
    requires { at < 1152921504606846976 }
    ensures { buf.new ≡ put_code buf.old at v }
{
    let w = u64::from(v);
    put_low(buf, at, w);
    put_low(buf, at + 1, w / 256);
    put_low(buf, at + 2, w / 65536);
}

// The codes of all halves.
fn put_codes(g: Geometry, buf: &mut [u8])
    ensures { buf.new ≡ coded g (halves g) buf.old }
{
    for k in 0..geometry::halves(g) {
        let v = chip_codes::fresh_code(buf, 256 * k);
        put_code(buf, geometry::code_place(g, k), v);
    }
}

// Number, height byte and codes.
fn seal(g: Geometry, buf: &mut [u8], seq: u64, height: u32)
    ensures { buf.new ≡ sealed g buf.old seq height }
{
    put_number(g, buf, seq, height);
    put_codes(g, buf);
}

// A page whose levels up to `from` are laid: no node above, and sealed.
pub fn close(g: Geometry, buf: &mut [u8], from: u32, seq: u64, height: u32)
    requires { from < 65536 }
    ensures { buf.new ≡ sealed g (bare g from (g.top - from) buf.old) seq height }
{
    lay_rest(g, buf, from);
    seal(g, buf, seq, height);
}

pub fn blank() -> [u8; 2112]
    ensures { result ≡ blanks longest_page }
{
    [255u8; 2112]
}

// One node at its level, none at the others.
fn lay_only(g: Geometry, buf: &mut [u8], level: u32, n: Node)
    requires { n.count ≤ 256 }
    ensures { buf.new ≡ put_levels g (only level (entries n)) g.top buf.old }
{
    for below in 0..u32::from(g.top) {
        let k = below + 1;
        if k == level {
            put_level(g, buf, k, n);
        } else {
            put_none(g, buf, k);
        }
    }
}

// A page that holds one node alone.
pub fn only_bytes(g: Geometry, seq: u64, height: u32, level: u32, n: Node) -> [u8; 2112]
    requires { (n.count ≤ 256) × (page_bytes g ≤ longest_page) }
    ensures { take (page_bytes g) result ≡ built g seq height (only level (entries n)) }
{
    let mut buf = blank();
    lay_only(g, &mut buf, level, n);
    seal(g, &mut buf, seq, height);
    buf
}
