// Document 01's reading bench cases and request 5's: lengths, an image of all 255, and damaged trees, for each rule and
// each clause that names a page. For each image a line: its name, lookup's answer, the rule and the page.
#![tactic(auto)]

use std::io;

// One image: lookup with key 20.
fn case(rt: &impl Print, img: &[u8]) -> io::Result<()> {
    let w = call_answers::row_of(index::lookup(0, img, 20));
    println!(rt; " {} {} {}", w.answer, w.rule, w.page)
}

// The same with fitting codes.
fn coded(rt: &impl Print, img: &mut [u8; 50688]) -> io::Result<()> {
    bench_images::put_codes(&mut *img);
    case(rt, &*img)
}

fn lengths(rt: &impl Print) -> io::Result<()> {
    let image: [u8; 50688] = [255; 50688];
    print!(rt; "length 0")?;
    case(rt, &image[..0])?;
    print!(rt; "length 33792")?;
    case(rt, &image[..33792])?;
    print!(rt; "length 50687")?;
    case(rt, &image[..50687])?;
    print!(rt; "all 255")?;
    case(rt, &image)
}

fn sound(rt: &impl Print, img: &mut [u8; 50688]) -> io::Result<()> {
    bench_images::put_tree(&mut *img);
    print!(rt; "sound")?;
    coded(rt, &mut *img)
}

// The tree with one page more, or another.
fn page_more(img: &mut [u8; 50688], page: u32, seq: u8, height: u8) {
    bench_images::put_tree(&mut *img);
    bench_images::put_page(&mut *img, page, seq, height);
}

fn rule_1(rt: &impl Print, img: &mut [u8; 50688]) -> io::Result<()> {
    page_more(&mut *img, 0, 1, 6);
    print!(rt; "R1, height byte 6 on page 0")?;
    coded(rt, &mut *img)?;
    page_more(&mut *img, 1, 0, 2);
    print!(rt; "R1, number 0 on page 1")?;
    coded(rt, &mut *img)?;
    bench_images::put_page(&mut *img, 2, 3, 7);
    print!(rt; "R1, the same and height byte 7 on page 2")?;
    coded(rt, &mut *img)
}

// The tree with fitting codes, and one bit turned over.
fn flipped(rt: &impl Print, img: &mut [u8; 50688], at: usize, bit: u8) -> io::Result<()> {
    bench_images::put_tree(&mut *img);
    bench_images::put_codes(&mut *img);
    bench_images::flip(&mut *img, at, bit);
    case(rt, &*img)
}

fn rule_1_codes(rt: &impl Print, img: &mut [u8; 50688]) -> io::Result<()> {
    print!(rt; "R1, a data bit of page 1 flipped")?;
    flipped(rt, &mut *img, 528, 1)?;
    print!(rt; "R1, a code bit of page 0 flipped")?;
    flipped(rt, &mut *img, 525, 128)
}

fn rule_2_order(rt: &impl Print, img: &mut [u8; 50688]) -> io::Result<()> {
    page_more(&mut *img, 3, 3, 0);
    print!(rt; "R2, page 2 erased before page 3")?;
    coded(rt, &mut *img)?;
    bench_images::put_page(&mut *img, 5, 4, 0);
    print!(rt; "R2, the same and page 4 erased before page 5")?;
    coded(rt, &mut *img)
}

fn rule_2_mixed(rt: &impl Print, img: &mut [u8; 50688]) -> io::Result<()> {
    page_more(&mut *img, 32, 3, 0);
    print!(rt; "R2, blocks 0 and 1 mixed")?;
    coded(rt, &mut *img)?;
    bench_images::put_page(&mut *img, 64, 4, 0);
    print!(rt; "R2, blocks 0, 1 and 2 mixed")?;
    coded(rt, &mut *img)?;
    bench_images::put_page(&mut *img, 66, 5, 0);
    print!(rt; "R2, the same and page 65 erased before page 66")?;
    coded(rt, &mut *img)
}

fn rule_3(rt: &impl Print, img: &mut [u8; 50688]) -> io::Result<()> {
    page_more(&mut *img, 2, 2, 0);
    print!(rt; "R3, pages 1 and 2 have number 2")?;
    coded(rt, &mut *img)?;
    page_more(&mut *img, 2, 3, 0);
    bench_images::put_page(&mut *img, 3, 2, 0);
    bench_images::put_page(&mut *img, 4, 1, 0);
    print!(rt; "R3, pages 0 and 4 have number 1, pages 1 and 3 number 2")?;
    coded(rt, &mut *img)
}

fn rule_4(rt: &impl Print, img: &mut [u8; 50688]) -> io::Result<()> {
    page_more(&mut *img, 1, 2, 0);
    print!(rt; "R4, no root")?;
    coded(rt, &mut *img)
}

// The first bad node: a leaf, not the node above it.
fn rule_5_leaf(rt: &impl Print, img: &mut [u8; 50688]) -> io::Result<()> {
    bench_images::put_tree(&mut *img);
    bench_images::put_one(&mut *img, 0, 1, 20, 110);
    print!(rt; "R5, a key not below the next entry's in the leaf on page 0")?;
    coded(rt, &mut *img)?;
    bench_images::put_loose(&mut *img);
    bench_images::put_one(&mut *img, 2, 1, 5, 120);
    print!(rt; "R5, a key below its entry's in the right leaf, on page 2")?;
    coded(rt, &mut *img)?;
    bench_images::put_one(&mut *img, 1, 1, 5, 110);
    print!(rt; "R5, the same in the left leaf too, on page 1")?;
    coded(rt, &mut *img)
}

// A node is named before those below it.
fn rule_5_node(rt: &impl Print, img: &mut [u8; 50688]) -> io::Result<()> {
    bench_images::put_loose(&mut *img);
    bench_images::put_one(&mut *img, 2, 1, 5, 120);
    bench_images::put_one(&mut *img, 1, 2, 15, 2);
    print!(rt; "R5, the right leaf on page 2 and the node above it on page 1")?;
    coded(rt, &mut *img)?;
    bench_images::put_one(&mut *img, 0, 2, 10, 96);
    print!(rt; "R5, the same and page 96 named by the left node on page 0")?;
    coded(rt, &mut *img)?;
    bench_images::put_one(&mut *img, 3, 3, 10, 0);
    print!(rt; "R5, the same and one entry in the root on page 3")?;
    coded(rt, &mut *img)
}

fn rule_5_erased(rt: &impl Print, img: &mut [u8; 50688]) -> io::Result<()> {
    bench_images::put_loose(&mut *img);
    bench_images::put_one(&mut *img, 0, 2, 10, 50);
    print!(rt; "R5, the erased page 50 named by the node on page 0")?;
    coded(rt, &mut *img)
}

fn rule_6(rt: &impl Print, img: &mut [u8; 50688]) -> io::Result<()> {
    bench_images::put_loose(&mut *img);
    print!(rt; "R6, page 1 does not name itself")?;
    coded(rt, &mut *img)?;
    bench_images::put_crossed(&mut *img);
    print!(rt; "R6, neither page 2 nor page 1 names itself")?;
    coded(rt, &mut *img)
}

fn rules_7_and_8(rt: &impl Print, img: &mut [u8; 50688]) -> io::Result<()> {
    bench_images::put_full(&mut *img);
    print!(rt; "R7, no erased page, a live one in each block")?;
    coded(rt, &mut *img)?;
    bench_images::put_crowded(&mut *img);
    print!(rt; "R8, 35 live pages of 96")?;
    coded(rt, &mut *img)
}

// Two broken rules: the first is named.
fn two_rules(rt: &impl Print, img: &mut [u8; 50688]) -> io::Result<()> {
    page_more(&mut *img, 2, 2, 6);
    print!(rt; "R3 and R1 on page 2")?;
    coded(rt, &mut *img)?;
    page_more(&mut *img, 3, 2, 0);
    print!(rt; "R3 on page 3 and R2")?;
    coded(rt, &mut *img)?;
    page_more(&mut *img, 1, 1, 0);
    print!(rt; "R4 and R3 on page 1")?;
    coded(rt, &mut *img)
}

fn main(rt: HostRuntime) -> io::Result<()> {
    lengths(&rt)?;
    let mut image: [u8; 50688] = [0; 50688];
    sound(&rt, &mut image)?;
    rule_1(&rt, &mut image)?;
    rule_1_codes(&rt, &mut image)?;
    rule_2_order(&rt, &mut image)?;
    rule_2_mixed(&rt, &mut image)?;
    rule_3(&rt, &mut image)?;
    rule_4(&rt, &mut image)?;
    rule_5_leaf(&rt, &mut image)?;
    rule_5_node(&rt, &mut image)?;
    rule_5_erased(&rt, &mut image)?;
    rule_6(&rt, &mut image)?;
    rules_7_and_8(&rt, &mut image)?;
    two_rules(&rt, &mut image)
}
