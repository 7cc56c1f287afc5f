// The record that opening an image hands back (request 8), by value: the root's page, its sequence number, the largest
// one on the image, the height, the next page (T if none), the erased pages.
#![tactic(auto)]

#[derive(Clone, Copy)]
pub struct Opened {
    pub root: u32,
    pub number: u32,
    pub most: u32,
    pub height: u32,
    pub next: u32,
    pub erased: u32,
}
