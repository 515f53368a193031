// A frame's body: blocks and their sums. The definitions are in specs/.
#![tactic(auto)]

pub mod reader;
pub mod steps;
pub mod sum;
pub mod surveying;
pub mod taking;
pub mod walk;

// A block by places: where its data start and end, its command byte, and whether its sum is right.
#[derive(Clone, Copy)]
pub struct Placed {
    pub from: usize,
    pub to: usize,
    pub command: u8,
    pub right: bool,
}

// What stands at a place of a frame: no block; a block, with the place where the next one starts; or the last block.
#[derive(Clone, Copy)]
pub enum BlockStep {
    Stray,
    More { block: Placed, next: usize },
    Last { block: Placed },
}
