// The library as the boards' firmware calls it: each public call under the C calling convention, its statement that of the
// call it wraps. include/pagozkin.h declares the same for C. A slice is a pointer and then a length.
#![tactic(auto)]

pub mod blocks;
pub mod frames;
pub mod renewals;
pub mod signs;
pub mod temperatures;

// What reading a frame tells C: a number; whether the frame is printable (1) or standard (0); how many bytes it stands for;
// where its header and where its first block start among them.
// Stays: C's interface, and so is the next.
#[repr(C)]
#[derive(Clone, Copy)]
pub struct Places {
    pub number: u8,
    pub printable: u8,
    pub length: usize,
    pub header: usize,
    pub body: usize,
}

// What a step over the blocks tells C: no block (0), a block with another one behind it (1) or the last block (2);
// its command byte; whether its sum is right (1) or wrong (0); where its data start and end; and where the reader is left.
#[repr(C)]
#[derive(Clone, Copy)]
pub struct BlockPlaces {
    pub kind: u8,
    pub command: u8,
    pub right: u8,
    pub from: usize,
    pub to: usize,
    pub next: usize,
}
