// Fresh boards, whole runs and the port driver's call. The definitions are in specs/. C lays the four structs out alike.
#![tactic(auto)]

use board::Settings;

pub mod errors;
pub mod fresh;
mod numbers;
pub mod run;

// Why a frame is not run, a board is not made or the port driver's call is not done; 3 to 8 are a reading's, 20 to 27 a block's.
#[derive(Clone, Copy, PartialEq, Eq)]
pub enum Refusal {
    // "board not sound"
    NotSound = 1,
    // "reply buffer shorter than memory plus 64"
    ReplyTooShort = 2,
    // "not addressed"
    NotAddressed = 9,
    // "fresh board: wrong type; wrong memory length"
    WrongType = 10,
    WrongMemory = 11,
    // request 11: "memory below 4,186 bytes"
    MemoryTooSmall = 28,
}

// Blocks done, blocks refused, the place (from 1) and number of the first refused, and the reply's length.
// Stays: C's interface, here and in the three below, has numbers; inside, a refusal is an enum.
#[repr(C)]
#[derive(Clone, Copy)]
pub struct Tally {
    pub done: u8,
    pub refused: u8,
    pub place: u8,
    pub reason: u8,
    pub length: usize,
}

// What a run answers.
#[repr(C)]
#[derive(Clone, Copy)]
pub struct Answer {
    pub number: u8,
    pub tally: Tally,
    pub settings: Settings,
}

// What the making of a fresh board answers.
#[repr(C)]
#[derive(Clone, Copy)]
pub struct Made {
    pub number: u8,
    pub settings: Settings,
}

// What the port driver's call answers.
#[repr(C)]
#[derive(Clone, Copy)]
pub struct Driven {
    pub number: u8,
    pub settings: Settings,
}
