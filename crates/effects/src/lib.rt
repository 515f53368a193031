// What a command leaves: a number, the board after it, and its reply. The definitions are in specs/.
#![tactic(auto)]

use board::Settings;

mod effects;
pub mod recording;
pub mod reply;

// Why a block is refused; 25 to 27 are those of a "$" list, in records.
#[derive(Clone, Copy, PartialEq, Eq)]
pub enum Refusal {
    // "block: wrong checksum"
    WrongChecksum = 20,
    // "unknown command byte or function label"
    Unknown = 21,
    // "data missing, in excess, or malformed"
    Malformed = 22,
    // "no file of that label and type"
    NoFile = 23,
    // "message longer than SIZE"
    TooLong = 24,
}

// What a command that gives no reply answers, where it may change the settings: its number, 0 or 20 to 27, and the settings after it.
// Stays: "Settings travel as one record, handed in and handed back", after a refusal too, so a `Result` would hold them in both its cases.
#[derive(Clone, Copy)]
pub struct Changed {
    pub number: u8,
    pub settings: Settings,
}

// What a block answers: its number, 0 or 20 to 27, and the length of its reply, 0 where there is none.
// Stays: number and length are counted for C as they are, 0 for none.
#[derive(Clone, Copy)]
pub struct Done {
    pub number: u8,
    pub length: usize,
}
