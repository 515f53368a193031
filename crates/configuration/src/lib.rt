// The list that configures memory: its records, the files that they make, and a board with these. The definitions are in specs/.
#![tactic(auto)]

mod capitals;
mod configuration;
mod labels;
pub mod numbers;
mod records;
pub mod starting;

pub use crate::configuration::configure;
use board::index::LABELS;

// The most that a list is: 64 records of 11 bytes.
const LIST: usize = 704;

// What the settings keep of files: the unused amount, and the index.
#[derive(Clone, Copy)]
pub struct Kept {
    pub unused: u16,
    pub places: [u16; LABELS],
}
