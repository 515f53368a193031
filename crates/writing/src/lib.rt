// The calls that write: a one-command frame, a frame in another form, two frames joined. The definitions are in specs/.
#![tactic(auto)]

mod blocks;
pub mod joining;
mod output;
pub mod reforming;
mod refusal;
mod single;
mod source;
mod taking;
mod writing;

pub use crate::refusal::Refusal;
pub use crate::writing::write;

// What writing, re-forming and joining answer. C lays it out alike.
// Stays: a number with a length beside it, as C takes it; inside it is a Result.
#[repr(C)]
#[derive(Clone, Copy)]
pub struct Written {
    pub number: u8,
    pub length: usize,
}
