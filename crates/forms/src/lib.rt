// "Three forms we write", byte by byte and block by block. The definitions are in specs/.
#![tactic(auto)]

mod forms;
pub mod lengths;
mod numbers;

pub use crate::forms::{put_eot, put_heading, put_piece};
pub use crate::numbers::{Form, NoForm};
