// The special functions: E sets, F tells. The definitions are in specs/.
#![tactic(auto)]

mod special;

pub use crate::special::{read_special, write_special};
