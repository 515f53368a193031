// The rows of a picture as text: judged and drawn as command I does, told as the reply to J does. The definitions are in specs/.
#![tactic(auto)]

mod rows;
mod told;

pub use crate::rows::{draw, well_formed};
pub use crate::told::tell;
