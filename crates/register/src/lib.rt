// Request 10: the serial error status register, by its bits. The definitions are in specs/.
#![tactic(auto)]

mod register;

pub use crate::register::{CHECKSUM, CLEARED, ILLEGAL, driven_by, is_register};
