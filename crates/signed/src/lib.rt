// Signed numbers: division by twelve, rounded down. The definitions are in specs/.
#![tactic(auto)]

pub mod floor;
