// Request 9: the temperature offset of a sign, and readings corrected by it. The definitions are in specs/. C lays the struct out
// alike.
#![tactic(auto)]

pub mod correcting;
pub mod numbers;
pub mod offset;

// What is answered of a reading: its sum with the offset.
// Stays: C's interface has the number beside the sum; inside, a sum is a Result.
#[repr(C)]
#[derive(Clone, Copy)]
pub struct Corrected {
    pub number: u8,
    pub sum: i16,
}
