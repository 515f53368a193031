// The numbers with which the call of request 9 refuses.

#[derive(Clone, Copy)]
pub enum Refusal {
    // "an offset outside -9 to 9, from the call too": the number that a board with such an offset has
    OffsetOutside = 1,
    // "a reading outside its range"
    ReadingOutside = 33,
}
