// The numbers with which request 6 refuses.

#[derive(Clone, Copy)]
pub enum Refusal {
    // "a date that does not exist"
    NoDate = 30,
    // "a count outside its range"
    CountOutside = 31,
    // "a result outside 2000 to 2099"
    ResultOutside = 32,
}
