// Request 6: renewal dates, weekdays, and the days between two dates. The definitions are in specs/. C lays the structs out alike.
#![tactic(auto)]

mod counting;
pub mod days;
pub mod numbers;
pub mod renewing;
mod table;

// A date: its year in full, 2000 to 2099 where it exists; months and days count from 1.
#[repr(C)]
#[derive(Clone, Copy)]
pub struct Date {
    pub year: u16,
    pub month: u8,
    pub day: u8,
}

// What a renewal answers.
// Stays: C's interface has the number beside the date; inside, a renewal is a Result.
#[repr(C)]
#[derive(Clone, Copy)]
pub struct Renewed {
    pub number: u8,
    pub date: Date,
}

// What is answered of a date's weekday: 1 Sunday to 7 Saturday.
// Stays: C's interface, and so is the next.
#[repr(C)]
#[derive(Clone, Copy)]
pub struct DayOfWeek {
    pub number: u8,
    pub weekday: u8,
}

// What is answered of two dates: the days from the first to the second, negative when the second is earlier.
#[repr(C)]
#[derive(Clone, Copy)]
pub struct DaysApart {
    pub number: u8,
    pub days: i32,
}
