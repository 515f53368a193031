// Dates of the years 2000 to 2099, by year, month and day alone. The definitions are in specs/.
#![tactic(auto)]

pub mod calendar;
