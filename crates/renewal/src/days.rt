// "Also give the weekday .. and the days between two dates".
ghost use Rattle.std.specs.Prelude.{◌≡◌};
ghost use Rattle.renewal.specs.Days.{weekday, days_between};

use crate::counting::{day_number, exists};
use crate::numbers::Refusal;
use crate::{Date, DayOfWeek, DaysApart};

// 1 January 2000 is the seventh day of its week, so 6 days of that week are before it.
const BEFORE: u16 = 6;

const WEEK: u16 = 7;

// The weekday, 1 Sunday to 7 Saturday: 0, or 30.
// Stays: here and below there is one test and one refusal, so a Result between would only add a function that tells it to C.
#[tactic(auto, using(crate::proofs::Numbered::numbered), unfolding(crate::specs::Days::weekday))]
pub fn weekday(date: Date) -> DayOfWeek
    ensures { result ≡ weekday date }
{
    if !exists(date) {
        return DayOfWeek {
            number: Refusal::NoDate as u8,
            weekday: 0,
        };
    }
    let days = (day_number(date) + BEFORE) % WEEK;
    DayOfWeek {
        number: 0,
        weekday: days as u8 + 1,
    }
}

// The days from the first date to the second, negative when the second is earlier: 0, or 30.
#[tactic(auto, using(crate::proofs::Numbered::numbered), unfolding(crate::specs::Days::days_between))]
pub fn days_between(first: Date, second: Date) -> DaysApart
    ensures { result ≡ days_between first second }
{
    if !exists(first) || !exists(second) {
        return DaysApart {
            number: Refusal::NoDate as u8,
            days: 0,
        };
    }
    let from = i32::from(day_number(first));
    let to = i32::from(day_number(second));
    DaysApart {
        number: 0,
        days: to - from,
    }
}
