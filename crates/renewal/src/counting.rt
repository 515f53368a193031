// Months and days counted from 1 January 2000.
ghost use Rattle.std.specs.Prelude.{◌≡◌, true};
ghost use Rattle.renewal.specs.Counting.{exists, month_number, day_number};

use crate::Date;
use crate::table::days_before;
use dates::calendar::{FIRST_YEAR, is_date};
use signed::floor::MONTHS;

// months to a year, without a sign
const A_YEAR: u16 = MONTHS as u16;

// Whether a date exists.
#[tactic(auto, unfolding(crate::specs::Counting::exists))]
pub fn exists(date: Date) -> bool
    ensures { result ≡ exists date }
{
    is_date(date.year, date.month, date.day)
}

// Its month, counted from January 2000.
#[tactic(auto, using(crate::proofs::Numbered::numbered), unfolding(crate::specs::Counting::month_number))]
pub fn month_number(date: Date) -> u16
    requires { exists date ≡ true }
    ensures { result ≡ month_number date }
{
    let years = date.year - FIRST_YEAR;
    let months = u16::from(date.month - 1);
    years * A_YEAR + months
}

// The days from 1 January 2000 to it.
#[tactic(auto, using(crate::proofs::Numbered::numbered), unfolding(crate::specs::Counting::day_number))]
pub fn day_number(date: Date) -> u16
    requires { exists date ≡ true }
    ensures { result ≡ day_number date }
{
    let month = month_number(date);
    let before = days_before(month as usize);
    let days = u16::from(date.day - 1);
    before + days
}
