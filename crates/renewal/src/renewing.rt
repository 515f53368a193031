// "Give a permit's first date and a count of months, forward or back, and return the renewal date".
ghost use Rattle.std.specs.Prelude.{◌≡◌};
ghost use Rattle.renewal.specs.Renewing.{is_count, year_of, month_of, is_year, renewed, kept, reached, renewal_date};
ghost use Rattle.renewal.specs.InnerTold.{told};

use crate::counting::{exists, month_number};
use crate::numbers::Refusal;
use crate::{Date, Renewed};
use dates::calendar::{FIRST_YEAR, LAST_YEAR, month_length};
use signed::floor::{floor_div, floor_mod};

// "Counts run from -1,199 to 1,199."
const MOST_MONTHS: u16 = 1199;

// "2000 to 2099", as signed numbers
const FIRST: i16 = FIRST_YEAR as i16;

const LAST: i16 = LAST_YEAR as i16;

#[tactic(auto, unfolding(crate::specs::Renewing::is_count))]
fn is_count(months: i16) -> bool
    ensures { result ≡ is_count months }
{
    months.unsigned_abs() <= MOST_MONTHS
}

#[tactic(auto, unfolding(crate::specs::Renewing::is_year))]
fn is_year(year: i16) -> bool
    ensures { result ≡ is_year year }
{
    (FIRST..=LAST).contains(&year)
}

// the year and the month of a month counted from January 2000, which may lie before it
#[tactic(auto, using(crate::proofs::RenewingLaws::floors), unfolding(crate::specs::Renewing::year_of))]
fn year_of(month: i16) -> i16
    ensures { result ≡ year_of month }
{
    FIRST + floor_div(month)
}

#[tactic(auto, using(crate::proofs::RenewingLaws::floors), unfolding(crate::specs::Renewing::month_of))]
fn month_of(month: i16) -> u8
    ensures { result ≡ month_of month }
{
    floor_mod(month) + 1
}

// "same day of the month as the first date, or that month's last day if it is shorter"
#[tactic(auto, unfolding(crate::specs::Renewing::kept))]
fn kept(year: u16, month: u8, first: Date) -> Date
    ensures { renewed 0 result ≡ kept year month first.day }
{
    let last = month_length(year, month);
    let day = first.day.min(last);
    Date { year, month, day }
}

// the date in a month so counted
#[tactic(auto, using(crate::proofs::RenewingLaws::years), unfolding(crate::specs::Renewing::reached))]
fn reached(month: i16, first: Date) -> Result<Date, Refusal>
    ensures { told result ≡ reached month first.day }
{
    let year = year_of(month);
    if !is_year(year) {
        return Err(Refusal::ResultOutside);
    }
    Ok(kept(year as u16, month_of(month), first))
}

// the renewal date, always reckoned from the first date
#[tactic(auto, using(crate::proofs::RenewingLaws::counts), unfolding(crate::specs::Renewing::renewal_date))]
fn renewed(first: Date, months: i16) -> Result<Date, Refusal>
    ensures { told result ≡ renewal_date first months }
{
    if !exists(first) {
        return Err(Refusal::NoDate);
    }
    if !is_count(months) {
        return Err(Refusal::CountOutside);
    }
    let month = month_number(first) as i16 + months;
    reached(month, first)
}

// The answer for C; "all answer with zeros".
impl From<Result<Date, Refusal>> for Renewed {
    ghost from_gives = { λ outcome answer. answer ≡ told outcome };

    fn from(outcome: Result<Date, Refusal>) -> Renewed {
        match outcome {
            Ok(date) => Renewed { number: 0, date },
            Err(refusal) => Renewed {
                number: refusal as u8,
                date: Date {
                    year: 0,
                    month: 0,
                    day: 0,
                },
            },
        }
    }
}

// The renewal date: 0, or 30 to 32.
pub fn renewal_date(first: Date, months: i16) -> Renewed
    ensures { result ≡ renewal_date first months }
{
    Renewed::from(renewed(first, months))
}
