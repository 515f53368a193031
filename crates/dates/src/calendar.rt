// Request 1: which dates there are in the years 2000 to 2099. A year stands in full; months and days count from 1.
ghost use Rattle.std.specs.Prelude.{◌≡◌};
ghost use Rattle.octets.specs.Choice.{between};
ghost use Rattle.dates.specs.Calendar.{FIRST-YEAR, LAST-YEAR, february, month_length, is_date};

// "years being 2000 to 2099"
pub const FIRST_YEAR: u16 = 2000;

pub const LAST_YEAR: u16 = 2099;

// one of these years
fn is_year(year: u16) -> bool
    ensures { result ≡ between FIRST-YEAR LAST-YEAR year }
{
    (FIRST_YEAR..=LAST_YEAR).contains(&year)
}

// "with 29 February in each year divisible by four"
#[tactic(auto, unfolding(crate::specs::Calendar::february))]
fn february(year: u16) -> u8
    ensures { result ≡ february year }
{
    if year % 4 == 0 { 29 } else { 28 }
}

// "true month lengths"; what is no month has no days.
#[tactic(auto, unfolding(crate::specs::Calendar::month_length))]
pub fn month_length(year: u16, month: u8) -> u8
    ensures { result ≡ month_length year month }
{
    match month {
        2 => february(year),
        4 | 6 | 9 | 11 => 30,
        1 | 3 | 5 | 7 | 8 | 10 | 12 => 31,
        _ => 0,
    }
}

// Whether a date exists.
#[tactic(auto, unfolding(crate::specs::Calendar::is_date))]
pub fn is_date(year: u16, month: u8, day: u8) -> bool
    ensures { result ≡ is_date year month day }
{
    let last = month_length(year, month);
    is_year(year) && (1..=last).contains(&day)
}
