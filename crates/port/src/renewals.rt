// Dates: renewal dates, weekdays, days between dates.
ghost use Rattle.std.specs.Prelude.{◌≡◌};
ghost use Rattle.renewal.specs.Days.{weekday, days_between};
ghost use Rattle.renewal.specs.Renewing.{renewal_date};

use renewal::days::{days_between, weekday};
use renewal::renewing::renewal_date;
use renewal::{Date, DayOfWeek, DaysApart, Renewed};

// The renewal date, reckoned from the first date: 0, or 30 to 32.
#[unsafe(no_mangle)]
pub extern "C" fn pagozkin_renewal_date(first: Date, months: i16) -> Renewed
    ensures { result ≡ renewal_date first months }
{
    renewal_date(first, months)
}

// The weekday, 1 Sunday to 7 Saturday: 0, or 30.
#[unsafe(no_mangle)]
pub extern "C" fn pagozkin_weekday(date: Date) -> DayOfWeek
    ensures { result ≡ weekday date }
{
    weekday(date)
}

// The days from the first date to the second: 0, or 30.
#[unsafe(no_mangle)]
pub extern "C" fn pagozkin_days_between(first: Date, second: Date) -> DaysApart
    ensures { result ≡ days_between first second }
{
    days_between(first, second)
}
