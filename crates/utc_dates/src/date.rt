// Days of the calendar.

ghost use Rattle.std.specs.Prelude.{◌≡◌, ◌≤◌, ◌^◌, ◌+◌, ◌/◌};
ghost use Rattle.utc_dates.specs.Calendar.{IsDay, days_before, first_day};
ghost use Rattle.utc_dates.specs.Dates.{date_of, day_of_year};

/// A day of the Gregorian calendar (ISO 8601), which is taken to have held always.
#[derive(Clone, Copy, Debug, PartialEq, Eq, Drop)]
pub struct Date {
    pub year: u64,
    /// 1 to 12.
    pub month: u64,
    /// 1 to 31.
    pub day: u64,
}

impl Date {
    /// The day of a moment, which is in seconds since 1970. Days are counted from 1 March of the year 0, so that a leap day ends a year.
    pub fn of(moment: u64) -> Date
        ensures date { result ≡ date_of moment }
        ensures there { IsDay result }
        ensures counted { days_before result ≡ moment / 86400 + days_before first_day }
    {
        let days = moment / 86_400 + 719_468;
        let eras = days / 146_097;
        let of_era = days % 146_097;
        let centuries = (of_era / 36_524).min(3);
        let of_century = of_era - centuries * 36_524;
        let fours = (of_century / 1_461).min(24);
        let of_four = of_century - fours * 1_461;
        let years = (of_four / 365).min(3);
        day_of_year(
            eras * 400 + centuries * 100 + fours * 4 + years,
            of_four - years * 365,
        )
    }
}

// The day that so many days after 1 March of the year is.
fn day_of_year(year: u64, days: u64) -> Date
    requires year { year ≤ 2 ^ 62 }
    requires days { days ≤ 400 }
    ensures { result ≡ day_of_year year days }
{
    let months = (5 * days + 2) / 153;
    let day = days - (153 * months + 2) / 5 + 1;
    if months < 10 {
        Date {
            year,
            month: months + 3,
            day,
        }
    } else {
        Date {
            year: year + 1,
            month: months - 9,
            day,
        }
    }
}
