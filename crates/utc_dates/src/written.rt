// Dates as text.

ghost use Rattle.std.specs.Prelude.{◌≡◌, ◌++◌, ◌<◌, decimal, OnOk};
ghost use Rattle.utc_dates.specs.Written.{clock_text, date_text, day_text, two_digits};

use crate::date::Date;
use fed_base::{Memory, Text};
use std::alloc::Global;

/// Appends the day and the time of day of a moment, which is in seconds since 1970, as `2027-01-15 08:00:00 UTC`.
pub fn append_date(alloc: Global, text: &mut Text, moment: u64) -> Result<(), Memory>
    ensures { OnOk result (text.new ≡ text.old ++ date_text moment) }
{
    append_day(alloc, text, Date::of(moment))?;
    text.push(b' ')?;
    append_clock(text, moment)
}

// The year in decimal digits, the month and the day.
fn append_day(alloc: Global, text: &mut Text, date: Date) -> Result<(), Memory>
    ensures { OnOk result (text.new ≡ text.old ++ day_text date) }
{
    append_number(alloc, text, date.year)?;
    text.push(b'-')?;
    append_two(text, date.month)?;
    text.push(b'-')?;
    append_two(text, date.day)
}

// The hour, the minute and the second.
fn append_clock(text: &mut Text, moment: u64) -> Result<(), Memory>
    ensures { OnOk result (text.new ≡ text.old ++ clock_text moment) }
{
    append_two(text, moment / 3_600 % 24)?;
    text.push(b':')?;
    append_two(text, moment / 60 % 60)?;
    text.push(b':')?;
    append_two(text, moment % 60)?;
    text.append(b" UTC")
}

fn append_number(alloc: Global, text: &mut Text, number: u64) -> Result<(), Memory>
    ensures { OnOk result (text.new ≡ text.old ++ decimal number) }
{
    let digits = format!(in alloc; "{number}")?;
    text.append(digits.as_bytes())
}

// The last two decimal digits.
#[tactic(auto, unfolding(crate::specs::Written::two_digits))]
fn append_two(text: &mut Text, number: u64) -> Result<(), Memory>
    ensures { OnOk result (text.new ≡ text.old ++ two_digits number) }
{
    text.append(&[b'0' + (number / 10 % 10) as u8, b'0' + (number % 10) as u8])
}
