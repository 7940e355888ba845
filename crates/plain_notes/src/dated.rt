// Moments with their dates.

ghost use Rattle.std.specs.Prelude.{◌≡◌, ◌++◌, OnOk};
ghost use Rattle.plain_notes.specs.Moments.{moment_text};

use fed_base::{Memory, Text};
use std::alloc::Global;
use utc_dates::append_date;

/// Appends a moment, in seconds since 1970, and its date, as `1800000000 (2027-01-15 08:00:00 UTC)`.
pub fn append_moment(alloc: Global, text: &mut Text, moment: u64) -> Result<(), Memory>
    ensures { OnOk result (text.new ≡ text.old ++ moment_text moment) }
{
    let digits = format!(in alloc; "{moment}")?;
    text.append(digits.as_bytes())?;
    text.append(b" (")?;
    append_date(alloc, text, moment)?;
    text.push(b')')
}
