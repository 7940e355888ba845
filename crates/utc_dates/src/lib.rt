//! Layer 1, the outside: moments as dates, for people: days of the Gregorian calendar and times of day in UTC (ISO 8601).
//!
//! [`append_date`] writes the date of a moment behind a text, and [`Date::of`] gives its day. The crates above show moments by it.
#![tactic(auto)]

mod date;
mod written;

pub use date::Date;
pub use written::append_date;
