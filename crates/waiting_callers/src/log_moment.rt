// The moment of a line of the log.

use std::fmt;
use std::fmt::{Display, Formatter};
use std::time::{Clock as SystemClock, Duration, SystemTime, UNIX_EPOCH};
use utc_dates::Date;

/// A moment, as RFC 3339 writes it in UTC, with milliseconds.
#[derive(Clone, Copy, Drop)]
pub(crate) struct LogMoment {
    seconds: u64,
    millis: u32,
}

impl LogMoment {
    /// Now, or the beginning of 1970 where the system's clock failed.
    pub(crate) fn now<R: SystemClock>(rt: &R) -> LogMoment {
        let since = match SystemTime::now(rt) {
            Ok(now) => now.duration_since(UNIX_EPOCH).unwrap_or(Duration::ZERO),
            Err(_) => Duration::ZERO,
        };
        LogMoment {
            seconds: since.as_secs(),
            millis: since.subsec_millis(),
        }
    }
}

impl Display for LogMoment {
    fn fmt<W: fmt::Write>(&self, f: &mut Formatter<W>) -> fmt::Result {
        let Date { year, month, day } = Date::of(self.seconds);
        let hour = self.seconds / 3_600 % 24;
        let minute = self.seconds / 60 % 60;
        let second = self.seconds % 60;
        write!(
            f,
            "{year:04}-{month:02}-{day:02}T{hour:02}:{minute:02}:{second:02}.{:03}Z",
            self.millis
        )
    }
}
