// The system's clock. It tells no readings.

ghost use Rattle.std.specs.Prelude.{◌≡◌, ◌<◌, None};
ghost use Rattle.fed_base.specs.Moments.{moment_limit};

use crate::clock::Clock;
use fed_base::{MOMENT_LIMIT, Memory};
use std::alloc::Global;
use std::time::{Clock as SystemClock, SystemTime, UNIX_EPOCH};

/// The clock of the system. A reading that fails gives the last moment again, and 0 before the first.
#[derive(Drop)]
pub struct RealClock<'a, R: SystemClock> {
    rt: &'a R,
    readings: u64,
    last: u64,
    ghost small: { last < moment_limit },
}

impl<'a, R: SystemClock + Sync> RealClock<'a, R> {
    /// A clock of which no reading was made, so that its last one counts as 0.
    pub fn new(rt: &'a R) -> RealClock<'a, R>
        ensures readings { ⟦<RealClock<'a, R> as Clock>⟧.readings result ≡ 0 }
        ensures last { ⟦<RealClock<'a, R> as Clock>⟧.last result ≡ 0 }
    {
        RealClock {
            rt,
            readings: 0,
            last: 0,
        }
    }
}

// The system's moment in whole seconds since 1970, or `None` where its clock fails.
fn moment<R: SystemClock>(rt: &R) -> Option<u64> {
    let now = SystemTime::now(rt).ok()?;
    let since = now.duration_since(UNIX_EPOCH).ok()?;
    Some(since.as_secs())
}

impl<'a, R: SystemClock + Sync> Clock for RealClock<'a, R> {
    ghost readings = { λ clock. clock.readings };

    ghost last = { λ clock. clock.last };

    ghost told = { λ _. None };

    fn now(&mut self) -> u64 {
        match moment(self.rt) {
            Some(moment) if moment < MOMENT_LIMIT => self.last = moment,
            _ => {}
        }
        self.readings = self.readings.saturating_add(1);
        self.last
    }

    fn another(&self, _alloc: Global) -> Result<Self, Memory> {
        Ok(RealClock {
            rt: self.rt,
            readings: 0,
            last: 0,
        })
    }
}
