// The clock of a rehearsal, which stands still.

ghost use Rattle.std.specs.Prelude.{◌≡◌, None};
ghost use Rattle.rehearsal.specs.Moments.{moment};

use fed_ports::{Clock, Memory};
use std::alloc::Global;

/// The moment of a rehearsal, in seconds since 1970.
pub(crate) const MOMENT: u64 = 1_800_000_000;

/// For how many seconds holds what a rehearsal's entities issue.
pub(crate) const LIFETIME: u64 = 86_400;

/// A clock that gives the moment of a rehearsal at each reading.
#[derive(Drop)]
pub(crate) struct StandingClock {
    readings: u64,
}

impl StandingClock {
    /// A clock of which no reading was made.
    pub(crate) fn new() -> StandingClock
        ensures { result.readings ≡ 0 }
    {
        StandingClock { readings: 0 }
    }
}

impl Clock for StandingClock {
    ghost readings = { λ clock. clock.readings };

    ghost last = { λ _. moment };

    ghost told = { λ _. None };

    fn now(&mut self) -> u64 {
        self.readings = self.readings.saturating_add(1);
        MOMENT
    }

    fn another(&self, _alloc: Global) -> Result<Self, Memory> {
        Ok(StandingClock::new())
    }
}
