// A clock of given moments, which tells its readings.

ghost use Rattle.std.specs.Prelude.{◌≡◌, ◌<◌, IfOk};
ghost use Rattle.fed_ports.specs.MemoryClocks.{told_of, moment_at};
ghost use Rattle.fed_base.specs.Moments.{moment_limit};

use crate::clock::Clock;
use fed_base::{MOMENT_LIMIT, Memory};
use std::alloc::Global;

/// A clock that gives these moments in order, then the last of them again, and 0 where there is none. A moment of 2^62 or more counts as 0.
#[derive(Drop)]
pub struct MemoryClock {
    moments: Vec<u64>,
    readings: u64,
    last: u64,
}

impl MemoryClock {
    ghost use Rattle.fed_ports.specs.MemoryClocks.{clock_moments, clock_readings};

    /// A clock of which no reading was made.
    pub fn new(alloc: Global, moments: &[u64]) -> Result<MemoryClock, Memory>
        ensures moments { IfOk result (λ clock. clock_moments clock ≡ moments.now) }
        ensures readings { IfOk result (λ clock. clock_readings clock ≡ 0) }
    {
        let moments = Vec::from_slice(alloc, moments)?;
        Ok(MemoryClock {
            moments,
            readings: 0,
            last: 0,
        })
    }
}

// The moment of the reading of that number.
fn moment(moments: &[u64], reading: u64) -> u64
    ensures value { result ≡ moment_at moments.now reading }
    ensures small { result < moment_limit }
{
    if moments.is_empty() {
        return 0;
    }
    let last = moments.len() - 1;
    let moment = if reading < last as u64 {
        moments[reading as usize]
    } else {
        moments[last]
    };
    if moment < MOMENT_LIMIT { moment } else { 0 }
}

impl Clock for MemoryClock {
    ghost use Rattle.fed_base.specs.Counts.{next_count};
    ghost use Rattle.fed_ports.specs.MemoryClocks.{moment_at, clock_moments, clock_readings, clock_last};
    ghost use Rattle.fed_ports.specs.Times.{Told};

    ghost readings = { λ clock. clock.readings };

    ghost last = { λ clock. clock.last };

    ghost told = { λ clock. told_of clock.moments.items clock.readings };

    fn now(&mut self) -> u64
        ensures small { result < moment_limit }
        ensures counted { clock_readings self.new ≡ next_count (clock_readings self.old) }
        ensures last { clock_last self.new ≡ result }
        ensures told { Told (clock_readings self.old) (told_of (clock_moments self.old) (clock_readings self.old))
            (told_of (clock_moments self.new) (clock_readings self.new)) result }
        ensures moment { result ≡ moment_at (clock_moments self.old) (clock_readings self.old) }
        ensures moments { clock_moments self.new ≡ clock_moments self.old }
    {
        let moment = moment(&self.moments, self.readings);
        self.last = moment;
        self.readings = self.readings.saturating_add(1);
        moment
    }

    fn another(&self, alloc: Global) -> Result<Self, Memory>
        ensures readings { IfOk result (λ clock. clock_readings clock ≡ 0) }
        ensures moments { IfOk result (λ clock. clock_moments clock ≡ clock_moments self.now) }
    {
        MemoryClock::new(alloc, self.moments.as_slice())
    }
}
