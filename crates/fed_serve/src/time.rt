// Where the moment of a connection comes from.

ghost use Rattle.std.specs.Prelude.{◌≡◌, ◌<◌, List, ℕ, Option};
ghost use Rattle.fed_base.specs.Counts.{next_count};
ghost use Rattle.fed_base.specs.Moments.{moment_limit};
ghost use Rattle.fed_ports.specs.Times.{Told};

use fed_ports::Clock;

// What gives the moment: the one call that is made on a clock. A method of an `impl` can't hand on that a `Clock` is `Send`, so what such a
// method calls asks for this alone.
pub(crate) trait TimeSource<C> {
    // How many readings there were.
    ghost readings: { C → ℕ };

    // The last reading.
    ghost last: { C → ℕ };

    // The readings in order, where they are told.
    ghost told: { C → Option (List ℕ) };

    // The moment.
    fn now(clock: &mut C) -> u64
        ensures small { result < moment_limit }
        ensures counted { readings clock.new ≡ next_count (readings clock.old) }
        ensures last { last clock.new ≡ result }
        ensures told { Told (readings clock.old) (told clock.old) (told clock.new) result };
}

// The moment of a clock.
pub(crate) struct ByClock;

impl<C: Clock> TimeSource<C> for ByClock {
    ghost readings = { λ clock. C.readings clock };

    ghost last = { λ clock. C.last clock };

    ghost told = { λ clock. C.told clock };

    fn now(clock: &mut C) -> u64 {
        clock.now()
    }
}
