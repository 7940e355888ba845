// Where the moment comes from.

ghost use Rattle.std.specs.Prelude.{◌≡◌, ◌<◌, List, ℕ, Option, IfOk};
ghost use Rattle.fed_base.specs.Counts.{next_count};
ghost use Rattle.fed_base.specs.Moments.{moment_limit};
ghost use Rattle.fed_ports.specs.Times.{Told};

use fed_base::Memory;
use std::alloc::Global;

/// What gives the moment, in whole seconds since 1970.
pub trait Clock: Sized + Send {
    /// How many readings there were.
    ghost readings: { Self → ℕ };

    /// The last reading.
    ghost last: { Self → ℕ };

    /// The readings in order, where the clock tells them.
    ghost told: { Self → Option (List ℕ) };

    /// The moment, in whole seconds since 1970, below 2^62.
    fn now(&mut self) -> u64
        ensures small { result < moment_limit }
        ensures counted { readings self.new ≡ next_count (readings self.old) }
        ensures last { last self.new ≡ result }
        ensures told { Told (readings self.old) (told self.old) (told self.new) result };

    /// A clock of the same kind, of which no reading was made.
    fn another(&self, alloc: Global) -> Result<Self, Memory>
        ensures { IfOk result (λ clock. readings clock ≡ 0) };
}
