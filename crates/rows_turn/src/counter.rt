// A sum, which begins at 0.
use fed_base::Memory;
use std::alloc::Global;
use turn_log::{Opening, Sequential};

/// The objects of the group.
#[derive(Drop)]
pub struct Counter {
    pub sum: u64,
}

impl Sequential for Counter {
    ghost use Rattle.rows_turn.specs.Counts.{CountStep};

    type Call = u64;

    type Reply = u64;

    ghost steps = { CountStep };

    fn act(&mut self, _alloc: Global, call: u64) -> u64 {
        self.sum = self.sum.wrapping_add(call);
        self.sum
    }
}

impl Opening for Counter {
    ghost use Rattle.rows_turn.specs.Counts.{none_counted};

    ghost opening = { none_counted };

    fn open(_alloc: Global) -> Result<Counter, Memory> {
        Ok(Counter { sum: 0 })
    }
}
