// The object that the threads of a row share.
use std::alloc::Global;
use turn_log::Sequential;

/// A sum, and the values that were kept.
#[derive(Drop)]
pub struct Tally {
    pub sum: u64,
    pub values: Vec<u64>,
}

/// Add to the sum; keep a value, with room for so many; read both.
#[derive(Clone, Copy, Debug, PartialEq, Eq, Drop)]
pub enum Call {
    Add(u64),
    Keep(u64, usize),
    Read,
}

#[derive(Clone, Copy, Debug, PartialEq, Eq, Drop)]
pub enum Reply {
    Before(u64),
    Done,
    Memory,
    Is(u64, usize),
}

impl Sequential for Tally {
    ghost use Rattle.rows_turn.specs.Tallies.{TallyStep};

    type Call = Call;

    type Reply = Reply;

    ghost steps = { TallyStep };

    fn act(&mut self, _alloc: Global, call: Call) -> Reply {
        match call {
            Call::Add(amount) => {
                let before = self.sum;
                self.sum = before.wrapping_add(amount);
                Reply::Before(before)
            }
            Call::Keep(value, room) => {
                if self.values.reserve(room).is_err() {
                    return Reply::Memory;
                }
                match self.values.push(value) {
                    Ok(()) => Reply::Done,
                    Err(_) => Reply::Memory,
                }
            }
            Call::Read => Reply::Is(self.sum, self.values.len()),
        }
    }
}
