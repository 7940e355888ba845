// Which calls of an object in memory fail.

ghost use Rattle.std.specs.Prelude.{◌≡◌, ◌↔◌, ◌<◌, ◌-◌, IsTrue, IfOk};
ghost use Rattle.fed_base.specs.Plans.{Plan, plan_of, after_call, calls_left, IsDue};

use crate::faults::Memory;
use std::alloc::Global;

/// The numbers of the calls that are to fail, and the number of calls for which there is room.
#[derive(Drop)]
pub struct CallPlan {
    failing: Vec<u64>,
    room: u64,
    made: u64,
}

impl CallPlan {
    /// A plan before its first call, whose number is 0.
    pub fn new(alloc: Global, failing: &[u64], room: u64) -> Result<CallPlan, Memory>
        ensures { IfOk result (λ plan. plan_of plan ≡ record { failing = failing.now; room = room; made = 0 }) }
    {
        let failing = Vec::from_slice(alloc, failing)?;
        Ok(CallPlan {
            failing,
            room,
            made: 0,
        })
    }

    /// Whether there is room for a further call.
    pub fn has_room(&self) -> bool
        ensures { IsTrue result ↔ (0 < calls_left (plan_of self.now)) }
    {
        self.made < self.room
    }

    /// Counts a call, and says whether it is to fail: its number is listed, or there is no room for it.
    pub fn next_fails(&mut self) -> bool
        ensures due { IsTrue result ↔ IsDue (plan_of self.old) }
        ensures counted { plan_of self.new ≡ after_call (plan_of self.old) }
        ensures left { calls_left (plan_of self.new) ≡ calls_left (plan_of self.old) - 1 }
    {
        let call = self.made;
        self.made = call.saturating_add(1);
        self.room <= call || self.failing.contains(&call)
    }

    /// The number of calls for which there is room in all.
    pub fn room(&self) -> u64
        ensures { result ≡ (plan_of self.now).room }
    {
        self.room
    }

    /// The same plan before its first call.
    pub fn again(&self, alloc: Global) -> Result<CallPlan, Memory>
        ensures { IfOk result (λ plan. plan_of plan ≡ record { failing = (plan_of self.now).failing; room = (plan_of self.now).room; made = 0 }) }
    {
        CallPlan::new(alloc, self.failing.as_slice(), self.room)
    }
}
