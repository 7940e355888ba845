// A sink in memory, which tells its bytes.

ghost use Rattle.std.specs.Prelude.{◌≡◌, ◌<◌, ◌≤◌, ◌-◌, ◌↔◌, ◌⊎◌, ◌++◌, Some, [], length, min, take, vec_capacity, IfOk, IsErr, OnErr};
ghost use Rattle.fed_ports.specs.Causes.{HasCause};
ghost use Rattle.fed_ports.specs.Bytes.{Appends};
ghost use Rattle.fed_base.specs.Plans.{after_call, IsDue};

use crate::sink::Sink;
use fed_base::{CallPlan, Failed, Memory};
use std::alloc::Global;

/// A sink that keeps what it is given. Each call takes as much of the piece as there is room for.
#[derive(Drop)]
pub struct MemorySink {
    bytes: Vec<u8>,
    room: usize,
    plan: CallPlan,
    faults: u64,
    ghost reserved: { room ≤ vec_capacity bytes },
}

impl MemorySink {
    ghost use Rattle.fed_ports.specs.MemoryStreams.{sink_held, sink_room, sink_plan, sink_faults};

    /// A sink that holds nothing yet, with room for this many bytes, which is taken here. The calls whose numbers are listed fail, the
    /// first having the number 0, and so does every call from the number `calls` on, or without room for a byte.
    pub fn new(
        alloc: Global,
        room: usize,
        failing: &[u64],
        calls: u64,
    ) -> Result<MemorySink, Memory>
        ensures held { IfOk result (λ sink. sink_held sink ≡ []) }
        ensures room { IfOk result (λ sink. sink_room sink ≡ room) }
        ensures plan { IfOk result (λ sink. sink_plan sink ≡ record { failing = failing.now; room = calls; made = 0 }) }
        ensures faults { IfOk result (λ sink. sink_faults sink ≡ 0) }
    {
        let bytes = Vec::with_capacity(alloc, room)?;
        let plan = CallPlan::new(alloc, failing, calls)?;
        Ok(MemorySink {
            bytes,
            room,
            plan,
            faults: 0,
        })
    }

    /// The bytes that it was given.
    pub fn as_slice(&self) -> &[u8]
        ensures { result.now ≡ sink_held self.now }
    {
        self.bytes.as_slice()
    }
}

impl Sink for MemorySink {
    ghost use Rattle.fed_ports.specs.MemoryStreams.{sink_held, sink_room, sink_plan, sink_faults};

    ghost held = { λ sink. Some sink.bytes.items };

    ghost sink_side = { λ _. (Some [], 0) };

    ghost write_faults = { λ sink. sink.faults };

    fn give(&mut self, piece: &[u8]) -> Result<usize, Failed>
        requires { 0 < length piece.now }
        ensures within { IfOk result (λ n. (1 ≤ n) × (n ≤ length piece.now)) }
        ensures bytes { IfOk result (λ n. sink_held self.new ≡ sink_held self.old ++ take n piece.now) }
        ensures err { OnErr result (sink_held self.new ≡ sink_held self.old) }
        ensures cause { HasCause (sink_faults self.old) (sink_faults self.new) result }
        // It fails exactly where the call is to fail or there is no room, and else takes all that there is room for.
        ensures planned { IsErr result ↔ (IsDue (sink_plan self.old) ⊎ (sink_room self.old ≤ length (sink_held self.old))) }
        ensures counted { sink_plan self.new ≡ after_call (sink_plan self.old) }
        ensures most { IfOk result (λ n. n ≡ min (length piece.now) (sink_room self.old - length (sink_held self.old))) }
        ensures room { sink_room self.new ≡ sink_room self.old }
    {
        let fails = self.plan.next_fails();
        let n = piece.len().min(self.room.saturating_sub(self.bytes.len()));
        if fails || n == 0 {
            self.faults = self.faults.saturating_add(1);
            return Err(Failed);
        }
        self.bytes.extend_from_slice(&piece[..n]).unwrap();
        Ok(n)
    }
}
