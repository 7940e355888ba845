// A source in memory, which tells its bytes.

ghost use Rattle.std.specs.Prelude.{◌≡◌, ◌<◌, ◌≤◌, ◌↔◌, Some, [], drop, length, min, IfOk, IsErr, OnErr};
ghost use Rattle.fed_ports.specs.Causes.{HasCause};
ghost use Rattle.fed_ports.specs.Bytes.{Takes};
ghost use Rattle.fed_base.specs.Plans.{after_call, IsDue};

use crate::source::Source;
use fed_base::{CallPlan, Failed, Memory};
use std::alloc::Global;

/// A source of given bytes. Each call gives as many of them as the buffer takes.
#[derive(Drop)]
pub struct MemorySource {
    bytes: Vec<u8>,
    taken: usize,
    plan: CallPlan,
    faults: u64,
}

impl MemorySource {
    ghost use Rattle.fed_ports.specs.MemoryStreams.{source_left, source_plan, source_faults};

    /// A source of a copy of these bytes. The calls whose numbers are listed fail, the first having the number 0, and so does every call
    /// from the number `calls` on.
    pub fn new(
        alloc: Global,
        bytes: &[u8],
        failing: &[u64],
        calls: u64,
    ) -> Result<MemorySource, Memory>
        ensures left { IfOk result (λ source. source_left source ≡ bytes.now) }
        ensures plan { IfOk result (λ source. source_plan source ≡ record { failing = failing.now; room = calls; made = 0 }) }
        ensures faults { IfOk result (λ source. source_faults source ≡ 0) }
    {
        let bytes = Vec::from_slice(alloc, bytes)?;
        let plan = CallPlan::new(alloc, failing, calls)?;
        Ok(MemorySource {
            bytes,
            taken: 0,
            plan,
            faults: 0,
        })
    }
}

impl Source for MemorySource {
    ghost use Rattle.fed_ports.specs.MemoryStreams.{source_left, source_plan, source_faults};

    ghost left = { λ source. Some (drop source.taken source.bytes.items) };

    ghost source_side = { λ _. (Some [], 0) };

    ghost read_faults = { λ source. source.faults };

    fn take(&mut self, into: &mut [u8]) -> Result<usize, Failed>
        requires { 0 < length into.old }
        ensures within { IfOk result (λ n. n ≤ length into.old) }
        ensures bytes { IfOk result (λ n. Takes (Some (source_left self.old)) (Some (source_left self.new)) into.old into.new n) }
        ensures err { OnErr result (source_left self.new ≡ source_left self.old) }
        ensures buffer { OnErr result (into.new ≡ into.old) }
        ensures cause { HasCause (source_faults self.old) (source_faults self.new) result }
        // It fails exactly where the call is to fail, and else gives all that the buffer takes.
        ensures planned { IsErr result ↔ IsDue (source_plan self.old) }
        ensures counted { source_plan self.new ≡ after_call (source_plan self.old) }
        ensures most { IfOk result (λ n. n ≡ min (length (source_left self.old)) (length into.old)) }
    {
        if self.plan.next_fails() {
            self.faults = self.faults.saturating_add(1);
            return Err(Failed);
        }
        let rest = self.bytes.get(self.taken..).unwrap_or(&[]);
        let n = rest.len().min(into.len());
        into[..n].copy_from_slice(&rest[..n]);
        self.taken += n;
        Ok(n)
    }
}
