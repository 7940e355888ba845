// A network in memory, which tells its exchanges and its callers.

ghost use Rattle.std.specs.Prelude.{◌≡◌, Some, [], IfOk, IfSome, option_copied};
ghost use Rattle.fed_net.specs.MemoryNetworks.{sent_of, told_of, IsOpen};

use crate::memory_connections::Connections;
use crate::memory_peer::MemoryPeer;
use fed_base::{Duplicate, Failed, Memory, Seq, Text};
use fed_ports::{Address, CallPlan, Network};
use std::alloc::Global;

/// A network of given answers and given callers. The connection that is opened first receives the first answer, whatever its address and
/// whatever is sent, and so on; then each `open` fails. The callers are accepted in order; then each `accept` fails.
#[derive(Drop)]
pub struct MemoryNetwork {
    answers: Seq<Text>,
    room: usize,
    connections: Connections,
    listening: Option<u16>,
    callers: Vec<MemoryPeer>,
    settled: Vec<MemoryPeer>,
    plan: CallPlan,
    faults: u64,
}

impl MemoryNetwork {
    /// A network of which no call was made. As many bytes as `room` says can be sent on each connection; that room and the room for
    /// `calls` calls are taken here. The calls whose numbers are listed fail, the first having the number 0, and so does every call from
    /// the number `calls` on. `shut`, `settle` and `another` aren't counted.
    pub fn new(
        alloc: Global,
        answers: Seq<Text>,
        callers: Seq<MemoryPeer>,
        room: usize,
        failing: &[u64],
        calls: u64,
    ) -> Result<MemoryNetwork, Memory>
        ensures faults { IfOk result (λ network. ⟦<MemoryNetwork as Network>⟧.faults network ≡ 0) }
        ensures exchanges { IfOk result (λ network. ⟦<MemoryNetwork as Network>⟧.exchanges network ≡ Some []) }
        ensures callers { IfOk result (λ network. ⟦<MemoryNetwork as Network>⟧.callers network ≡ Some callers) }
        ensures settled { IfOk result (λ network. ⟦<MemoryNetwork as Network>⟧.settled network ≡ Some []) }
    {
        let connections = Connections::new(alloc, answers.as_slice(), room, calls)?;
        let settled = Vec::with_capacity(alloc, callers.len())?;
        let plan = CallPlan::new(alloc, failing, calls)?;
        Ok(MemoryNetwork {
            answers,
            room,
            connections,
            listening: None,
            callers: callers.into_vec(),
            settled,
            plan,
            faults: 0,
        })
    }

    /// The bytes that were sent on the connection of that number, the first having the number 0, or `None` where there is none.
    pub fn sent(&self, number: usize) -> Option<&[u8]>
        ensures { IfSome (⟦<MemoryNetwork as Network>⟧.exchanges self.now) (λ told. option_copied result ≡ sent_of told number) }
    {
        self.connections.sent(number)
    }

    /// The callers that were settled, in order and as they stood then.
    pub fn settled(&self) -> &[MemoryPeer]
        ensures { Some result.now ≡ ⟦<MemoryNetwork as Network>⟧.settled self.now }
    {
        self.settled.as_slice()
    }
}

impl Network for MemoryNetwork {
    type Peer = MemoryPeer;

    ghost faults = { λ network. network.faults };

    ghost is_open = { λ network. IsOpen network.connections };

    ghost port = { λ network. network.listening };

    ghost exchanges = { λ network. told_of network.connections };

    ghost callers = { λ network. Some network.callers.items };

    ghost settled = { λ network. Some network.settled.items };

    fn open(&mut self, to: &Address) -> Result<(), Failed> {
        let fails = self.plan.next_fails();
        if self.connections.open(to, fails) {
            return Ok(());
        }
        self.faults = self.faults.saturating_add(1);
        Err(Failed)
    }

    fn send(&mut self, piece: &[u8]) -> Result<usize, Failed> {
        let fails = self.plan.next_fails();
        if let Some(n) = self.connections.send(piece, fails) {
            return Ok(n);
        }
        self.faults = self.faults.saturating_add(1);
        Err(Failed)
    }

    fn receive(&mut self, into: &mut [u8]) -> Result<usize, Failed> {
        let fails = self.plan.next_fails();
        if let Some(n) = self.connections.receive(into, fails) {
            return Ok(n);
        }
        self.faults = self.faults.saturating_add(1);
        Err(Failed)
    }

    fn shut(&mut self) {
        self.connections.shut();
    }

    fn listen(&mut self, to: u16) -> Result<(), Failed> {
        if self.plan.next_fails() {
            self.faults = self.faults.saturating_add(1);
            return Err(Failed);
        }
        self.listening = Some(to);
        Ok(())
    }

    fn accept(&mut self) -> Result<MemoryPeer, Failed> {
        if self.plan.next_fails() || self.callers.is_empty() {
            self.faults = self.faults.saturating_add(1);
            return Err(Failed);
        }
        Ok(self.callers.remove(0))
    }

    fn settle(&mut self, _alloc: Global, peer: MemoryPeer) -> Result<(), Memory> {
        self.settled.push(peer)?;
        Ok(())
    }

    fn another(&self, alloc: Global) -> Result<Self, Memory> {
        let answers = self.answers.copy(alloc)?;
        let connections = Connections::new(alloc, answers.as_slice(), self.room, self.plan.room())?;
        let plan = self.plan.again(alloc)?;
        Ok(MemoryNetwork {
            answers,
            room: self.room,
            connections,
            listening: None,
            callers: Vec::new(alloc),
            settled: Vec::new(alloc),
            plan,
            faults: 0,
        })
    }
}
