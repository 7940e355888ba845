// One end of a connection in memory, which tells its bytes.

ghost use Rattle.std.specs.Prelude.{◌≡◌, ◌<◌, ◌≤◌, ◌-◌, ◌↔◌, ◌⊎◌, ◌++◌, Some, [], drop, length, min, take, IfOk, IsErr, OnErr};
ghost use Rattle.std.proofs.Common.{refl};
ghost use Rattle.fed_ports.specs.Bytes.{Appends, Takes};
ghost use Rattle.fed_ports.specs.Causes.{HasCause};
ghost use Rattle.fed_base.specs.Plans.{after_call, IsDue};
ghost use Rattle.fed_net.specs.MemoryPeers.{peer_left, peer_held, peer_room, peer_reads, peer_writes, peer_read_faults, peer_write_faults, peer_written, peer_to_read};

use fed_base::{Failed, Memory};
use fed_ports::{MemorySink, MemorySource, Peer, Sink, Source};
use std::alloc::Global;

/// One end of a connection: a source of given bytes, and a sink that keeps what it is given.
#[derive(Drop)]
pub struct MemoryPeer {
    source: MemorySource,
    sink: MemorySink,
}

impl MemoryPeer {
    /// A peer of which these bytes are read, and which was given none yet, with room for this many, which is taken here. The readings and
    /// the writings whose numbers are listed fail, each first one having the number 0, and so does each from the number `calls` on, and a
    /// writing without room for a byte.
    pub fn new(
        alloc: Global,
        bytes: &[u8],
        room: usize,
        failing_reads: &[u64],
        failing_writes: &[u64],
        calls: u64,
    ) -> Result<MemoryPeer, Memory>
        ensures left { IfOk result (λ peer. peer_left peer ≡ bytes.now) }
        ensures held { IfOk result (λ peer. peer_held peer ≡ []) }
        ensures room { IfOk result (λ peer. peer_room peer ≡ room) }
        ensures reads { IfOk result (λ peer. peer_reads peer ≡ record { failing = failing_reads.now; room = calls; made = 0 }) }
        ensures writes { IfOk result (λ peer. peer_writes peer ≡ record { failing = failing_writes.now; room = calls; made = 0 }) }
        ensures read_faults { IfOk result (λ peer. peer_read_faults peer ≡ 0) }
        ensures write_faults { IfOk result (λ peer. peer_write_faults peer ≡ 0) }
    {
        let source = MemorySource::new(alloc, bytes, failing_reads, calls)?;
        let sink = MemorySink::new(alloc, room, failing_writes, calls)?;
        Ok(MemoryPeer { source, sink })
    }

    /// The bytes that it was given.
    pub fn as_slice(&self) -> &[u8]
        ensures { result.now ≡ peer_held self.now }
    {
        self.sink.as_slice()
    }
}

impl Source for MemoryPeer {
    ghost left = { λ peer. Some (peer_left peer) };

    ghost source_side = { λ peer. peer_written peer };

    ghost read_faults = { λ peer. peer_read_faults peer };

    fn take(&mut self, into: &mut [u8]) -> Result<usize, Failed>
        requires { 0 < length into.old }
        ensures within { IfOk result (λ n. n ≤ length into.old) }
        ensures bytes { IfOk result (λ n. Takes (Some (peer_left self.old)) (Some (peer_left self.new)) into.old into.new n) }
        ensures err { OnErr result (peer_left self.new ≡ peer_left self.old) }
        ensures buffer { OnErr result (into.new ≡ into.old) }
        ensures side { peer_written self.new ≡ peer_written self.old }
        ensures cause { HasCause (peer_read_faults self.old) (peer_read_faults self.new) result }
        // It fails exactly where the reading is to fail, and else gives all that the buffer takes.
        ensures planned { IsErr result ↔ IsDue (peer_reads self.old) }
        ensures counted { peer_reads self.new ≡ after_call (peer_reads self.old) }
        ensures most { IfOk result (λ n. n ≡ min (length (peer_left self.old)) (length into.old)) }
    {
        self.source.take(into)
    }
}

impl Sink for MemoryPeer {
    ghost held = { λ peer. Some (peer_held peer) };

    ghost sink_side = { λ peer. peer_to_read peer };

    ghost write_faults = { λ peer. peer_write_faults peer };

    fn give(&mut self, piece: &[u8]) -> Result<usize, Failed>
        requires { 0 < length piece.now }
        ensures within { IfOk result (λ n. (1 ≤ n) × (n ≤ length piece.now)) }
        ensures bytes { IfOk result (λ n. peer_held self.new ≡ peer_held self.old ++ take n piece.now) }
        ensures err { OnErr result (peer_held self.new ≡ peer_held self.old) }
        ensures side { peer_to_read self.new ≡ peer_to_read self.old }
        ensures cause { HasCause (peer_write_faults self.old) (peer_write_faults self.new) result }
        // It fails exactly where the writing is to fail or there is no room, and else takes all that there is room for.
        ensures planned { IsErr result ↔ (IsDue (peer_writes self.old) ⊎ (peer_room self.old ≤ length (peer_held self.old))) }
        ensures counted { peer_writes self.new ≡ after_call (peer_writes self.old) }
        ensures most { IfOk result (λ n. n ≡ min (length piece.now) (peer_room self.old - length (peer_held self.old))) }
    {
        self.sink.give(piece)
    }
}

impl Peer for MemoryPeer {
    ghost source_side_is = { λ peer. refl };

    ghost sink_side_is = { λ peer. refl };
}
