// A connection whose bytes go a few at a time.

ghost use Rattle.std.specs.Prelude.{Some, drop};
ghost use Rattle.std.proofs.Common.{refl};

use fed_base::{Failed, Memory};
use fed_ports::{CallPlan, MemorySink, Peer, Sink, Source};
use std::alloc::Global;

// For how many readings and writings there is room.
const CALLS: u64 = 1000;

// A source of given bytes, of which each reading gives at most so many.
#[derive(Drop)]
struct Few {
    bytes: Vec<u8>,
    taken: usize,
    most: usize,
}

impl Source for Few {
    ghost use Rattle.std.specs.Prelude.{Some, [], drop};

    ghost left = { λ source. Some (drop source.taken source.bytes.items) };

    ghost source_side = { λ _. (Some [], 0) };

    ghost read_faults = { λ _. 0 };

    fn take(&mut self, into: &mut [u8]) -> Result<usize, Failed> {
        let rest = self.bytes.get(self.taken..).unwrap_or(&[]);
        let n = rest.len().min(into.len()).min(self.most.max(1));
        into[..n].copy_from_slice(&rest[..n]);
        self.taken += n;
        Ok(n)
    }
}

/// One end of a connection: a source of given bytes, of which each reading gives at most so many, and a sink that keeps what it is given,
/// of which each writing takes at most so many.
#[derive(Drop)]
pub(crate) struct Pieces {
    source: Few,
    most: usize,
    reads: CallPlan,
    faults: u64,
    sink: MemorySink,
}

impl Pieces {
    /// All the bytes are left, and there is that room. The readings and the writings whose numbers are listed fail, each first one having
    /// the number 0.
    pub(crate) fn new(
        alloc: Global,
        bytes: &[u8],
        most: usize,
        room: usize,
        failing_reads: &[u64],
        failing_writes: &[u64],
    ) -> Result<Pieces, Memory> {
        let bytes = Vec::from_slice(alloc, bytes)?;
        let reads = CallPlan::new(alloc, failing_reads, CALLS)?;
        let sink = MemorySink::new(alloc, room, failing_writes, CALLS)?;
        Ok(Pieces {
            source: Few {
                bytes,
                taken: 0,
                most,
            },
            most,
            reads,
            faults: 0,
            sink,
        })
    }

    /// The bytes that it was given.
    pub(crate) fn as_slice(&self) -> &[u8] {
        self.sink.as_slice()
    }
}

impl Source for Pieces {
    ghost use Rattle.std.specs.Prelude.{Some, drop};
    ghost use Rattle.fed_ports.specs.MemoryStreams.{sink_faults, sink_held};

    ghost left = { λ peer. Some (drop peer.source.taken peer.source.bytes.items) };

    ghost source_side = { λ peer. (Some (sink_held peer.sink), sink_faults peer.sink) };

    ghost read_faults = { λ peer. peer.faults };

    fn take(&mut self, into: &mut [u8]) -> Result<usize, Failed> {
        if self.reads.next_fails() {
            self.faults = self.faults.saturating_add(1);
            return Err(Failed);
        }
        self.source.take(into)
    }
}

impl Sink for Pieces {
    ghost use Rattle.std.specs.Prelude.{Some, drop};
    ghost use Rattle.fed_ports.specs.MemoryStreams.{sink_faults, sink_held};

    ghost held = { λ peer. Some (sink_held peer.sink) };

    ghost sink_side = { λ peer. (Some (drop peer.source.taken peer.source.bytes.items), peer.faults) };

    ghost write_faults = { λ peer. sink_faults peer.sink };

    fn give(&mut self, piece: &[u8]) -> Result<usize, Failed> {
        let most = piece.len().min(self.most.max(1));
        self.sink.give(&piece[..most])
    }
}

impl Peer for Pieces {
    ghost source_side_is = { λ peer. refl };

    ghost sink_side_is = { λ peer. refl };
}
