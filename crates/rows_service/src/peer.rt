// A connection that tells other threads when it is answered.

ghost use Rattle.std.specs.Prelude.{Some};
ghost use Rattle.std.proofs.Common.{refl};

use crate::flag::Flag;
use fed_base::{Failed, Memory};
use fed_net::MemoryPeer;
use fed_ports::{Peer, Sink, Source};
use std::alloc::Global;

// How many bytes it takes at most.
const ROOM: usize = 100_000;

// How often it is read from and given bytes at most.
const CALLS: u64 = 1000;

/// What a caller asks for, and the flag that is raised when it is answered.
#[derive(Clone, Copy, Drop)]
pub(crate) struct Caller<'a> {
    pub(crate) request: &'static [u8],
    pub(crate) answered: &'a Flag,
}

/// One end of a connection in memory, which raises a flag when it is given bytes.
#[derive(Drop)]
pub(crate) struct TellingPeer<'a> {
    peer: MemoryPeer,
    answered: &'a Flag,
}

impl<'a> TellingPeer<'a> {
    /// A peer that this caller is at the other end of.
    pub(crate) fn new(alloc: Global, caller: Caller<'a>) -> Result<TellingPeer<'a>, Memory> {
        Ok(TellingPeer {
            peer: MemoryPeer::new(alloc, caller.request, ROOM, &[], &[], CALLS)?,
            answered: caller.answered,
        })
    }

    /// The bytes that it was given.
    pub(crate) fn as_slice(&self) -> &[u8] {
        self.peer.as_slice()
    }
}

impl<'a> Source for TellingPeer<'a> {
    ghost use Rattle.std.specs.Prelude.{Some};
    ghost use Rattle.fed_net.specs.MemoryPeers.{peer_left, peer_read_faults, peer_written};

    ghost left = { λ peer. Some (peer_left peer.peer) };

    ghost source_side = { λ peer. peer_written peer.peer };

    ghost read_faults = { λ peer. peer_read_faults peer.peer };

    fn take(&mut self, into: &mut [u8]) -> Result<usize, Failed> {
        self.peer.take(into)
    }
}

impl<'a> Sink for TellingPeer<'a> {
    ghost use Rattle.std.specs.Prelude.{Some};
    ghost use Rattle.fed_net.specs.MemoryPeers.{peer_held, peer_to_read, peer_write_faults};

    ghost held = { λ peer. Some (peer_held peer.peer) };

    ghost sink_side = { λ peer. peer_to_read peer.peer };

    ghost write_faults = { λ peer. peer_write_faults peer.peer };

    fn give(&mut self, piece: &[u8]) -> Result<usize, Failed> {
        let given = self.peer.give(piece);
        self.answered.raise();
        given
    }
}

impl<'a> Peer for TellingPeer<'a> {
    ghost source_side_is = { λ peer. refl };

    ghost sink_side_is = { λ peer. refl };
}
