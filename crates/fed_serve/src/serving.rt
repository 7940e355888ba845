// One connection.

ghost use Rattle.std.specs.Prelude.{IfSome};
ghost use Rattle.turn_log.specs.Groups.{known};
ghost use Rattle.statement_shelf.specs.Passes.{IsPassOfAll};
ghost use Rattle.resolve_round.specs.Acts.{IsKept};
ghost use Rattle.fed_resolver.specs.Calls.{GaveAll};
ghost use Rattle.fed_serve.specs.Resolutions.{call_at};
ghost use Rattle.fed_serve.specs.Moments.{answer_at, around, peer_at};
ghost use Rattle.fed_serve.specs.Serving.{Serves};
ghost use Rattle.fed_serve.specs.Steps.{IsMadeOf, IsReading, came_of};
ghost use Rattle.fed_ports.specs.Times.{clock_at};

use crate::context::Context;
use crate::handling::{Answer, answer_to, plain};
use crate::node::Node;
use crate::send::send_answer;
use crate::served::Served;
use crate::time::{ByClock, TimeSource};
use fed_ports::{Clock, Ledger, Link, Memory, Peer, Steps};
use http_plain::{Incoming, ReadEnd, read_request};
use node_requests::Kind;
use statement_shelf::FedPass;
use std::alloc::Global;
use std::sync::Wait;
use std::thread::Threads;
use thiserror::Error;
use turn_log::Worn;

/// Why no response was written whole.
#[derive(Clone, Copy, Debug, PartialEq, Eq, Drop, Error)]
pub enum ServeFault {
    /// The peer failed to give bytes: its count of failed reads rose in the call, or stands at its last value, 2^64 - 1. Nothing was
    /// written.
    #[error("the request could not be read")]
    ReadFault,
    /// The peer failed to take bytes: its count of failed writes rose in the call, or stands at its last value, 2^64 - 1. A prefix of the
    /// response was written.
    #[error("the response could not be written")]
    WriteFault,
    /// The peer's bytes ended before the request did. Nothing was written.
    #[error("the request ends early")]
    Ended,
    /// A shared object had counted this many calls, which are all that it can. Nothing was written.
    #[error("a shared object is worn")]
    Worn(u64),
}

// Reads a request; none where memory was wanting for it.
fn read<P: Peer>(alloc: Global, peer: &mut P) -> Result<Option<Incoming>, ServeFault>
    ensures { IsReading
        (peer_at (P.left peer.old) (P.held peer.old) (P.read_faults peer.old) (P.write_faults peer.old))
        (peer_at (P.left peer.new) (P.held peer.new) (P.read_faults peer.new) (P.write_faults peer.new))
        result }
{
    match read_request(alloc, peer) {
        Ok(incoming) => Ok(Some(incoming)),
        Err(ReadEnd::Memory) => Ok(None),
        Err(ReadEnd::ReadFault) => Err(ServeFault::ReadFault),
        Err(ReadEnd::Ended) => Err(ServeFault::Ended),
    }
}

/// Serves one connection: reads a request, reads the clock once, and writes one response. What can't be read whole is answered with
/// nothing, and the clock isn't read then. What is no request of the node is answered 400 `invalid_request`, and want of memory 507,
/// which takes no memory. A node that resolves makes one resolve call for a request of that kind, with the link and the pass, which is one
/// of the node's shared objects; a node that doesn't resolve touches neither.
pub fn serve_one<R: Wait + Threads + Sync, P: Peer, L: Link, C: Clock, G: Ledger>(
    node: &Node,
    rt: &R,
    alloc: Global,
    pass: &mut FedPass,
    peer: &mut P,
    link: &mut L,
    clock: &mut C,
    steps: &mut Steps<G>,
) -> Result<Served, ServeFault>
    requires of { IfSome node.now.resolver (λ part. IsPassOfAll part.commons pass.old) }
    ensures kept { IfSome node.now.resolver (λ part. IsKept part.commons pass.old pass.new) }
    ensures serves { Serves node.now (GaveAll L.gave link.old link.new)
        (around (peer_at (P.left peer.old) (P.held peer.old) (P.read_faults peer.old) (P.write_faults peer.old))
        (clock_at (C.readings clock.old) (C.last clock.old) (C.told clock.old))
        (call_at (known pass.old) (L.web link.old) (L.calls link.old) (L.link_faults link.old) (G.count steps.old.ledger)))
        (around (peer_at (P.left peer.new) (P.held peer.new) (P.read_faults peer.new) (P.write_faults peer.new))
        (clock_at (C.readings clock.new) (C.last clock.new) (C.told clock.new))
        (call_at (known pass.new) (L.web link.new) (L.calls link.new) (L.link_faults link.new) (G.count steps.new.ledger)))
        result }
{
    serve_by::<R, P, L, C, ByClock, G>(node, rt, alloc, pass, peer, link, clock, steps)
}

// `serve_one`, with the moment from any source.
pub(crate) fn serve_by<R: Wait + Threads + Sync, P: Peer, L: Link, C, S: TimeSource<C>, G: Ledger>(
    node: &Node,
    rt: &R,
    alloc: Global,
    pass: &mut FedPass,
    peer: &mut P,
    link: &mut L,
    clock: &mut C,
    steps: &mut Steps<G>,
) -> Result<Served, ServeFault>
    requires of { IfSome node.now.resolver (λ part. IsPassOfAll part.commons pass.old) }
    ensures kept { IfSome node.now.resolver (λ part. IsKept part.commons pass.old pass.new) }
    ensures serves { Serves node.now (GaveAll L.gave link.old link.new)
        (around (peer_at (P.left peer.old) (P.held peer.old) (P.read_faults peer.old) (P.write_faults peer.old))
        (clock_at (S.readings clock.old) (S.last clock.old) (S.told clock.old))
        (call_at (known pass.old) (L.web link.old) (L.calls link.old) (L.link_faults link.old) (G.count steps.old.ledger)))
        (around (peer_at (P.left peer.new) (P.held peer.new) (P.read_faults peer.new) (P.write_faults peer.new))
        (clock_at (S.readings clock.new) (S.last clock.new) (S.told clock.new))
        (call_at (known pass.new) (L.web link.new) (L.calls link.new) (L.link_faults link.new) (G.count steps.new.ledger)))
        result }
{
    let came = read(alloc, peer)?;
    let answer = answer_came::<R, L, C, S, G>(node, rt, alloc, pass, &came, link, clock, steps);
    drop(came);
    match answer {
        Ok(answer) => send_answer(alloc, peer, answer),
        Err(Worn { count }) => Err(ServeFault::Worn(count)),
    }
}

// What the node answers to what came at the clock's one reading, also where memory was wanting for it.
fn answer_came<R: Wait + Threads + Sync, L: Link, C, S: TimeSource<C>, G: Ledger>(
    node: &Node,
    rt: &R,
    alloc: Global,
    pass: &mut FedPass,
    came: &Option<Incoming>,
    link: &mut L,
    clock: &mut C,
    steps: &mut Steps<G>,
) -> Result<Answer, Worn>
    requires of { IfSome node.now.resolver (λ part. IsPassOfAll part.commons pass.old) }
    ensures kept { IfSome node.now.resolver (λ part. IsKept part.commons pass.old pass.new) }
    ensures made { IsMadeOf node.now (GaveAll L.gave link.old link.new)
        (answer_at (clock_at (S.readings clock.old) (S.last clock.old) (S.told clock.old))
        (call_at (known pass.old) (L.web link.old) (L.calls link.old) (L.link_faults link.old) (G.count steps.old.ledger)))
        (answer_at (clock_at (S.readings clock.new) (S.last clock.new) (S.told clock.new))
        (call_at (known pass.new) (L.web link.new) (L.calls link.new) (L.link_faults link.new) (G.count steps.new.ledger)))
        (came_of came.now) result }
{
    let t = S::now(clock);
    match came {
        Some(came) => {
            let context = Context { rt, alloc, t };
            answer_to(node, &context, pass, came, link, steps)
        }
        None => Ok(plain(Kind::Other, Err(Memory))),
    }
}
