// One request of a rehearsal.

ghost use Rattle.std.specs.Prelude.{◌≡◌, IfErr, IfOk, IfSome, Some};
ghost use Rattle.fed_base.specs.Ledgers.{plain_count};
ghost use Rattle.statement_shelf.specs.Passes.{IsPassOfAll};
ghost use Rattle.turn_log.specs.Groups.{known};
ghost use Rattle.resolve_round.specs.Acts.{IsKept};
ghost use Rattle.rehearsal.specs.declared.fault.RehearsalFault.TheVariants.{Memory as WantOfMemory};
ghost use Rattle.rehearsal.specs.Requests.{IsAnswer, IsBrokenOff, IsHandedOn, IsWornBy, IsWornOf, shared_at};

use crate::clock::StandingClock;
use crate::fault::RehearsalFault;
use fed_base::{Plain, Steps};
use fed_net::{MemoryLink, MemoryPeer};
use fed_serve::{Node, ServeFault, Served, serve_one};
use resolve_round::Trace;
use statement_shelf::FedPass;
use std::alloc::Global;
use std::sync::Wait;
use std::thread::Threads;

// The leaf is to be resolved up to the trust anchor.
const REQUEST: &[u8] =
    b"GET /resolve?sub=https%3A%2F%2Frp.example&trust_anchor=https%3A%2F%2Fta.example HTTP/1.1\r\nHost: resolver.example\r\n\r\n";

// How many bytes a response may have: those of a reply and its head.
const ROOM: usize = 300_000;

// How often a peer is read from and written to at most.
const CALLS: u64 = 1_000_000;

/// The peer that was answered, and what the resolve call did.
#[derive(Drop)]
pub(crate) struct Answer {
    pub(crate) peer: MemoryPeer,
    pub(crate) trace: Trace,
}

/// Asks the resolver's node for the leaf. A response of another status than 200 comes for want of memory.
pub(crate) fn ask<R: Wait + Threads + Sync>(
    rt: &R,
    alloc: Global,
    node: &Node,
    pass: &mut FedPass,
    link: &mut MemoryLink,
    clock: &mut StandingClock,
    steps: &mut Steps<Plain>,
) -> Result<Answer, RehearsalFault>
    requires of { IfSome node.now.resolver (λ part. IsPassOfAll part.commons pass.old) }
    ensures kept { IfOk result (λ _. IfSome node.now.resolver (λ part. IsKept part.commons pass.old pass.new)) }
    ensures answer { IfOk result (IsAnswer node.now (shared_at link.old clock.old.readings (known pass.old) (plain_count steps.old.ledger))
        (shared_at link.new clock.new.readings (known pass.new) (plain_count steps.new.ledger))) }
    ensures worn { IfErr result (IsWornOf (known pass.new)) }
{
    let mut peer = MemoryPeer::new(alloc, REQUEST, ROOM, &[], &[], CALLS)?;
    let served = serve_one(node, rt, alloc, pass, &mut peer, link, clock, steps);
    hand_on(peer, served)
}

// What was served, where it was answered 200.
fn hand_on(peer: MemoryPeer, served: Result<Served, ServeFault>) -> Result<Answer, RehearsalFault>
    ensures answer { IfOk result (IsHandedOn peer served) }
    ensures worn { IfErr result (IsWornBy served) }
{
    match served {
        Ok(served) => answered(peer, served),
        Err(fault) => {
            drop(peer);
            Err(broken_off(fault))
        }
    }
}

fn answered(peer: MemoryPeer, served: Served) -> Result<Answer, RehearsalFault>
    ensures answer { IfOk result (λ answer. (served.status ≡ 200) × (served.trace ≡ Some answer.trace) × (answer.peer ≡ peer)) }
    ensures unworn { IfErr result (λ fault. fault ≡ WantOfMemory) }
{
    let Served {
        kind: _,
        status,
        trace,
    } = served;
    match trace {
        Some(trace) if status == 200 => Ok(Answer { peer, trace }),
        trace => {
            drop(trace);
            drop(peer);
            Err(RehearsalFault::Memory)
        }
    }
}

// Why nothing was answered.
fn broken_off(fault: ServeFault) -> RehearsalFault
    ensures { IsBrokenOff fault result }
{
    match fault {
        ServeFault::Worn(_) => RehearsalFault::Worn,
        ServeFault::ReadFault | ServeFault::WriteFault | ServeFault::Ended =>
            RehearsalFault::Memory,
    }
}
