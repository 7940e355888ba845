// What a node finds of the trust chain of what was posted.

ghost use Rattle.std.specs.Prelude.{◌≡◌, IfOk, IsSome, None};
ghost use Rattle.std.specs.Result.{result_ok};
ghost use Rattle.client_register.specs.Requests.{posted_in};
ghost use Rattle.resolve_reply.specs.Replies.{chain_of};
ghost use Rattle.http_plain.specs.Networks.{listening_seen, network_seen};
ghost use Rattle.register_once.specs.Finding.{IsFoundIn, request_for};
ghost use Rattle.register_once.specs.Opened.{LooksFor, LooksUp, aimed_of};

use client_register::{Found, Posted};
use entity_id::EntityId;
use fed_base::{Duplicate, Memory, OpensLedgers, Seq};
use fed_ports::Network;
use fed_resolver::{Outcome, Refusal, ResolveRequest};
use node_files::Parts;
use plain_notes::Notes;
use resolve_call::{open_call, resolve_at};
use resolve_notes::explain_outcome;
use resolve_reply::{Reply, chain_of};
use statement_shelf::FedPass;
use std::alloc::Global;
use std::sync::Wait;
use std::thread::Threads;

/// By which parts of a node, at which moment, in seconds since 1970, and up to which trust anchor a chain is looked for.
#[derive(Clone, Copy)]
pub(crate) struct Aim<'a> {
    pub(crate) parts: &'a Parts,
    pub(crate) moment: u64,
    pub(crate) anchor: &'a EntityId,
}

/// What is found of the chain of a posted configuration, by one resolve call from an empty cache (OpenID Federation 1.0 section 8.3). There
/// is nothing where memory was wanting, and where anything else was posted, of which nobody is asked. What is read of an entity that isn't
/// resolved is added to the notes, and `worn` has the pass where a shared object is worn.
pub(crate) fn look_for<R: Wait + Threads + OpensLedgers + Sync, N: Network + Drop>(
    rt: &R,
    alloc: Global,
    aim: Aim<'_>,
    posted: &[u8],
    net: &mut N,
    worn: &mut Option<FedPass>,
    notes: &mut Notes,
) -> Option<Found>
    requires { worn.old ≡ None }
    ensures looks { LooksFor (aimed_of aim.entry) (network_seen N.Network net.old) (network_seen N.Network net.new) (posted_in posted.now) result worn.new }
    // The network listens as before, and nobody was accepted or settled.
    ensures still { listening_seen N.Network net.new ≡ listening_seen N.Network net.old }
{
    match Posted::read(alloc, posted) {
        Ok(Posted::Configuration(entity)) => {
            look_up(rt, alloc, aim, &entity, net, worn, notes).ok()
        }
        Ok(Posted::Chain(_) | Posted::Neither) | Err(_) => None,
    }
}

// Makes one resolve call for an entity.
fn look_up<R: Wait + Threads + OpensLedgers + Sync, N: Network + Drop>(
    rt: &R,
    alloc: Global,
    aim: Aim<'_>,
    entity: &EntityId,
    net: &mut N,
    worn: &mut Option<FedPass>,
    notes: &mut Notes,
) -> Result<Found, Memory>
    requires { worn.old ≡ None }
    ensures looks { LooksUp (aimed_of aim.entry) entity.now (network_seen N.Network net.old) (network_seen N.Network net.new) (result_ok result) worn.new }
    ensures still { listening_seen N.Network net.new ≡ listening_seen N.Network net.old }
{
    let parts = copied_parts(alloc, aim.parts)?;
    let call = open_call(alloc, parts, net)?;
    let request = request_for(alloc, entity, aim.anchor)?;
    let outcome = resolve_at(rt, alloc, call, &request, aim.moment, net, worn);
    tell(rt, alloc, &request, &outcome, notes);
    let Outcome { result, trace } = outcome;
    drop(trace);
    found_in(alloc, result)
}

// Says why no chain was found. Where memory was wanting the end of the command says so.
fn tell<R: OpensLedgers>(
    rt: &R,
    alloc: Global,
    request: &ResolveRequest,
    outcome: &Outcome,
    notes: &mut Notes,
) {
    if !matches!(&outcome.result, Err(Refusal::Memory)) {
        explain_outcome(rt, alloc, request, outcome, notes);
    }
}

// The parts once more.
fn copied_parts(alloc: Global, parts: &Parts) -> Result<Parts, Memory>
    ensures { IfOk result (λ copy. copy ≡ parts.now) }
{
    let signer = parts.signer.copy(alloc)?;
    let anchors = parts.anchors.copy(alloc)?;
    let routes = parts.routes.copy(alloc)?;
    let control = parts.control.copy(alloc)?;
    Ok(Parts {
        signer,
        anchors,
        routes,
        control,
        workers: parts.workers,
    })
}

// All types of an entity's metadata are asked for.
fn request_for(alloc: Global, leaf: &EntityId, anchor: &EntityId) -> Result<ResolveRequest, Memory>
    ensures { IfOk result (λ request. request ≡ request_for leaf.now anchor.now) }
{
    let sub = leaf.copy(alloc)?;
    let anchor = anchor.copy(alloc)?;
    Ok(ResolveRequest {
        sub,
        anchor,
        types: Seq::new(alloc),
    })
}

// What a call's result says of a chain. That of a reply is taken from its claims, since its text may be too long to be read.
fn found_in(alloc: Global, answered: Result<Reply, Refusal>) -> Result<Found, Memory>
    requires { IfOk answered (λ reply. IsSome (chain_of reply.claims)) }
    ensures { IsFoundIn answered result }
{
    match answered {
        Ok(reply) => found_of(alloc, reply),
        Err(Refusal::Unavailable) => Ok(Found::Fault),
        Err(Refusal::Budget { calls: _, paths: _ }) => Ok(Found::Spent),
        Err(Refusal::Memory) => Err(Memory),
        Err(
            Refusal::NoAnchor
            | Refusal::NotFound
            | Refusal::PolicyOnly
            | Refusal::NoChain
            | Refusal::Worn(_),
        ) => Ok(Found::NoChain),
    }
}

// The chain that a reply claims.
fn found_of(alloc: Global, reply: Reply) -> Result<Found, Memory>
    requires { IsSome (chain_of reply.claims) }
    ensures { IsFoundIn (Ok reply) result }
{
    let chain = chain_of(alloc, &reply.claims);
    drop(reply);
    match chain? {
        Some(chain) => Ok(Found::Chain(chain)),
        None => unreachable!(),
    }
}
