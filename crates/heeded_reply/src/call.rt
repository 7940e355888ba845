// One call whose reply's marks are asked about.

ghost use Rattle.std.specs.Prelude.{◌≡◌, IfOk, None};
ghost use Rattle.sealed.specs.Sealing.{IsSealedFor};
ghost use Rattle.node_files.specs.Moments.{node_seen};
ghost use Rattle.node_files.specs.declared.parts.Parts.{Parts};
ghost use Rattle.fed_resolver.specs.Outcomes.{HasChainEnd, HasConfigs};
ghost use Rattle.fed_resolver.specs.Told.{situation_of};
ghost use Rattle.resolve_reply.specs.Replies.{SaysReply};
ghost use Rattle.resolve_call.specs.Calls.{HoldsWorn, WornBy};
ghost use Rattle.resolve_call.specs.Ports.{call_seen};
ghost use Rattle.http_plain.specs.Networks.{listening_seen, network_seen};
ghost use Rattle.heeded_reply.specs.Calls.{HearsBy, HeedsOnce, IsHeardAt, outcome_of};
ghost use Rattle.heeded_reply.specs.Heeding.{caller_of};
ghost use Rattle.heeded_reply.specs.Stages.{IsOpenHeeding, wire_seen};

use crate::heeding::{Asked, heed_reply};
use crate::reply::{Heard, HeededReply};
use fed_base::{Duplicate, Memory, OpensLedgers, Seq, Text};
use fed_ports::{Clock, Network, Store};
use fed_resolver::{Outcome, ResolveRequest, Signer};
use http_plain::Route;
use node_files::{NodeFault, Parts, open_resolver, parts_of};
use plain_notes::Notes;
use resolve_call::laws::follows;
use resolve_call::{OpenCall, open_call, resolve_at};
use statement_shelf::FedPass;
use std::alloc::Global;
use std::sync::Wait;
use std::thread::Threads;

/// A call that is ready, and what its reply's marks are asked about with.
#[derive(Drop)]
pub(crate) struct OpenHeeding<N> {
    pub(crate) call: OpenCall<N>,
    /// Who signs the reply.
    pub(crate) signer: Signer,
    /// Where hosts are reached.
    pub(crate) routes: Seq<Route>,
    /// What stands in the network's place during the posts.
    pub(crate) another: N,
}

/// What the node of a configuration file answers to a request for an entity's resolved metadata (OpenID Federation 1.0 section 8.3), as
/// [`resolve_call::resolve_once`], and what becomes of its reply once each issuer of a mark that names a status endpoint was asked
/// about it (section 8.4), over the same network: a mark is left out where it isn't active. A post that fails doesn't fail the call.
pub fn heed_once<R: Wait + Threads + OpensLedgers + Sync, D: Store, N: Network + Drop, C: Clock>(
    rt: &R,
    alloc: Global,
    config: &Text,
    request: &ResolveRequest,
    store: &mut D,
    net: &mut N,
    clock: &mut C,
    worn: &mut Option<FedPass>,
    notes: &mut Notes,
) -> Result<Heard, NodeFault>
    requires { worn.old ≡ None }
    ensures heeds { HeedsOnce (record { config = config.now; request = request.now })
        (node_seen D.Store store.old (call_seen N.Network C.Clock net.old clock.old))
        (node_seen D.Store store.new (call_seen N.Network C.Clock net.new clock.new)) result }
    ensures worn { WornBy (outcome_of result) worn.new }
    // The network listens as before, and nobody was accepted or settled.
    ensures still { listening_seen N.Network net.new ≡ listening_seen N.Network net.old }
{
    let registry = open_resolver(alloc, config, store, notes)?;
    let parts = parts_of(alloc, &registry);
    drop(registry);
    let parts = parts?;
    let call = open_heeding(alloc, parts, net)?;
    follows();
    // The clock is read once all memory is taken that is needed before the call.
    let moment = clock.now();
    Ok(heed_at(rt, alloc, call, request, moment, net, worn))
}

// Makes a call by the parts of a node ready, over this network.
fn open_heeding<N: Network + Drop>(
    alloc: Global,
    parts: Parts,
    net: &N,
) -> Result<OpenHeeding<N>, Memory>
    ensures { IfOk result (IsOpenHeeding parts) }
{
    let signer = parts.signer.copy(alloc)?;
    let routes = parts.routes.copy(alloc)?;
    let another = net.another(alloc)?;
    let call = open_call(alloc, parts, net)?;
    Ok(OpenHeeding {
        call,
        signer,
        routes,
        another,
    })
}

// Makes the call at the moment, in seconds since 1970, and asks about its reply's marks.
fn heed_at<R: Wait + Threads + OpensLedgers + Sync, N: Network + Drop>(
    rt: &R,
    alloc: Global,
    call: OpenHeeding<N>,
    request: &ResolveRequest,
    moment: u64,
    net: &mut N,
    worn: &mut Option<FedPass>,
) -> Heard
    requires none { worn.old ≡ None }
    requires ready { (parts : Parts) × IsOpenHeeding parts call }
    ensures heard { (parts : Parts) → IsOpenHeeding parts call
        → IsHeardAt parts request.now moment (network_seen N.Network net.old) (network_seen N.Network net.new) result }
    ensures worn { HoldsWorn result.outcome.result worn.new }
    ensures still { listening_seen N.Network net.new ≡ listening_seen N.Network net.old }
{
    let OpenHeeding {
        call,
        signer,
        routes,
        another,
    } = call;
    let outcome = resolve_at(rt, alloc, call, request, moment, net, worn);
    let asked = Asked {
        rt,
        alloc,
        signer: &signer,
        moment,
    };
    let reply = heed_outcome(&asked, request, &outcome, routes, another, net);
    Heard { outcome, reply }
}

// The outcome's reply, where it has one, once its marks were asked about.
fn heed_outcome<R: Threads + OpensLedgers + Sync, N: Network + Drop>(
    asked: &Asked<R>,
    request: &ResolveRequest,
    outcome: &Outcome,
    routes: Seq<Route>,
    another: N,
    net: &mut N,
) -> Option<HeededReply>
    requires says { IfOk outcome.now.result (λ reply. SaysReply reply.claims) }
    requires sealed { IfOk outcome.now.result (λ reply. IsSealedFor asked.now.signer.now.keys reply.text) }
    requires chain_exp { IfOk outcome.now.result (HasChainEnd (situation_of request.now asked.now.signer.now asked.now.moment) asked.now.signer.now outcome.now.trace) }
    requires configs { IfOk outcome.now.result (HasConfigs (situation_of request.now asked.now.signer.now asked.now.moment) asked.now.signer.now outcome.now.trace) }
    ensures hears { HearsBy (caller_of request.now asked.now.signer.now routes asked.now.moment) outcome.now.trace
        (wire_seen N.Network net.old) (wire_seen N.Network net.new) result outcome.now.result }
    ensures still { listening_seen N.Network net.new ≡ listening_seen N.Network net.old }
{
    match &outcome.result {
        Ok(reply) => match heed_reply(asked, reply, routes, another, net) {
            Ok(heeded) => Some(heeded),
            Err(_) => None,
        },
        Err(_) => {
            drop(routes);
            drop(another);
            None
        }
    }
}
