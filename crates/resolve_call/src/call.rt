// One call.

ghost use Rattle.std.specs.Prelude.{◌≡◌, IfOk, List, None};
ghost use Rattle.turn_log.specs.Groups.{known};
ghost use Rattle.statement_shelf.specs.declared.calls.AnchorKeys.{AnchorKeys};
ghost use Rattle.resolve_reply.specs.Replies.{SaysReply};
ghost use Rattle.resolve_round.specs.Traces.{asks_in};
ghost use Rattle.fed_resolver.specs.Calls.{GaveAll, WornOnly};
ghost use Rattle.fed_resolver.specs.Outcomes.{HasChainEnd, HasConfigs};
ghost use Rattle.fed_resolver.specs.Told.{situation_of};
ghost use Rattle.node_files.specs.Moments.{node_seen};
ghost use Rattle.node_files.specs.declared.parts.Parts.{Parts};
ghost use Rattle.resolve_call.specs.Calls.{HoldsWorn, ResolvesOnce, WornBy, is_worn};
ghost use Rattle.resolve_call.specs.CallSteps.{FailsBy, IsCallAt, IsNew, IsOpenCall, TellsBy};
ghost use Rattle.resolve_call.specs.Exchanged.{ExchangedBy};
ghost use Rattle.resolve_call.specs.Ports.{call_seen};
ghost use Rattle.http_plain.specs.Networks.{listening_seen, network_seen};

use crate::laws::follows;
use fed_base::{Memory, OpensLedgers, Plain, Seq, Steps, Text};
use fed_ports::{Clock, Link, Network, Store};
use fed_resolver::{Outcome, Refusal, ResolveRequest, Signer, resolve};
use http_plain::{HttpLink, Route};
use node_files::{NodeFault, Parts, open_resolver, parts_of};
use plain_notes::Notes;
use statement_shelf::{Commons, FedPass};
use std::alloc::Global;
use std::mem::replace;
use std::sync::Wait;
use std::thread::Threads;

// What is asked, of which cache and book, who signs the reply, and the moment.
#[derive(Drop)]
struct Asked<'a, R> {
    rt: &'a R,
    alloc: Global,
    commons: &'a Commons,
    signer: &'a Signer,
    request: &'a ResolveRequest,
    moment: u64,
}

/// A resolve call that is ready: all memory is taken that is needed before it begins. Only `resolve_at` uses it.
#[derive(Drop)]
pub struct OpenCall<N> {
    /// An empty cache, and the book of the trust anchors that the parts name.
    pub commons: Commons,
    /// The pass to both, which has seen nothing.
    pub pass: FedPass,
    /// Who signs the reply.
    pub signer: Signer,
    /// Where hosts are reached.
    pub routes: Seq<Route>,
    /// What stands in the network's place during the call.
    pub another: N,
}

/// What the node of a configuration file answers to a request for an entity's resolved metadata, with the trace of what it did (OpenID
/// Federation 1.0 section 8.3), or why there is no such node. It reads the clock once, and keeps nothing: its cache is empty at first, and
/// its keys of trust anchors are those of the configuration. `worn` has the pass where a shared object has counted 2^62 calls.
pub fn resolve_once<R: Wait + Threads + OpensLedgers + Sync, D: Store, N: Network + Drop, C: Clock>(
    rt: &R,
    alloc: Global,
    config: &Text,
    request: &ResolveRequest,
    store: &mut D,
    net: &mut N,
    clock: &mut C,
    worn: &mut Option<FedPass>,
    notes: &mut Notes,
) -> Result<Outcome, NodeFault>
    requires { worn.old ≡ None }
    ensures resolves { ResolvesOnce (record { config = config.now; request = request.now })
        (node_seen D.Store store.old (call_seen N.Network C.Clock net.old clock.old))
        (node_seen D.Store store.new (call_seen N.Network C.Clock net.new clock.new)) result }
    ensures worn { WornBy result worn.new }
    // The network listens as before, and nobody was accepted or settled.
    ensures still { listening_seen N.Network net.new ≡ listening_seen N.Network net.old }
{
    let registry = open_resolver(alloc, config, store, notes)?;
    let parts = parts_of(alloc, &registry);
    drop(registry);
    let parts = parts?;
    let call = open_call(alloc, parts, net)?;
    follows();
    // The clock is read once all memory is taken that is needed before the call.
    let moment = clock.now();
    Ok(resolve_at(rt, alloc, call, request, moment, net, worn))
}

/// Makes a resolve call by the parts of a node ready, over this network.
pub fn open_call<N: Network>(alloc: Global, parts: Parts, net: &N) -> Result<OpenCall<N>, Memory>
    ensures { IfOk result (IsOpenCall parts) }
{
    let Parts {
        signer,
        anchors,
        routes,
        control,
        workers: _,
    } = parts;
    drop(control);
    let (commons, pass) = Commons::new(alloc, anchors)?;
    let another = net.another(alloc)?;
    Ok(OpenCall {
        commons,
        pass,
        signer,
        routes,
        another,
    })
}

/// What a node of these parts answers to a request for an entity's resolved metadata, at a moment in seconds since 1970, with the trace of
/// what it did (OpenID Federation 1.0 section 8.3). `worn` has the pass where a shared object has counted 2^62 calls.
pub fn resolve_at<R: Wait + Threads + OpensLedgers + Sync, N: Network + Drop>(
    rt: &R,
    alloc: Global,
    call: OpenCall<N>,
    request: &ResolveRequest,
    moment: u64,
    net: &mut N,
    worn: &mut Option<FedPass>,
) -> Outcome
    requires none { worn.old ≡ None }
    requires ready { (parts : Parts) × IsOpenCall parts call }
    // It is the call that those parts make.
    ensures call { (parts : Parts) → IsOpenCall parts call
        → IsCallAt parts request.now moment (network_seen N.Network net.old) (network_seen N.Network net.new) result }
    ensures worn { HoldsWorn result.result worn.new }
    // The network listens as before, and nobody was accepted or settled.
    ensures still { listening_seen N.Network net.new ≡ listening_seen N.Network net.old }
    // The claims of a reply can be sealed anew, with another end and other marks. Beside it stand the end of its chain, and for each of its
    // marks the configuration that the mark was judged by.
    ensures says { IfOk result.result (λ reply. SaysReply reply.claims) }
    ensures chain_exp { IfOk result.result (HasChainEnd (situation_of request.now call.signer moment) call.signer result.trace) }
    ensures configs { IfOk result.result (HasConfigs (situation_of request.now call.signer moment) call.signer result.trace) }
{
    let OpenCall {
        commons,
        mut pass,
        signer,
        routes,
        another,
    } = call;
    let asked = Asked {
        rt,
        alloc,
        commons: &commons,
        signer: &signer,
        request,
        moment,
    };
    let outcome = call_over(&asked, &mut pass, routes, another, net);
    hold_worn(&outcome, pass, worn);
    outcome
}

// Hands the pass out where a shared object was worn.
fn hold_worn(outcome: &Outcome, pass: FedPass, worn: &mut Option<FedPass>)
    requires none { worn.old ≡ None }
    requires only { WornOnly (known pass) outcome.now.result }
    ensures { HoldsWorn outcome.now.result worn.new }
{
    if is_worn(outcome) {
        *worn = Some(pass);
    }
}

fn is_worn(outcome: &Outcome) -> bool
    ensures { result ≡ is_worn outcome.now.result }
{
    matches!(&outcome.result, Err(Refusal::Worn(_)))
}

// One call over the network, in whose place another stands meanwhile.
fn call_over<R: Wait + Threads + OpensLedgers + Sync, N: Network + Drop>(
    asked: &Asked<R>,
    pass: &mut FedPass,
    routes: Seq<Route>,
    another: N,
    net: &mut N,
) -> Outcome
    requires { (anchors : List AnchorKeys) × IsNew asked.now.commons.now anchors pass.old }
    ensures told { (anchors : List AnchorKeys) → IsNew asked.now.commons.now anchors pass.old
        → TellsBy asked.now.signer.now anchors asked.now.request.now asked.now.moment result }
    ensures worn { WornOnly (known pass.new) result.result }
    ensures exchanges { ExchangedBy routes (asks_in result.trace.searches) (N.exchanges net.old) (N.exchanges net.new) result.result }
    ensures fails { FailsBy result (N.faults net.old) (N.faults net.new) }
    ensures still { listening_seen N.Network net.new ≡ listening_seen N.Network net.old }
    ensures says { IfOk result.result (λ reply. SaysReply reply.claims) }
    ensures chain_exp { IfOk result.result (HasChainEnd (situation_of asked.now.request.now asked.now.signer.now asked.now.moment) asked.now.signer.now result.trace) }
    ensures configs { IfOk result.result (HasConfigs (situation_of asked.now.request.now asked.now.signer.now asked.now.moment) asked.now.signer.now result.trace) }
{
    let network = replace(net, another);
    let mut link = HttpLink::new(network, routes);
    let outcome = call_alone(asked, pass, &mut link);
    *net = link.into_net();
    outcome
}

// One call over a link, by a pass that is alone.
fn call_alone<R: Wait + Threads + OpensLedgers + Sync, L: Link>(
    asked: &Asked<R>,
    pass: &mut FedPass,
    link: &mut L,
) -> Outcome
    requires { (anchors : List AnchorKeys) × IsNew asked.now.commons.now anchors pass.old }
    ensures told { (anchors : List AnchorKeys) → IsNew asked.now.commons.now anchors pass.old
        → TellsBy asked.now.signer.now anchors asked.now.request.now asked.now.moment result }
    ensures worn { WornOnly (known pass.new) result.result }
    ensures walked { GaveAll L.gave link.old link.new result.trace result.result }
    ensures fails { FailsBy result (L.link_faults link.old) (L.link_faults link.new) }
    ensures says { IfOk result.result (λ reply. SaysReply reply.claims) }
    ensures chain_exp { IfOk result.result (HasChainEnd (situation_of asked.now.request.now asked.now.signer.now asked.now.moment) asked.now.signer.now result.trace) }
    ensures configs { IfOk result.result (HasConfigs (situation_of asked.now.request.now asked.now.signer.now asked.now.moment) asked.now.signer.now result.trace) }
{
    let mut steps = Steps {
        ledger: Plain::new(asked.rt),
    };
    let outcome = resolve(
        asked.commons,
        asked.rt,
        asked.alloc,
        pass,
        asked.signer,
        asked.request,
        link,
        asked.moment,
        &mut steps,
    );
    asked.commons.is_history(pass);
    outcome
}
