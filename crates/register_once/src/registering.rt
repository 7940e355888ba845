// One registration.

ghost use Rattle.std.specs.Prelude.{◌≡◌, IfErr, IfOk, IfSome};
ghost use Rattle.client_register.specs.Answers.{CanBeTold, Registers};
ghost use Rattle.client_register.specs.Finders.{Asks};
ghost use Rattle.client_register.specs.Registrations.{registrar, request};
ghost use Rattle.client_register.specs.Requests.{IsPosted, posted_in};
ghost use Rattle.node_files.specs.Moments.{node_seen};
ghost use Rattle.resolve_call.specs.Ports.{call_seen};
ghost use Rattle.http_plain.specs.Networks.{listening_seen, network_seen};
ghost use Rattle.register_once.specs.Finding.{HasGiven};
ghost use Rattle.register_once.specs.Opened.{IsRegistrationAt, wanted_of};
ghost use Rattle.register_once.specs.Registering.{HasCountedAll, RegistersOnce, around_seen};

use crate::held_finder::HeldFinder;
use crate::looking::{Aim, look_for};
use crate::notes::explain_answer;
use crate::opening::{Opened, open_registration};
use crate::order::RegisterOrder;
use crate::stop::RegisterStop;
use chain_notes::Asked;
use client_register::{RegisterFault, Registered, register};
use entity_id::EntityId;
use fed_base::{OpensLedgers, Plain, Steps};
use fed_ports::{Clock, Network, Source, Store};
use plain_notes::Notes;
use statement_shelf::FedPass;
use std::alloc::Global;
use std::sync::Wait;
use std::thread::Threads;

/// What is answered to what was posted.
#[derive(Drop)]
pub struct RegisterOutcome {
    /// The registration, or why there is none.
    pub result: Result<Registered, RegisterFault>,
    /// The pass of the search for a chain, where a shared object has counted 2^62 calls. There is no registration then.
    pub worn: Option<FedPass>,
}

/// What the node of a configuration file answers to what a relying party posts in the input: its trust chain as a JSON list, or its entity
/// configuration, whose chain is then looked for by one resolve call, from an empty cache (OpenID Federation 1.0 section 12.2). It looks at
/// the files, the input and the trust anchor in this order, and then reads the clock once. What was posted isn't trusted, nor is what is
/// found: the chain is checked under the keys that the configuration gives the trust anchor.
pub fn register_once<
    R: Wait + Threads + OpensLedgers + Sync,
    S: Source,
    D: Store,
    N: Network + Drop,
    C: Clock,
>(
    rt: &R,
    alloc: Global,
    order: RegisterOrder<'_>,
    input: &mut S,
    store: &mut D,
    net: &mut N,
    clock: &mut C,
    notes: &mut Notes,
) -> Result<RegisterOutcome, RegisterStop>
    ensures registers { RegistersOnce (wanted_of order.entry)
        (node_seen D.Store store.old (around_seen S.Source input.old (call_seen N.Network C.Clock net.old clock.old)))
        (node_seen D.Store store.new (around_seen S.Source input.new (call_seen N.Network C.Clock net.new clock.new))) result }
    // A pass that is handed out has seen a worn object.
    ensures worn { IfOk result (λ outcome. IfSome outcome.worn HasCountedAll) }
    // Why a chain isn't valid has a JSON text.
    ensures told { IfOk result (λ outcome. IfErr outcome.result CanBeTold) }
    // The network listens as before, and nobody was accepted or settled.
    ensures still { listening_seen N.Network net.new ≡ listening_seen N.Network net.old }
{
    let opened = open_registration(alloc, order, input, store, notes)?;
    let moment = clock.now();
    Ok(register_over(rt, alloc, &opened, order.anchor, moment, net, notes))
}

// Registers by what was opened, at a moment, over the network.
fn register_over<R: Wait + Threads + OpensLedgers + Sync, N: Network + Drop>(
    rt: &R,
    alloc: Global,
    opened: &Opened,
    anchor: &EntityId,
    moment: u64,
    net: &mut N,
    notes: &mut Notes,
) -> RegisterOutcome
    ensures registers { IsRegistrationAt opened.now anchor.now moment (network_seen N.Network net.old) (network_seen N.Network net.new) result }
    ensures worn { IfSome result.worn HasCountedAll }
    ensures told { IfErr result.result CanBeTold }
    ensures still { listening_seen N.Network net.new ≡ listening_seen N.Network net.old }
{
    let posted = opened.posted.as_slice();
    let aim = Aim {
        parts: &opened.parts,
        moment,
        anchor,
    };
    let mut worn = None;
    let held = look_for(rt, alloc, aim, posted, net, &mut worn, notes);
    let mut finder = HeldFinder::new(held);
    let result = register_by(rt, alloc, &mut finder, opened, anchor, moment);
    let HeldFinder {
        held: _,
        calls: _,
        faults: _,
        last,
    } = finder;
    let asked = Asked {
        anchor,
        keys: &opened.keys,
        moment,
    };
    explain_answer(alloc, posted, last, &asked, &result, notes);
    RegisterOutcome { result, worn }
}

// Registers by a finder.
fn register_by<R: OpensLedgers>(
    rt: &R,
    alloc: Global,
    finder: &mut HeldFinder,
    opened: &Opened,
    anchor: &EntityId,
    moment: u64,
) -> Result<Registered, RegisterFault>
    ensures registers { Registers (request
        (registrar opened.now.parts.signer.iss opened.now.parts.signer.keys anchor.now opened.now.keys.keys opened.now.lifetime moment)
        opened.now.posted finder.new.last) result }
    ensures posted { IsPosted opened.now.posted (posted_in opened.now.posted) }
    ensures asks { Asks HasGiven finder.old finder.new (posted_in opened.now.posted) result }
    ensures told { IfErr result CanBeTold }
{
    let mut steps = Steps {
        ledger: Plain::new(rt),
    };
    let signer = &opened.parts.signer;
    register(
        alloc,
        finder,
        &signer.iss,
        &signer.keys,
        opened.lifetime,
        anchor,
        &opened.keys,
        opened.posted.as_slice(),
        moment,
        &mut steps,
    )
}
