// What the words ask for, done.

ghost use Rattle.std.specs.Prelude.{◌≡◌, IfSome, None};
ghost use Rattle.cli_commands.specs.Runs.{views};
ghost use Rattle.cli_words.specs.Calls.{command_of, inspection_of, registration_of, service_of};
ghost use Rattle.fed.specs.Commands.{DoesAs};
ghost use Rattle.fed.specs.Orders.{wanted_of};
ghost use Rattle.fed.specs.Ports.{all_views, node_views, ports_found, ports_left, with_input, world_found, world_left};
ghost use Rattle.fed.specs.Registering.{RunsRegistration};
ghost use Rattle.fed.specs.Resolving.{HoldsBy};
ghost use Rattle.fed.specs.Services.{RunsService};

use crate::authority::serve;
use crate::heeding::resolve_as;
use crate::ports::{Order, Passes, Ports};
use crate::registering::register;
use crate::rehearsing::rehearse;
use crate::resolver::serve_as_resolver;
use crate::resolving::Question;
use cli_commands::perform_command;
use cli_inspect::inspect;
use cli_notes::explain_command;
use cli_words::{Call, Service, read_call};
use fed_ports::{Clock, Network, OpensLedgers, Seq, Sink, Source, Store, Text};
use fed_resolver::ResolveRequest;
use plain_notes::{Notes, explain_memory};
use std::alloc::Global;
use std::sync::Wait;
use std::thread::Threads;

/// Does what the words ask for, adds what a person is to read of it to the notes, and gives the exit status.
pub(crate) fn perform<
    R: Threads + Wait + OpensLedgers + Sync,
    S: Source,
    K: Sink,
    D: Store,
    N: Network + Drop,
    C: Clock + Drop,
>(
    rt: &R,
    alloc: Global,
    words: &Seq<Text>,
    ports: Ports<'_, S, K, D, N, C>,
    passes: Passes<'_>,
    notes: &mut Notes,
) -> u8
where
    N::Peer: Drop,
    requires worn { passes.worn.now ≡ None }
    requires joined { passes.joined.now ≡ None }
    ensures command { service_of words.now ≡ None → registration_of words.now ≡ None → (ports.exit.1.1.1.0.now ≡ ports.entry.net.now) × (passes.exit.1.0.now ≡ None)
        × DoesAs (inspection_of words.now) (command_of words.now)
        (world_found (views S.Source K.Sink D.Store C.Clock) ports.entry) (world_left (views S.Source K.Sink D.Store C.Clock) ports.exit) result }
    ensures service { IfSome (service_of words.now) (λ service. (ports.exit.0.now ≡ ports.entry.input.now) × RunsService
        (all_views N.Peer.Source N.Peer.Sink N.Network C.Clock) service
        (ports_found (node_views K.Sink D.Store N.Network C.Clock) ports.entry) (ports_left (node_views K.Sink D.Store N.Network C.Clock) ports.exit)
        passes.exit.1.0.now result) }
    ensures registration { IfSome (registration_of words.now) (λ registration. (passes.exit.1.0.now ≡ None) × RunsRegistration (wanted_of registration)
        (with_input S.Source ports.entry.input.now (ports_found (node_views K.Sink D.Store N.Network C.Clock) ports.entry))
        (with_input S.Source ports.exit.0.now (ports_left (node_views K.Sink D.Store N.Network C.Clock) ports.exit)) result) }
    ensures worn { HoldsBy passes.exit.0.now result }
{
    match read_call(alloc, words.as_slice()) {
        Ok(Call::Command(command)) => {
            let Ports {
                input,
                out,
                store,
                net: _,
                clock,
            } = ports;
            explain_command(alloc, words.as_slice(), &command, notes);
            let status = perform_command(rt, alloc, &command, input, out, store, clock, notes);
            drop(command);
            status
        }
        Ok(Call::Inspection(inspection)) => {
            let Ports {
                input,
                out,
                store,
                net: _,
                clock,
            } = ports;
            let status = inspect(rt, alloc, &inspection, input, out, store, clock, notes);
            drop(inspection);
            status
        }
        Ok(Call::Service(service)) => serve_as(rt, alloc, service, ports, passes, notes),
        Ok(Call::Registration(registration)) => {
            let Passes { worn, joined: _ } = passes;
            let status = register(rt, alloc, &registration, ports, worn, notes);
            drop(registration);
            status
        }
        Err(_) => {
            explain_memory(alloc, notes);
            5
        }
    }
}

// Serves, resolves or rehearses, as is asked for.
fn serve_as<
    R: Threads + Wait + OpensLedgers + Sync,
    S: Source,
    K: Sink,
    D: Store,
    N: Network + Drop,
    C: Clock + Drop,
>(
    rt: &R,
    alloc: Global,
    service: Service,
    ports: Ports<'_, S, K, D, N, C>,
    passes: Passes<'_>,
    notes: &mut Notes,
) -> u8
where
    N::Peer: Drop,
    requires worn { passes.worn.now ≡ None }
    requires joined { passes.joined.now ≡ None }
    ensures input { ports.exit.0.now ≡ ports.entry.input.now }
    ensures runs { RunsService (all_views N.Peer.Source N.Peer.Sink N.Network C.Clock) service
        (ports_found (node_views K.Sink D.Store N.Network C.Clock) ports.entry) (ports_left (node_views K.Sink D.Store N.Network C.Clock) ports.exit)
        passes.exit.1.0.now result }
    ensures worn { HoldsBy passes.exit.0.now result }
{
    match service {
        Service::Authority {
            config_file,
            port,
            connections,
            stream,
        } => {
            let order = Order {
                config: &config_file,
                port,
                connections,
            };
            let status = serve(rt, alloc, order, stream, ports, notes);
            drop(config_file);
            status
        }
        Service::Resolver {
            config_file,
            port,
            connections,
        } => {
            let order = Order {
                config: &config_file,
                port,
                connections,
            };
            let status = serve_as_resolver(rt, alloc, order, ports, passes, notes);
            drop(config_file);
            status
        }
        Service::Resolve {
            config_file,
            sub,
            anchor,
            heed,
        } => {
            let types = Seq::new(alloc);
            let request = ResolveRequest { sub, anchor, types };
            let question = Question {
                config: &config_file,
                request: &request,
            };
            let Passes { worn, joined: _ } = passes;
            let status = resolve_as(rt, alloc, question, heed, ports, worn, notes);
            drop(request);
            drop(config_file);
            status
        }
        Service::Rehearse { params } => {
            let Ports {
                input: _,
                out,
                store: _,
                net: _,
                clock: _,
            } = ports;
            let Passes { worn, joined: _ } = passes;
            rehearse(rt, alloc, params, out, worn, notes)
        }
    }
}
