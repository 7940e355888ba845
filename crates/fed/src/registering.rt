// Registering a relying party: the line of the registration or of the refusal, and the status.

ghost use Rattle.std.specs.Prelude.{◌≡◌, IfErr, IfOk, IfSome, None};
ghost use Rattle.chain_check.specs.Verdicts.{CanBeWritten};
ghost use Rattle.client_register.specs.Answers.{CanBeTold};
ghost use Rattle.cli_commands.specs.Checks.{lines_of};
ghost use Rattle.register_once.specs.Registering.{HasCountedAll};
ghost use Rattle.fed.specs.Orders.{wanted_of};
ghost use Rattle.fed.specs.Ports.{node_views, ports_found, ports_left, with_input, written_to};
ghost use Rattle.fed.specs.Registering.{IsAnswerTold, IsOutcomeTold, IsTextTold, IsTold, RunsRegistration};
ghost use Rattle.fed.specs.Resolving.{HoldsBy, line_of};

use crate::ports::Ports;
use chain_check::Verdict;
use cli_commands::verdict_lines;
use cli_inspect::write_line;
use cli_words::Registration;
use client_register::{RegisterFault, Registered};
use fed_ports::{Clock, Network, OpensLedgers, Sink, Source, Store};
use plain_notes::{Notes, explain_memory};
use register_once::{RegisterOrder, RegisterOutcome, RegisterStop, register_once};
use statement_shelf::FedPass;
use std::alloc::Global;
use std::sync::Wait;
use std::thread::Threads;

/// Registers the relying party that is posted in the input, as the node of the configuration file, and gives the exit status.
pub(crate) fn register<
    R: Wait + Threads + OpensLedgers + Sync,
    S: Source,
    K: Sink,
    D: Store,
    N: Network + Drop,
    C: Clock,
>(
    rt: &R,
    alloc: Global,
    registration: &Registration,
    ports: Ports<'_, S, K, D, N, C>,
    worn: &mut Option<FedPass>,
    notes: &mut Notes,
) -> u8
    requires { worn.old ≡ None }
    ensures runs { RunsRegistration (wanted_of registration.now)
        (with_input S.Source ports.entry.input.now (ports_found (node_views K.Sink D.Store N.Network C.Clock) ports.entry))
        (with_input S.Source ports.exit.0.now (ports_left (node_views K.Sink D.Store N.Network C.Clock) ports.exit)) result }
    ensures worn { HoldsBy worn.new result }
{
    let Ports {
        input,
        out,
        store,
        net,
        clock,
    } = ports;
    let order = RegisterOrder {
        config: &registration.config_file,
        anchor: &registration.anchor,
    };
    let registered = register_once(rt, alloc, order, input, store, net, clock, notes);
    tell(alloc, registered, out, worn, notes)
}

// Writes what was answered, or why what was posted wasn't looked at, and gives the status.
fn tell<K: Sink>(
    alloc: Global,
    registered: Result<RegisterOutcome, RegisterStop>,
    out: &mut K,
    worn: &mut Option<FedPass>,
    notes: &mut Notes,
) -> u8
    requires none { worn.old ≡ None }
    requires can_be_told { IfOk registered (λ outcome. IfErr outcome.result CanBeTold) }
    requires counted { IfOk registered (λ outcome. IfSome outcome.worn HasCountedAll) }
    ensures told { IsTold registered (written_to K.Sink out.old) (written_to K.Sink out.new) result }
    ensures worn { HoldsBy worn.new result }
{
    match registered {
        Ok(outcome) => tell_outcome(alloc, outcome, out, worn, notes),
        Err(RegisterStop::Input) => write_line(alloc, 2, b"input\n", out, notes),
        Err(RegisterStop::NoAnchor) => write_line(alloc, 1, b"refused NoAnchor\n", out, notes),
        Err(RegisterStop::Source) => 3,
        Err(RegisterStop::Store) => 6,
        Err(RegisterStop::Memory) => {
            explain_memory(alloc, notes);
            5
        }
    }
}

// Hands a pass out where one has seen a worn object, and else writes what was answered.
fn tell_outcome<K: Sink>(
    alloc: Global,
    outcome: RegisterOutcome,
    out: &mut K,
    worn: &mut Option<FedPass>,
    notes: &mut Notes,
) -> u8
    requires none { worn.old ≡ None }
    requires can_be_told { IfErr outcome.result CanBeTold }
    requires counted { IfSome outcome.worn HasCountedAll }
    ensures told { IsOutcomeTold outcome.worn outcome.result (written_to K.Sink out.old) (written_to K.Sink out.new) result }
    ensures worn { HoldsBy worn.new result }
{
    let RegisterOutcome {
        result: answer,
        worn: pass,
    } = outcome;
    match pass {
        Some(pass) => {
            drop(answer);
            *worn = Some(pass);
            8
        }
        None => tell_answer(alloc, answer, out, notes),
    }
}

// Writes what was answered, and gives the status.
fn tell_answer<K: Sink>(
    alloc: Global,
    answer: Result<Registered, RegisterFault>,
    out: &mut K,
    notes: &mut Notes,
) -> u8
    requires { IfErr answer CanBeTold }
    ensures { IsAnswerTold answer (written_to K.Sink out.old) (written_to K.Sink out.new) result }
{
    match answer {
        Ok(registered) => tell_registered(alloc, registered, out, notes),
        Err(RegisterFault::Form) => write_line(alloc, 1, b"refused Form\n", out, notes),
        Err(RegisterFault::Chain { place, reason }) => {
            tell_verdict(alloc, &Verdict::Refused { place, reason }, out, notes)
        }
        Err(RegisterFault::NoType) => write_line(alloc, 1, b"refused NoType\n", out, notes),
        Err(RegisterFault::NoChain) => write_line(alloc, 1, b"refused NoChain\n", out, notes),
        Err(RegisterFault::Spent) => 9,
        Err(RegisterFault::Fault) => 7,
        Err(RegisterFault::Memory) => {
            explain_memory(alloc, notes);
            5
        }
    }
}

// Writes the registration's text on a line.
fn tell_registered<K: Sink>(
    alloc: Global,
    registered: Registered,
    out: &mut K,
    notes: &mut Notes,
) -> u8
    ensures { IsTextTold 0 (line_of registered.text) (written_to K.Sink out.old) (written_to K.Sink out.new) result }
{
    let mut line = registered.text;
    if line.push(b'\n').is_err() {
        explain_memory(alloc, notes);
        return 5;
    }
    write_line(alloc, 0, line.as_slice(), out, notes)
}

// Writes the chain's first failure, as `check` does.
fn tell_verdict<K: Sink>(alloc: Global, verdict: &Verdict, out: &mut K, notes: &mut Notes) -> u8
    requires { CanBeWritten verdict.now }
    ensures { IsTextTold 1 (lines_of verdict.now) (written_to K.Sink out.old) (written_to K.Sink out.new) result }
{
    match verdict_lines(alloc, verdict) {
        Ok(line) => write_line(alloc, 1, line.as_slice(), out, notes),
        Err(_) => {
            explain_memory(alloc, notes);
            5
        }
    }
}
