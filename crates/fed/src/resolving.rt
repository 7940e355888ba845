// Resolving an entity: the line of the reply or of the refusal, and the status.

ghost use Rattle.std.specs.Prelude.{◌≡◌, None, Err};
ghost use Rattle.fed.specs.Orders.{question_of};
ghost use Rattle.fed.specs.Ports.{node_views, ports_found, ports_left, written_to};
ghost use Rattle.fed.specs.Resolving.{HoldsBy, IsReplyTold, IsTold, IsToldBy, RunsResolve};

use crate::ports::Ports;
use cli_inspect::write_line;
use fed_ports::{Clock, Network, OpensLedgers, Sink, Store, Text};
use fed_resolver::{Outcome, Refusal, Reply, ResolveRequest};
use node_files::NodeFault;
use plain_notes::{Notes, explain_memory};
use resolve_call::resolve_once;
use resolve_notes::explain_outcome;
use statement_shelf::FedPass;
use std::alloc::Global;
use std::sync::Wait;
use std::thread::Threads;

const NO_ANCHOR: &[u8] =
    b"{\"error\":\"invalid_trust_anchor\",\"error_description\":\"no such trust anchor\"}\n";

const NOT_FOUND: &[u8] = b"{\"error\":\"not_found\",\"error_description\":\"no such entity\"}\n";

const POLICY_ONLY: &[u8] =
    b"{\"error\":\"invalid_metadata\",\"error_description\":\"policies refuse the metadata\"}\n";

const NO_CHAIN: &[u8] =
    b"{\"error\":\"invalid_trust_chain\",\"error_description\":\"no valid trust chain\"}\n";

/// What is asked: of the resolver of a configuration file.
#[derive(Clone, Copy)]
pub(crate) struct Question<'a> {
    pub(crate) config: &'a Text,
    pub(crate) request: &'a ResolveRequest,
}

/// Resolves what is asked as the resolver of the configuration file, and gives the exit status.
pub(crate) fn resolve<
    R: Wait + Threads + OpensLedgers + Sync,
    S,
    K: Sink,
    D: Store,
    N: Network + Drop,
    C: Clock,
>(
    rt: &R,
    alloc: Global,
    question: Question<'_>,
    ports: Ports<'_, S, K, D, N, C>,
    worn: &mut Option<FedPass>,
    notes: &mut Notes,
) -> u8
    requires { worn.old ≡ None }
    ensures input { ports.exit.0.now ≡ ports.entry.input.now }
    ensures runs { RunsResolve (question_of question.entry)
        (ports_found (node_views K.Sink D.Store N.Network C.Clock) ports.entry) (ports_left (node_views K.Sink D.Store N.Network C.Clock) ports.exit) result }
    ensures worn { HoldsBy worn.new result }
{
    let Ports {
        input: _,
        out,
        store,
        net,
        clock,
    } = ports;
    let called = resolve_once(
        rt,
        alloc,
        question.config,
        question.request,
        store,
        net,
        clock,
        worn,
        notes,
    );
    tell_call(rt, alloc, question.request, called, out, notes)
}

// Writes what a call answered, or that there is no such node, and gives the status.
fn tell_call<R: OpensLedgers, K: Sink>(
    rt: &R,
    alloc: Global,
    request: &ResolveRequest,
    called: Result<Outcome, NodeFault>,
    out: &mut K,
    notes: &mut Notes,
) -> u8
    ensures { IsTold called (written_to K.Sink out.old) (written_to K.Sink out.new) result }
{
    match called {
        Ok(outcome) => {
            explain_outcome(rt, alloc, request, &outcome, notes);
            tell(alloc, outcome, out, notes)
        }
        Err(fault) => tell_fault(alloc, fault, out, notes),
    }
}

/// Writes that there is no such node, and gives the status.
pub(crate) fn tell_fault<K: Sink>(
    alloc: Global,
    fault: NodeFault,
    out: &mut K,
    notes: &mut Notes,
) -> u8
    ensures { IsTold (Err fault) (written_to K.Sink out.old) (written_to K.Sink out.new) result }
{
    match fault {
        NodeFault::Input => write_line(alloc, 2, b"input\n", out, notes),
        NodeFault::Store => 6,
        NodeFault::Memory => {
            explain_memory(alloc, notes);
            5
        }
    }
}

// Writes what a call answered, and gives the status.
fn tell<K: Sink>(alloc: Global, outcome: Outcome, out: &mut K, notes: &mut Notes) -> u8
    ensures { IsToldBy outcome.result (written_to K.Sink out.old) (written_to K.Sink out.new) result }
{
    let Outcome { result, trace } = outcome;
    drop(trace);
    match result {
        Ok(reply) => tell_reply(alloc, reply, out, notes),
        Err(refusal) => tell_refusal(alloc, refusal, out, notes),
    }
}

/// Writes why there is no reply, and gives the status.
pub(crate) fn tell_refusal<K: Sink>(
    alloc: Global,
    refusal: Refusal,
    out: &mut K,
    notes: &mut Notes,
) -> u8
    ensures { IsToldBy (Err refusal) (written_to K.Sink out.old) (written_to K.Sink out.new) result }
{
    match refusal {
        Refusal::NoAnchor => write_line(alloc, 1, NO_ANCHOR, out, notes),
        Refusal::NotFound => write_line(alloc, 1, NOT_FOUND, out, notes),
        Refusal::PolicyOnly => write_line(alloc, 1, POLICY_ONLY, out, notes),
        Refusal::NoChain => write_line(alloc, 1, NO_CHAIN, out, notes),
        Refusal::Unavailable => 7,
        Refusal::Budget { calls: _, paths: _ } => 9,
        Refusal::Worn(_) => 8,
        Refusal::Memory => 5,
    }
}

// Writes the reply's text on a line.
fn tell_reply<K: Sink>(alloc: Global, reply: Reply, out: &mut K, notes: &mut Notes) -> u8
    ensures { IsReplyTold reply (written_to K.Sink out.old) (written_to K.Sink out.new) result }
{
    let mut line = reply.text;
    if line.push(b'\n').is_err() {
        explain_memory(alloc, notes);
        return 5;
    }
    write_line(alloc, 0, line.as_slice(), out, notes)
}
