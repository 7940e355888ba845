// Resolving an entity and asking about the marks of its reply: the line of the reply, a line for each mark, and the status.

ghost use Rattle.std.specs.Prelude.{◌≡◌, ◌⊎◌, None, Some};
ghost use Rattle.fed.specs.Heeding.{AreLinesTold, IsHeard, IsHeardBy, RunsHeed};
ghost use Rattle.fed.specs.Orders.{question_of};
ghost use Rattle.fed.specs.Ports.{node_views, ports_found, ports_left, written_to};
ghost use Rattle.fed.specs.Resolving.{HoldsBy};
ghost use Rattle.fed.specs.Services.{RunsResolving};

use crate::ports::Ports;
use crate::resolving::{Question, resolve, tell_fault, tell_refusal};
use cli_inspect::write_line;
use fed_ports::{Clock, Network, OpensLedgers, Sink, Store};
use fed_resolver::{Outcome, Reply, ResolveRequest};
use heeded_reply::{Heard, HeededReply, explain_marks, heed_once, reply_lines};
use node_files::NodeFault;
use plain_notes::{Notes, explain_memory};
use resolve_notes::explain_outcome;
use statement_shelf::FedPass;
use std::alloc::Global;
use std::sync::Wait;
use std::thread::Threads;

/// Resolves what is asked as the resolver of the configuration file, asks the issuers of the reply's marks about them where `heed` says
/// so, and gives the exit status.
pub(crate) fn resolve_as<
    R: Wait + Threads + OpensLedgers + Sync,
    S,
    K: Sink,
    D: Store,
    N: Network + Drop,
    C: Clock,
>(
    rt: &R,
    alloc: Global,
    question: Question<'_>,
    heed: bool,
    ports: Ports<'_, S, K, D, N, C>,
    worn: &mut Option<FedPass>,
    notes: &mut Notes,
) -> u8
    requires { worn.old ≡ None }
    ensures input { ports.exit.0.now ≡ ports.entry.input.now }
    ensures runs { RunsResolving heed (question_of question.entry)
        (ports_found (node_views K.Sink D.Store N.Network C.Clock) ports.entry) (ports_left (node_views K.Sink D.Store N.Network C.Clock) ports.exit) result }
    ensures worn { HoldsBy worn.new result }
{
    if heed {
        resolve_heeding(rt, alloc, question, ports, worn, notes)
    } else {
        resolve(rt, alloc, question, ports, worn, notes)
    }
}

// Resolves what is asked, and asks about the marks.
fn resolve_heeding<
    R: Wait + Threads + OpensLedgers + Sync,
    S,
    K: Sink,
    D: Store,
    N: Network + Drop,
    C: Clock,
>(
    rt: &R,
    alloc: Global,
    question: Question<'_>,
    ports: Ports<'_, S, K, D, N, C>,
    worn: &mut Option<FedPass>,
    notes: &mut Notes,
) -> u8
    requires { worn.old ≡ None }
    ensures input { ports.exit.0.now ≡ ports.entry.input.now }
    ensures runs { RunsHeed (question_of question.entry)
        (ports_found (node_views K.Sink D.Store N.Network C.Clock) ports.entry) (ports_left (node_views K.Sink D.Store N.Network C.Clock) ports.exit) result }
    ensures worn { HoldsBy worn.new result }
{
    let Ports {
        input: _,
        out,
        store,
        net,
        clock,
    } = ports;
    let heard = heed_once(
        rt,
        alloc,
        question.config,
        question.request,
        store,
        net,
        clock,
        worn,
        notes,
    );
    tell_heard(rt, alloc, question.request, heard, out, notes)
}

// Writes what came of a call, or that there is no such node, and gives the status.
fn tell_heard<R: OpensLedgers, K: Sink>(
    rt: &R,
    alloc: Global,
    request: &ResolveRequest,
    heard: Result<Heard, NodeFault>,
    out: &mut K,
    notes: &mut Notes,
) -> u8
    ensures { IsHeard heard (written_to K.Sink out.old) (written_to K.Sink out.new) result }
{
    match heard {
        Ok(heard) => {
            explain_outcome(rt, alloc, request, &heard.outcome, notes);
            tell_result(alloc, heard, out, notes)
        }
        Err(fault) => tell_fault(alloc, fault, out, notes),
    }
}

// Writes what came of a call, and gives the status.
fn tell_result<K: Sink>(alloc: Global, heard: Heard, out: &mut K, notes: &mut Notes) -> u8
    ensures { IsHeardBy heard.outcome.result heard.reply (written_to K.Sink out.old) (written_to K.Sink out.new) result }
{
    let Heard { outcome, reply } = heard;
    let Outcome { result, trace } = outcome;
    drop(trace);
    match result {
        Ok(resolved) => {
            explain_reply(alloc, &resolved, &reply, notes);
            drop(resolved);
            tell_marks(alloc, reply, out, notes)
        }
        Err(refusal) => {
            drop(reply);
            tell_refusal(alloc, refusal, out, notes)
        }
    }
}

// Says which of the reply's marks are left out, and why.
fn explain_reply(alloc: Global, reply: &Reply, heeded: &Option<HeededReply>, notes: &mut Notes) {
    match heeded {
        Some(heeded) => explain_marks(alloc, reply, heeded, notes),
        None => explain_memory(alloc, notes),
    }
}

// Writes the reply's text and what was told of each mark, where memory sufficed to ask about them.
fn tell_marks<K: Sink>(
    alloc: Global,
    heeded: Option<HeededReply>,
    out: &mut K,
    notes: &mut Notes,
) -> u8
    ensures { AreLinesTold heeded (written_to K.Sink out.old) (written_to K.Sink out.new) result }
{
    match heeded {
        Some(heeded) => tell_lines(alloc, heeded, out, notes),
        None => 5,
    }
}

fn tell_lines<K: Sink>(alloc: Global, heeded: HeededReply, out: &mut K, notes: &mut Notes) -> u8
    ensures { AreLinesTold (Some heeded) (written_to K.Sink out.old) (written_to K.Sink out.new) result }
{
    match reply_lines(alloc, heeded) {
        Ok(lines) => write_line(alloc, 0, lines.as_slice(), out, notes),
        Err(_) => {
            explain_memory(alloc, notes);
            5
        }
    }
}
