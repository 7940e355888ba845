// What is answered to what came.

ghost use Rattle.std.specs.Prelude.{◌≡◌, IfErr, IfOk, IfSome, MatchOption, MatchResult, None, Ok, is_some};
ghost use Rattle.turn_log.specs.Groups.{known};
ghost use Rattle.statement_shelf.specs.Passes.{IsPassOfAll};
ghost use Rattle.resolve_round.specs.Acts.{IsKept};
ghost use Rattle.fed_resolver.specs.Calls.{GaveAll};
ghost use Rattle.fed_serve.specs.Resolutions.{call_at};
ghost use Rattle.node_requests.specs.Requests.{IsFormed};
ghost use Rattle.fed_serve.specs.Handlings.{IsIssued, MayBeUnread, Wants, WantsNothing};
ghost use Rattle.fed_serve.specs.Places.{place_of};
ghost use Rattle.fed_serve.specs.Responses.{issued_response, tests_asked};
ghost use Rattle.fed_serve.specs.Steps.{IsAble, IsAnswer, IsAnswerTo};
ghost use Rattle.fed_base.specs.Counts.{CountsAtMost, counted};

use crate::context::Context;
use crate::node::Node;
use crate::refusals::not_a_request;
use crate::resolving::{change_keys, resolve_entity};
use authority_core::Registry;
use fed_base::{Ledger, Memory, Steps};
use fed_ports::Link;
use fed_resolver::Trace;
use http_plain::{Incoming, Response};
use node_requests::{Asked, Kind, Place, asked_for};
use statement_shelf::FedPass;
use std::alloc::Global;
use std::sync::Wait;
use std::thread::Threads;
use turn_log::Worn;

/// A response that was made, or that memory was wanting, to a request of that kind; and what the resolve call did, where there was one.
#[derive(Drop)]
pub(crate) struct Answer {
    pub kind: Kind,
    pub response: Result<Response, Memory>,
    pub trace: Option<Trace>,
}

/// An answer for which nothing was resolved.
pub(crate) fn plain(kind: Kind, response: Result<Response, Memory>) -> Answer
    ensures { result ≡ record { kind = kind; response = response; trace = None } }
{
    Answer {
        kind,
        response,
        trace: None,
    }
}

// What the node is asked for, by what came: nothing where that is no request of the node.
fn asked_in(alloc: Global, node: &Node, came: &Incoming) -> Result<Option<Asked>, Memory>
    ensures asked { IfOk result (λ asked. MatchOption asked (WantsNothing (place_of node.now) (Ok came.now))
        (Wants (place_of node.now) (Ok came.now))) }
    ensures formed { IfOk result (λ asked. IfSome asked IsFormed) }
    ensures able { IfOk result (λ asked. IfSome asked (IsAble node.now)) }
    ensures unread { IfErr result (λ _. MayBeUnread (Ok came.now)) }
{
    match came {
        Incoming::Asked(request) => {
            let place = Place::of(alloc, node.registry.id(), node.resolver.is_some())?;
            asked_for(alloc, &place, request)
        }
        Incoming::NotARequest => Ok(None),
    }
}

// What the node answers as an authority. It isn't asked to resolve.
fn issue<G: Ledger>(
    registry: &Registry,
    alloc: Global,
    t: u64,
    asked: &Asked,
    steps: &mut Steps<G>,
) -> Result<Response, Memory>
    requires formed { IsFormed asked.now }
    requires issued { IsIssued asked.now }
    ensures response { IfOk result (λ response. issued_response registry.now t asked.now ≡ Some response) }
    ensures counted { MatchResult result
        (λ _. G.count steps.new.ledger ≡ counted (tests_asked registry.now asked.now) (G.count steps.old.ledger))
        (λ _. CountsAtMost (tests_asked registry.now asked.now) (G.count steps.old.ledger) (G.count steps.new.ledger)) }
{
    match asked {
        Asked::Configuration => registry.configuration(alloc, t),
        Asked::Fetch(sub) => registry.fetch(alloc, t, sub),
        Asked::List(query) => registry.list(alloc, query),
        Asked::HistoricalKeys => registry.historical_keys(alloc, t),
        Asked::Status(mark) => registry.status(alloc, t, mark, steps),
        Asked::Resolution(_) | Asked::Rotation(_) => unreachable!(),
    }
}

// What is answered to what is asked.
fn answer_asked<R: Wait + Threads + Sync, L: Link, G: Ledger>(
    node: &Node,
    context: &Context<'_, R>,
    pass: &mut FedPass,
    asked: Asked,
    link: &mut L,
    steps: &mut Steps<G>,
) -> Result<Answer, Worn>
    requires of { IfSome node.now.resolver (λ part. IsPassOfAll part.commons pass.old) }
    requires formed { IsFormed asked }
    requires able { IsAble node.now asked }
    ensures kept { IfSome node.now.resolver (λ part. IsKept part.commons pass.old pass.new) }
    ensures answer { IsAnswerTo node.now (GaveAll L.gave link.old link.new) context.now.t
        (call_at (known pass.old) (L.web link.old) (L.calls link.old) (L.link_faults link.old) (G.count steps.old.ledger))
        (call_at (known pass.new) (L.web link.new) (L.calls link.new) (L.link_faults link.new) (G.count steps.new.ledger))
        asked result }
{
    match asked {
        Asked::Resolution(request) => resolve_entity(node, context, pass, &request, link, steps),
        Asked::Rotation(change) => change_keys(node, context, pass, change, steps),
        asked => {
            let response = issue(&node.registry, context.alloc, context.t, &asked, steps);
            Ok(plain(asked.kind(), response))
        }
    }
}

/// What the node answers at the context's moment to what came: a request, or bytes that aren't one. `Worn` comes where a shared object that
/// it called had counted 2^62 calls.
pub(crate) fn answer_to<R: Wait + Threads + Sync, L: Link, G: Ledger>(
    node: &Node,
    context: &Context<'_, R>,
    pass: &mut FedPass,
    came: &Incoming,
    link: &mut L,
    steps: &mut Steps<G>,
) -> Result<Answer, Worn>
    requires of { IfSome node.now.resolver (λ part. IsPassOfAll part.commons pass.old) }
    ensures kept { IfSome node.now.resolver (λ part. IsKept part.commons pass.old pass.new) }
    ensures answer { IsAnswer node.now (GaveAll L.gave link.old link.new) context.now.t
        (call_at (known pass.old) (L.web link.old) (L.calls link.old) (L.link_faults link.old) (G.count steps.old.ledger))
        (call_at (known pass.new) (L.web link.new) (L.calls link.new) (L.link_faults link.new) (G.count steps.new.ledger))
        (Ok came.now) result }
{
    match asked_in(context.alloc, node, came) {
        Ok(Some(asked)) => answer_asked(node, context, pass, asked, link, steps),
        Ok(None) => Ok(plain(Kind::Other, not_a_request(context.alloc))),
        Err(Memory) => Ok(plain(Kind::Other, Err(Memory))),
    }
}
