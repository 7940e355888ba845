// How a node answers a request, before anything is written.

ghost use Rattle.std.specs.Prelude.{◌≡◌, IfSome, None};
ghost use Rattle.turn_log.specs.Groups.{known};
ghost use Rattle.statement_shelf.specs.Passes.{IsPassOfAll};
ghost use Rattle.resolve_round.specs.Acts.{IsKept};
ghost use Rattle.fed_resolver.specs.Calls.{GaveAll};
ghost use Rattle.fed_serve.specs.Answering.{Answers, AnswersAsAuthority, AnswersAtMoment};
ghost use Rattle.fed_serve.specs.Moments.{answer_at};
ghost use Rattle.fed_serve.specs.Resolutions.{call_at};
ghost use Rattle.fed_serve.specs.Steps.{IsHandedOut};
ghost use Rattle.fed_ports.specs.Times.{clock_at};

use crate::context::Context;
use crate::handling::{Answer, answer_to};
use crate::node::Node;
use crate::served::Served;
use fed_base::Memory;
use fed_ports::{Clock, Ledger, Link, Steps};
use http_plain::{Incoming, Response};
use statement_shelf::FedPass;
use std::alloc::Global;
use std::sync::Wait;
use std::thread::Threads;
use thiserror::Error;
use turn_log::Worn;

/// A response that is to be written, with what is told once it is.
#[derive(Drop)]
pub struct Answered {
    pub response: Response,
    pub served: Served,
}

/// Why a request has no response of its own.
#[derive(Clone, Copy, Debug, PartialEq, Eq, Drop, Error)]
pub enum AnswerEnd {
    /// A shared object had counted this many calls, which are all that it can: nothing is answered.
    #[error("a shared object is worn")]
    Worn(u64),
    /// Memory was wanting: this is what is answered, with 507.
    #[error("out of memory")]
    Memory,
}

/// Answers one request, or bytes that aren't one, at the clock's one reading: what [`serve_one`](crate::serve_one) does between reading and
/// writing. A node that resolves makes one resolve call for a request of that kind, with the link and the pass, which is one of the node's
/// shared objects; a node that doesn't resolve touches neither, and never answers `Worn`.
pub fn answer<R: Wait + Threads + Sync, L: Link, C: Clock, G: Ledger>(
    node: &Node,
    rt: &R,
    alloc: Global,
    pass: &mut FedPass,
    asked: &Incoming,
    link: &mut L,
    clock: &mut C,
    steps: &mut Steps<G>,
) -> Result<Answered, AnswerEnd>
    requires of { IfSome node.now.resolver (λ part. IsPassOfAll part.commons pass.old) }
    ensures kept { IfSome node.now.resolver (λ part. IsKept part.commons pass.old pass.new) }
    ensures answers { Answers node.now (GaveAll L.gave link.old link.new)
        (answer_at (clock_at (C.readings clock.old) (C.last clock.old) (C.told clock.old))
        (call_at (known pass.old) (L.web link.old) (L.calls link.old) (L.link_faults link.old) (G.count steps.old.ledger)))
        (answer_at (clock_at (C.readings clock.new) (C.last clock.new) (C.told clock.new))
        (call_at (known pass.new) (L.web link.new) (L.calls link.new) (L.link_faults link.new) (G.count steps.new.ledger)))
        asked.now result }
    ensures alone { node.now.resolver ≡ None → AnswersAsAuthority
        (call_at (known pass.old) (L.web link.old) (L.calls link.old) (L.link_faults link.old) (G.count steps.old.ledger))
        (call_at (known pass.new) (L.web link.new) (L.calls link.new) (L.link_faults link.new) (G.count steps.new.ledger)) result }
{
    let t = clock.now();
    let context = Context { rt, alloc, t };
    answer_request(node, &context, pass, asked, link, steps)
}

/// The same at the context's moment, which somebody else read.
pub fn answer_request<R: Wait + Threads + Sync, L: Link, G: Ledger>(
    node: &Node,
    context: &Context<'_, R>,
    pass: &mut FedPass,
    asked: &Incoming,
    link: &mut L,
    steps: &mut Steps<G>,
) -> Result<Answered, AnswerEnd>
    requires of { IfSome node.now.resolver (λ part. IsPassOfAll part.commons pass.old) }
    ensures kept { IfSome node.now.resolver (λ part. IsKept part.commons pass.old pass.new) }
    ensures answers { AnswersAtMoment node.now (GaveAll L.gave link.old link.new) context.now.t
        (call_at (known pass.old) (L.web link.old) (L.calls link.old) (L.link_faults link.old) (G.count steps.old.ledger))
        (call_at (known pass.new) (L.web link.new) (L.calls link.new) (L.link_faults link.new) (G.count steps.new.ledger))
        asked.now result }
    ensures alone { node.now.resolver ≡ None → AnswersAsAuthority
        (call_at (known pass.old) (L.web link.old) (L.calls link.old) (L.link_faults link.old) (G.count steps.old.ledger))
        (call_at (known pass.new) (L.web link.new) (L.calls link.new) (L.link_faults link.new) (G.count steps.new.ledger)) result }
{
    hand_out(answer_to(node, context, pass, asked, link, steps))
}

// Hands the answer out.
fn hand_out(answer: Result<Answer, Worn>) -> Result<Answered, AnswerEnd>
    ensures { IsHandedOut answer result }
{
    let Answer {
        kind,
        response,
        trace,
    } = match answer {
        Ok(answer) => answer,
        Err(Worn { count }) => return Err(AnswerEnd::Worn(count)),
    };
    match response {
        Ok(response) => {
            let status = response.status;
            let served = Served {
                kind,
                status,
                trace,
            };
            Ok(Answered { response, served })
        }
        Err(_) => {
            drop(trace);
            Err(AnswerEnd::Memory)
        }
    }
}
