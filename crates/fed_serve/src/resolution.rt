// What a resolver answers to a request for an entity's metadata.

ghost use Rattle.turn_log.specs.Groups.{known};
ghost use Rattle.statement_shelf.specs.Passes.{IsPassOfAll};
ghost use Rattle.resolve_round.specs.Acts.{IsKept};
ghost use Rattle.fed_resolver.specs.Calls.{GaveAll};
ghost use Rattle.fed_serve.specs.Resolutions.{IsAnswerTo, IsResolveAnswer, call_at};

use crate::bodies::refused;
use crate::context::Context;
use crate::part::ResolverPart;
use fed_base::{Ledger, Memory, Steps};
use fed_ports::Link;
use fed_resolver::{Outcome, Refusal, ResolveRequest, Trace, resolve};
use http_plain::{Media, Response};
use statement_shelf::FedPass;
use std::alloc::Global;
use std::sync::Wait;
use std::thread::Threads;
use turn_log::Worn;

/// What a request for an entity's metadata is answered with.
#[derive(Drop)]
pub struct ResolveAnswer {
    /// The response, unless memory was wanting.
    pub response: Result<Response, Memory>,
    /// What the resolve call did.
    pub trace: Trace,
}

/// The response to a request for an entity's metadata, with the trace of the one resolve call that was made for it (OpenID Federation 1.0
/// section 8.3). `Worn` comes where a shared object had counted 2^62 calls.
pub fn answer_resolution<R: Wait + Threads + Sync, L: Link, G: Ledger>(
    part: &ResolverPart,
    context: &Context<'_, R>,
    pass: &mut FedPass,
    request: &ResolveRequest,
    link: &mut L,
    steps: &mut Steps<G>,
) -> Result<ResolveAnswer, Worn>
    requires of { IsPassOfAll part.now.commons pass.old }
    ensures kept { IsKept part.now.commons pass.old pass.new }
    ensures answer { IsResolveAnswer part.now.signer request.now context.now.t (GaveAll L.gave link.old link.new)
        (call_at (known pass.old) (L.web link.old) (L.calls link.old) (L.link_faults link.old) (G.count steps.old.ledger))
        (call_at (known pass.new) (L.web link.new) (L.calls link.new) (L.link_faults link.new) (G.count steps.new.ledger))
        result }
{
    let outcome = resolve(
        &part.commons,
        context.rt,
        context.alloc,
        pass,
        &part.signer,
        request,
        link,
        context.t,
        steps,
    );
    answer_to(context.alloc, outcome)
}

// What an outcome is answered with.
fn answer_to(alloc: Global, outcome: Outcome) -> Result<ResolveAnswer, Worn>
    ensures { IsAnswerTo outcome result }
{
    let Outcome { result, trace } = outcome;
    match result {
        Ok(reply) => Ok(ResolveAnswer {
            response: Ok(Response {
                status: 200,
                media: Media::Resolve,
                body: reply.text,
            }),
            trace,
        }),
        Err(Refusal::Worn(count)) => Err(Worn { count }),
        Err(refusal) => Ok(ResolveAnswer {
            response: refused(alloc, &refusal),
            trace,
        }),
    }
}
