// What a node answers as a resolver.

ghost use Rattle.std.specs.Prelude.{◌≡◌, IfSome, is_some, true};
ghost use Rattle.jws_form.specs.Compact.{IsCompact};
ghost use Rattle.turn_log.specs.Groups.{known};
ghost use Rattle.statement_shelf.specs.Passes.{IsPassOfAll};
ghost use Rattle.resolve_round.specs.Acts.{IsKept};
ghost use Rattle.fed_resolver.specs.Calls.{GaveAll};
ghost use Rattle.fed_serve.specs.Resolutions.{call_at};
ghost use Rattle.fed_serve.specs.Rotations.{rotation_at};
ghost use Rattle.fed_serve.specs.Steps.{ChangesKeys, IsResolvedAnswer, ResolvesEntity};

use crate::context::Context;
use crate::handling::{Answer, plain};
use crate::node::Node;
use crate::resolution::{ResolveAnswer, answer_resolution};
use crate::rotation::answer_rotation;
use fed_base::{Ledger, Steps};
use fed_ports::Link;
use fed_resolver::ResolveRequest;
use node_requests::{AnchorChange, Kind};
use statement_shelf::FedPass;
use std::sync::Wait;
use std::thread::Threads;
use turn_log::Worn;

/// What is answered where an entity is to be resolved. The node resolves.
pub(crate) fn resolve_entity<R: Wait + Threads + Sync, L: Link, G: Ledger>(
    node: &Node,
    context: &Context<'_, R>,
    pass: &mut FedPass,
    request: &ResolveRequest,
    link: &mut L,
    steps: &mut Steps<G>,
) -> Result<Answer, Worn>
    requires of { IfSome node.now.resolver (λ part. IsPassOfAll part.commons pass.old) }
    requires able { is_some node.now.resolver ≡ true }
    ensures kept { IfSome node.now.resolver (λ part. IsKept part.commons pass.old pass.new) }
    ensures answer { ResolvesEntity node.now (GaveAll L.gave link.old link.new) context.now.t
        (call_at (known pass.old) (L.web link.old) (L.calls link.old) (L.link_faults link.old) (G.count steps.old.ledger))
        (call_at (known pass.new) (L.web link.new) (L.calls link.new) (L.link_faults link.new) (G.count steps.new.ledger))
        request.now result }
{
    let Some(part) = &node.resolver else {
        unreachable!()
    };
    resolved(answer_resolution(part, context, pass, request, link, steps))
}

// The answer of a resolve call.
fn resolved(answer: Result<ResolveAnswer, Worn>) -> Result<Answer, Worn>
    ensures { IsResolvedAnswer answer result }
{
    match answer {
        Ok(ResolveAnswer { response, trace }) => Ok(Answer {
            kind: Kind::Resolve,
            response,
            trace: Some(trace),
        }),
        Err(worn) => Err(worn),
    }
}

/// What is answered where a trust anchor is to have other keys. The node resolves.
pub(crate) fn change_keys<R: Wait, G: Ledger>(
    node: &Node,
    context: &Context<'_, R>,
    pass: &mut FedPass,
    change: AnchorChange,
    steps: &mut Steps<G>,
) -> Result<Answer, Worn>
    requires of { IfSome node.now.resolver (λ part. IsPassOfAll part.commons pass.old) }
    requires able { is_some node.now.resolver ≡ true }
    requires compact { IsCompact change.body.whole change.body }
    ensures kept { IfSome node.now.resolver (λ part. IsKept part.commons pass.old pass.new) }
    ensures answer { ChangesKeys node.now (rotation_at (known pass.old) (G.count steps.old.ledger))
        (rotation_at (known pass.new) (G.count steps.new.ledger)) change result }
{
    let Some(part) = &node.resolver else {
        unreachable!()
    };
    match answer_rotation(part, context, pass, change, steps) {
        Ok(response) => Ok(plain(Kind::AnchorKeys, response)),
        Err(worn) => Err(worn),
    }
}
