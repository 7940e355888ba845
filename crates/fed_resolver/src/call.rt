// One call of the resolver.

ghost use Rattle.std.specs.Prelude.{◌≡◌, IfOk};
ghost use Rattle.turn_log.specs.Groups.{known};
ghost use Rattle.fed_json.specs.Compact.{compact};
ghost use Rattle.sealed.specs.Sealing.{IsSealedFor, IsSignedAs};
ghost use Rattle.statement_shelf.specs.Passes.{IsPassOfAll};
ghost use Rattle.resolve_reply.specs.Bounds.{bounds_for};
ghost use Rattle.resolve_reply.specs.Replies.{ReadsBack, SaysReply, reply_type};
ghost use Rattle.resolve_round.specs.Acts.{IsKept};
ghost use Rattle.resolve_round.specs.Linking.{link_view};
ghost use Rattle.resolve_round.specs.Calls.{HasPass, SameParts};
ghost use Rattle.fed_resolver.specs.Calls.{GaveAll, Resolves, WornOnly};
ghost use Rattle.fed_resolver.specs.Going.{IsBegun, IsBlank};
ghost use Rattle.fed_resolver.specs.Outcomes.{HasChainEnd, HasConfigs};
ghost use Rattle.fed_resolver.specs.Refusals.{GoesBy, WalksBy, WholeBy, outcome_of, refused_by};
ghost use Rattle.fed_resolver.specs.Stretches.{KeepsParts, moment_of};
ghost use Rattle.fed_resolver.specs.Told.{situation_of};
ghost use Rattle.fed_resolver.specs.Uses.{CountsTests, IsComplete, UsesLink};

use crate::book::{read_book, take_keys};
use crate::outcome::{Outcome, Refusal};
use crate::replying::reply_on;
use crate::rounds::{aim_at, last_faults, rounds_for};
use chain_climb::{Bounds, End};
use fed_base::{Ledger, Seq, Steps};
use fed_ports::Link;
use jwk_set::JwkSet;
use resolve_reply::{Reply, Signer, bounds_for};
use resolve_round::{ResolveRequest, Trace};
use resolve_search::{Call, RoundEnd};
use statement_shelf::{Commons, FedPass};
use std::alloc::Global;
use std::sync::Wait;
use std::thread::Threads;

/// The metadata of an entity, resolved up to a trust anchor of the book, as a signed reply, or why there is none; and the trace of what
/// was done (OpenID Federation 1.0 section 8.3). `t` is the moment in seconds since 1970, below 2^62.
pub fn resolve<R: Wait + Threads + Sync, L: Link, G: Ledger>(
    commons: &Commons,
    rt: &R,
    alloc: Global,
    pass: &mut FedPass,
    signer: &Signer,
    request: &ResolveRequest,
    link: &mut L,
    t: u64,
    steps: &mut Steps<G>,
) -> Outcome
    requires of { IsPassOfAll commons.now pass.old }
    ensures kept { IsKept commons.now pass.old pass.new }
    // The outcome tells what was done, and its result is the one that this calls for.
    ensures resolves { Resolves (situation_of request.now signer.now t) signer.now (known pass.old) (known pass.new) result }
    ensures link { UsesLink (L.web link.old) (L.calls link.old) (L.calls link.new) (L.link_faults link.old) (L.link_faults link.new) result }
    // The asks of all rounds got what the link gave, call by call.
    ensures walked { GaveAll L.gave link.old link.new result.trace result.result }
    ensures counted { CountsTests (situation_of request.now signer.now t) signer.now result result.result (G.count steps.old.ledger) (G.count steps.new.ledger) }
    // Where the link tells its pages and doesn't fail, the result speaks of them.
    ensures complete { IsComplete (situation_of request.now signer.now t) signer.now (L.web link.old) (L.link_faults link.old) (L.link_faults link.new) result }
    // A reply of at most 262,144 bytes is sealed by each set that has the signer's key.
    ensures sealed { IfOk result.result (λ reply. IsSealedFor signer.now.keys reply.text) }
    // Whatever its length, it is signed under the signer's key.
    ensures signed { IfOk result.result (λ reply. IsSignedAs signer.now.keys reply_type (compact reply.claims) reply.text) }
    ensures reads { IfOk result.result (λ reply. ReadsBack signer.now.keys reply.claims reply.text) }
    // Its claims can be sealed anew, with another end and other marks.
    ensures says { IfOk result.result (λ reply. SaysReply reply.claims) }
    // Beside it stand the end of its chain, and for each of its marks the configuration that the mark was judged by.
    ensures chain_exp { IfOk result.result (HasChainEnd (situation_of request.now signer.now t) signer.now result.trace) }
    ensures configs { IfOk result.result (HasConfigs (situation_of request.now signer.now t) signer.now result.trace) }
{
    let bounds = bounds_for(signer.bounds.as_slice(), &request.anchor);
    let mut trace = blank(alloc, bounds, t);
    let result = {
        let mut call = Call {
            commons,
            rt,
            alloc,
            pass,
            trace: &mut trace,
            steps,
        };
        answer(&mut call, signer, request, link, t)
    };
    Outcome { result, trace }
}

// The trace of a call that has done nothing yet. It takes no memory.
fn blank(alloc: Global, bounds: Bounds, t: u64) -> Trace
    ensures { IsBlank bounds t result }
{
    Trace {
        moment: t,
        epoch: 0,
        keys: JwkSet {
            keys: Seq::new(alloc),
        },
        bounds,
        searches: Seq::new(alloc),
        checks: Seq::new(alloc),
        events: Seq::new(alloc),
    }
}

// Reads the book and, where it lists the anchor, searches and answers.
fn answer<R: Wait + Threads + Sync, L: Link, G: Ledger>(
    call: &mut Call<'_, R, G>,
    signer: &Signer,
    request: &ResolveRequest,
    link: &mut L,
    t: u64,
) -> Result<Reply, Refusal>
    requires of { HasPass call.old }
    requires blank { IsBlank (bounds_for signer.now.bounds request.now.anchor) t call.old.trace.now }
    ensures parts { SameParts call.old call.new }
    ensures kept { IsKept call.old.commons.now call.old.pass.now call.new.pass.now }
    ensures resolves { Resolves (situation_of request.now signer.now t) signer.now (known call.old.pass.now) (known call.new.pass.now) (outcome_of result call.new.trace.now) }
    ensures link { UsesLink (L.web link.old) (L.calls link.old) (L.calls link.new) (L.link_faults link.old) (L.link_faults link.new) (outcome_of result call.new.trace.now) }
    ensures walked { GaveAll L.gave link.old link.new call.new.trace.now result }
    ensures counted { CountsTests (situation_of request.now signer.now t) signer.now (outcome_of result call.new.trace.now) result (G.count call.old.steps.now.ledger) (G.count call.new.steps.now.ledger) }
    ensures complete { IsComplete (situation_of request.now signer.now t) signer.now (L.web link.old) (L.link_faults link.old) (L.link_faults link.new) (outcome_of result call.new.trace.now) }
    ensures sealed { IfOk result (λ reply. IsSealedFor signer.now.keys reply.text) }
    ensures signed { IfOk result (λ reply. IsSignedAs signer.now.keys reply_type (compact reply.claims) reply.text) }
    ensures reads { IfOk result (λ reply. ReadsBack signer.now.keys reply.claims reply.text) }
    ensures says { IfOk result (λ reply. SaysReply reply.claims) }
    ensures chain_exp { IfOk result (HasChainEnd (situation_of request.now signer.now t) signer.now call.new.trace.now) }
    ensures configs { IfOk result (HasConfigs (situation_of request.now signer.now t) signer.now call.new.trace.now) }
{
    read_book(
        call.commons,
        call.rt,
        call.alloc,
        call.pass,
        call.trace,
        &request.anchor,
    )?;
    take_keys(call.alloc, call.trace)?;
    search(call, signer, request, link, t)
}

// Makes the leaf's rounds, and answers by how the last of them ended.
fn search<R: Wait + Threads + Sync, L: Link, G: Ledger>(
    call: &mut Call<'_, R, G>,
    signer: &Signer,
    request: &ResolveRequest,
    link: &mut L,
    t: u64,
) -> Result<Reply, Refusal>
    requires of { HasPass call.old }
    requires begun { IsBegun (situation_of request.now signer.now t) call.old.trace.now }
    ensures keeps { KeepsParts call.old call.new }
    ensures worn { WornOnly (known call.new.pass.now) result }
    ensures goes { GoesBy signer.now.age (moment_of (link_view L.calls L.link_faults L.web L.gave) call.old link.old)
        (moment_of (link_view L.calls L.link_faults L.web L.gave) call.new link.new) result }
    ensures walked { WalksBy L.gave link.old link.new call.old.trace.now call.new.trace.now result }
    ensures whole { WholeBy (situation_of request.now signer.now t) signer.now call.new.trace.now result }
    ensures counted { CountsTests (situation_of request.now signer.now t) signer.now (outcome_of result call.new.trace.now) result (G.count call.old.steps.now.ledger) (G.count call.new.steps.now.ledger) }
    ensures sealed { IfOk result (λ reply. IsSealedFor signer.now.keys reply.text) }
    ensures signed { IfOk result (λ reply. IsSignedAs signer.now.keys reply_type (compact reply.claims) reply.text) }
    ensures reads { IfOk result (λ reply. ReadsBack signer.now.keys reply.claims reply.text) }
    ensures says { IfOk result (λ reply. SaysReply reply.claims) }
    ensures chain_exp { IfOk result (HasChainEnd (situation_of request.now signer.now t) signer.now call.new.trace.now) }
    ensures configs { IfOk result (HasConfigs (situation_of request.now signer.now t) signer.now call.new.trace.now) }
{
    let mut aim = aim_at(call.alloc, &request.sub, &request.anchor, signer)?;
    let ended = rounds_for(call, link, &mut aim);
    drop(aim);
    let RoundEnd { end, chain } = ended?;
    match chain {
        Some(chain) => {
            drop(end);
            let reply = reply_on(call, signer, request, link, t, chain)?;
            Ok(reply)
        }
        None => Err(refused_by(end, last_faults(call.trace.searches.as_slice()))),
    }
}

// Why there is no reply, where a search ended so without a chain and had so many faults.
fn refused_by(end: End, faults: u64) -> Refusal
    ensures { result ≡ refused_by end faults }
{
    if faults > 0 {
        return Refusal::Unavailable;
    }
    match end {
        End::Found(_) => Refusal::NoChain,
        End::NoLeaf => Refusal::NotFound,
        End::PolicyOnly => Refusal::PolicyOnly,
        End::NoChain => Refusal::NoChain,
        End::Budget { calls, paths } => Refusal::Budget { calls, paths },
    }
}
