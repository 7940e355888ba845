// The reply on a chain that was found.

ghost use Rattle.std.specs.Prelude.{◌≡◌, ℕ, length, IfOk, MatchResult, OnOk, Ok};
ghost use Rattle.entity_statement.specs.Told.{told};
ghost use Rattle.fed_json.specs.Compact.{compact};
ghost use Rattle.sealed.specs.Sealing.{IsSealedFor, IsSignedAs};
ghost use Rattle.resolve_reply.specs.Marks.{issuers_by_mark, judging_by, looked_at, tests_of_marks};
ghost use Rattle.resolve_reply.specs.Replies.{ReadsBack, SaysReply, reply_type};
ghost use Rattle.resolve_round.specs.Linking.{link_view};
ghost use Rattle.resolve_round.specs.Told.{ProvesGood};
ghost use Rattle.resolve_round.specs.Calls.{Acts, Counted};
ghost use Rattle.fed_json.specs.Forms.{IsWhole as IsWholeTree};
ghost use Rattle.fed_resolver.specs.Going.{AreEnds, HasLeaf, first_aim};
ghost use Rattle.fed_resolver.specs.Outcomes.{HasChainEnd, HasConfigs, IsWhole};
ghost use Rattle.fed_resolver.specs.Refusals.{outcome_of};
ghost use Rattle.fed_resolver.specs.Replying.{CanSay, IsMarked, IsSearched, marking_by, said_with};
ghost use Rattle.fed_resolver.specs.Stretches.{CanGoOn, GoesFor, WalksFor, moment_of};
ghost use Rattle.fed_resolver.specs.Told.{situation_of};
ghost use Rattle.fed_resolver.specs.Uses.{CountsAll, CountsSome};
ghost use Rattle.fed_base.specs.Counts.{CountsAtMost, counted};

use crate::issuers::search_issuers;
use crate::texts::{Ends, read_ends, texts_of};
use chain_check::Tried;
use entity_statement::{MarkEntry, Statement};
use fed_base::{Duplicate, Ledger, Memory, Seq, Steps};
use fed_json::Json;
use fed_ports::Link;
use resolve_reply::{GoodMarks, MarkIssuers, Reply, Said, Signer, cut_to, good_marks, seal_reply};
use resolve_round::ResolveRequest;
use resolve_search::{Call, FoundChain, Halt};
use std::alloc::Global;
use std::sync::Wait;
use std::thread::Threads;

// Searches the issuers of the leaf's marks, looks which of these are good, and seals the reply.
pub(crate) fn reply_on<R: Wait + Threads + Sync, L: Link, G: Ledger>(
    call: &mut Call<'_, R, G>,
    signer: &Signer,
    request: &ResolveRequest,
    link: &mut L,
    t: u64,
    chain: FoundChain,
) -> Result<Reply, Halt>
    requires ready { CanGoOn signer.now.age call.old }
    requires leaf { HasLeaf (situation_of request.now signer.now t) call.old.trace.now chain }
    ensures acts { Acts call.old call.new result }
    ensures goes { GoesFor signer.now.age (moment_of (link_view L.calls L.link_faults L.web L.gave) call.old link.old) (moment_of (link_view L.calls L.link_faults L.web L.gave) call.new link.new) result }
    ensures walked { WalksFor L.gave link.old link.new call.old.trace.now call.new.trace.now result }
    ensures whole { IfOk result (λ reply. IsWhole (situation_of request.now signer.now t) signer.now (outcome_of (Ok reply) call.new.trace.now)) }
    ensures counted { (before : ℕ) → G.count call.old.steps.now.ledger ≡ counted (length call.old.trace.now.checks) before
        → MatchResult result
        (λ reply. CountsAll (situation_of request.now signer.now t) signer.now (outcome_of (Ok reply) call.new.trace.now) before (G.count call.new.steps.now.ledger))
        (λ _. CountsSome call.new.trace.now before (G.count call.new.steps.now.ledger)) }
    ensures sealed { IfOk result (λ reply. IsSealedFor signer.now.keys reply.text) }
    ensures signed { IfOk result (λ reply. IsSignedAs signer.now.keys reply_type (compact reply.claims) reply.text) }
    ensures reads { IfOk result (λ reply. ReadsBack signer.now.keys reply.claims reply.text) }
    ensures says { IfOk result (λ reply. SaysReply reply.claims) }
    ensures chain_exp { IfOk result (HasChainEnd (situation_of request.now signer.now t) signer.now call.new.trace.now) }
    ensures configs { IfOk result (HasConfigs (situation_of request.now signer.now t) signer.now call.new.trace.now) }
{
    let ends = read_ends(call.alloc, chain.texts.as_slice())?;
    let reply = reply_by(call, signer, request, link, t, chain, &ends);
    drop(ends);
    reply
}

// The same by the statements at the ends of the chain.
fn reply_by<R: Wait + Threads + Sync, L: Link, G: Ledger>(
    call: &mut Call<'_, R, G>,
    signer: &Signer,
    request: &ResolveRequest,
    link: &mut L,
    t: u64,
    chain: FoundChain,
    ends: &Ends,
) -> Result<Reply, Halt>
    requires ready { CanGoOn signer.now.age call.old }
    requires ends { AreEnds chain.texts ends.now }
    requires leaf { HasLeaf (situation_of request.now signer.now t) call.old.trace.now chain }
    ensures acts { Acts call.old call.new result }
    ensures goes { GoesFor signer.now.age (moment_of (link_view L.calls L.link_faults L.web L.gave) call.old link.old) (moment_of (link_view L.calls L.link_faults L.web L.gave) call.new link.new) result }
    ensures walked { WalksFor L.gave link.old link.new call.old.trace.now call.new.trace.now result }
    ensures whole { IfOk result (λ reply. IsWhole (situation_of request.now signer.now t) signer.now (outcome_of (Ok reply) call.new.trace.now)) }
    ensures counted { (before : ℕ) → G.count call.old.steps.now.ledger ≡ counted (length call.old.trace.now.checks) before
        → MatchResult result
        (λ reply. CountsAll (situation_of request.now signer.now t) signer.now (outcome_of (Ok reply) call.new.trace.now) before (G.count call.new.steps.now.ledger))
        (λ _. CountsSome call.new.trace.now before (G.count call.new.steps.now.ledger)) }
    ensures sealed { IfOk result (λ reply. IsSealedFor signer.now.keys reply.text) }
    ensures signed { IfOk result (λ reply. IsSignedAs signer.now.keys reply_type (compact reply.claims) reply.text) }
    ensures reads { IfOk result (λ reply. ReadsBack signer.now.keys reply.claims reply.text) }
    ensures says { IfOk result (λ reply. SaysReply reply.claims) }
    ensures chain_exp { IfOk result (HasChainEnd (situation_of request.now signer.now t) signer.now call.new.trace.now) }
    ensures configs { IfOk result (HasConfigs (situation_of request.now signer.now t) signer.now call.new.trace.now) }
{
    let issuers = found_issuers(call, signer, request, link, &ends.leaf, &ends.anchor)?;
    let reply = sealed_reply(
        call.rt,
        call.alloc,
        signer,
        request,
        t,
        call.steps,
        chain,
        &ends.leaf,
        &ends.anchor,
        &issuers,
    )?;
    Ok(reply)
}

// The issuers of the leaf's marks, of whom those whose chain was found are kept.
fn found_issuers<R: Wait, L: Link, G: Ledger>(
    call: &mut Call<'_, R, G>,
    signer: &Signer,
    request: &ResolveRequest,
    link: &mut L,
    leaf: &Statement,
    anchor: &Statement,
) -> Result<MarkIssuers, Halt>
    requires ready { CanGoOn signer.now.age call.old }
    ensures acts { Acts call.old call.new result }
    ensures goes { GoesFor signer.now.age (moment_of (link_view L.calls L.link_faults L.web L.gave) call.old link.old) (moment_of (link_view L.calls L.link_faults L.web L.gave) call.new link.new) result }
    ensures walked { WalksFor L.gave link.old link.new call.old.trace.now call.new.trace.now result }
    ensures counted { Counted G.count call.old call.new }
    ensures good { OnOk result (ProvesGood call.new.trace.now) }
    ensures issuers { IfOk result (IsSearched (first_aim request.now.sub request.now.anchor signer.now) (told leaf.now) (told anchor.now)
        call.old.trace.now call.new.trace.now) }
{
    let mut issuers = MarkIssuers::of(call.alloc, leaf, anchor)?;
    search_issuers(call, link, request, signer, &mut issuers)?;
    Ok(issuers)
}

// Looks which of the leaf's marks are good, and seals what the chain says with them.
fn sealed_reply<R: Threads + Sync, G: Ledger>(
    rt: &R,
    alloc: Global,
    signer: &Signer,
    request: &ResolveRequest,
    t: u64,
    steps: &mut Steps<G>,
    chain: FoundChain,
    leaf: &Statement,
    anchor: &Statement,
    issuers: &MarkIssuers,
) -> Result<Reply, Memory>
    requires marks { issuers.now.by_mark ≡ issuers_by_mark leaf.now.marks (told anchor.now) }
    requires writable { CanSay chain }
    ensures reply { IfOk result (IsMarked (marking_by leaf.now.sub (told anchor.now) issuers.now.found t) leaf.now.marks request.now signer.now chain) }
    ensures sealed { IfOk result (λ reply. IsSealedFor signer.now.keys reply.text) }
    ensures signed { IfOk result (λ reply. IsSignedAs signer.now.keys reply_type (compact reply.claims) reply.text) }
    ensures reads { IfOk result (λ reply. ReadsBack signer.now.keys reply.claims reply.text) }
    ensures says { IfOk result (λ reply. SaysReply reply.claims) }
    ensures counted { MatchResult result
        (λ _. G.count steps.new.ledger ≡ counted (tests_of_marks (judging_by leaf.now.sub (told anchor.now) issuers.now.found t) (looked_at leaf.now.marks)) (G.count steps.old.ledger))
        (λ _. CountsAtMost (tests_of_marks (judging_by leaf.now.sub (told anchor.now) issuers.now.found t) (looked_at leaf.now.marks)) (G.count steps.old.ledger) (G.count steps.new.ledger)) }
{
    let FoundChain { texts, resolved } = chain;
    let chain_exp = resolved.exp;
    let good = good_marks(alloc, leaf, anchor, issuers, chain_exp, t, steps)?;
    let GoodMarks {
        entries,
        exp,
        configs,
    } = good;
    let said = said_by(alloc, request, t, texts, resolved.metadata, exp, entries)?;
    seal_reply(rt, alloc, signer, said, chain_exp, configs)
}

// What is said of a chain with its good marks.
fn said_by(
    alloc: Global,
    request: &ResolveRequest,
    t: u64,
    texts: Seq<Tried>,
    metadata: Json,
    exp: u64,
    marks: Seq<MarkEntry>,
) -> Result<Said, Memory>
    ensures said { IfOk result (λ said. said ≡ said_with request.now t texts metadata exp marks) }
    ensures whole { IsWholeTree metadata → IfOk result (λ said. IsWholeTree said.metadata) }
{
    let sub = request.sub.copy(alloc)?;
    let chain = texts_of(alloc, texts)?;
    let metadata = cut_to(alloc, &request.types, metadata);
    Ok(Said {
        sub,
        iat: t,
        exp,
        metadata,
        chain,
        marks,
    })
}
