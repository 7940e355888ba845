// The rounds for the issuers of the leaf's marks.

ghost use Rattle.std.specs.Prelude.{◌≡◌, [], IfOk, IsSome, OnOk, Some};
ghost use Rattle.entity_statement.specs.Claims.{Claims};
ghost use Rattle.entity_statement.specs.Signed.{statement_of};
ghost use Rattle.resolve_reply.specs.Marks.{each_named};
ghost use Rattle.resolve_round.specs.Linking.{link_view};
ghost use Rattle.resolve_round.specs.Told.{ProvesGood};
ghost use Rattle.resolve_round.specs.Calls.{Acts, Counted};
ghost use Rattle.fed_resolver.specs.Going.{HasIssuer, HasIssuers, KeepsBy, first_aim, first_text};
ghost use Rattle.fed_resolver.specs.Stretches.{CanGoOn, GoesFor, WalksFor, moment_of};

use crate::rounds::{aim_at, rounds_for};
use crate::texts::{first_copy, first_statement};
use chain_check::Tried;
use entity_id::EntityId;
use fed_base::{Duplicate, Ledger, Memory, Seq};
use fed_ports::Link;
use jwk_set::JwkSet;
use resolve_reply::{Issuer, MarkIssuers, Signer};
use resolve_round::ResolveRequest;
use resolve_search::{Call, Halt, RoundEnd};
use std::alloc::Global;
use std::sync::Wait;

// Makes the rounds for each issuer of the leaf's marks, and keeps those whose chain was found.
pub(crate) fn search_issuers<R: Wait, L: Link, G: Ledger>(
    call: &mut Call<'_, R, G>,
    link: &mut L,
    request: &ResolveRequest,
    signer: &Signer,
    issuers: &mut MarkIssuers,
) -> Result<(), Halt>
    requires ready { CanGoOn signer.now.age call.old }
    requires none { issuers.old.found ≡ [] }
    ensures acts { Acts call.old call.new result }
    ensures goes { GoesFor signer.now.age (moment_of (link_view L.calls L.link_faults L.web L.gave) call.old link.old) (moment_of (link_view L.calls L.link_faults L.web L.gave) call.new link.new) result }
    ensures walked { WalksFor L.gave link.old link.new call.old.trace.now call.new.trace.now result }
    ensures counted { Counted G.count call.old call.new }
    ensures good { OnOk result (ProvesGood call.new.trace.now) }
    ensures by_mark { issuers.new.by_mark ≡ issuers.old.by_mark }
    ensures issuers { OnOk result (HasIssuers (first_aim request.now.sub request.now.anchor signer.now) (each_named issuers.old.by_mark)
        call.old.trace.now call.new.trace.now issuers.new.found) }
{
    let searched = issuers.searched(call.alloc)?;
    for id in searched.as_slice() {
        search_issuer(call, link, &request.anchor, signer, id, &mut issuers.found)?;
    }
    Ok(())
}

// Makes the rounds for an issuer, and keeps it where they found a chain.
fn search_issuer<R: Wait, L: Link, G: Ledger>(
    call: &mut Call<'_, R, G>,
    link: &mut L,
    anchor: &EntityId,
    signer: &Signer,
    id: &EntityId,
    found: &mut Seq<Issuer>,
) -> Result<(), Halt>
    requires ready { CanGoOn signer.now.age call.old }
    ensures acts { Acts call.old call.new result }
    ensures goes { GoesFor signer.now.age (moment_of (link_view L.calls L.link_faults L.web L.gave) call.old link.old) (moment_of (link_view L.calls L.link_faults L.web L.gave) call.new link.new) result }
    ensures walked { WalksFor L.gave link.old link.new call.old.trace.now call.new.trace.now result }
    ensures counted { Counted G.count call.old call.new }
    ensures good { OnOk result (ProvesGood call.new.trace.now) }
    ensures issuer { OnOk result (HasIssuer (first_aim id.now anchor.now signer.now) call.old.trace.now call.new.trace.now found.old found.new) }
{
    let mut aim = aim_at(call.alloc, id, anchor, signer)?;
    let ended = rounds_for(call, link, &mut aim);
    drop(aim);
    let RoundEnd { end, chain } = ended?;
    drop(end);
    let Some(chain) = chain else {
        return Ok(());
    };
    let kept = keep_issuer(call.alloc, id, chain.texts.as_slice(), found);
    drop(chain);
    Ok(kept?)
}

// Keeps an issuer with the configuration with which its chain begins, and the keys of this.
fn keep_issuer(
    alloc: Global,
    id: &EntityId,
    chain: &[Tried],
    found: &mut Seq<Issuer>,
) -> Result<(), Memory>
    requires { IsSome (statement_of (first_text chain.now)) }
    ensures { OnOk result (KeepsBy id.now (Some (first_text chain.now)) found.old found.new) }
{
    let keys = first_keys(alloc, chain)?;
    let text = first_copy(alloc, chain)?;
    let id = id.copy(alloc)?;
    found.push(Issuer { id, keys, text })
}

// The keys of the first statement.
fn first_keys(alloc: Global, chain: &[Tried]) -> Result<JwkSet, Memory>
    requires { IsSome (statement_of (first_text chain.now)) }
    ensures { IfOk result (λ set. (statement : Claims) × (statement_of (first_text chain.now) ≡ Some statement) × (set.keys ≡ statement.keys)) }
{
    let own = first_statement(alloc, chain)?;
    Ok(own.jwks)
}
