// The rounds for one entity.

ghost use Rattle.std.specs.Prelude.{◌≡◌, true, IfOk, OnOk};
ghost use Rattle.resolve_round.specs.Linking.{link_view};
ghost use Rattle.resolve_round.specs.Told.{ProvesGood};
ghost use Rattle.resolve_round.specs.Calls.{Acts, Counted};
ghost use Rattle.fed_resolver.specs.Going.{HasRounds, faults_in, first_aim, hits_in, is_settled, last_search};
ghost use Rattle.fed_resolver.specs.Stretches.{CanGoOn, GoesFor, WalksFor, moment_of};

use entity_id::EntityId;
use fed_base::{Duplicate, Ledger, Memory};
use fed_ports::Link;
use resolve_reply::{Signer, bounds_for};
use resolve_round::Search;
use resolve_search::{Aim, Call, Halt, RoundEnd, search_round};
use std::alloc::Global;
use std::sync::Wait;

// What a first round for an entity is after, within the signer's bounds for the anchor.
pub(crate) fn aim_at(
    alloc: Global,
    leaf: &EntityId,
    anchor: &EntityId,
    signer: &Signer,
) -> Result<Aim, Memory>
    ensures { IfOk result (λ aim. aim ≡ first_aim leaf.now anchor.now signer.now) }
{
    let bounds = bounds_for(signer.bounds.as_slice(), anchor);
    let leaf = leaf.copy(alloc)?;
    let anchor = anchor.copy(alloc)?;
    Ok(Aim {
        leaf,
        anchor,
        bounds,
        age: signer.age,
        looks: true,
    })
}

// Makes the rounds for an entity: one that looks into the cache first and, where that found no chain and had a hit, one that doesn't.
pub(crate) fn rounds_for<R: Wait, L: Link, G: Ledger>(
    call: &mut Call<'_, R, G>,
    link: &mut L,
    aim: &mut Aim,
) -> Result<RoundEnd, Halt>
    requires ready { CanGoOn aim.old.age call.old }
    requires looks { aim.old.looks ≡ true }
    ensures acts { Acts call.old call.new result }
    ensures goes { GoesFor aim.old.age (moment_of (link_view L.calls L.link_faults L.web L.gave) call.old link.old) (moment_of (link_view L.calls L.link_faults L.web L.gave) call.new link.new) result }
    ensures walked { WalksFor L.gave link.old link.new call.old.trace.now call.new.trace.now result }
    ensures counted { Counted G.count call.old call.new }
    ensures good { OnOk result (ProvesGood call.new.trace.now) }
    ensures rounds { IfOk result (HasRounds aim.old call.old.trace.now call.new.trace.now) }
{
    let first = search_round(call, link, aim)?;
    if is_settled(&first, call.trace.searches.as_slice()) {
        return Ok(first);
    }
    drop(first);
    aim.looks = false;
    search_round(call, link, aim)
}

// Whether no second round follows: a chain was found, or no text came from the cache.
fn is_settled(end: &RoundEnd, searches: &[Search]) -> bool
    ensures { result ≡ is_settled end.now searches.now }
{
    end.chain.is_some() || last_hits(searches) == 0
}

// How many texts of the last round came from the cache.
fn last_hits(searches: &[Search]) -> u64
    ensures { result ≡ hits_in (last_search searches.now) }
{
    match searches.last() {
        Some(search) => search.hits,
        None => 0,
    }
}

// How many calls of the link failed in the last round.
pub(crate) fn last_faults(searches: &[Search]) -> u64
    ensures { result ≡ faults_in (last_search searches.now) }
{
    match searches.last() {
        Some(search) => search.faults,
        None => 0,
    }
}
