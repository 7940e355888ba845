// The whole rehearsal.

ghost use Rattle.std.specs.Prelude.{◌≡◌, IfErr, IfOk, IfSome, None};
ghost use Rattle.statement_shelf.specs.Passes.{IsPassOfAll};
ghost use Rattle.turn_log.specs.Groups.{known};
ghost use Rattle.rehearsal.specs.Rehearsals.{HoldsWornBy, IsAskedBy, IsAskedTwice, IsChecked, IsRehearsal, IsSummary, is_worn};
ghost use Rattle.rehearsal.specs.Requests.{IsWornOf, shared_at};

use crate::clock::{MOMENT, StandingClock};
use crate::fault::RehearsalFault;
use crate::federation::{Entity, add_federation};
use crate::reply::chain_in;
use crate::requesting::{Answer, ask};
use crate::resolver::{Opened, open_resolver};
use crate::summary::{Counts, Summary, counts_of, last_of};
use chain_check::{Verdict, check_chain};
use entity_id::EntityId;
use fed_base::{Memory, OpensLedgers, Plain, Seq, Steps, Text};
use fed_net::MemoryLink;
use fed_serve::Node;
use jwk_set::JwkSet;
use statement_shelf::FedPass;
use std::alloc::Global;
use std::sync::Wait;
use std::thread::Threads;

// How often the link is called at most: more than a round may.
const CALLS: u64 = 1_000;

/// Makes a federation in memory in which the leaf's metadata has so many parameters, 200 at most; lets a resolver resolve the leaf twice,
/// the second time from its cache; and checks the chain of the second reply. `worn` has the pass where a shared object had counted 2^62
/// calls.
pub fn rehearse<R: Wait + Threads + OpensLedgers + Sync>(
    rt: &R,
    alloc: Global,
    params: u64,
    worn: &mut Option<FedPass>,
) -> Result<Summary, RehearsalFault>
    requires { worn.old ≡ None }
    ensures rehearsal { IfOk result (IsRehearsal params) }
    ensures worn { HoldsWornBy result worn.new }
{
    let mut pages = Seq::new(alloc);
    let anchor = add_federation(alloc, params, &mut pages)?;
    let mut link = MemoryLink::new(alloc, pages, &[], CALLS)?;
    rehearse_over(rt, alloc, params, &anchor, &mut link, worn)
}

// The rehearsal over a link that has the pages of the federation.
fn rehearse_over<R: Wait + Threads + OpensLedgers + Sync>(
    rt: &R,
    alloc: Global,
    params: u64,
    anchor: &Entity,
    link: &mut MemoryLink,
    worn: &mut Option<FedPass>,
) -> Result<Summary, RehearsalFault>
    requires none { worn.old ≡ None }
    ensures asked { IfOk result (IsAskedBy params anchor.now link.old) }
    ensures worn { HoldsWornBy result worn.new }
{
    let opened = open_resolver(alloc, anchor.keys.as_slice())?;
    rehearse_by(rt, alloc, params, &anchor.id, opened, link, worn)
}

// The rehearsal by the resolver's node and its pass.
fn rehearse_by<R: Wait + Threads + OpensLedgers + Sync>(
    rt: &R,
    alloc: Global,
    params: u64,
    anchor: &EntityId,
    opened: Opened,
    link: &mut MemoryLink,
    worn: &mut Option<FedPass>,
) -> Result<Summary, RehearsalFault>
    requires none { worn.old ≡ None }
    requires of { IfSome opened.node.resolver (λ part. IsPassOfAll part.commons opened.pass) }
    ensures asked { IfOk result (IsAskedTwice opened.node params anchor.now (shared_at link.old 0 (known opened.pass) 0)) }
    ensures worn { HoldsWornBy result worn.new }
{
    let Opened { node, mut pass } = opened;
    let summary = ask_twice(rt, alloc, params, anchor, &node, &mut pass, link);
    drop(node);
    hold_worn(&summary, pass, worn);
    summary
}

// Hands the pass out where a shared object was worn.
fn hold_worn(summary: &Result<Summary, RehearsalFault>, pass: FedPass, worn: &mut Option<FedPass>)
    requires none { worn.old ≡ None }
    requires only { IfErr summary.now (IsWornOf (known pass)) }
    ensures { HoldsWornBy summary.now worn.new }
{
    if is_worn(summary) {
        *worn = Some(pass);
    }
}

fn is_worn(summary: &Result<Summary, RehearsalFault>) -> bool
    ensures { result ≡ is_worn summary.now }
{
    matches!(summary, Err(RehearsalFault::Worn))
}

// Asks for the leaf twice, and sums up.
fn ask_twice<R: Wait + Threads + OpensLedgers + Sync>(
    rt: &R,
    alloc: Global,
    params: u64,
    anchor: &EntityId,
    node: &Node,
    pass: &mut FedPass,
    link: &mut MemoryLink,
) -> Result<Summary, RehearsalFault>
    requires of { IfSome node.now.resolver (λ part. IsPassOfAll part.commons pass.old) }
    ensures asked { IfOk result (IsAskedTwice node.now params anchor.now (shared_at link.old 0 (known pass.old) 0)) }
    ensures worn { IfErr result (IsWornOf (known pass.new)) }
{
    let mut clock = StandingClock::new();
    let mut steps = Steps {
        ledger: Plain::new(rt),
    };
    let first = ask(rt, alloc, node, pass, link, &mut clock, &mut steps)?;
    let counts = counts_of(&first.trace);
    drop(first);
    let second = ask(rt, alloc, node, pass, link, &mut clock, &mut steps)?;
    let summary = sum_up(rt, alloc, params, anchor, counts, &second);
    drop(second);
    Ok(summary?)
}

// Checks the chain of the second reply, and sums up.
fn sum_up<R: OpensLedgers>(
    rt: &R,
    alloc: Global,
    params: u64,
    anchor: &EntityId,
    first: Counts,
    second: &Answer,
) -> Result<Summary, Memory>
    ensures { IfOk result (IsSummary params anchor.now first second.now) }
{
    let Some(chain) = chain_in(alloc, second.peer.as_slice())? else {
        return Err(Memory);
    };
    let last = check(rt, alloc, params, &chain, anchor, &second.trace.keys)?;
    Ok(Summary {
        params,
        chain: chain.len() as u64,
        first,
        second: counts_of(&second.trace),
        last,
    })
}

// Checks the chain, and gives the last parameter of what it resolves to. A chain that is refused is told as want of memory.
fn check<R: OpensLedgers>(
    rt: &R,
    alloc: Global,
    params: u64,
    chain: &Seq<Text>,
    anchor: &EntityId,
    keys: &JwkSet,
) -> Result<Text, Memory>
    ensures { IfOk result (IsChecked params chain.now anchor.now keys.now.keys) }
{
    let mut steps = Steps {
        ledger: Plain::new(rt),
    };
    let verdict = check_chain(alloc, chain, anchor, keys, MOMENT, &mut steps)?;
    match verdict {
        Verdict::Valid(resolved) => {
            let last = last_of(alloc, params, &resolved.metadata);
            drop(resolved);
            last
        }
        Verdict::Refused { .. } => Err(Memory),
    }
}
