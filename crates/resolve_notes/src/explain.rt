// What a person reads where an entity wasn't resolved.

use crate::configurations::configurations_of;
use crate::pages::{Round, explain_pages};
use crate::path::explain_path;
use chain_climb::Bounds;
use fed_base::OpensLedgers;
use fed_ports::Page;
use fed_resolver::{Outcome, Refusal, ResolveRequest};
use plain_notes::{Notes, Sentence, explain_memory, explain_worn};
use resolve_round::{Got, Search, Trace};
use std::alloc::Global;

/// Says why there is no reply: first the answer in words, then each page of the last round that wasn't good, and what failed on a path up
/// to the trust anchor. Of a search that broke off, for want of memory or at a worn object, it says the answer alone.
pub fn explain_outcome<R: OpensLedgers>(
    rt: &R,
    alloc: Global,
    request: &ResolveRequest,
    outcome: &Outcome,
    notes: &mut Notes,
) {
    let Err(refusal) = &outcome.result else {
        return;
    };
    let search = outcome.trace.searches.as_slice().last();
    // Where the leaf's host has no route, that is what is said of its page.
    let unrouted = matches!(refusal, Refusal::NotFound) && search.is_some_and(begins_unrouted);
    if !unrouted {
        explain_refusal(alloc, refusal, outcome.trace.bounds, notes);
    }
    if matches!(refusal, Refusal::Worn(_) | Refusal::Memory) {
        return;
    }
    if let Some(search) = search {
        explain_search(rt, alloc, request, &outcome.trace, search, notes);
    }
}

// Whether the first page that was wanted has a host without a route.
fn begins_unrouted(search: &Search) -> bool {
    match search.asks.as_slice() {
        [first, ..] => matches!(first.got, Got::Fetched(Page::NoRoute)),
        [] => false,
    }
}

// Says of each page of the round why it isn't good, and what failed on a path.
fn explain_search<R: OpensLedgers>(
    rt: &R,
    alloc: Global,
    request: &ResolveRequest,
    trace: &Trace,
    search: &Search,
    notes: &mut Notes,
) {
    let configurations = configurations_of(alloc, search);
    let round = Round {
        trace,
        search,
        configurations: configurations.as_slice(),
    };
    explain_pages(alloc, &round, notes);
    if search.paths > 0 {
        explain_path(
            rt,
            alloc,
            request,
            trace,
            search,
            configurations.as_slice(),
            notes,
        );
    }
}

// Says how far the search came, how far it may go, and where that is set.
fn explain_budget(alloc: Global, calls: u64, paths: u64, bounds: Bounds, notes: &mut Notes) {
    let mut sentence = Sentence::of(alloc, b"the search ended at its bound: ");
    sentence = and_count(alloc, sentence, calls).and(b" pages of at most ");
    sentence = and_count(alloc, sentence, bounds.calls).and(b", ");
    sentence = and_count(alloc, sentence, paths).and(b" paths of at most ");
    sentence = and_count(alloc, sentence, bounds.paths);
    notes.say(sentence.and(b"; see depth, calls and paths of the anchor in the configuration"));
}

// The sentence with a number behind it, which has a comma before its last three digits.
fn and_count(alloc: Global, sentence: Sentence, count: u64) -> Sentence {
    if count < 1_000 {
        return sentence.and_number(alloc, count);
    }
    let rest = count % 1_000;
    sentence
        .and_number(alloc, count / 1_000)
        .and(b",")
        .and_number(alloc, rest / 100)
        .and_number(alloc, rest / 10 % 10)
        .and_number(alloc, rest % 10)
}

// Says the answer in words.
fn explain_refusal(alloc: Global, refusal: &Refusal, bounds: Bounds, notes: &mut Notes) {
    match refusal {
        Refusal::NoAnchor => notes.say(Sentence::of(
            alloc,
            b"the configuration lists no such trust anchor; see its member resolver.anchors",
        )),
        Refusal::NotFound => notes.say(Sentence::of(
            alloc,
            b"the entity's configuration isn't there, isn't current, or isn't sealed by its own keys",
        )),
        Refusal::PolicyOnly => notes.say(Sentence::of(
            alloc,
            b"a chain up to the trust anchor is valid but for its metadata policies",
        )),
        Refusal::NoChain => notes.say(Sentence::of(
            alloc,
            b"no valid chain up to the trust anchor was found",
        )),
        Refusal::Unavailable => notes.say(Sentence::of(
            alloc,
            b"no valid chain was found, and a fetch failed",
        )),
        Refusal::Budget { calls, paths } => {
            explain_budget(alloc, *calls, *paths, bounds, notes);
        },
        Refusal::Worn(_) => explain_worn(alloc, notes),
        Refusal::Memory => explain_memory(alloc, notes),
    }
}
