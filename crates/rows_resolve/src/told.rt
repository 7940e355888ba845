// What is told of a call.

use crate::names::name_of;
use crate::replies::add_reply;
use crate::words::{add_number, add_word};
use chain_climb::Bounds;
use fed_base::{Duplicate, Memory, OpensLedgers, Text};
use fed_resolver::{Outcome, Refusal};
use resolve_reply::Signer;
use resolve_round::{Event, Search, Trace};
use statement_shelf::{BookCall, BookReply, ShelfCall, ShelfReply};
use std::alloc::Global;
use turn_log::Worn;

fn refusal_word(refusal: &Refusal) -> &'static [u8] {
    match refusal {
        Refusal::NoAnchor => b"NoAnchor",
        Refusal::NotFound => b"NotFound",
        Refusal::PolicyOnly => b"PolicyOnly",
        Refusal::NoChain => b"NoChain",
        Refusal::Unavailable => b"Unavailable",
        Refusal::Budget { calls: _, paths: _ } => b"Budget",
        Refusal::Worn(_) => b"Worn",
        Refusal::Memory => b"Memory",
    }
}

fn add_refusal(alloc: Global, out: &mut Text, refusal: &Refusal) -> Result<(), Memory> {
    add_word(out, refusal_word(refusal))?;
    if let Refusal::Budget { calls, paths } = refusal {
        add_number(alloc, out, *calls)?;
        add_number(alloc, out, *paths)?;
    }
    Ok(())
}

fn add_count(alloc: Global, out: &mut Text, n: u64, word: &[u8]) -> Result<(), Memory> {
    add_number(alloc, out, n)?;
    add_word(out, word)
}

fn add_round(alloc: Global, out: &mut Text, search: &Search) -> Result<(), Memory> {
    out.append(b"; ")?;
    out.append(name_of(&search.leaf))?;
    out.push(b':')?;
    add_count(alloc, out, search.calls, b"calls")?;
    add_count(alloc, out, search.hits, b"hits")?;
    add_count(alloc, out, search.faults, b"faults")?;
    add_count(alloc, out, search.paths, b"paths")?;
    if search.ended {
        add_word(out, b"ended")
    } else {
        Ok(())
    }
}

fn call_word(call: &ShelfCall) -> &'static [u8] {
    match call {
        ShelfCall::Look { .. } => b"Look",
        ShelfCall::Put { .. } => b"Put",
        ShelfCall::Prove { .. } => b"Prove",
        ShelfCall::Purge { .. } => b"Purge",
    }
}

fn reply_word(reply: &ShelfReply) -> &'static [u8] {
    match reply {
        ShelfReply::Hit(_) => b"Hit",
        ShelfReply::Miss => b"Miss",
        ShelfReply::Done => b"Done",
        ShelfReply::Gone => b"Gone",
        ShelfReply::Dropped(_) => b"Dropped",
        ShelfReply::Memory => b"Memory",
    }
}

fn book_call_word(call: &BookCall) -> &'static [u8] {
    match call {
        BookCall::Read { .. } => b"Read",
        BookCall::Epoch => b"Epoch",
        BookCall::Rotate { .. } => b"Rotate",
    }
}

fn book_reply_word(reply: &BookReply) -> &'static [u8] {
    match reply {
        BookReply::Keys { .. } => b"Keys",
        BookReply::At(_) => b"At",
        BookReply::Rotated(_) => b"Rotated",
        BookReply::Behind(_) => b"Behind",
        BookReply::NoAnchor => b"NoAnchor",
        BookReply::Memory => b"Memory",
    }
}

fn add_event(out: &mut Text, event: &Event) -> Result<(), Memory> {
    let (call, reply) = match event {
        Event::Shelf(call, reply) => (call_word(call), reply_word(reply)),
        Event::Book(call, reply) => (book_call_word(call), book_reply_word(reply)),
    };
    add_word(out, call)?;
    out.push(b':')?;
    out.append(reply)
}

fn add_events(out: &mut Text, events: &[Event]) -> Result<(), Memory> {
    out.push(b';')?;
    for event in events {
        add_event(out, event)?;
    }
    Ok(())
}

// Adds how far the rounds went.
fn add_bounds(alloc: Global, out: &mut Text, bounds: &Bounds) -> Result<(), Memory> {
    out.append(b"; bounds")?;
    add_number(alloc, out, bounds.depth)?;
    add_number(alloc, out, bounds.calls)?;
    add_number(alloc, out, bounds.paths)
}

/// What a rotation of keys replied: its word, and the epoch.
pub(crate) fn rotated_told(alloc: Global, reply: &Result<BookReply, Worn>) -> Result<Text, Memory> {
    let Ok(reply) = reply else {
        return Text::of(alloc, b"Worn");
    };
    let mut out = Text::of(alloc, book_reply_word(reply))?;
    if let BookReply::Rotated(epoch) | BookReply::Behind(epoch) = reply {
        add_number(alloc, &mut out, *epoch)?;
    }
    Ok(out)
}

// Adds what one word of a row asks for.
fn add_shown<R: OpensLedgers>(
    rt: &R,
    alloc: Global,
    out: &mut Text,
    outcome: &Outcome,
    signer: &Signer,
    word: &str,
) -> Result<(), Memory> {
    match (word, &outcome.result) {
        ("", _) => Ok(()),
        ("events", _) => add_events(out, outcome.trace.events.as_slice()),
        ("bounds", _) => add_bounds(alloc, out, &outcome.trace.bounds),
        (_, Ok(reply)) => add_reply(rt, alloc, out, reply, signer, word),
        (_, Err(_)) => Ok(()),
    }
}

fn add_rounds(alloc: Global, out: &mut Text, searches: &[Search]) -> Result<(), Memory> {
    for search in searches {
        add_round(alloc, out, search)?;
    }
    Ok(())
}

// Adds the rounds of a copy of the trace.
fn add_trace(alloc: Global, out: &mut Text, trace: &Trace) -> Result<(), Memory> {
    let trace = trace.copy(alloc)?;
    let added = add_rounds(alloc, out, trace.searches.as_slice());
    drop(trace);
    added
}

/// What a call answered: its result, its rounds, how many signatures were tested, and what the row's last part asks for.
pub(crate) fn outcome_told<R: OpensLedgers>(
    rt: &R,
    alloc: Global,
    outcome: &Outcome,
    tests: u64,
    signer: &Signer,
    shown: &str,
) -> Result<Text, Memory> {
    let mut out = Text::new(alloc);
    match &outcome.result {
        Ok(_) => add_word(&mut out, b"Reply")?,
        Err(refusal) => add_refusal(alloc, &mut out, refusal)?,
    }
    add_trace(alloc, &mut out, &outcome.trace)?;
    out.push(b';')?;
    add_count(alloc, &mut out, tests, b"tests")?;
    for word in shown.split(' ') {
        add_shown(rt, alloc, &mut out, outcome, signer, word)?;
    }
    Ok(out)
}
