// Registrations over an input, files, a clock and a network in memory.

use crate::node::{MOMENT, store};
use crate::words::{add_number, add_word, show};
use client_register::{RegisterFault, Registered};
use entity_id::EntityId;
use fed_base::{Duplicate, MOMENT_LIMIT, Memory, OpensLedgers, Seq, Text};
use fed_json::{count_below, find, object_members, text_at};
use fed_net::MemoryNetwork;
use fed_ports::{MemoryClock, MemorySource};
use plain_notes::Notes;
use register_once::{RegisterOrder, RegisterOutcome, RegisterStop, register_once};
use std::alloc::Global;
use std::sync::Wait;
use std::thread::Threads;

// How many bytes can be sent on a connection, and how many calls the input and the network answer.
const ROOM: usize = 1000;

const CALLS: u64 = 1000;

// The number of the network's call that receives the head of the second page: the first page takes five calls, which open, send and, three
// times, receive, and the second is opened and sent for.
const SECOND: u64 = 7;

/// A posted chain: whom it registers, until when, and what was sent.
pub(crate) fn posted_chain<R: Wait + Threads + OpensLedgers + Sync>(
    rt: &R,
    alloc: Global,
    published: &Seq<Text>,
) -> Result<Text, Memory> {
    let mut posted = Text::of(alloc, b"[\"")?;
    posted.append(text_of(published, 0))?;
    posted.append(b"\",\"")?;
    posted.append(text_of(published, 2))?;
    posted.append(b"\",\"")?;
    posted.append(text_of(published, 1))?;
    posted.append(b"\"]\n")?;
    answered(
        rt,
        alloc,
        published,
        posted.as_slice(),
        b"https://ta.example",
        &[],
    )
}

/// A posted configuration: the same, by pages of the network.
pub(crate) fn posted_configuration<R: Wait + Threads + OpensLedgers + Sync>(
    rt: &R,
    alloc: Global,
    published: &Seq<Text>,
) -> Result<Text, Memory> {
    answered(
        rt,
        alloc,
        published,
        text_of(published, 0),
        b"https://ta.example",
        &[],
    )
}

/// The same, where the network fails at the second page.
pub(crate) fn posted_and_failing<R: Wait + Threads + OpensLedgers + Sync>(
    rt: &R,
    alloc: Global,
    published: &Seq<Text>,
) -> Result<Text, Memory> {
    answered(
        rt,
        alloc,
        published,
        text_of(published, 0),
        b"https://ta.example",
        &[SECOND],
    )
}

/// The same, up to an anchor that isn't listed.
pub(crate) fn posted_elsewhere<R: Wait + Threads + OpensLedgers + Sync>(
    rt: &R,
    alloc: Global,
    published: &Seq<Text>,
) -> Result<Text, Memory> {
    answered(
        rt,
        alloc,
        published,
        text_of(published, 0),
        b"https://rp.example",
        &[],
    )
}

// The text of that number, and no byte where there is none.
fn text_of(published: &Seq<Text>, number: usize) -> &[u8] {
    match published.as_slice().get(number) {
        Some(text) => text.as_slice(),
        None => b"",
    }
}

// The answers of the network: the leaf's page, the anchor's, and its statement about the leaf.
fn answers(alloc: Global, published: &Seq<Text>) -> Result<Seq<Text>, Memory> {
    let mut answers = Seq::new(alloc);
    for text in published.as_slice() {
        let length = text.len();
        let head = format!(in alloc; "HTTP/1.1 200 OK\r\nContent-Length: {length}\r\n\r\n")?;
        let mut answer = Text::of(alloc, head.as_bytes())?;
        answer.append(text.as_slice())?;
        answers.push(answer)?;
    }
    Ok(answers)
}

// What is answered to what was posted, and what was sent meanwhile. The network's calls of these numbers fail.
fn answered<R: Wait + Threads + OpensLedgers + Sync>(
    rt: &R,
    alloc: Global,
    published: &Seq<Text>,
    posted: &[u8],
    anchor: &[u8],
    failing: &[u64],
) -> Result<Text, Memory> {
    let answers = answers(alloc, published)?;
    let mut net = MemoryNetwork::new(alloc, answers, Seq::new(alloc), ROOM, failing, CALLS)?;
    let told = told_of(rt, alloc, posted, anchor, &mut net);
    let sent = with_sent(told, &net);
    drop(net);
    sent
}

// What is answered.
fn told_of<R: Wait + Threads + OpensLedgers + Sync>(
    rt: &R,
    alloc: Global,
    posted: &[u8],
    anchor: &[u8],
    net: &mut MemoryNetwork,
) -> Result<Text, Memory> {
    let config = Text::of(alloc, b"node")?;
    let Some(anchor) = EntityId::of(alloc, anchor)? else {
        return Text::of(alloc, b"no anchor");
    };
    let mut input = MemorySource::new(alloc, posted, &[], CALLS)?;
    let mut clock = MemoryClock::new(alloc, &[MOMENT])?;
    let mut store = store(alloc)?;
    let mut notes = Notes::new(alloc, None);
    let order = RegisterOrder {
        config: &config,
        anchor: &anchor,
    };
    let answer = register_once(
        rt, alloc, order, &mut input, &mut store, net, &mut clock, &mut notes,
    );
    match answer {
        Ok(RegisterOutcome { result, worn }) => {
            drop(worn);
            told(alloc, result)
        }
        Err(stop) => Text::of(alloc, stop_word(stop)),
    }
}

fn stop_word(stop: RegisterStop) -> &'static [u8] {
    match stop {
        RegisterStop::Input => b"input",
        RegisterStop::NoAnchor => b"no such anchor",
        RegisterStop::Source => b"the source failed",
        RegisterStop::Store => b"the store failed",
        RegisterStop::Memory => b"out of memory",
    }
}

fn fault_word(fault: &RegisterFault) -> &'static [u8] {
    match fault {
        RegisterFault::Form => b"of neither form",
        RegisterFault::Chain { .. } => b"no valid chain",
        RegisterFault::NoType => b"no relying party",
        RegisterFault::NoChain => b"no chain",
        RegisterFault::Spent => b"a bound",
        RegisterFault::Fault => b"a fault",
        RegisterFault::Memory => b"out of memory",
    }
}

fn told(alloc: Global, answer: Result<Registered, RegisterFault>) -> Result<Text, Memory> {
    match answer {
        Ok(registered) => registration_told(alloc, &registered),
        Err(fault) => Text::of(alloc, fault_word(&fault)),
    }
}

// Whom it registers, and until when.
fn registration_told(alloc: Global, registered: &Registered) -> Result<Text, Memory> {
    let members = object_members(&registered.claims);
    let mut out = Text::of(alloc, b"registered")?;
    if let Some(sub) = text_at(members, b"sub") {
        add_word(&mut out, sub.as_slice())?;
    }
    if let Some(exp) = find(members, b"exp")
        && let Some(moment) = count_below(exp, MOMENT_LIMIT)
    {
        add_number(alloc, &mut out, moment)?;
    }
    Ok(out)
}

// The same with what was sent on each connection.
fn with_sent(told: Result<Text, Memory>, net: &MemoryNetwork) -> Result<Text, Memory> {
    let mut out = told?;
    for number in 0..4 {
        if let Some(sent) = net.sent(number) {
            out.append(b"; ")?;
            show(&mut out, sent)?;
        }
    }
    Ok(out)
}
