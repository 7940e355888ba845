// Connections that are served.

ghost use Rattle.std.specs.Prelude.{◌≡◌, false, is_some};

use crate::peers::Pieces;
use crate::words::{add_number, add_word, bytes, cut, number};
use crate::written::add_written;
use fed_base::{Memory, OpensLedgers, Plain, Seq, Steps, Text};
use fed_net::{MemoryLink, MemoryPeer};
use fed_ports::{Clock, MemoryClock, Peer};
use fed_serve::{Kind, Node, ServeFault, Served, serve_one};
use statement_shelf::Commons;
use std::alloc::Global;
use std::sync::Wait;
use std::thread::Threads;

// The moment of the rows that give none.
const MOMENT: u64 = 7;

// How many bytes a peer takes at most.
const ROOM: usize = 30_000;

/// The name of a kind.
pub(crate) fn name(kind: Kind) -> &'static [u8] {
    match kind {
        Kind::Configuration => b"Configuration",
        Kind::Fetch => b"Fetch",
        Kind::List => b"List",
        Kind::HistoricalKeys => b"HistoricalKeys",
        Kind::Status => b"Status",
        Kind::Resolve => b"Resolve",
        Kind::AnchorKeys => b"AnchorKeys",
        Kind::Other => b"Other",
    }
}

fn fault(fault: ServeFault) -> &'static [u8] {
    match fault {
        ServeFault::ReadFault => b"ReadFault",
        ServeFault::WriteFault => b"WriteFault",
        ServeFault::Ended => b"Ended",
        ServeFault::Worn(_) => b"Worn",
    }
}

// What was answered: the kind and the status, or the fault.
fn answered(alloc: Global, answer: &Result<Served, ServeFault>) -> Result<Text, Memory> {
    match answer {
        Ok(served) => {
            let mut out = Text::of(alloc, name(served.kind))?;
            add_number(alloc, &mut out, served.status as u64)?;
            Ok(out)
        },
        Err(why) => Text::of(alloc, fault(*why)),
    }
}

// Serves a peer by a node that doesn't resolve, so that it uses neither the pass nor the link that it is handed.
fn serve_alone<R: Wait + Threads + Sync, P: Peer>(
    rt: &R,
    alloc: Global,
    node: &Node,
    peer: &mut P,
    clock: &mut MemoryClock,
    steps: &mut Steps<Plain>,
) -> Result<Result<Served, ServeFault>, Memory>
    requires { is_some node.now.resolver ≡ false }
{
    let mut link = MemoryLink::new(alloc, Seq::new(alloc), &[], 0)?;
    let Ok((_commons, mut pass)) = Commons::new(alloc, Seq::new(alloc)) else {
        drop(link);
        return Err(Memory);
    };
    Ok(serve_one(node, rt, alloc, &mut pass, peer, &mut link, clock, steps))
}

// Serves a peer at a moment: what was answered, how often the clock was read, and how many signatures were tested.
fn served<R: Wait + Threads + OpensLedgers + Sync, P: Peer>(
    rt: &R,
    alloc: Global,
    node: &Node,
    t: u64,
    peer: &mut P,
) -> Result<Text, Memory> {
    if node.resolver.is_some() {
        return Text::of(alloc, b"resolves");
    }
    let mut clock = MemoryClock::new(alloc, &[t, 1, 2, 3])?;
    let mut steps = Steps {
        ledger: Plain::new(rt),
    };
    let answer = serve_alone(rt, alloc, node, peer, &mut clock, &mut steps)?;
    let told = answered(alloc, &answer);
    drop(answer);
    let mut out = told?;
    let next = clock.now();
    add_word(&mut out, b"clock")?;
    add_number(alloc, &mut out, if next == t { 0 } else { next })?;
    add_word(&mut out, b"tests")?;
    add_number(alloc, &mut out, steps.ledger.steps())?;
    Ok(out)
}

// The same, and what the peer was given.
fn served_in_memory<R: Wait + Threads + OpensLedgers + Sync>(
    rt: &R,
    alloc: Global,
    node: &Node,
    t: u64,
    peer: &mut MemoryPeer,
) -> Result<Text, Memory> {
    let mut out = served(rt, alloc, node, t, peer)?;
    add_written(rt, alloc, &mut out, node, peer.as_slice())?;
    Ok(out)
}

/// `ask MOMENT BYTES`: what is answered at a moment to these bytes, and written.
pub(crate) fn ask<R: Wait + Threads + OpensLedgers + Sync>(
    rt: &R,
    alloc: Global,
    node: &Node,
    given: &str,
) -> Result<Text, Memory> {
    let (t, parts) = cut(given);
    let sent = bytes(alloc, parts)?;
    let mut peer = MemoryPeer::new(alloc, sent.as_slice(), ROOM, &[], &[], 1000)?;
    served_in_memory(rt, alloc, node, number(t), &mut peer)
}

/// `pieces MOST BYTES`: the same where each reading gives, and each writing takes, at most so many bytes.
pub(crate) fn pieces<R: Wait + Threads + OpensLedgers + Sync>(
    rt: &R,
    alloc: Global,
    node: &Node,
    given: &str,
) -> Result<Text, Memory> {
    let (most, parts) = cut(given);
    let sent = bytes(alloc, parts)?;
    let most = number(most) as usize;
    let mut peer = Pieces::new(alloc, sent.as_slice(), most, ROOM, &[], &[])?;
    let mut out = served(rt, alloc, node, MOMENT, &mut peer)?;
    add_written(rt, alloc, &mut out, node, peer.as_slice())?;
    Ok(out)
}

/// `reads NUMBER BYTES`: the same where the reading of that number fails.
pub(crate) fn reads<R: Wait + Threads + OpensLedgers + Sync>(
    rt: &R,
    alloc: Global,
    node: &Node,
    given: &str,
) -> Result<Text, Memory> {
    let (call, parts) = cut(given);
    let sent = bytes(alloc, parts)?;
    let mut peer = MemoryPeer::new(alloc, sent.as_slice(), ROOM, &[number(call)], &[], 1000)?;
    served_in_memory(rt, alloc, node, MOMENT, &mut peer)
}

/// `writes ROOM BYTES`: the same where the peer takes so many bytes and then fails.
pub(crate) fn writes<R: Wait + Threads + OpensLedgers + Sync>(
    rt: &R,
    alloc: Global,
    node: &Node,
    given: &str,
) -> Result<Text, Memory> {
    let (room, parts) = cut(given);
    let sent = bytes(alloc, parts)?;
    let room = number(room) as usize;
    let mut peer = MemoryPeer::new(alloc, sent.as_slice(), room.min(ROOM), &[], &[], 1000)?;
    served_in_memory(rt, alloc, node, MOMENT, &mut peer)
}

// Whether these bytes are told as ended, with nothing written and no reading of the clock.
fn is_ended<R: Wait + Threads + OpensLedgers + Sync>(
    rt: &R,
    alloc: Global,
    node: &Node,
    sent: &[u8],
) -> Result<bool, Memory> {
    let mut peer = MemoryPeer::new(alloc, sent, ROOM, &[], &[], 1000)?;
    let told = served(rt, alloc, node, MOMENT, &mut peer)?;
    Ok(told.as_slice() == b"Ended clock 0 tests 0".as_slice() && peer.as_slice().is_empty())
}

/// `cut BYTES`: how often the bytes are told as ended, with nothing written and no reading of the clock, where they are cut before each of
/// them in turn, and how many they are.
pub(crate) fn cut_short<R: Wait + Threads + OpensLedgers + Sync>(
    rt: &R,
    alloc: Global,
    node: &Node,
    given: &str,
) -> Result<Text, Memory> {
    let whole = bytes(alloc, given)?;
    let whole = whole.as_slice();
    let mut ended: u64 = 0;
    for len in 0..whole.len() {
        if is_ended(rt, alloc, node, &whole[..len])? {
            ended = ended.saturating_add(1);
        }
    }
    counted(alloc, b"Ended", ended, whole.len())
}

// A word, and how many there are of how many.
fn counted(alloc: Global, word: &[u8], n: u64, all: usize) -> Result<Text, Memory> {
    let mut out = Text::of(alloc, word)?;
    add_number(alloc, &mut out, n)?;
    add_word(&mut out, b"of")?;
    add_number(alloc, &mut out, all as u64)?;
    Ok(out)
}

// Whether a reading that fails, behind so many that give one byte each, is told as that, with nothing written and no reading of the clock.
fn reading_fails<R: Wait + Threads + OpensLedgers + Sync>(
    rt: &R,
    alloc: Global,
    node: &Node,
    sent: &[u8],
    before: usize,
) -> Result<bool, Memory> {
    let mut peer = Pieces::new(alloc, sent, 1, ROOM, &[before as u64], &[])?;
    let told = served(rt, alloc, node, MOMENT, &mut peer)?;
    Ok(told.as_slice() == b"ReadFault clock 0 tests 0".as_slice() && peer.as_slice().is_empty())
}

/// `each-reading BYTES`: how often a fault of reading is told, with nothing written and no reading of the clock, where the bytes are read
/// one by one and the reading of each of them in turn fails, and how many they are.
pub(crate) fn each_reading<R: Wait + Threads + OpensLedgers + Sync>(
    rt: &R,
    alloc: Global,
    node: &Node,
    given: &str,
) -> Result<Text, Memory> {
    let sent = bytes(alloc, given)?;
    let sent = sent.as_slice();
    let mut failed: u64 = 0;
    for before in 0..sent.len() {
        if reading_fails(rt, alloc, node, sent, before)? {
            failed = failed.saturating_add(1);
        }
    }
    counted(alloc, b"ReadFault", failed, sent.len())
}

// What is written where each writing takes one byte.
fn answer_of<R: Wait + Threads + OpensLedgers + Sync>(
    rt: &R,
    alloc: Global,
    node: &Node,
    sent: &[u8],
) -> Result<Text, Memory> {
    let mut peer = Pieces::new(alloc, sent, 1, ROOM, &[], &[])?;
    drop(served(rt, alloc, node, MOMENT, &mut peer)?);
    Text::of(alloc, peer.as_slice())
}

// Whether a writing that fails, behind those that take these first bytes of the answer one by one, is told as that, with these written.
fn writing_fails<R: Wait + Threads + OpensLedgers + Sync>(
    rt: &R,
    alloc: Global,
    node: &Node,
    sent: &[u8],
    first: &[u8],
) -> Result<bool, Memory> {
    let mut peer = Pieces::new(alloc, sent, 1, ROOM, &[], &[first.len() as u64])?;
    let told = served(rt, alloc, node, MOMENT, &mut peer)?;
    Ok(told.as_slice() == b"WriteFault clock 1 tests 0".as_slice() && peer.as_slice() == first)
}

/// `each-writing BYTES`: how often a fault of writing is told, with the answer's bytes before it written, where the answer is taken byte by
/// byte and the writing of each of them in turn fails, and how many it has.
pub(crate) fn each_writing<R: Wait + Threads + OpensLedgers + Sync>(
    rt: &R,
    alloc: Global,
    node: &Node,
    given: &str,
) -> Result<Text, Memory> {
    let sent = bytes(alloc, given)?;
    let answer = answer_of(rt, alloc, node, sent.as_slice())?;
    let answer = answer.as_slice();
    let mut failed: u64 = 0;
    for len in 0..answer.len() {
        if writing_fails(rt, alloc, node, sent.as_slice(), &answer[..len])? {
            failed = failed.saturating_add(1);
        }
    }
    counted(alloc, b"WriteFault", failed, answer.len())
}
