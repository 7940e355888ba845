// Streams of requests, and what is answered to them.

ghost use Rattle.std.specs.Prelude.{◌≤◌};
ghost use Rattle.std.proofs.Common.{refl};

use crate::answers::status;
use crate::asks::add_request;
use crate::pieces::Pieces;
use crate::words::{add_number, bytes, cut, number, show};
use fed_base::{Failed, Memory, Text};
use fed_ports::{CallPlan, MemorySink, Peer, Sink, Source};
use http_plain::{Incoming, Media, Response};
use http_stream::{Answerer, StreamFault, serve_stream};
use std::alloc::Global;

// For how many readings and writings there is room, and for how many bytes.
const CALLS: u64 = 1_000_000;

const ROOM: usize = 100_000;

// A caller whose bytes come so many at a time, and that keeps what it is given.
#[derive(Drop)]
struct Caller {
    source: Pieces,
    reads: CallPlan,
    faults: u64,
    sink: MemorySink,
}

impl Caller {
    fn new(
        alloc: Global,
        bytes: Text,
        most: usize,
        failing_reads: &[u64],
        failing_writes: &[u64],
    ) -> Result<Caller, Memory> {
        Ok(Caller {
            source: Pieces::new(bytes, most)?,
            reads: CallPlan::new(alloc, failing_reads, CALLS)?,
            faults: 0,
            sink: MemorySink::new(alloc, ROOM, failing_writes, CALLS)?,
        })
    }
}

impl Source for Caller {
    ghost use Rattle.std.specs.Prelude.{Some, drop};
    ghost use Rattle.fed_ports.specs.MemoryStreams.{sink_faults, sink_held};

    ghost left = { λ peer. Some (drop peer.source.taken peer.source.bytes.items) };

    ghost source_side = { λ peer. (Some (sink_held peer.sink), sink_faults peer.sink) };

    ghost read_faults = { λ peer. peer.faults };

    fn take(&mut self, into: &mut [u8]) -> Result<usize, Failed> {
        if self.reads.next_fails() {
            self.faults = self.faults.saturating_add(1);
            return Err(Failed);
        }
        self.source.take(into)
    }
}

impl Sink for Caller {
    ghost use Rattle.std.specs.Prelude.{Some, drop};
    ghost use Rattle.fed_ports.specs.MemoryStreams.{sink_faults, sink_held};

    ghost held = { λ peer. Some (sink_held peer.sink) };

    ghost sink_side = { λ peer. (Some (drop peer.source.taken peer.source.bytes.items), peer.faults) };

    ghost write_faults = { λ peer. sink_faults peer.sink };

    fn give(&mut self, piece: &[u8]) -> Result<usize, Failed> {
        self.sink.give(piece)
    }
}

impl Peer for Caller {
    ghost source_side_is = { λ peer. refl };

    ghost sink_side_is = { λ peer. refl };
}

// Says of each request what it is, and has no memory for one of `/memory`.
#[derive(Drop)]
struct Echo;

impl Answerer for Echo {
    ghost state = { Unit {0} };

    ghost at = { λ _. tt };

    ghost ready = { λ _. Unit {0} };

    ghost step = { λ _ _ _ _. Unit {0} };

    ghost gives_up = { λ _ _ _. Unit {0} };

    fn answer(&mut self, alloc: Global, asked: &Incoming) -> Result<Response, Memory> {
        let mut body = Text::new(alloc);
        let word = match asked {
            Incoming::Asked(request) => {
                if request.path.as_slice() == b"/memory".as_slice() {
                    return Err(Memory);
                }
                add_request(alloc, &mut body, request)?;
                "200"
            }
            Incoming::NotARequest => "400",
        };
        body.push(b';')?;
        Ok(Response {
            status: status(word),
            media: Media::Json,
            body,
        })
    }
}

// Adds of each response its status, what it says of its connection, and its body.
fn add_responses(out: &mut Text, held: &str) -> Result<(), Memory> {
    for line in held.split("\r\n") {
        let (body, status) = line.split_once("HTTP/1.1 ").unwrap_or((line, ""));
        if let Some(word) = line.strip_prefix("Connection: ") {
            out.append(word.as_bytes())?;
            out.push(b' ')?;
        } else if !line.starts_with("Content-") {
            out.append(body.as_bytes())?;
            if let Some((code, _)) = status.split_once(' ') {
                out.push(b' ')?;
                out.append(code.as_bytes())?;
                out.push(b' ')?;
            }
        }
    }
    Ok(())
}

fn add_end(alloc: Global, out: &mut Text, end: Result<u64, StreamFault>) -> Result<(), Memory> {
    match end {
        Ok(answered) => {
            out.append(b"Ok ")?;
            add_number(alloc, out, answered)
        }
        Err(StreamFault::ReadFault) => out.append(b"ReadFault"),
        Err(StreamFault::WriteFault) => out.append(b"WriteFault"),
        Err(StreamFault::Ended) => out.append(b"Ended"),
        Err(StreamFault::Memory) => out.append(b"Memory"),
    }
}

// What serving answered, what was written, and how many bytes are left of the caller's.
fn told(alloc: Global, caller: &Caller, end: Result<u64, StreamFault>) -> Result<Text, Memory> {
    let mut out = Text::new(alloc);
    add_end(alloc, &mut out, end)?;
    let mut responses = Text::new(alloc);
    if let Ok(held) = std::str::from_utf8(caller.sink.as_slice()) {
        add_responses(&mut responses, held)?;
    }
    if !responses.is_empty() {
        out.append(b":")?;
        show(alloc, &mut out, responses.as_slice())?;
    }
    let left = caller.source.left();
    if left > 0 {
        out.append(b" left ")?;
        add_number(alloc, &mut out, left as u64)?;
    }
    Ok(out)
}

fn most(word: &str) -> u64
    ensures { 1 ≤ result }
{
    number(word).max(1)
}

/// What is answered to a stream: of pieces of so many bytes, of at most so many requests, with a reading and a writing that fail.
pub(crate) fn stream(alloc: Global, given: &str) -> Result<Text, Memory> {
    let (piece, rest) = cut(given);
    let (requests, rest) = cut(rest);
    let (reading, rest) = cut(rest);
    let (writing, parts) = cut(rest);
    let failing_read = [number(reading)];
    let failing_write = [number(writing)];
    let mut caller = Caller::new(
        alloc,
        bytes(alloc, parts)?,
        number(piece) as usize,
        if reading == "-" { &[] } else { &failing_read },
        if writing == "-" { &[] } else { &failing_write },
    )?;
    let end = serve_stream(alloc, &mut caller, &mut Echo, most(requests));
    let told = told(alloc, &caller, end);
    drop(caller);
    told
}

fn end_of(alloc: Global, bytes: &[u8]) -> Result<Result<u64, StreamFault>, Memory> {
    let mut caller = Caller::new(alloc, Text::of(alloc, bytes)?, 7, &[], &[])?;
    let end = serve_stream(alloc, &mut caller, &mut Echo, 100);
    drop(caller);
    Ok(end)
}

/// How often the bytes end inside a request where they are cut before each of them in turn, and how often behind one or before the first.
pub(crate) fn cut_short(alloc: Global, given: &str) -> Result<Text, Memory> {
    let whole = bytes(alloc, given)?;
    let whole = whole.as_slice();
    let mut ended: u64 = 0;
    let mut behind: u64 = 0;
    for len in 0..whole.len() {
        match end_of(alloc, &whole[..len])? {
            Err(StreamFault::Ended) => ended = ended.saturating_add(1),
            Ok(_) => behind = behind.saturating_add(1),
            Err(_) => {}
        }
    }
    let mut out = Text::of(alloc, b"Ended ")?;
    add_number(alloc, &mut out, ended)?;
    out.append(b" Ok ")?;
    add_number(alloc, &mut out, behind)?;
    out.append(b" of ")?;
    add_number(alloc, &mut out, whole.len() as u64)?;
    Ok(out)
}
