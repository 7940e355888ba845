// Requests that are read.

use crate::pieces::Pieces;
use crate::words::{bytes, counted, cut, number, show};
use fed_base::{Memory, Text};
use fed_ports::MemorySource;
use http_plain::{Incoming, Method, ReadEnd, Request, read_request};
use std::alloc::Global;

/// Adds a request: its method, its path, its pairs and its body.
pub(crate) fn add_request(alloc: Global, out: &mut Text, request: &Request) -> Result<(), Memory> {
    out.append(match request.method {
        Method::Get => b"GET ",
        Method::Post => b"POST ",
    })?;
    show(alloc, out, request.path.as_slice())?;
    for pair in request.pairs.as_slice() {
        out.push(b' ')?;
        out.append(pair.name.as_slice())?;
        out.push(b'=')?;
        out.append(pair.value.as_slice())?;
    }
    if !request.body.is_empty() {
        out.append(b" : ")?;
        show(alloc, out, request.body.as_slice())?;
    }
    Ok(())
}

fn add_answer(
    alloc: Global,
    out: &mut Text,
    answer: Result<Incoming, ReadEnd>,
) -> Result<(), Memory> {
    match answer {
        Ok(Incoming::Asked(request)) => {
            let added = add_request(alloc, out, &request);
            drop(request);
            added
        }
        Ok(Incoming::NotARequest) => out.append(b"NotARequest"),
        Err(ReadEnd::ReadFault) => out.append(b"ReadFault"),
        Err(ReadEnd::Ended) => out.append(b"Ended"),
        Err(ReadEnd::Memory) => Err(Memory),
    }
}

/// What reading answers.
pub(crate) fn told(alloc: Global, answer: Result<Incoming, ReadEnd>) -> Result<Text, Memory> {
    let mut out = Text::new(alloc);
    add_answer(alloc, &mut out, answer)?;
    Ok(out)
}

/// The request in these bytes, of which each call gives at most so many.
pub(crate) fn ask(alloc: Global, given: &str) -> Result<Text, Memory> {
    let (most, parts) = cut(given);
    let mut source = Pieces::new(bytes(alloc, parts)?, number(most) as usize)?;
    let read = read_request(alloc, &mut source);
    drop(source);
    told(alloc, read)
}

fn is_ended(alloc: Global, bytes: &[u8]) -> Result<bool, Memory> {
    let mut source = Pieces::new(Text::of(alloc, bytes)?, 7)?;
    let read = read_request(alloc, &mut source);
    drop(source);
    let ended = matches!(read, Err(ReadEnd::Ended));
    drop(read);
    Ok(ended)
}

/// How often the bytes end early where they are cut before each of them in turn, and how many they are.
pub(crate) fn cut_short(alloc: Global, given: &str) -> Result<Text, Memory> {
    let whole = bytes(alloc, given)?;
    let whole = whole.as_slice();
    let mut ended: u64 = 0;
    for len in 0..whole.len() {
        if is_ended(alloc, &whole[..len])? {
            ended = ended.saturating_add(1);
        }
    }
    counted(alloc, b"Ended ", ended, whole.len() as u64)
}

/// The request in these bytes, where the call of that number fails.
pub(crate) fn failing(alloc: Global, given: &str) -> Result<Text, Memory> {
    let (call, parts) = cut(given);
    let whole = bytes(alloc, parts)?;
    let mut source = MemorySource::new(alloc, whole.as_slice(), &[number(call)], 1000)?;
    let read = read_request(alloc, &mut source);
    drop(source);
    told(alloc, read)
}
