// What requests ask for.

use crate::asks::name;
use crate::words::{add_number, add_word, bytes, cut};
use entity_id::EntityId;
use fed_base::{Duplicate, Memory, Text};
use fed_ports::MemorySource;
use http_plain::{Incoming, ReadEnd, Request, read_request};
use node_requests::{AnchorChange, Asked, Place, ResolveRequest, asked_for};
use std::alloc::Global;

/// `asked NODE ID BYTES`: what the bytes ask a node of that identifier for, which is an `authority` or a `resolver`.
pub(crate) fn asked(alloc: Global, given: &str) -> Result<Text, Memory> {
    let (node, given) = cut(given);
    let (id, parts) = cut(given);
    match place_of(alloc, id, node == "resolver")? {
        Some(place) => {
            let told = told_at(alloc, &place, parts);
            drop(place);
            told
        }
        None => Text::of(alloc, b"no identifier"),
    }
}

fn place_of(alloc: Global, id: &str, resolves: bool) -> Result<Option<Place>, Memory> {
    let Some(id) = EntityId::of(alloc, id.as_bytes())? else {
        return Ok(None);
    };
    let place = Place::of(alloc, &id, resolves);
    drop(id);
    Ok(Some(place?))
}

// The request that the bytes are.
fn request(alloc: Global, parts: &str) -> Result<Option<Request>, Memory> {
    let sent = bytes(alloc, parts)?;
    let mut source = MemorySource::new(alloc, sent.as_slice(), &[], 1000)?;
    let read = read_request(alloc, &mut source);
    drop(source);
    drop(sent);
    match read {
        Ok(Incoming::Asked(request)) => Ok(Some(request)),
        Err(ReadEnd::Memory) => Err(Memory),
        _ => Ok(None),
    }
}

fn told_at(alloc: Global, place: &Place, parts: &str) -> Result<Text, Memory> {
    match request(alloc, parts)? {
        Some(request) => {
            let told = told(alloc, place, &request);
            drop(request);
            told
        }
        None => Text::of(alloc, b"no request"),
    }
}

// What a copy of the place is asked for.
fn told(alloc: Global, place: &Place, request: &Request) -> Result<Text, Memory> {
    let place = place.copy(alloc)?;
    let asked = asked_for(alloc, &place, request);
    drop(place);
    match asked? {
        Some(asked) => {
            let told = asked_told(alloc, &asked);
            drop(asked);
            told
        }
        None => Text::of(alloc, b"nothing"),
    }
}

// The kind of what is asked, and what a copy of it says.
fn asked_told(alloc: Global, asked: &Asked) -> Result<Text, Memory> {
    let mut out = Text::of(alloc, name(asked.kind()))?;
    let copy = asked.copy(alloc)?;
    let added = add_asked(alloc, &mut out, &copy);
    drop(copy);
    added?;
    Ok(out)
}

fn add_asked(alloc: Global, out: &mut Text, asked: &Asked) -> Result<(), Memory> {
    match asked {
        Asked::Fetch(sub) => add_word(out, sub.as_slice()),
        Asked::Status(mark) => add_word(out, mark.as_slice()),
        Asked::Resolution(resolution) => add_resolution(out, resolution),
        Asked::Rotation(change) => add_change(alloc, out, change),
        _ => Ok(()),
    }
}

// Adds the entity, the trust anchor and the entity types.
fn add_resolution(out: &mut Text, resolution: &ResolveRequest) -> Result<(), Memory> {
    add_word(out, resolution.sub.text())?;
    add_word(out, resolution.anchor.text())?;
    for entity_type in resolution.types.as_slice() {
        add_word(out, entity_type.as_slice())?;
    }
    Ok(())
}

// Adds the trust anchor, the epoch, how many keys there are, and how many bytes the body has.
fn add_change(alloc: Global, out: &mut Text, change: &AnchorChange) -> Result<(), Memory> {
    add_word(out, change.anchor.text())?;
    add_number(alloc, out, change.epoch)?;
    add_number(alloc, out, change.keys.keys.len() as u64)?;
    add_number(alloc, out, change.body.whole.len() as u64)
}
