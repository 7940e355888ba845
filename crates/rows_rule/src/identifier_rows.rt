// Rows about identifiers, the URLs that are made of them, and names of hosts.

use crate::words::{add_number, add_word, cut};
use entity_id::{EntityId, IdFault, fetch_url, matches_name};
use fed_base::{Duplicate, Memory, Text};
use std::alloc::Global;

fn fault_word(fault: IdFault) -> &'static [u8] {
    match fault {
        IdFault::NotUrl => b"NotUrl",
        IdFault::Scheme => b"Scheme",
        IdFault::Extra => b"Extra",
        IdFault::Memory => b"Memory",
    }
}

// The identifier and its host.
fn shown(alloc: Global, id: &EntityId) -> Result<Text, Memory> {
    let mut out = Text::of(alloc, id.text())?;
    add_word(&mut out, id.host())?;
    Ok(out)
}

/// `identifier TEXT`: the text and the host of the identifier, or the text's first fault.
pub(crate) fn identifier(alloc: Global, given: &str) -> Result<Text, Memory> {
    match EntityId::read(alloc, given.as_bytes()) {
        Ok(id) => shown(alloc, &id.copy(alloc)?),
        Err(fault) => Text::of(alloc, fault_word(fault)),
    }
}

fn add_bytes(out: &mut Text, len: usize) -> Result<(), Memory> {
    for _ in out.len()..len {
        out.push(b'x')?;
    }
    Ok(())
}

/// `identifier_of_length NUMBER`: the length of an identifier of so many bytes, or its first fault.
pub(crate) fn of_length(alloc: Global, given: &str) -> Result<Text, Memory> {
    let mut text = Text::of(alloc, b"https://rp.example/")?;
    add_bytes(&mut text, given.parse().unwrap_or(0))?;
    match EntityId::read(alloc, text.as_slice()) {
        Ok(id) => {
            let mut out = Text::new(alloc);
            add_number(alloc, &mut out, id.text().len() as u64)?;
            Ok(out)
        }
        Err(fault) => Text::of(alloc, fault_word(fault)),
    }
}

// The URL of the entity's configuration, and the one at which the endpoint is asked about the entity.
fn both(alloc: Global, id: &EntityId, endpoint: &Text) -> Result<Text, Memory> {
    let mut out = id.well_known(alloc)?;
    let fetch = fetch_url(alloc, endpoint, id)?;
    add_word(&mut out, fetch.as_slice())?;
    Ok(out)
}

/// `urls IDENTIFIER ENDPOINT`: where the configuration is, and where the endpoint answers a statement about the entity.
pub(crate) fn urls(alloc: Global, given: &str) -> Result<Text, Memory> {
    let (id, endpoint) = cut(given);
    match EntityId::of(alloc, id.as_bytes())? {
        Some(id) => both(alloc, &id, &Text::of(alloc, endpoint.as_bytes())?),
        None => Text::of(alloc, b"no identifier"),
    }
}

/// `name HOST NAME`: whether the host matches the name.
pub(crate) fn name(alloc: Global, given: &str) -> Result<Text, Memory> {
    let (host, name) = cut(given);
    if matches_name(host.as_bytes(), name.as_bytes()) {
        Text::of(alloc, b"matches")
    } else {
        Text::of(alloc, b"differs")
    }
}
