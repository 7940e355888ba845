// Rows that keep texts and pages.

use crate::names::{entities, entity};
use crate::pages::Shop;
use crate::words::{at, number};
use entity_id::{EntityId, fetch_url};
use fed_base::{Memory, Text};
use fed_ports::Page;
use std::alloc::Global;

// Adds the claims that every statement has, without their last brace.
fn add_common(
    out: &mut Text,
    iss: &[u8],
    sub: &[u8],
    exp: &str,
    keys: &[u8],
) -> Result<(), Memory> {
    out.append(b"{\"exp\":")?;
    out.append(exp.as_bytes())?;
    out.append(b",\"iat\":1799990000,\"iss\":\"")?;
    out.append(iss)?;
    out.append(b"\",\"jwks\":")?;
    out.append(keys)?;
    out.append(b",\"sub\":\"")?;
    out.append(sub)?;
    out.push(b'"')
}

// Adds the same, with the set of a key by its name.
fn add_keyed(
    alloc: Global,
    shop: &mut Shop,
    out: &mut Text,
    iss: &[u8],
    sub: &[u8],
    exp: &str,
    key: &str,
) -> Result<(), Memory> {
    let keys = shop.keys.set_named(alloc, key)?;
    let added = add_common(out, iss, sub, exp, keys.as_slice());
    drop(keys);
    added
}

// Adds those of the hints that aren't the entity itself.
fn add_others(out: &mut Text, id: &EntityId, hints: &[EntityId]) -> Result<(), Memory> {
    let mut before: &[u8] = b",\"authority_hints\":[\"";
    for hint in hints {
        if *hint != *id {
            out.append(before)?;
            out.append(hint.text())?;
            before = b"\",\"";
        }
    }
    if before.len() == 3 {
        out.append(b"\"]")
    } else {
        Ok(())
    }
}

// Adds the hints, without the entity itself.
fn add_hints(alloc: Global, out: &mut Text, id: &EntityId, hints: &str) -> Result<(), Memory> {
    let hints = entities(alloc, hints)?;
    let added = add_others(out, id, hints.as_slice());
    drop(hints);
    added
}

// Where an entity is asked for statements.
fn endpoint(alloc: Global, id: &EntityId) -> Result<Text, Memory> {
    let mut out = Text::of(alloc, id.text())?;
    out.append(b"/fetch")?;
    Ok(out)
}

fn add_endpoint(alloc: Global, out: &mut Text, id: &EntityId) -> Result<(), Memory> {
    out.append(b",\"metadata\":{\"federation_entity\":{\"federation_fetch_endpoint\":\"")?;
    out.append(endpoint(alloc, id)?.as_slice())?;
    out.append(b"\"}}")
}

// Adds further claims, and the last brace.
fn add_more(alloc: Global, shop: &mut Shop, out: &mut Text, more: &str) -> Result<(), Memory> {
    if !more.is_empty() {
        out.push(b',')?;
        shop.add_claims(alloc, out, more)?;
    }
    out.push(b'}')
}

// Adds the claims of a configuration.
fn add_configuration(
    alloc: Global,
    shop: &mut Shop,
    out: &mut Text,
    row: &str,
    id: &EntityId,
) -> Result<(), Memory> {
    add_keyed(
        alloc,
        shop,
        out,
        id.text(),
        id.text(),
        at(row, 4),
        at(row, 3),
    )?;
    add_hints(alloc, out, id, at(row, 5))?;
    if at(row, 0) == "superior" {
        add_endpoint(alloc, out, id)?;
    }
    add_more(alloc, shop, out, at(row, 6))
}

// Keeps claims, sealed by a key as a statement, as the page of a URL.
fn keep_sealed(
    alloc: Global,
    shop: &mut Shop,
    row: &str,
    claims: &Text,
    url: Text,
) -> Result<(), Memory> {
    let text = shop.sealed(alloc, "statement", at(row, 3), claims)?;
    shop.keep(alloc, at(row, 1), url, Page::Document(text))
}

// Keeps the configuration of an entity.
fn keep_configuration(
    alloc: Global,
    shop: &mut Shop,
    row: &str,
    id: &EntityId,
) -> Result<(), Memory> {
    let mut claims = Text::new(alloc);
    add_configuration(alloc, shop, &mut claims, row, id)?;
    keep_sealed(alloc, shop, row, &claims, id.well_known(alloc)?)
}

/// `leaf` or `superior` and `NAME ENTITY KEY EXP HINTS MORE`: keeps the configuration of an entity, a superior's with its endpoint.
pub(crate) fn configuration(alloc: Global, shop: &mut Shop, row: &str) -> Result<Text, Memory> {
    let Some(id) = entity(alloc, at(row, 2).as_bytes())? else {
        return Text::of(alloc, b"no entity");
    };
    let kept = keep_configuration(alloc, shop, row, &id);
    drop(id);
    kept?;
    Text::of(alloc, b"kept")
}

// Adds the claims of the statement of one entity about another.
fn add_about(
    alloc: Global,
    shop: &mut Shop,
    out: &mut Text,
    row: &str,
    superior: &EntityId,
    subject: &EntityId,
) -> Result<(), Memory> {
    add_keyed(
        alloc,
        shop,
        out,
        superior.text(),
        subject.text(),
        at(row, 6),
        at(row, 5),
    )?;
    add_more(alloc, shop, out, at(row, 7))
}

// Where that statement stands.
fn url_of(alloc: Global, superior: &EntityId, subject: &EntityId) -> Result<Text, Memory> {
    let endpoint = endpoint(alloc, superior)?;
    let url = fetch_url(alloc, &endpoint, subject);
    drop(endpoint);
    url
}

// Keeps the statement of one entity about another.
fn keep_statement(
    alloc: Global,
    shop: &mut Shop,
    row: &str,
    superior: &EntityId,
    subject: &EntityId,
) -> Result<(), Memory> {
    let mut claims = Text::new(alloc);
    add_about(alloc, shop, &mut claims, row, superior, subject)?;
    keep_sealed(alloc, shop, row, &claims, url_of(alloc, superior, subject)?)
}

// Keeps the statement of a superior about each of these.
fn keep_each(
    alloc: Global,
    shop: &mut Shop,
    row: &str,
    superior: &EntityId,
    subjects: &[EntityId],
) -> Result<(), Memory> {
    for subject in subjects {
        if *subject != *superior {
            keep_statement(alloc, shop, row, superior, subject)?;
        }
    }
    Ok(())
}

fn keep_statements(
    alloc: Global,
    shop: &mut Shop,
    row: &str,
    superior: &EntityId,
) -> Result<(), Memory> {
    let subjects = entities(alloc, at(row, 4))?;
    let kept = keep_each(alloc, shop, row, superior, subjects.as_slice());
    drop(subjects);
    kept
}

/// `states NAME SUPERIORS KEY SUBJECTS KEY EXP MORE`: keeps the statement of each superior about each subject.
pub(crate) fn statements(alloc: Global, shop: &mut Shop, row: &str) -> Result<Text, Memory> {
    for superior in entities(alloc, at(row, 2))?.as_slice() {
        keep_statements(alloc, shop, row, superior)?;
    }
    Text::of(alloc, b"kept")
}

/// `mark` or `delegation` and `NAME KEY CLAIMS`: keeps the text of these claims.
pub(crate) fn mark(alloc: Global, shop: &mut Shop, row: &str) -> Result<Text, Memory> {
    let mut claims = Text::new(alloc);
    shop.add_claims(alloc, &mut claims, at(row, 3))?;
    let text = shop.sealed(alloc, at(row, 0), at(row, 2), &claims)?;
    shop.keep(alloc, at(row, 1), Text::new(alloc), Page::Document(text))?;
    Text::of(alloc, b"kept")
}

fn page_of(word: &str) -> Page {
    match word {
        "too long" => Page::TooLong,
        "garbled" => Page::Garbled,
        _ => Page::Refusal(number(word).min(999) as u16),
    }
}

/// `page NAME ENTITIES WORD`: keeps such a page in place of each entity's configuration.
pub(crate) fn pages(alloc: Global, shop: &mut Shop, row: &str) -> Result<Text, Memory> {
    for id in entities(alloc, at(row, 2))?.as_slice() {
        let url = id.well_known(alloc)?;
        shop.keep(alloc, at(row, 1), url, page_of(at(row, 3)))?;
    }
    Text::of(alloc, b"kept")
}
