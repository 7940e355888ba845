// Rows that register.

use crate::posts::{answers, posted};
use crate::texts::{Texts, key};
use crate::told::told;
use crate::words::{add_number, add_word, at, number};
use client_register::{MemoryFinder, register as register_posted};
use entity_id::EntityId;
use fed_base::{Duplicate, Memory, OpensLedgers, Plain, Steps, Text};
use fed_json::read_tree;
use jwk_set::JwkSet;
use std::alloc::Global;

// The provider's key where the row names none.
const PROVIDER_KEY: &str = "4";

fn keys(alloc: Global, set: &str) -> Option<JwkSet> {
    match read_tree(alloc, set.as_bytes()) {
        Ok(tree) => {
            let read = JwkSet::read(alloc, &tree);
            drop(tree);
            match read {
                Ok(keys) => Some(keys),
                Err(_) => None,
            }
        },
        Err(_) => None,
    }
}

// What the provider answers, how often the finder was asked and failed, and how many signatures were tested.
fn answered<R: OpensLedgers>(
    rt: &R,
    alloc: Global,
    texts: &Texts,
    provider: &EntityId,
    anchor: &EntityId,
    keys: &JwkSet,
    row: &str,
) -> Result<Text, Memory> {
    let posted = posted(alloc, texts, at(row, 5))?;
    let mut finder = MemoryFinder::new(answers(alloc, texts, at(row, 6))?);
    let mut steps = Steps {
        ledger: Plain::new(rt),
    };
    let (lifetime, t) = (number(at(row, 3)), number(at(row, 4)));
    let provider_key = match at(row, 7) {
        "" => key(PROVIDER_KEY),
        word => key(word),
    };
    let registered = register_posted(
        alloc,
        &mut finder,
        provider,
        &provider_key,
        lifetime,
        anchor,
        keys,
        posted.as_slice(),
        t,
        &mut steps,
    );
    let mut out = told(alloc, registered)?;
    add_word(&mut out, b"calls")?;
    add_number(alloc, &mut out, finder.calls())?;
    add_number(alloc, &mut out, finder.faults())?;
    add_word(&mut out, b"signatures")?;
    add_number(alloc, &mut out, steps.ledger.steps())?;
    Ok(out)
}

// The same for an anchor whose keys are yet to be read.
fn by_keys<R: OpensLedgers>(
    rt: &R,
    alloc: Global,
    texts: &Texts,
    provider: &EntityId,
    anchor: &EntityId,
    row: &str,
) -> Result<Text, Memory> {
    match keys(alloc, at(row, 2)) {
        Some(keys) => {
            let told = answered(rt, alloc, texts, provider, anchor, &keys, row);
            drop(keys);
            told
        },
        None => Text::of(alloc, b"no keys"),
    }
}

// The same for an anchor that is yet to be read.
fn by_anchor<R: OpensLedgers>(
    rt: &R,
    alloc: Global,
    texts: &Texts,
    provider: &EntityId,
    row: &str,
) -> Result<Text, Memory> {
    match EntityId::of(alloc, at(row, 1).as_bytes())? {
        Some(anchor) => by_keys(rt, alloc, texts, provider, &anchor, row),
        None => Text::of(alloc, b"no anchor"),
    }
}

/// `register ANCHOR KEYS LIFETIME MOMENT POSTED ANSWERS KEY`: what https://op.example answers.
pub(crate) fn register<R: OpensLedgers>(
    rt: &R,
    alloc: Global,
    texts: &Texts,
    row: &str,
) -> Result<Text, Memory> {
    match EntityId::of(alloc, b"https://op.example")? {
        Some(provider) => by_anchor(rt, alloc, texts, &provider, row),
        None => Text::of(alloc, b"no provider"),
    }
}
