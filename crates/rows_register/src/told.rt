// What was answered, as words.

use crate::words::{add_number, add_word};
use chain_check::Reason;
use client_register::{RegisterFault, Registered};
use fed_base::{Duplicate, MOMENT_LIMIT, Memory, Text};
use fed_json::{Json, count_below, find, is_whole, object_members, write_tree};
use sha2::{Digest, Sha256};
use std::alloc::Global;

fn reason_word(reason: &Reason) -> &'static [u8] {
    match reason {
        Reason::Form => b"Form",
        Reason::Names => b"Names",
        Reason::Times => b"Times",
        Reason::Signature => b"Signature",
        Reason::PathLength => b"PathLength",
        Reason::Name => b"Name",
        Reason::Conflict { .. } => b"Conflict",
        Reason::Policy { .. } => b"Policy",
    }
}

fn fault_told(alloc: Global, fault: &RegisterFault) -> Result<Text, Memory> {
    let word: &[u8] = match fault {
        RegisterFault::Form => b"Form",
        RegisterFault::Chain { .. } => b"Chain",
        RegisterFault::NoType => b"NoType",
        RegisterFault::NoChain => b"NoChain",
        RegisterFault::Spent => b"Spent",
        RegisterFault::Fault => b"Fault",
        RegisterFault::Memory => b"Memory",
    };
    let mut out = Text::of(alloc, word)?;
    if let RegisterFault::Chain { place, reason } = fault {
        add_number(alloc, &mut out, *place)?;
        add_word(&mut out, reason_word(reason))?;
    }
    Ok(out)
}

// The tree in compact form, where it has one.
fn add_tree(alloc: Global, out: &mut Text, tree: &Json) -> Result<(), Memory> {
    if !is_whole(tree) {
        return add_word(out, b"not whole");
    }
    let text = write_tree(alloc, tree)?;
    add_word(out, text.as_slice())
}

// A claim: a moment in decimal digits, anything else as JSON.
fn add_claim(alloc: Global, out: &mut Text, claims: &Json, name: &[u8]) -> Result<(), Memory> {
    match find(object_members(claims), name) {
        Some(value) => match count_below(value, MOMENT_LIMIT) {
            Some(moment) => add_number(alloc, out, moment),
            None => add_tree(alloc, out, value),
        },
        None => add_word(out, b"-"),
    }
}

// The SHA-256 of the text, in lower-case hexadecimal digits.
fn add_digest(alloc: Global, out: &mut Text, text: &Text) -> Result<(), Memory> {
    let digest = Sha256::digest(text.as_slice());
    let digits = hex::encode(alloc, &digest)?;
    add_word(out, digits.as_bytes())
}

fn registration_told(alloc: Global, registered: &Registered) -> Result<Text, Memory> {
    let mut out = Text::of(alloc, b"registered")?;
    for name in [b"client_id".as_slice(), b"exp", b"metadata"] {
        add_claim(alloc, &mut out, &registered.claims, name)?;
    }
    add_digest(alloc, &mut out, &registered.text)?;
    Ok(out)
}

/// The name, the end and the metadata of a registration, and the SHA-256 of its text; or why there is none. It is copied before it is told.
pub(crate) fn told(
    alloc: Global,
    answer: Result<Registered, RegisterFault>,
) -> Result<Text, Memory> {
    match answer {
        Ok(registered) => registration_told(alloc, &registered.copy(alloc)?),
        Err(fault) => fault_told(alloc, &fault.copy(alloc)?),
    }
}
