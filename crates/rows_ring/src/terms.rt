// What is told of a ring's keys.

use crate::words::add;
use fed_base::{Memory, Text};
use jws_form::algorithm_name;
use key_ring::{KeyRing, KeyState, KeyTerm};
use std::alloc::Global;

/// Adds the name, the algorithm, the moments and the state of each key, with a comma between keys.
pub(crate) fn add_terms(alloc: Global, ring: &KeyRing, out: &mut Text) -> Result<(), Memory> {
    let terms = ring.terms(alloc)?;
    let mut told = Text::new(alloc);
    for term in terms.as_slice() {
        append_term(alloc, &mut told, term)?;
    }
    add(out, told.as_slice())
}

fn append_term(alloc: Global, told: &mut Text, term: &KeyTerm) -> Result<(), Memory> {
    if !told.is_empty() {
        told.append(b", ")?;
    }
    told.append(term.kid.as_slice())?;
    told.push(b' ')?;
    told.append(algorithm_name(term.alg))?;
    append_number(alloc, told, term.iat)?;
    append_number(alloc, told, term.exp)?;
    append_state(alloc, told, term.state)
}

fn append_number(alloc: Global, told: &mut Text, number: u64) -> Result<(), Memory> {
    let word = format!(in alloc; " {number}")?;
    told.append(word.as_bytes())
}

fn append_state(alloc: Global, told: &mut Text, state: KeyState) -> Result<(), Memory> {
    match state {
        KeyState::Live => told.append(b" live"),
        KeyState::Retired => told.append(b" retired"),
        KeyState::Revoked { at, reason } => {
            told.append(b" revoked")?;
            append_number(alloc, told, at)?;
            told.push(b' ')?;
            told.append(reason.word())
        }
    }
}
