// Key sets (RFC 7517 section 5).

use crate::fault::{Found, Kind};
use crate::forms::Form;
use crate::places::{hold, item_at, items_at, needed, text_in, under, whole_at};
use crate::stop::{Stop, fault, other};
use base64url::decode_32;
use fed_base::Memory;
use fed_json::{Json, Member, find, text_at};
use std::alloc::Global;

// How many keys a set has at most.
const MOST_KEYS: usize = 64;

/// Stops where the member of that name, which has to be there, is no key set.
pub(crate) fn keys_in(
    alloc: Global,
    place: &[u8],
    members: &[Member],
    name: &[u8],
) -> Result<(), Stop> {
    let tree = needed(alloc, place, members, name, Form::KeySet)?;
    let place = under(alloc, place, name)?;
    set_at(alloc, place.as_slice(), tree)
}

fn set_at(alloc: Global, place: &[u8], tree: &Json) -> Result<(), Stop> {
    let Json::Object(members) = tree else {
        return Err(other(alloc, place, Form::KeySet, tree));
    };
    match find(members.as_slice(), b"keys") {
        Some(list) => listed_at(alloc, place, list),
        None => Err(lone(alloc, place, members.as_slice(), tree)),
    }
}

// An object without `keys`.
fn lone(alloc: Global, place: &[u8], members: &[Member], tree: &Json) -> Stop {
    if find(members, b"kty").is_some() {
        fault(alloc, place, Kind::Other(Form::KeySet, Found::Key))
    } else {
        other(alloc, place, Form::KeySet, tree)
    }
}

fn listed_at(alloc: Global, set: &[u8], list: &Json) -> Result<(), Stop> {
    let place = under(alloc, set, b"keys")?;
    let keys = items_at(alloc, place.as_slice(), Form::Keys, list)?;
    if keys.len() > MOST_KEYS {
        let kind = Kind::Count(Form::Keys, keys.len() as u64);
        return Err(fault(alloc, place.as_slice(), kind));
    }
    if keys.iter().any(|key| has_seeds(key)) {
        return Err(fault(alloc, set, Kind::Ring));
    }
    for (index, key) in keys.iter().enumerate() {
        let at = item_at(alloc, place.as_slice(), index)?;
        key_at(alloc, at.as_slice(), key)?;
        new_name(alloc, place.as_slice(), keys, index, key)?;
    }
    Ok(())
}

// Whether a key has seeds, as those of a ring's file have.
fn has_seeds(key: &Json) -> bool {
    match key {
        Json::Object(members) => find(members.as_slice(), b"seeds").is_some(),
        _ => false,
    }
}

fn key_at(alloc: Global, place: &[u8], tree: &Json) -> Result<(), Stop> {
    let Json::Object(members) = tree else {
        return Err(other(alloc, place, Form::Key, tree));
    };
    let members = members.as_slice();
    whole_at(alloc, place, tree)?;
    text_in(alloc, place, members, b"kty", Form::Text)?;
    if is_own(members) {
        own_key_at(alloc, place, members)
    } else {
        Ok(())
    }
}

// Whether the key is of an algorithm by which texts are sealed here.
fn is_own(members: &[Member]) -> bool {
    has_text(members, b"kty", b"AKP")
        && (has_text(members, b"alg", b"SLH-DSA-SHA2-128s")
            || has_text(members, b"alg", b"SLH-DSA-SHA2-128f"))
}

fn has_text(members: &[Member], name: &[u8], text: &[u8]) -> bool {
    match text_at(members, name) {
        Some(found) => found.as_slice() == text,
        None => false,
    }
}

fn own_key_at(alloc: Global, place: &[u8], members: &[Member]) -> Result<(), Stop> {
    if find(members, b"priv").is_some() {
        let place = under(alloc, place, b"priv")?;
        return Err(fault(alloc, place.as_slice(), Kind::Private));
    }
    let kid = needed(alloc, place, members, b"kid", Form::KeyName)?;
    let at = under(alloc, place, b"kid")?;
    hold(alloc, at.as_slice(), Form::KeyName, kid, is_name(kid))?;
    let public = needed(alloc, place, members, b"pub", Form::PublicKey)?;
    let at = under(alloc, place, b"pub")?;
    hold(
        alloc,
        at.as_slice(),
        Form::PublicKey,
        public,
        is_public(public),
    )
}

fn is_name(tree: &Json) -> bool {
    match tree {
        Json::Text(text) => !text.is_empty(),
        _ => false,
    }
}

fn is_public(tree: &Json) -> bool {
    match tree {
        Json::Text(text) => decode_32(text.as_slice()).is_some(),
        _ => false,
    }
}

// Stops where the name of the key at that place is that of an earlier one.
fn new_name(
    alloc: Global,
    place: &[u8],
    keys: &[Json],
    index: usize,
    key: &Json,
) -> Result<(), Stop> {
    let Some(kid) = kid_of(key) else {
        return Ok(());
    };
    for (earlier, other) in keys.iter().enumerate() {
        if earlier < index && has_kid(other, kid) {
            return Err(second_name(alloc, place, earlier, index)?);
        }
    }
    Ok(())
}

fn second_name(alloc: Global, place: &[u8], earlier: usize, index: usize) -> Result<Stop, Memory> {
    let first = item_at(alloc, place, earlier)?;
    let second = item_at(alloc, place, index)?;
    let kid = under(alloc, second.as_slice(), b"kid")?;
    Ok(fault(alloc, kid.as_slice(), Kind::Again(first)))
}

fn kid_of(key: &Json) -> Option<&[u8]> {
    match key {
        Json::Object(members) => match text_at(members.as_slice(), b"kid") {
            Some(kid) => Some(kid.as_slice()),
            None => None,
        },
        _ => None,
    }
}

fn has_kid(key: &Json, kid: &[u8]) -> bool {
    match kid_of(key) {
        Some(other) => other == kid,
        None => false,
    }
}
