// Trees that are no key set.

ghost use Rattle.fed_json.specs.Forms.{IsWellFormed};

use crate::claims::kind_of;
use base64url::decode_32;
use fed_json::{Json, Member, find, is_whole, object_members, text_at};
use jwk_set::{JwkSet, SetFault};
use plain_notes::{Notes, Sentence};
use std::alloc::Global;

/// Says behind `about` why the tree is no key set.
pub fn explain_key_set(alloc: Global, about: Sentence, tree: &Json, notes: &mut Notes)
    requires { IsWellFormed tree.now }
{
    match JwkSet::read(alloc, tree) {
        Ok(_) => {},
        Err(fault) => explain_set_fault(alloc, about, tree, fault, notes),
    }
}

/// Says behind `about` what the fault of the key set is.
pub(crate) fn explain_set_fault(
    alloc: Global,
    about: Sentence,
    tree: &Json,
    fault: SetFault,
    notes: &mut Notes,
) {
    match fault {
        SetFault::NotSet => explain_no_set(alloc, about, tree, notes),
        SetFault::Shape(place) if has_seeds(key_at(tree, place)) => notes.say(about.and(
            b" is a key ring, with secret seeds; fed public --ring writes its key set",
        )),
        SetFault::Shape(place) => notes.say(
            about
                .and(b": key ")
                .and_number(alloc, place)
                .and(key_fault(key_at(tree, place))),
        ),
        SetFault::DoubleKid(place) => notes.say(
            about
                .and(b": key ")
                .and_number(alloc, place)
                .and(b" has the kid of an earlier one: ")
                .and(kid_at(tree, place)),
        ),
        SetFault::Memory => {},
    }
}

// The member of the list `keys` at that place.
fn key_at(tree: &Json, place: u64) -> Option<&Json> {
    match find(object_members(tree), b"keys") {
        Some(Json::List(keys)) => keys.as_slice().get(place as usize),
        _ => None,
    }
}

fn kid_at(tree: &Json, place: u64) -> &[u8] {
    let key = key_at(tree, place);
    match key.and_then(|key| text_at(object_members(key), b"kid")) {
        Some(kid) => kid.as_slice(),
        None => b"",
    }
}

fn explain_no_set(alloc: Global, about: Sentence, tree: &Json, notes: &mut Notes) {
    let members = object_members(tree);
    notes.say(match (tree, find(members, b"keys")) {
        (_, Some(Json::List(keys))) => about
            .and(b" has ")
            .and_number(alloc, keys.len() as u64)
            .and(b" keys; a key set has 64 at most"),
        (_, Some(_)) => about.and(b" has keys that aren't a list; a key set is {\"keys\":[..]}"),
        (Json::Object(_), None) => about.and(lone_fault(members)),
        (_, None) => about
            .and(b" is ")
            .and(kind_of(tree))
            .and(b"; a key set is {\"keys\":[..]}"),
    });
}

// Whether a key has seeds, as those of a ring's file have.
fn has_seeds(key: Option<&Json>) -> bool {
    match key {
        Some(key) => find(object_members(key), b"seeds").is_some(),
        None => false,
    }
}

// What is wrong with an object without `keys`.
fn lone_fault(members: &[Member]) -> &'static [u8] {
    if find(members, b"kty").is_some() {
        b" is one key; a key set is {\"keys\":[..]}"
    } else {
        b" has no member keys; a key set is {\"keys\":[..]}"
    }
}

// What is wrong with a key.
fn key_fault(key: Option<&Json>) -> &'static [u8] {
    match key {
        Some(Json::Object(members)) => member_fault(members.as_slice()),
        _ => b" isn't an object",
    }
}

fn member_fault(members: &[Member]) -> &'static [u8] {
    if !members.iter().all(|member| is_whole(&member.value)) {
        b" holds a number with a fraction or an exponent"
    } else if text_at(members, b"kty").is_none() {
        b" has no text kty"
    } else if find(members, b"priv").is_some() {
        b" has the private part priv; a key set has public keys alone"
    } else if !has_kid(members) {
        b" has no kid, a text that isn't empty"
    } else {
        pub_fault(members)
    }
}

fn has_kid(members: &[Member]) -> bool {
    match text_at(members, b"kid") {
        Some(kid) => !kid.is_empty(),
        None => false,
    }
}

fn pub_fault(members: &[Member]) -> &'static [u8] {
    match text_at(members, b"pub") {
        None => b" has no text pub",
        Some(text) => if decode_32(text.as_slice()).is_none() {
            b" has a pub that isn't 43 base64url characters"
        } else {
            b" isn't of its form"
        },
    }
}

/// Whether a key of the set in the tree has that name, whatever else is wrong with it.
pub(crate) fn has_key(set: &Json, kid: &[u8]) -> bool {
    match find(object_members(set), b"keys") {
        Some(Json::List(keys)) => keys
            .as_slice()
            .iter()
            .any(|key| is_named(object_members(key), kid)),
        _ => false,
    }
}

fn is_named(members: &[Member], kid: &[u8]) -> bool {
    match text_at(members, b"kid") {
        Some(name) => name.as_slice() == kid,
        None => false,
    }
}
