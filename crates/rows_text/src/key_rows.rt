// Sets of keys.

use crate::spelling::{cut, number, told, word};
use fed_base::{Alg, Duplicate, Memory, Text};
use fed_json::{read_tree, write_tree};
use jwk_set::{JwkSet, SetFault};
use jws_form::algorithm_of;
use std::alloc::Global;

/// The set of a JSON text. A text that isn't JSON has the fault `NotSet` here.
pub fn set_of(alloc: Global, text: &[u8]) -> Result<JwkSet, SetFault> {
    match read_tree(alloc, text) {
        Ok(tree) => {
            let set = JwkSet::read(alloc, &tree);
            drop(tree);
            set
        },
        Err(_) => Err(SetFault::NotSet),
    }
}

/// What a copy of the set is written as, or the first fault of the text.
pub fn keys(alloc: Global, given: &str) -> Result<Text, Memory> {
    match set_of(alloc, given.as_bytes()) {
        Ok(set) => {
            let told = rewritten(alloc, &set);
            drop(set);
            told
        },
        Err(fault) => told(alloc, &fault),
    }
}

fn rewritten(alloc: Global, set: &JwkSet) -> Result<Text, Memory> {
    let tree = set.copy(alloc)?.write(alloc)?;
    write_tree(alloc, &tree)
}

/// How many keys a set of that many members has, or its fault.
pub fn as_many(alloc: Global, given: &str) -> Result<Text, Memory> {
    let mut text = Text::of(alloc, br#"{"keys":[{"kty":"A"}"#)?;
    for _ in 1..number(given) {
        text.append(br#",{"kty":"A"}"#)?;
    }
    text.append(b"]}")?;
    match set_of(alloc, text.as_slice()) {
        Ok(set) => {
            let count = set.keys.len();
            drop(set);
            told(alloc, &count)
        },
        Err(fault) => told(alloc, &fault),
    }
}

/// The public key of that name and algorithm in a set.
pub fn key_of(alloc: Global, given: &str) -> Result<Text, Memory> {
    let (kid, given) = cut(given);
    let (alg, set) = cut(given);
    let Some(alg) = algorithm_of(alg.as_bytes()) else {
        return word(alloc, "no algorithm");
    };
    match set_of(alloc, set.as_bytes()) {
        Ok(set) => {
            let told = public_of(alloc, &set, kid, alg);
            drop(set);
            told
        },
        Err(fault) => told(alloc, &fault),
    }
}

fn public_of(alloc: Global, set: &JwkSet, kid: &str, alg: Alg) -> Result<Text, Memory> {
    let kid = Text::of(alloc, kid.as_bytes())?;
    match set.key_of(&kid, alg) {
        Some(public) => Text::of(alloc, &public),
        None => word(alloc, "none"),
    }
}

/// The thumbprint of a key: its algorithm, and its bytes in base64url.
pub fn thumbprint(alloc: Global, given: &str) -> Result<Text, Memory> {
    let (alg, public) = cut(given);
    match (
        algorithm_of(alg.as_bytes()),
        base64url::decode_32(public.as_bytes()),
    ) {
        (Some(alg), Some(public)) => jwk_set::thumbprint(alloc, alg, &public),
        _ => word(alloc, "no key"),
    }
}
