// Keys by their names.

use base64url::encode_32;
use fed_base::{Alg, Memory, Seq, Text};
use jwk_set::thumbprint;
use jws_form::algorithm_name;
use slh_dsa::KeyPair;
use std::alloc::Global;

/// A key as a row names it: a number, and behind it an `f` where its algorithm is SLH-DSA-SHA2-128f.
#[derive(Clone, Copy, PartialEq, Eq)]
pub(crate) struct Key {
    number: u8,
    alg: Alg,
}

impl Key {
    pub(crate) fn small(number: u8) -> Key {
        Key {
            number,
            alg: Alg::Small,
        }
    }

    /// The key of that name, where it is one's.
    pub(crate) fn named(name: &str) -> Option<Key> {
        let (digits, alg) = match name.strip_suffix('f') {
            Some(digits) => (digits, Alg::Fast),
            None => (name, Alg::Small),
        };
        match digits.parse::<u8>() {
            Ok(number) => Some(Key { number, alg }),
            Err(_) => None,
        }
    }
}

#[derive(Drop)]
struct Made {
    key: Key,
    pair: KeyPair,
}

/// The keys that rows named so far. Each is made once.
#[derive(Drop)]
pub(crate) struct Keys {
    made: Seq<Made>,
}

// The seeds of a key: 48 bytes that rise by one, from 48 times its number on, modulo 256.
fn seeds(number: u8) -> [u8; 48] {
    let mut seeds = [0; 48];
    let mut next = number.wrapping_mul(48);
    for seed in seeds.iter_mut() {
        *seed = next;
        next = next.wrapping_add(1);
    }
    seeds
}

// Adds the set of a public key, as JSON.
fn add_set(alloc: Global, out: &mut Text, alg: Alg, public: &[u8; 32]) -> Result<(), Memory> {
    out.append(b"{\"keys\":[{\"alg\":\"")?;
    out.append(algorithm_name(alg))?;
    out.append(b"\",\"kid\":\"")?;
    out.append(thumbprint(alloc, alg, public)?.as_slice())?;
    out.append(b"\",\"kty\":\"AKP\",\"pub\":\"")?;
    out.append(&encode_32(public))?;
    out.append(b"\"}]}")
}

impl Keys {
    pub(crate) fn new(alloc: Global) -> Keys {
        Keys {
            made: Seq::new(alloc),
        }
    }

    fn find(&self, key: Key) -> Option<&Made> {
        self.made.as_slice().iter().find(|made| made.key == key)
    }

    /// The key pair of that key.
    pub(crate) fn pair(&mut self, key: Key) -> Result<KeyPair, Memory> {
        if let Some(made) = self.find(key) {
            return Ok(made.pair.twin());
        }
        let pair = KeyPair::from_seeds(key.alg, &seeds(key.number));
        self.made.push(Made {
            key,
            pair: pair.twin(),
        })?;
        Ok(pair)
    }

    /// The set of that key, as JSON.
    pub(crate) fn set(&mut self, alloc: Global, key: Key) -> Result<Text, Memory> {
        let public = self.pair(key)?.public();
        let mut text = Text::new(alloc);
        add_set(alloc, &mut text, key.alg, &public)?;
        Ok(text)
    }

    /// The set of the key of that name, as JSON; an empty one where it is none's.
    pub(crate) fn set_named(&mut self, alloc: Global, name: &str) -> Result<Text, Memory> {
        match Key::named(name) {
            Some(key) => self.set(alloc, key),
            None => Text::of(alloc, b"{\"keys\":[]}"),
        }
    }
}
