// Rows that make keys and sealed texts.

ghost use Rattle.std.specs.Prelude.{IfOk};
ghost use Rattle.std.specs.Str.{IsUtf8};

use crate::kept::Kept;
use crate::words::cut;
use base64url::encode_32;
use fed_base::{Alg, Memory, Text};
use fed_json::{Json, is_whole, read_tree};
use jwk_set::thumbprint;
use jws_form::algorithm_name;
use slh_dsa::KeyPair;
use std::alloc::Global;

// The 48 seeds from this one on.
fn seeds(first: u8) -> [u8; 48] {
    let mut seeds = [0; 48];
    let mut next = first;
    for seed in seeds.iter_mut() {
        *seed = next;
        next = next.wrapping_add(1);
    }
    seeds
}

// The key of the 48 seeds from a number on, of the fast algorithm.
fn key_numbered(number: &str) -> KeyPair {
    KeyPair::from_seeds(Alg::Fast, &seeds(number.parse::<u8>().unwrap_or(0)))
}

/// `key NAME NUMBER`: the set of the public key of the 48 seeds from a number on, of the fast algorithm, as JSON.
pub(crate) fn key_set(alloc: Global, number: &str) -> Result<Text, Memory> {
    let public = key_numbered(number).public();
    let mut out = Text::of(alloc, b"{\"keys\":[{\"alg\":\"")?;
    out.append(algorithm_name(Alg::Fast))?;
    out.append(b"\",\"kid\":\"")?;
    out.append(thumbprint(alloc, Alg::Fast, &public)?.as_slice())?;
    out.append(b"\",\"kty\":\"AKP\",\"pub\":\"")?;
    out.append(&encode_32(&public))?;
    out.append(b"\"}]}")?;
    Ok(out)
}

fn typ_of(alloc: Global, word: &str) -> Result<Text, Memory>
    ensures { IfOk result IsUtf8 }
{
    match word {
        "mark" => Text::of(alloc, b"trust-mark+jwt"),
        "reply" => Text::of(alloc, b"resolve-response+jwt"),
        _ => Text::of(alloc, b"entity-statement+jwt"),
    }
}

// The tree sealed, and no text where it can't be.
fn sealed_tree(alloc: Global, number: &str, word: &str, tree: &Json) -> Result<Text, Memory> {
    if !is_whole(tree) || !matches!(tree, Json::Object(_)) {
        return Ok(Text::new(alloc));
    }
    let typ = typ_of(alloc, word)?;
    sealed::seal(alloc, &key_numbered(number), &typ, tree)
}

/// `seal NAME NUMBER TYPE CLAIMS`: the claims as a statement, a mark or a reply, sealed by the key of that number.
pub(crate) fn seal(alloc: Global, given: &str, kept: &Kept) -> Result<Text, Memory> {
    let (number, given) = cut(given);
    let (word, claims) = cut(given);
    let claims = kept.filled(alloc, claims)?;
    match read_tree(alloc, claims.as_slice()) {
        Ok(tree) => {
            let sealed = sealed_tree(alloc, number, word, &tree);
            drop(tree);
            sealed
        },
        Err(_) => Ok(Text::new(alloc)),
    }
}
