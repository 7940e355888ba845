// Rows that seal a mark, a delegation or an answer on a mark's status.

ghost use Rattle.std.specs.Prelude.{IfOk};
ghost use Rattle.std.specs.Str.{IsUtf8};

use crate::words::cut;
use fed_base::{Alg, Memory, Text};
use fed_json::{Json, is_whole, read_tree};
use slh_dsa::KeyPair;
use std::alloc::Global;

// The 48 seeds from this one on.
fn seeds(first: u8) -> [u8; 48] {
    let mut seeds = [0; 48];
    let mut next = first;
    for seed in seeds.iter_mut() {
        *seed = next;
        next = next.wrapping_add(1);
    }
    seeds
}

// The key of the 48 seeds from a number on, of the fast algorithm where the letter f is behind it.
fn key_named(word: &str) -> KeyPair {
    let (alg, first) = match word.strip_suffix('f') {
        Some(first) => (Alg::Fast, first),
        None => (Alg::Small, word),
    };
    KeyPair::from_seeds(alg, &seeds(first.parse::<u8>().unwrap_or(0)))
}

fn typ_of(alloc: Global, word: &str) -> Result<Text, Memory>
    ensures { IfOk result IsUtf8 }
{
    match word {
        "mark" => Text::of(alloc, b"trust-mark+jwt"),
        "status" => Text::of(alloc, b"trust-mark-status-response+jwt"),
        _ => Text::of(alloc, b"trust-mark-delegation+jwt"),
    }
}

// The claims, in which an at sign stands for the kept text.
fn with_kept(alloc: Global, claims: &str, kept: &Text) -> Result<Text, Memory> {
    let (front, back) = claims.split_once('@').unwrap_or((claims, ""));
    let mut text = Text::of(alloc, front.as_bytes())?;
    if front.len() < claims.len() {
        text.append(kept.as_slice())?;
    }
    text.append(back.as_bytes())?;
    Ok(text)
}

// The tree sealed, and no text where it can't be.
fn sealed_tree(alloc: Global, key: &str, word: &str, tree: &Json) -> Result<Text, Memory> {
    if !is_whole(tree) || !matches!(tree, Json::Object(_)) {
        return Ok(Text::new(alloc));
    }
    let typ = typ_of(alloc, word)?;
    sealed::seal(alloc, &key_named(key), &typ, tree)
}

/// `seal KEY TYPE CLAIMS`: the claims as a mark, a delegation or an answer on a status, sealed by this key.
pub(crate) fn seal(alloc: Global, given: &str, kept: &Text) -> Result<Text, Memory> {
    let (key, given) = cut(given);
    let (word, claims) = cut(given);
    let claims = with_kept(alloc, claims, kept)?;
    match read_tree(alloc, claims.as_slice()) {
        Ok(tree) => {
            let sealed = sealed_tree(alloc, key, word, &tree);
            drop(tree);
            sealed
        },
        Err(_) => Ok(Text::new(alloc)),
    }
}

/// `grow NUMBER`: the kept text with the letter A at its end, until it has so many bytes.
pub(crate) fn grown(alloc: Global, given: &str, kept: &Text) -> Result<Text, Memory> {
    let mut text = Text::of(alloc, kept.as_slice())?;
    let len: usize = given.parse().unwrap_or(0);
    for _ in text.len()..len {
        text.push(b'A')?;
    }
    Ok(text)
}
