// Signed texts, kept under names.

use crate::words::{at, number};
use fed_base::{Alg, Memory, Seq, Text};
use fed_json::{Json, is_whole, read_tree};
use slh_dsa::KeyPair;
use std::alloc::Global;

#[derive(Drop)]
struct Named {
    name: Text,
    text: Text,
}

/// The texts that rows keep.
#[derive(Drop)]
pub(crate) struct Texts {
    named: Seq<Named>,
}

impl Texts {
    pub(crate) fn new(alloc: Global) -> Texts {
        Texts {
            named: Seq::new(alloc),
        }
    }

    fn keep(&mut self, alloc: Global, name: &str, text: Text) -> Result<Text, Memory> {
        let name = Text::of(alloc, name.as_bytes())?;
        self.named.push(Named { name, text })?;
        Text::of(alloc, b"kept")
    }

    /// The text of that name, and no byte where there is none.
    pub(crate) fn named(&self, name: &str) -> &[u8] {
        match self
            .named
            .as_slice()
            .iter()
            .find(|named| named.name.as_slice() == name.as_bytes())
        {
            Some(named) => named.text.as_slice(),
            None => b"",
        }
    }
}

/// The key of a word: a number, and behind it an `f` where its algorithm is SLH-DSA-SHA2-128f. Its seeds are 48 bytes that rise by one,
/// from 48 times its number on, modulo 256.
pub(crate) fn key(word: &str) -> KeyPair {
    let (digits, alg) = match word.strip_suffix('f') {
        Some(digits) => (digits, Alg::Fast),
        None => (word, Alg::Small),
    };
    let mut seeds = [0; 48];
    let mut next = u8::try_from(number(digits)).unwrap_or(0).wrapping_mul(48);
    for seed in seeds.iter_mut() {
        *seed = next;
        next = next.wrapping_add(1);
    }
    KeyPair::from_seeds(alg, &seeds)
}

// The tree sealed as an entity statement, and no byte where it can't be.
fn sealed(alloc: Global, keys: &KeyPair, tree: &Json) -> Result<Text, Memory> {
    if !is_whole(tree) || !matches!(tree, Json::Object(_)) {
        return Ok(Text::new(alloc));
    }
    let typ = Text::of(alloc, b"entity-statement+jwt")?;
    sealed::seal(alloc, keys, &typ, tree)
}

// The claims sealed.
fn sealed_claims(alloc: Global, keys: &KeyPair, claims: &[u8]) -> Result<Text, Memory> {
    match read_tree(alloc, claims) {
        Ok(tree) => {
            let text = sealed(alloc, keys, &tree);
            drop(tree);
            text
        },
        Err(_) => Ok(Text::new(alloc)),
    }
}

/// `seal NAME KEY CLAIMS`: keeps the claims, sealed by that key.
pub(crate) fn seal(alloc: Global, texts: &mut Texts, row: &str) -> Result<Text, Memory> {
    let keys = key(at(row, 2));
    let text = sealed_claims(alloc, &keys, at(row, 3).as_bytes())?;
    texts.keep(alloc, at(row, 1), text)
}

/// `spoil NAME OTHER`: keeps the other text with another last character.
pub(crate) fn spoil(alloc: Global, texts: &mut Texts, row: &str) -> Result<Text, Memory> {
    let mut text = Text::of(alloc, texts.named(at(row, 2)))?;
    let last = match text.pop() {
        Some(b'A') => b'E',
        _ => b'A',
    };
    text.push(last)?;
    texts.keep(alloc, at(row, 1), text)
}
