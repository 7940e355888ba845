// Texts that are sealed by keys of numbers.

use fed_base::{Alg, Memory, Text};
use fed_json::{Json, is_whole, read_tree};
use sealed::seal;
use slh_dsa::KeyPair;
use std::alloc::Global;

/// The key of a number.
#[derive(Clone, Copy)]
pub struct Signer {
    pub alg: Alg,
    /// Byte i of its 48 seeds is 48 times this and i, modulo 256.
    pub number: u8,
}

impl Signer {
    fn keys(self) -> KeyPair {
        let mut seeds = [0; 48];
        let mut next = self.number.wrapping_mul(48);
        for seed in seeds.iter_mut() {
            *seed = next;
            next = next.wrapping_add(1);
        }
        KeyPair::from_seeds(self.alg, &seeds)
    }
}

/// The claims of a statement, sealed by the key, or nothing where they are no JSON object of whole numbers.
pub fn sealed_claims(alloc: Global, signer: Signer, claims: &str) -> Result<Option<Text>, Memory> {
    match read_tree(alloc, claims.as_bytes()) {
        Ok(claims) => {
            let sealed = sealed_tree(alloc, signer, &claims);
            drop(claims);
            sealed
        }
        Err(_) => Ok(None),
    }
}

fn sealed_tree(alloc: Global, signer: Signer, claims: &Json) -> Result<Option<Text>, Memory> {
    if !is_whole(claims) || !matches!(claims, Json::Object(_)) {
        return Ok(None);
    }
    let typ = Text::of(alloc, b"entity-statement+jwt")?;
    Ok(Some(seal(alloc, &signer.keys(), &typ, claims)?))
}
