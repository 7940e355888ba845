// The keys of a ring without their seeds.

ghost use Rattle.std.specs.Prelude.{◌≡◌, IfOk, map};
ghost use Rattle.key_ring.specs.Terms.{term_of};

use crate::held::HeldKey;
use crate::key::KeyState;
use fed_base::{Alg, Duplicate, Memory, Seq, Text};
use std::alloc::Global;

/// A key of a ring without its seeds.
#[derive(Drop)]
pub struct KeyTerm {
    /// The name: the thumbprint of the public key, 43 characters of base64url.
    pub kid: Text,
    /// The algorithm of its signatures.
    pub alg: Alg,
    /// When it was made, in seconds since 1970.
    pub iat: u64,
    /// When it ends, in seconds since 1970.
    pub exp: u64,
    pub state: KeyState,
}

/// The keys without their seeds, in their order.
pub(crate) fn terms_of(alloc: Global, keys: &[HeldKey]) -> Result<Seq<KeyTerm>, Memory>
    ensures { IfOk result (λ terms. terms ≡ map term_of keys.now) }
{
    let mut terms = Seq::new(alloc);
    for held in keys {
        terms.push(term_of(alloc, held)?)?;
    }
    Ok(terms)
}

fn term_of(alloc: Global, held: &HeldKey) -> Result<KeyTerm, Memory>
    ensures { IfOk result (λ term. term ≡ term_of held.now) }
{
    let key = held.key();
    Ok(KeyTerm {
        kid: held.kid().copy(alloc)?,
        alg: held.pair().alg(),
        iat: key.iat,
        exp: key.exp,
        state: key.state,
    })
}
