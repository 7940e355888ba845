// The parts of a compact text.

use fed_base::{Alg, Duplicate, Memory, Text};
use std::alloc::Global;

/// A compact text, taken apart (RFC 7515 section 5.2).
#[derive(Drop)]
pub struct Compact {
    /// The text itself, at most 262,144 bytes.
    pub whole: Text,
    /// The algorithm that the header's `alg` names.
    pub alg: Alg,
    /// The header's `typ`, UTF-8.
    pub typ: Option<Text>,
    /// The header's `kid`, UTF-8, which names the key that signed.
    pub kid: Option<Text>,
    /// The payload's bytes.
    pub payload: Text,
    /// What the signature is over: the text up to its second full stop, without it.
    pub signed: Text,
    /// The signature's bytes.
    pub signature: Text,
}

impl Duplicate for Compact {
    fn copy(&self, alloc: Global) -> Result<Self, Memory> {
        Ok(Compact {
            whole: self.whole.copy(alloc)?,
            alg: self.alg,
            typ: self.typ.copy(alloc)?,
            kid: self.kid.copy(alloc)?,
            payload: self.payload.copy(alloc)?,
            signed: self.signed.copy(alloc)?,
            signature: self.signature.copy(alloc)?,
        })
    }
}
