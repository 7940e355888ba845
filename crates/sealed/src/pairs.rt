// A text and a key, tested.

ghost use Rattle.std.specs.Prelude.{◌≡◌, IfOk};
ghost use Rattle.jws_form.specs.declared.compact.Compact.{Compact};
ghost use Rattle.jws_form.specs.Compact.{IsCompact};
ghost use Rattle.slh_dsa.specs.Verifying.{Verifies};
ghost use Rattle.sealed.specs.Seals.{Pair, pair_of, IsSealed, IsUnsealed};

use fed_base::{Duplicate, Memory, Text};
use std::alloc::Global;
use std::marker::Model;

/// A signed text and a public key under which it verifies.
#[derive(Drop)]
pub struct Sealed {
    text: Text,
    public: [u8; 32],
}

impl Model for Sealed {
    ghost Value = { Pair };

    ghost view = { λ pair. pair_of pair.text pair.public };

    ghost invariant = { λ pair. IsSealed (pair_of pair.text pair.public) };
}

impl Sealed {
    /// The pair of a text and a key under which it is known to verify. No signature is checked.
    pub fn known(alloc: Global, text: &Text, public: [u8; 32]) -> Result<Sealed, Memory>
        requires { IsSealed (pair_of text.now public) }
        ensures { IfOk result (λ pair. pair ≡ pair_of text.now public) }
    {
        Ok(Sealed::of(text.copy(alloc)?, public))
    }

    /// The pair of a text that is moved and a key under which it verifies.
    pub(crate) fn of(text: Text, public: [u8; 32]) -> Sealed
        requires { IsSealed (pair_of text public) }
        ensures { result ≡ pair_of text public }
    {
        Sealed { text, public }
    }

    /// The text. It verifies under the key, whichever way it is taken apart.
    pub fn text(&self) -> &Text
        ensures text { result.now ≡ self.now.text }
        ensures sealed { IsSealed self.now }
        ensures verifies { (c : Compact) → IsCompact self.now.text c
            → Verifies c.alg self.now.public c.signed c.signature }
    {
        &self.text
    }

    /// The key: PK.seed and PK.root.
    pub fn public(&self) -> [u8; 32]
        ensures public { result ≡ self.now.public }
        ensures sealed { IsSealed self.now }
    {
        self.public
    }
}

impl Duplicate for Sealed {
    fn copy(&self, alloc: Global) -> Result<Self, Memory> {
        Ok(Sealed::of(self.text.copy(alloc)?, self.public))
    }
}

/// A signed text and a public key under which it doesn't verify.
#[derive(Drop)]
pub struct Unsealed {
    text: Text,
    public: [u8; 32],
}

impl Model for Unsealed {
    ghost Value = { Pair };

    ghost view = { λ pair. pair_of pair.text pair.public };

    ghost invariant = { λ pair. IsUnsealed (pair_of pair.text pair.public) };
}

impl Unsealed {
    /// The pair of a text that is moved and a key under which it doesn't verify.
    pub(crate) fn of(text: Text, public: [u8; 32]) -> Unsealed
        requires { IsUnsealed (pair_of text public) }
        ensures { result ≡ pair_of text public }
    {
        Unsealed { text, public }
    }

    /// The text. It doesn't verify under the key, whichever way it is taken apart.
    pub fn text(&self) -> &Text
        ensures text { result.now ≡ self.now.text }
        ensures unsealed { IsUnsealed self.now }
        ensures fails { (c : Compact) → IsCompact self.now.text c
            → ¬ Verifies c.alg self.now.public c.signed c.signature }
    {
        &self.text
    }

    /// The key: PK.seed and PK.root.
    pub fn public(&self) -> [u8; 32]
        ensures public { result ≡ self.now.public }
        ensures unsealed { IsUnsealed self.now }
    {
        self.public
    }
}

impl Duplicate for Unsealed {
    fn copy(&self, alloc: Global) -> Result<Self, Memory> {
        Ok(Unsealed::of(self.text.copy(alloc)?, self.public))
    }
}
