// The keys of a ring with their public halves and names.

ghost use Rattle.std.specs.Prelude.{◌≡◌, IfOk, find, map, ◌∷◌, if◌then◌else◌};
ghost use Rattle.std.specs.Option.{option_copied};
ghost use Rattle.key_ring.specs.Changes.{with_state};
ghost use Rattle.key_ring.specs.Rings.{has_key, has_live, is_live, is_named, key_at, kid_of, pair_in, public_of};

use crate::key::{KeyState, RingKey, is_live_state};
use fed_base::{Duplicate, Memory, Seq, Text};
use jwk_set::thumbprint;
use slh_dsa::KeyPair;
use std::alloc::Global;
use std::marker::Model;

/// A key with what is computed of its seeds, once.
#[derive(Drop)]
pub struct HeldKey {
    key: RingKey,
    pair: KeyPair,
    kid: Text,
}

impl Model for HeldKey {
    ghost use Rattle.std.specs.Prelude.{◌≡◌};
    ghost use Rattle.key_ring.specs.declared.key.RingKey.{RingKey as Plain};
    ghost use Rattle.key_ring.specs.Rings.{kid_of, pair_in};

    ghost Value = { Plain };

    ghost view = { λ held. held.key };

    ghost invariant = { λ held. (held.pair ≡ pair_in held.key) × (held.kid ≡ kid_of held.key) };
}

impl HeldKey {
    /// The key with its root, which takes a tenth of a second for a key of SLH-DSA-SHA2-128s, and its name.
    #[tactic(auto, unfolding(sealed::specs::Sealing::signer_name))]
    pub fn new(alloc: Global, key: &RingKey) -> Result<HeldKey, Memory>
        ensures { IfOk result (λ held. held ≡ key.now) }
    {
        let pair = KeyPair::from_seeds(key.alg, &key.seeds);
        let kid = thumbprint(alloc, pair.alg(), &pair.public())?;
        Ok(HeldKey {
            key: *key,
            pair,
            kid,
        })
    }

    /// The key as its file has it.
    pub fn key(&self) -> RingKey
        ensures { result ≡ self.now }
    {
        self.key
    }

    /// The key pair.
    pub fn pair(&self) -> &KeyPair
        ensures { result.now ≡ pair_in self.now }
    {
        &self.pair
    }

    /// The name: the thumbprint of the public key.
    pub fn kid(&self) -> &Text
        ensures { result.now ≡ kid_of self.now }
    {
        &self.kid
    }

    /// The public key.
    pub fn public(&self) -> [u8; 32]
        ensures { result ≡ public_of self.now }
    {
        self.pair.public()
    }

    /// Whether the key has that name.
    pub fn is_named(&self, kid: &[u8]) -> bool
        ensures { result ≡ is_named kid.now self.now }
    {
        kid == self.kid.as_slice()
    }

    /// Whether the key signs.
    pub fn is_live(&self) -> bool
        ensures { result ≡ is_live self.now }
    {
        is_live_state(self.key.state)
    }

    // The same key, in that state where it has that name.
    fn with_state(&self, alloc: Global, kid: &[u8], state: KeyState) -> Result<HeldKey, Memory>
        ensures { IfOk result (λ held. held ≡ with_state kid.now state self.now) }
    {
        let named = self.is_named(kid);
        Ok(HeldKey {
            key: RingKey {
                alg: self.key.alg,
                seeds: self.key.seeds,
                iat: self.key.iat,
                exp: self.key.exp,
                state: state_if(named, state, self.key.state),
            },
            pair: self.pair.twin(),
            kid: self.kid.copy(alloc)?,
        })
    }
}

impl Duplicate for HeldKey {
    fn copy(&self, alloc: Global) -> Result<Self, Memory> {
        Ok(HeldKey {
            key: self.key,
            pair: self.pair.twin(),
            kid: self.kid.copy(alloc)?,
        })
    }
}

// The new state where the key is named, and the old one where it isn't.
fn state_if(named: bool, new: KeyState, old: KeyState) -> KeyState
    ensures { result ≡ (if named then new else old) }
{
    if named { new } else { old }
}

/// The key of that name, where there is one.
pub fn key_at<'a>(keys: &'a [HeldKey], kid: &[u8]) -> Option<&'a HeldKey>
    ensures { option_copied result ≡ key_at kid.now keys.now }
{
    keys.iter().find(|key| key.is_named(kid))
}

/// Whether a key has that name.
pub fn has_key(keys: &[HeldKey], kid: &[u8]) -> bool
    ensures { result ≡ has_key kid.now keys.now }
{
    keys.iter().any(|key| key.is_named(kid))
}

/// The newest key that signs.
pub fn first_live(keys: &[HeldKey]) -> Option<&HeldKey>
    ensures { option_copied result ≡ find is_live keys.now }
{
    keys.iter().find(|key| key.is_live())
}

/// Whether a key signs.
pub fn has_live(keys: &[HeldKey]) -> bool
    ensures { result ≡ has_live keys.now }
{
    keys.iter().any(|key| key.is_live())
}

/// The keys behind a new one.
pub fn behind(alloc: Global, first: HeldKey, keys: &[HeldKey]) -> Result<Seq<HeldKey>, Memory>
    ensures { IfOk result (λ changed. changed ≡ first ∷ keys.now) }
{
    let mut changed = Seq::new(alloc);
    changed.push(first)?;
    for key in keys {
        changed.push(key.copy(alloc)?)?;
    }
    Ok(changed)
}

/// The keys, where the one of that name is in that state.
pub fn with_state(
    alloc: Global,
    keys: &[HeldKey],
    kid: &[u8],
    state: KeyState,
) -> Result<Seq<HeldKey>, Memory>
    ensures { IfOk result (λ changed. changed ≡ map (with_state kid.now state) keys.now) }
{
    let mut changed = Seq::new(alloc);
    for key in keys {
        changed.push(key.with_state(alloc, kid, state)?)?;
    }
    Ok(changed)
}

/// The keys as their file has them.
pub fn plain_keys(alloc: Global, keys: &[HeldKey]) -> Result<Seq<RingKey>, Memory>
    ensures { IfOk result (λ plain. plain ≡ keys.now) }
{
    let mut plain = Seq::new(alloc);
    for key in keys {
        plain.push(key.key())?;
    }
    Ok(plain)
}
