// Rings of keys.

ghost use Rattle.std.specs.Prelude.{◌≡◌, IfOk, Some, map};
ghost use Rattle.fed_json.specs.Forms.{IsWhole};
ghost use Rattle.fed_json.specs.declared.tree.Json.{List as ListOf};
ghost use Rattle.key_ring.specs.Files.{Joins, Opens, OpensKeys};
ghost use Rattle.key_ring.specs.Rings.{HasForm};
ghost use Rattle.key_ring.specs.Sets.{IsNamedIn, historical_keys, kept_set, live_set, signer_keys};
ghost use Rattle.key_ring.specs.Terms.{term_of};

use crate::fault::RingFault;
use crate::held::{HeldKey, first_live, has_key};
use crate::key::RingKey;
use crate::reading::read_keys;
use crate::sets::{historical_keys, own_keys};
use crate::term::{KeyTerm, terms_of};
use fed_base::{Duplicate, Memory, Seq};
use fed_json::Json;
use jwk_set::JwkSet;
use slh_dsa::KeyPair;
use std::alloc::Global;
use std::marker::Model;

/// The signing keys of a node, newest first: 1 to 16, of which one at least is live and no two have one name.
#[derive(Drop)]
pub struct KeyRing {
    pub(crate) keys: Seq<HeldKey>,
}

impl Model for KeyRing {
    ghost use Rattle.key_ring.specs.Rings.{IsRing, Ring};

    ghost Value = { Ring };

    ghost view = { λ ring. ring.keys };

    ghost invariant = { λ ring. IsRing ring.keys };
}

impl KeyRing {
    /// The ring of a file, a JSON text. `Shape` where the file isn't that of a ring, and `Known` where a key has the name of an earlier
    /// one. It computes the root of each key, which takes a tenth of a second a key, and none where the file is refused as `Shape`.
    pub fn open(alloc: Global, file: &[u8]) -> Result<KeyRing, RingFault>
        ensures { Opens file.now result }
    {
        let Some(keys) = read_keys(alloc, file)? else {
            return Err(RingFault::Shape);
        };
        open_keys(alloc, keys.as_slice())
    }

    /// The newest live key, which signs. Each ring has one.
    pub fn signer(&self) -> &KeyPair
        ensures { signer_keys self.now ≡ Some result.now }
    {
        match first_live(self.keys.as_slice()) {
            Some(held) => held.pair(),
            None => unreachable!(),
        }
    }

    /// The live keys, in ring order, by their names and algorithms. The signer is one of them, so each text that it seals is sealed by
    /// this set.
    pub fn live_set(&self, alloc: Global) -> Result<JwkSet, Memory>
        ensures keys { IfOk result (λ set. set.keys ≡ live_set self.now) }
        ensures signer { IfOk result (λ set. IsNamedIn (signer_keys self.now) set.keys) }
    {
        let keys = own_keys(alloc, self.keys.as_slice(), false)?;
        Ok(JwkSet { keys })
    }

    /// The live and the retired keys, in ring order: those whose signatures are good.
    pub fn kept_set(&self, alloc: Global) -> Result<JwkSet, Memory>
        ensures { IfOk result (λ set. set.keys ≡ kept_set self.now) }
    {
        let keys = own_keys(alloc, self.keys.as_slice(), true)?;
        Ok(JwkSet { keys })
    }

    /// The retired and the revoked keys, in ring order, as the list `keys` of a historical set (OpenID Federation 1.0 section 8.7.2):
    /// objects with `alg`, `exp`, `kid`, `kty` and `pub`, and `revoked` where the key was revoked.
    pub fn historical(&self, alloc: Global) -> Result<Json, Memory>
        ensures tree { IfOk result (λ tree. tree ≡ ListOf (historical_keys self.now)) }
        ensures whole { IfOk result IsWhole }
    {
        historical_keys(alloc, self.keys.as_slice())
    }

    /// The keys without their seeds, newest first.
    pub fn terms(&self, alloc: Global) -> Result<Seq<KeyTerm>, Memory>
        ensures { IfOk result (λ terms. terms ≡ map term_of self.now) }
    {
        terms_of(alloc, self.keys.as_slice())
    }
}

// The ring of these keys.
fn open_keys(alloc: Global, keys: &[RingKey]) -> Result<KeyRing, RingFault>
    requires { HasForm keys.now }
    ensures { OpensKeys keys.now result }
{
    let mut held = Seq::new(alloc);
    for key in keys {
        add_held(alloc, &mut held, key)?;
    }
    Ok(KeyRing { keys: held })
}

// Adds a key, where no earlier one has its name.
fn add_held(alloc: Global, held: &mut Seq<HeldKey>, key: &RingKey) -> Result<(), RingFault>
    ensures { Joins held.old key.now result held.new }
{
    let next = HeldKey::new(alloc, key)?;
    if has_key(held.as_slice(), next.kid().as_slice()) {
        return Err(RingFault::Known(next.kid().copy(alloc)?));
    }
    held.push(next)?;
    Ok(())
}
