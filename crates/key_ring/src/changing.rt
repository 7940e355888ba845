// Changes of a ring. Each is kept in the store before the ring changes.

ghost use Rattle.std.specs.Prelude.{◌≡◌, ◌<◌, IfOk};
ghost use Rattle.fed_base.specs.Moments.{moment_limit};
ghost use Rattle.key_ring.specs.Changes.{add_key, kid_added, put_key, retire_key, revoke_key};
ghost use Rattle.key_ring.specs.Files.{IsWritten, ring_text};
ghost use Rattle.key_ring.specs.Keeping.{KeepsRing, Makes, standing};
ghost use Rattle.key_ring.specs.Rings.{IsRing, IsTimelyState, kid_of};

use crate::fault::{OrderFault, RingFault};
use crate::held::{HeldKey, behind, has_key, has_live, key_at, plain_keys, with_state};
use crate::key::{KeyState, RevokeReason, RingKey, fresh_key, may_follow};
use crate::ring::KeyRing;
use crate::writing::ring_text;
use fed_base::{Alg, Duplicate, Failed, Memory, Seq, Text};
use fed_ports::Store;
use std::alloc::Global;

// How many keys a ring has at most.
const MOST_KEYS: usize = 16;

impl KeyRing {
    /// Puts a new live key of that algorithm first, and answers its name, 43 characters of base64url. It is refused in this order:
    /// `Order(Exp)` where it would end no later than it begins, `Order(Full)` where the ring has 16 keys, `Known` where the key is in the
    /// ring.
    pub fn rotate<D: Store>(
        &mut self,
        alloc: Global,
        store: &mut D,
        name: &Text,
        alg: Alg,
        seeds: &[u8; 48],
        at: u64,
        exp: u64,
    ) -> Result<Text, RingFault>
        requires { exp < moment_limit }
        ensures made { Makes (standing self.old (D.files store.old) (D.store_faults store.old)) (add_key alg seeds.now at exp) name.now result
            (standing self.new (D.files store.new) (D.store_faults store.new)) }
        ensures kid { IfOk result (λ kid. kid ≡ kid_added alg seeds.now) }
    {
        if exp <= at {
            return Err(RingFault::Order(OrderFault::Exp));
        }
        if self.keys.len() >= MOST_KEYS {
            return Err(RingFault::Order(OrderFault::Full));
        }
        let (held, kid) = held_and_kid(alloc, &fresh_key(alg, *seeds, at, exp))?;
        if has_key(self.keys.as_slice(), kid.as_slice()) {
            // as one value, so that the proof doesn't follow each of its parts
            drop(held);
            return Err(RingFault::Known(kid));
        }
        let changed = behind(alloc, held, self.keys.as_slice())?;
        match self.keep(alloc, store, name, changed) {
            Ok(()) => Ok(kid),
            Err(fault) => Err(fault),
        }
    }

    /// Retires a live key: it signs no more, and what it signed stays good. It is refused in this order: `Unknown` where no key has the
    /// name, `Order(NotLive)` where the key isn't live, `Order(LastLive)` where no live key would remain.
    pub fn retire<D: Store>(
        &mut self,
        alloc: Global,
        store: &mut D,
        name: &Text,
        kid: &Text,
    ) -> Result<(), RingFault>
        ensures { Makes (standing self.old (D.files store.old) (D.store_faults store.old)) (retire_key kid.now) name.now result
            (standing self.new (D.files store.new) (D.store_faults store.new)) }
    {
        self.put(alloc, store, name, kid, KeyState::Retired)
    }

    /// Revokes a live or a retired key: it signs no more, and what it signed isn't to be trusted. It is refused in this order: `Unknown`
    /// where no key has the name, `Order(NotLive)` where the key is revoked already, `Order(LastLive)` where no live key would remain.
    pub fn revoke<D: Store>(
        &mut self,
        alloc: Global,
        store: &mut D,
        name: &Text,
        kid: &Text,
        at: u64,
        reason: RevokeReason,
    ) -> Result<(), RingFault>
        requires { at < moment_limit }
        ensures { Makes (standing self.old (D.files store.old) (D.store_faults store.old)) (revoke_key kid.now at reason) name.now result
            (standing self.new (D.files store.new) (D.store_faults store.new)) }
    {
        self.put(alloc, store, name, kid, KeyState::Revoked { at, reason })
    }

    // Puts the key of that name in another state.
    fn put<D: Store>(
        &mut self,
        alloc: Global,
        store: &mut D,
        name: &Text,
        kid: &Text,
        state: KeyState,
    ) -> Result<(), RingFault>
        requires { IsTimelyState state }
        ensures { Makes (standing self.old (D.files store.old) (D.store_faults store.old)) (put_key kid.now state) name.now result
            (standing self.new (D.files store.new) (D.store_faults store.new)) }
    {
        let Some(held) = key_at(self.keys.as_slice(), kid.as_slice()) else {
            return Err(RingFault::Unknown(kid.copy(alloc)?));
        };
        if !may_follow(state, held.key().state) {
            return Err(RingFault::Order(OrderFault::NotLive));
        }
        let changed = with_state(alloc, self.keys.as_slice(), kid.as_slice(), state)?;
        if !has_live(changed.as_slice()) {
            return Err(RingFault::Order(OrderFault::LastLive));
        }
        self.keep(alloc, store, name, changed)
    }

    // Keeps the ring of these keys under the name, and then is that ring.
    fn keep<D: Store>(
        &mut self,
        alloc: Global,
        store: &mut D,
        name: &Text,
        keys: Seq<HeldKey>,
    ) -> Result<(), RingFault>
        requires { IsRing keys }
        ensures { KeepsRing (standing self.old (D.files store.old) (D.store_faults store.old)) keys name.now result
            (standing self.new (D.files store.new) (D.store_faults store.new)) }
    {
        let text = file_of(alloc, keys.as_slice())?;
        match store.keep(name, text.as_slice()) {
            Ok(()) => {
                self.keys = keys;
                Ok(())
            },
            Err(Failed) => Err(RingFault::StoreFault),
        }
    }
}

// The key with what is computed of it, and a copy of its name.
fn held_and_kid(alloc: Global, key: &RingKey) -> Result<(HeldKey, Text), Memory>
    ensures { IfOk result (λ both. (both.0 ≡ key.now) × (both.1 ≡ kid_of both.0)) }
{
    let held = HeldKey::new(alloc, key)?;
    let kid = held.kid().copy(alloc)?;
    Ok((held, kid))
}

// The text of the file of a ring of these keys.
fn file_of(alloc: Global, keys: &[HeldKey]) -> Result<Text, Memory>
    requires { IsRing keys.now }
    ensures text { IfOk result (λ text. text ≡ ring_text keys.now) }
    ensures written { IfOk result (λ text. IsWritten text keys.now) }
{
    let plain = plain_keys(alloc, keys)?;
    ring_text(alloc, plain.as_slice())
}
