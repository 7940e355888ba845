// The keys of a rehearsal's entities.

ghost use Rattle.std.specs.Prelude.{◌≡◌, ◌+◌, ◌<◌, IfOk, Ok};
ghost use Rattle.fed_base.specs.declared.algorithm.Alg.TheVariants.{Small};
ghost use Rattle.key_ring.specs.declared.fault.RingFault.TheVariants.{Memory as WantOfMemory};
ghost use Rattle.key_ring.specs.Files.{IsFirstFile};
ghost use Rattle.rehearsal.specs.Keys.{ring_of, seeds_of, set_text};
ghost use Rattle.rehearsal.specs.Moments.{lifetime, moment};

use crate::clock::{LIFETIME, MOMENT};
use fed_base::{Alg, Memory, Text};
use fed_json::write_tree;
use key_ring::{KeyRing, RingFault, first_file};
use std::alloc::Global;

// The seeds of the key of a number: 48 numbers in a row.
#[tactic(auto, unfolding(crate::specs::Keys::seeds_of, crate::specs::Keys::numbers_from))]
fn seeds_of(key: u8) -> [u8; 48]
    requires { key < 5 }
    ensures { result ≡ seeds_of key }
{
    let mut seeds = [0u8; 48];
    for at in 0..48 {
        seeds[at] = 48 * key + at as u8;
    }
    seeds
}

/// The ring of the key of a number. Its root is computed, which takes a tenth of a second.
pub(crate) fn ring_of(alloc: Global, key: u8) -> Result<KeyRing, Memory>
    requires { key < 5 }
    ensures { IfOk result (λ ring. ring ≡ ring_of key) }
{
    match first_file(alloc, Alg::Small, &seeds_of(key), MOMENT, MOMENT + LIFETIME) {
        Ok(file) => open_first(alloc, key, &file),
        Err(fault) => Err(wanting(&fault)),
    }
}

// The ring of a first file.
fn open_first(alloc: Global, key: u8, file: &Text) -> Result<KeyRing, Memory>
    requires { IsFirstFile Small (seeds_of key) moment (moment + lifetime) (Ok file.now) }
    ensures { IfOk result (λ ring. ring ≡ ring_of key) }
{
    match KeyRing::open(alloc, file.as_slice()) {
        Ok(ring) => Ok(ring),
        Err(fault) => Err(wanting(&fault)),
    }
}

// A new ring has no other fault than that memory was wanting.
fn wanting(_fault: &RingFault) -> Memory
    requires { _fault.now ≡ WantOfMemory }
{
    Memory
}

/// The key set that is published of a ring, as JSON.
#[tactic(auto, unfolding(crate::specs::Keys::set_text))]
pub(crate) fn set_text(alloc: Global, ring: &KeyRing) -> Result<Text, Memory>
    ensures { IfOk result (λ text. text ≡ set_text ring.now) }
{
    let set = ring.live_set(alloc)?;
    let tree = set.write(alloc)?;
    write_tree(alloc, &tree)
}
