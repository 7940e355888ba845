// The answers of `rotate`.

ghost use Rattle.std.specs.Prelude.{◌≡◌, ◌++◌, ◌∷◌, [], codes, IfOk, List, ℕ, Some};
ghost use Rattle.std.specs.Option.{option_copied};
ghost use Rattle.key_ring.specs.Changes.{add_key, kid_added, retire_key, revoke_key};
ghost use Rattle.cli_rings.specs.Rotations.{IsRefusedAs, add_reply, change_reply};

use crate::reply::{Reply, plain};
use cli_words::Moment;
use fed_ports::{Alg, Memory, MemoryStore, Seq, Text};
use file_notes::{explain_change, explain_seeds, warn_of_key_end, warn_of_seeds};
use hex::FromHex;
use key_ring::{KeyRing, RevokeReason, RingFault};
use plain_notes::Notes;
use ring_faults::{is_one_byte, seeds_fault};
use std::alloc::Global;

// The room for a ring's file, in bytes: 16 keys have less than half of it.
const ROOM: usize = 8192;

// A change is made over a store in memory. The file that it leaves there is the reply's, and is kept as every reply's is.
fn blank_store(alloc: Global) -> Result<MemoryStore, Memory> {
    MemoryStore::new(alloc, Seq::new(alloc), ROOM, false, &[], 1)
}

/// The name of the key of that algorithm and the seeds in the input, which is added to the ring for these moments.
#[tactic(auto, unfolding(crate::specs::Rotations::add_reply))]
pub fn add(
    alloc: Global,
    ring: KeyRing,
    alg: Alg,
    at: Moment,
    exp: Moment,
    input: &[u8],
    notes: &mut Notes,
) -> Result<Reply, Memory>
    ensures { IfOk result (λ reply. reply ≡ add_reply ring alg at exp input.now) }
{
    match <[u8; 48]>::from_hex(input) {
        Ok(seeds) => add_key(alloc, ring, alg, &seeds, at, exp, notes),
        Err(_) => {
            explain_seeds(alloc, seeds_fault(input), notes);
            plain(alloc, 2, b"input\n")
        }
    }
}

fn add_key(
    alloc: Global,
    mut ring: KeyRing,
    alg: Alg,
    seeds: &[u8; 48],
    at: Moment,
    exp: Moment,
    notes: &mut Notes,
) -> Result<Reply, Memory>
    ensures { IfOk result (λ reply. reply ≡ change_reply ring (add_key alg seeds.now at exp) (kid_added alg seeds.now)) }
{
    let mut store = blank_store(alloc)?;
    let name = Text::new(alloc);
    match ring.rotate(
        alloc,
        &mut store,
        &name,
        alg,
        seeds,
        at.seconds(),
        exp.seconds(),
    ) {
        Ok(kid) => {
            if is_one_byte(seeds) {
                warn_of_seeds(alloc, notes);
            }
            warn_of_key_end(alloc, exp.seconds(), notes);
            changed(alloc, kid, store.file(b""))
        }
        Err(fault) => refused(alloc, &fault, notes),
    }
}

/// The reply where the key of that name retires.
pub fn retire(
    alloc: Global,
    mut ring: KeyRing,
    kid: &Text,
    notes: &mut Notes,
) -> Result<Reply, Memory>
    ensures { IfOk result (λ reply. reply ≡ change_reply ring (retire_key kid.now) (codes "done")) }
{
    let mut store = blank_store(alloc)?;
    let name = Text::new(alloc);
    let made = ring.retire(alloc, &mut store, &name, kid);
    drop(ring);
    match made {
        Ok(()) => done(alloc, store.file(b"")),
        Err(fault) => refused(alloc, &fault, notes),
    }
}

/// The reply where the key of that name is revoked.
pub fn revoke(
    alloc: Global,
    mut ring: KeyRing,
    kid: &Text,
    at: Moment,
    reason: RevokeReason,
    notes: &mut Notes,
) -> Result<Reply, Memory>
    ensures { IfOk result (λ reply. reply ≡ change_reply ring (revoke_key kid.now at reason) (codes "done")) }
{
    let mut store = blank_store(alloc)?;
    let name = Text::new(alloc);
    let made = ring.revoke(alloc, &mut store, &name, kid, at.seconds(), reason);
    drop(ring);
    match made {
        Ok(()) => done(alloc, store.file(b"")),
        Err(fault) => refused(alloc, &fault, notes),
    }
}

// The reply of a change that has no name to tell.
fn done(alloc: Global, file: Option<&[u8]>) -> Result<Reply, Memory>
    ensures { IfOk result (λ reply. (bytes : List ℕ) → option_copied file.entry ≡ Some bytes → reply ≡ record { status = 0; text = codes "done" ++ 10 ∷ []; kept = Some bytes }) }
{
    changed(alloc, Text::of(alloc, b"done")?, file)
}

// The line, and the file that was kept.
fn changed(alloc: Global, mut line: Text, file: Option<&[u8]>) -> Result<Reply, Memory>
    ensures { IfOk result (λ reply. (bytes : List ℕ) → option_copied file.entry ≡ Some bytes → reply ≡ record { status = 0; text = line ++ 10 ∷ []; kept = Some bytes }) }
{
    line.push(b'\n')?;
    let Some(bytes) = file else {
        return Err(Memory);
    };
    Ok(Reply {
        status: 0,
        text: line,
        kept: Some(Text::of(alloc, bytes)?),
    })
}

// The refusal of a change. The store has room for its one file, so the store's fault is want of memory.
fn refused(alloc: Global, fault: &RingFault, notes: &mut Notes) -> Result<Reply, Memory>
    ensures { IfOk result (IsRefusedAs fault.now) }
{
    explain_change(alloc, fault, notes);
    match fault {
        RingFault::Known(_) => plain(alloc, 1, b"refused Known\n"),
        RingFault::Unknown(_) => plain(alloc, 1, b"refused Unknown\n"),
        RingFault::Order(_) => plain(alloc, 1, b"refused Order\n"),
        RingFault::Shape | RingFault::StoreFault | RingFault::Memory => Err(Memory),
    }
}
